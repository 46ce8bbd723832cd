//! The configured banks, and where their bytes are in the one buffer that holds them.

ghost use Rattle.std.specs.Prelude.{◌≡◌, ◌+◌, ◌<◌, ◌≤◌, ◌*◌, ◌^◌, ◌≢◌, ℕ, [], All, Contains, IsTrue, IfOk, IfErr, OnOk, MatchOption, length, slice_index, false};
ghost use Rattle.iigs_meaning.specs.Banks.{AreDistinctTo, IsFirstTwice, IsBanksRefusal};
ghost use Rattle.iigs_places.specs.Offsets.{bytes_below, offset_of, is_named as names};
ghost use Rattle.iigs_places.specs.Sizes.{free_below};

use crate::open::free_bytes;
use iigs_meaning::BanksFault;
use std::alloc::{AllocError, Global};
use std::marker::Model;

/// How many bytes a bank has.
pub const BANK: u32 = 0x10000;

/// The configured banks, as they were named.
#[derive(Drop)]
pub struct BankMap {
    numbers: Vec<u8>,
    // For each bank from 0 to 256, how many bytes the configured banks below it have.
    starts: Vec<u32>,
}

impl Model for BankMap {
    ghost use Rattle.std.specs.Prelude.{List, ℕ};

    ghost Value = { List ℕ };

    ghost use Rattle.iigs_places.specs.Offsets.{IsMapOf};

    ghost view = { λ m. m.numbers.items };

    ghost invariant = { λ m. IsMapOf m.numbers.items m.starts.items };
}

// Whether the bank is named.
fn is_named(banks: &[u8], bank: u8) -> bool
    ensures { result ≡ names banks.now bank }
{
    banks.iter().any(|other| bank == *other)
}

// Whether the bank at a place is in the list before it too.
fn stands_before(banks: &[u8], place: usize) -> bool
    requires { place < length banks.now }
    ensures yes { IsTrue result → (k : ℕ) × (k < place) × (slice_index banks.now k ≡ slice_index banks.now place) }
    ensures no { result ≡ false → (k : ℕ) → k < place → slice_index banks.now k ≢ slice_index banks.now place }
{
    for k in 0..place {
        if banks[k] == banks[place] {
            return true;
        }
    }
    false
}

// The first bank that is named again.
fn first_twice(banks: &[u8]) -> Option<u8>
    ensures { MatchOption result (AreDistinctTo (length banks.now) banks.now) (IsFirstTwice banks.now) }
{
    for place in 0..banks.len() {
        if stands_before(banks, place) {
            return Some(banks[place]);
        }
    }
    None
}

// The bytes of the configured banks below the next bank.
fn next_start(banks: &[u8], bank: u32, start: u32) -> u32
    requires bank { bank < 256 }
    requires start { start ≡ bytes_below banks.now bank }
    ensures { result ≡ bytes_below banks.now (bank + 1) }
{
    if is_named(banks, bank as u8) {
        return start + BANK;
    }
    start
}

// The free bytes of the configured banks below the next bank.
fn next_free(banks: &[u8], bank: u32, total: u32) -> u32
    requires bank { bank < 256 }
    requires total { total ≡ free_below banks.now bank }
    requires small { total ≤ 0x10000 * bank }
    ensures value { result ≡ free_below banks.now (bank + 1) }
    ensures small { result ≤ 0x10000 * (bank + 1) }
{
    if is_named(banks, bank as u8) {
        return total + free_bytes(bank);
    }
    total
}

// For each bank from 0 to 256 the bytes of the configured banks below it.
fn starts_of(alloc: Global, banks: &[u8]) -> Result<Vec<u32>, AllocError>
    ensures size { IfOk result (λ starts. length starts.items ≡ 257) }
    ensures sums { IfOk result (λ starts. (bank : ℕ) → bank ≤ 256 → slice_index starts.items bank ≡ bytes_below banks.now bank) }
{
    let mut starts = Vec::with_capacity(alloc, 257)?;
    let mut start = 0;
    for bank in 0..256u32 {
        starts.push(start)?;
        start = next_start(banks, bank, start);
    }
    starts.push(start)?;
    Ok(starts)
}

impl BankMap {
    /// The banks with these numbers.
    pub fn new(alloc: Global, banks: &[u8]) -> Result<BankMap, BanksFault>
        ensures banks { IfOk result (λ map. map ≡ banks.now) }
        ensures small { IfOk result (λ map. All (λ bank. bank < 256) map) }
        ensures some { OnOk result (banks.now ≢ []) }
        ensures distinct { OnOk result (AreDistinctTo (length banks.now) banks.now) }
        ensures refused { IfErr result (IsBanksRefusal banks.now) }
    {
        if banks.is_empty() {
            return Err(BanksFault::NoBanks);
        }
        if let Some(bank) = first_twice(banks) {
            return Err(BanksFault::BankTwice(bank));
        }
        let numbers = match Vec::from_slice(alloc, banks) {
            Ok(numbers) => numbers,
            Err(_) => return Err(BanksFault::Memory),
        };
        let starts = match starts_of(alloc, banks) {
            Ok(starts) => starts,
            Err(_) => return Err(BanksFault::Memory),
        };
        Ok(BankMap { numbers, starts })
    }

    /// How many bytes the configured banks have.
    pub fn size(&self) -> usize
        ensures { result ≡ bytes_below self.now 256 }
    {
        self.start_of(256) as usize
    }

    // How many bytes the configured banks below this one have.
    fn start_of(&self, bank: u32) -> u32
        requires { bank ≤ 256 }
        ensures value { result ≡ bytes_below self.now bank }
        ensures small { result ≤ 0x10000 * bank }
    {
        self.starts[bank as usize]
    }

    /// The number of addresses that banks can have.
    pub fn limit(&self) -> u32
        ensures value { result ≡ 2 ^ 24 }
        ensures banks { All (λ bank. bank < 256) self.now }
    {
        let _numbers = &self.numbers;
        0x100_0000
    }

    /// Whether the bank is configured.
    pub fn is_configured(&self, bank: u32) -> bool
        requires { bank < 256 }
        ensures yes { IsTrue result → Contains self.now bank }
        ensures no { result ≡ false → ¬ Contains self.now bank }
    {
        self.start_of(bank) < self.start_of(bank + 1)
    }

    /// Where the byte at an address of a bank lies in the buffer.
    pub fn offset(&self, address: u32) -> usize
        requires { address < 2 ^ 24 }
        ensures value { result ≡ offset_of self.now address }
        ensures small { result < 2 ^ 25 }
    {
        (self.start_of(address / BANK) + address % BANK) as usize
    }

    /// How many bytes of free memory the configured banks have.
    pub fn free_bytes(&self) -> u32
        ensures { result ≡ free_below self.now 256 }
    {
        let mut total = 0;
        for bank in 0..256 {
            total = next_free(&self.numbers, bank, total);
        }
        total
    }
}

//! Where a want fits beside no block: the free memory of the configured banks and what the want asks of it.

ghost use Rattle.std.specs.Prelude.{◌≡◌, ℕ, ◌+◌, ◌-◌, ◌*◌, ◌%◌, ◌^◌, ◌≢◌, ◌⊎◌, ◌<◌, ◌≤◌, ◌↔◌, MatchOption, IfSome, IsTrue, false, true};
ghost use Rattle.iigs_meaning.specs.Fits.{IsWant};
ghost use Rattle.iigs_meaning.specs.Free.{bank_of, low_of, is_special as special, first_free as first, free_end as last_free};
ghost use Rattle.iigs_places.specs.Open.{Permits, AllowsNone, ClearIn, BarredUpTo, IsSpan, IsClear, IsOpen, Stands, IsNextStand, IsNextOpen};

use crate::bank_map::{BANK, BankMap};
use iigs_meaning::Want;

/// Bytes of a bank, from one low part of an address up to another.
#[derive(Clone, Copy)]
pub struct AddressSpan {
    pub from: u32,
    pub to: u32,
}

#[tactic(auto, unfolding(iigs_meaning::specs::Free::is_special))]
fn is_special(bank: u32) -> bool
    ensures { result ≡ special bank }
{
    matches!(bank, 0x00 | 0x01 | 0xE0 | 0xE1)
}

#[tactic(auto, unfolding(iigs_meaning::specs::Free::first_free))]
fn first_free(bank: u32) -> u32
    ensures value { result ≡ first bank }
    ensures small { result ≤ 0x10000 }
{
    match bank {
        0x00 | 0x01 => 0x0800,
        0xE0 | 0xE1 => 0x2000,
        _ => 0,
    }
}

#[tactic(auto, unfolding(iigs_meaning::specs::Free::free_end))]
fn free_end(bank: u32) -> u32
    ensures value { result ≡ last_free bank }
    ensures small { result ≤ 0x10000 }
{
    if is_special(bank) { 0xC000 } else { BANK }
}

// Whether the want lets its block have bytes in this bank.
fn permits(want: &Want, bank: u32) -> bool
    ensures yes { IsTrue result → Permits want.now bank }
    ensures no { result ≡ false → ¬ Permits want.now bank }
{
    if let Some(fixed) = want.bank {
        if fixed != bank {
            return false;
        }
    }
    !(want.no_special && is_special(bank))
}

// Which bytes of the bank may belong to a block of this want.
fn span_of(map: &BankMap, want: &Want, bank: u32) -> Option<AddressSpan>
    requires { bank < 256 }
    ensures { MatchOption result (AllowsNone map.now want.now bank) (IsSpan map.now want.now bank) }
{
    if !map.is_configured(bank) || !permits(want, bank) {
        return None;
    }
    Some(AddressSpan {
        from: first_free(bank),
        to: free_end(bank),
    })
}

// The first address after `at` at which a block is clear of what bars it in this bank, if something bars it there. Of
// the block's bytes, which end before `end`, some lie in the bank.
fn barred_in(map: &BankMap, want: &Want, bank: u32, at: u32, end: u32) -> Option<u32>
    requires bank { bank < 256 }
    requires end { end ≡ at + want.now.size }
    requires first { bank_of at ≤ bank }
    requires last { bank * 0x10000 < end }
    requires some { 0 < want.now.size }
    ensures { MatchOption result (ClearIn map.now want.now bank at) (BarredUpTo map.now want.now at) }
{
    let start = bank * BANK;
    let Some(span) = span_of(map, want, bank) else {
        return Some(start + BANK);
    };
    if at.max(start) < start + span.from {
        return Some(start + span.from);
    }
    if start + span.to < end.min(start + BANK) {
        return Some(start + BANK);
    }
    None
}

// The first address after `at` at which a block is clear, if it isn't clear at `at`.
fn next_clear_address(map: &BankMap, want: &Want, at: u32) -> Option<u32>
    requires want { IsWant want.now }
    requires limit { at + want.now.size ≤ 2 ^ 24 }
    ensures { MatchOption result (IsClear map.now want.now at) (BarredUpTo map.now want.now at) }
{
    let end = at + want.size;
    let first = at / BANK;
    let last = (end - 1) / BANK;
    if want.no_cross && first != last {
        return Some((first + 1) * BANK);
    }
    for bank in first..last + 1 {
        if let Some(later) = barred_in(map, want, bank, at, end) {
            return Some(later);
        }
    }
    None
}

// Whether a block of this want may begin at the address, whatever bytes it has.
fn is_allowed_start(want: &Want, place: u32) -> bool
    requires { IsWant want.now }
    ensures yes { IsTrue result → Stands want.now place }
    ensures no { result ≡ false → ¬ Stands want.now place }
{
    if let Some(at) = want.at {
        if at != place {
            return false;
        }
    }
    if let Some(low) = want.low {
        if low != place % BANK {
            return false;
        }
    }
    place % want.align == 0
}

// The first address from `at` on with this low part.
fn next_low(at: u32, low: u32) -> u32
    requires at { at ≤ 2 ^ 24 }
    ensures after { at ≤ result }
    ensures is { low < 0x10000 → low_of result ≡ low }
    ensures first { (other : ℕ) → at ≤ other → other < result → low_of other ≢ low }
{
    let start = at - at % BANK;
    if low >= BANK {
        at
    } else if at % BANK <= low {
        start + low
    } else {
        start + BANK + low
    }
}

// The first multiple of an alignment from `at` on.
fn next_aligned(at: u32, align: u32) -> u32
    requires at { at ≤ 2 ^ 24 }
    requires align { (align ≡ 1) ⊎ (align ≡ 0x100) ⊎ (align ≡ 0x10000) }
    ensures after { at ≤ result }
    ensures is { result % align ≡ 0 }
    ensures first { (other : ℕ) → at ≤ other → other < result → other % align ≢ 0 }
{
    match align {
        1 => at,
        0x100 => (at + 0xFF) / 0x100 * 0x100,
        _ => (at + 0xFFFF) / 0x10000 * 0x10000,
    }
}

// The first place from `at` on at which a block of this want may begin, whatever bytes it has.
fn next_stand(want: &Want, at: u32) -> Option<u32>
    requires want { IsWant want.now }
    requires at { at ≤ 2 ^ 24 }
    ensures { MatchOption result ((other : ℕ) → at ≤ other → ¬ Stands want.now other) (IsNextStand want.now at) }
{
    let place = match (want.at, want.low) {
        (Some(fixed), _) => fixed,
        (None, Some(low)) => next_low(at, low),
        (None, None) => next_aligned(at, want.align),
    };
    if at <= place && is_allowed_start(want, place) {
        Some(place)
    } else {
        None
    }
}

/// The first address from `from` on at which the want fits where no block is.
pub fn next_open(map: &BankMap, want: &Want, from: u32) -> Option<u32>
    requires want { IsWant want.now }
    requires from { from ≤ 2 ^ 24 }
    ensures { MatchOption result ((other : ℕ) → from ≤ other → ¬ IsOpen map.now want.now other) (IsNextOpen map.now want.now from) }
{
    let limit = map.limit();
    let mut at = from;
    while let Some(place) = next_stand(want, at) {
        if u64::from(limit) < u64::from(place) + u64::from(want.size) {
            return None;
        }
        match next_clear_address(map, want, place) {
            None => return Some(place),
            Some(later) => at = later,
        }
    }
    None
}

/// Whether the want fits at an address where no block is.
pub fn is_open(map: &BankMap, want: &Want, at: u32) -> bool
    requires want { IsWant want.now }
    requires at { at ≤ 2 ^ 24 }
    ensures yes { IsTrue result → IsOpen map.now want.now at }
    ensures no { result ≡ false → ¬ IsOpen map.now want.now at }
{
    match next_open(map, want, at) {
        Some(place) => place == at,
        None => false,
    }
}

/// How many bytes of a bank are free memory.
#[tactic(auto, unfolding(iigs_meaning::specs::Free::is_special, iigs_meaning::specs::Free::first_free, iigs_meaning::specs::Free::free_end))]
pub fn free_bytes(bank: u32) -> u32
    ensures value { result ≡ last_free bank - first bank }
    ensures small { result ≤ 0x10000 }
{
    free_end(bank) - first_free(bank)
}

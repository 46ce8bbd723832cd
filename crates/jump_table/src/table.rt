//! The table that a linker makes.

ghost use Rattle.std.specs.Prelude.{All, ◌≡◌, ◌↔◌, ◌+◌, ◌<◌, ◌≤◌, ◌*◌, ◌++◌, ◌∷◌, [], ℕ, IfOk, IfErr, IfSome, IfNone, is_some, OnOk, OnErr, IsOk, IsErrOf, length, map};
ghost use Rattle.std.specs.List.{list_any};
ghost use Rattle.load_meaning.specs.Table.{entry_bytes, table_bytes, file_entry, IsTableOf};

use crate::entry::entry_of;
use indexmap::IndexSet;
use load_meaning::Target;
use std::alloc::{AllocError, Global};
use std::marker::Model;

/// How many entries a table has at most.
pub const MOST_ENTRIES: u32 = 4680;

/// Why a target gets no entry, or the table no bytes.
#[derive(Clone, Copy, PartialEq, Eq, Debug)]
pub enum TableFault {
    /// The table is full, and the target isn't in it.
    TooMany,
    Memory,
}

impl From<AllocError> for TableFault {
    ghost use Rattle.std.specs.Prelude.{◌≡◌};
    ghost use Rattle.jump_table.specs.declared.table.TableFault.TheVariants.{Memory};

    ghost from_gives = { λ _ fault. fault ≡ Memory };

    fn from(_: AllocError) -> TableFault {
        TableFault::Memory
    }
}

/// The targets of a jump table, each once, in the order in which they were first called.
#[derive(Drop)]
pub struct Table {
    alloc: Global,
    targets: IndexSet<Target>,
}

impl Model for Table {
    ghost use Rattle.std.specs.Prelude.{List};
    ghost use Rattle.load_meaning.specs.declared.table.Target.{Target};

    ghost Value = { List Target };

    ghost use Rattle.jump_table.specs.Targets.{IsSound};

    ghost view = { λ table. table.targets.keys };

    ghost invariant = { λ table. IsSound table.targets.keys };
}

// The entry of a target, as it is in a file.
fn put_entry(out: &mut Vec<u8>, target: &Target) -> Result<(), AllocError>
    ensures { OnOk result (out.new.items ≡ out.old.items ++ entry_bytes (file_entry target.now)) }
{
    out.extend_from_slice(&entry_of(0, *target))
}

impl Table {
    ghost use Rattle.load_meaning.specs.declared.table.Target.{Target};
    ghost use Rattle.jump_table.specs.Targets.{FitsTarget};
    ghost use Rattle.load_meaning.specs.Table.{most_entries, is_same, with_target, entry_place, IsAtPlace, AreDistinct};

    /// A table without targets.
    pub fn new(alloc: Global) -> Table
        ensures { result ≡ [] }
    {
        Table {
            alloc,
            targets: IndexSet::new(alloc),
        }
    }

    /// How many targets the table has.
    pub fn count(&self) -> u32
        ensures value { result ≡ length self.now }
        ensures few { result ≤ most_entries }
        ensures distinct { AreDistinct self.now }
    {
        self.targets.len() as u32
    }

    /// Where references to a target go: the place in the table of its entry's code, which is 8 + 14k + 10 for the k-th
    /// distinct target, from 0, in the order of their first calls. TooMany exactly where the table has 4,680 other targets.
    pub fn entry(&mut self, file: u16, segment: u16, offset: u32) -> Result<u32, TableFault>
        ensures targets { OnOk result (self.new ≡ with_target self.old (record { file = file; segment = segment; offset = offset })) }
        ensures place { IfOk result (λ at. (k : ℕ) × IsAtPlace self.new (record { file = file; segment = segment; offset = offset }) k
            × (at ≡ entry_place k)) }

        // A target that the table has is never refused.
        ensures known { (k : ℕ) → IsAtPlace self.old (record { file = file; segment = segment; offset = offset }) k → IsOk result }
        ensures too_many { IsErrOf result TableFault.TooMany ↔ ((length self.old ≡ most_entries)
            × ((k : ℕ) → ¬ IsAtPlace self.old (record { file = file; segment = segment; offset = offset }) k)) }
        ensures err { OnErr result (self.new ≡ self.old) }
    {
        let target = Target {
            file,
            segment,
            offset,
        };
        let place = match self.place_of(target) {
            Some(place) => place,
            None => self.add(target)?,
        };
        Ok(8 + 14 * place as u32 + 10)
    }

    // The place of a target, from 0.
    fn place_of(&self, target: Target) -> Option<usize>
        ensures found { IfSome result (λ place. IsAtPlace self.now target place) }
        ensures few { IfSome result (λ place. place < length self.now) }
        ensures none { IfNone result ((k : ℕ) → ¬ IsAtPlace self.now target k) }
        ensures test { is_some result ≡ list_any (is_same target) self.now }
        ensures small { length self.now ≤ most_entries }
    {
        self.targets.get_index_of(&target)
    }

    // Puts a target that isn't there to the end, and gives its place.
    fn add(&mut self, target: Target) -> Result<usize, TableFault>
        requires { (k : ℕ) → ¬ IsAtPlace self.old target k }
        ensures ok { OnOk result (self.new ≡ self.old ++ target ∷ []) }
        ensures place { IfOk result (λ place. place ≡ length self.old) }
        ensures too_many { IsErrOf result TableFault.TooMany ↔ (length self.old ≡ most_entries) }
        ensures err { OnErr result (self.new ≡ self.old) }
    {
        let place = self.targets.len();
        if place >= MOST_ENTRIES as usize {
            return Err(TableFault::TooMany);
        }
        match self.targets.insert(target) {
            Ok(_) => {}
            Err(_) => return Err(TableFault::Memory),
        }
        Ok(place)
    }

    /// The bytes of the table's segment in a file: 8 zeros, an entry for each target in order, and 4 zeros.
    pub fn segment_bytes(&self, alloc: Global) -> Result<Vec<u8>, TableFault>
        ensures bytes { IfOk result (λ bytes. bytes.items ≡ table_bytes (map file_entry self.now)) }
        ensures laid_out { IfOk result (λ bytes. IsTableOf (map file_entry self.now) bytes.items) }
        ensures memory_alone { IfErr result (λ fault. fault ≡ TableFault.Memory) }
    {
        self.body_bytes(alloc)
    }

    // The zeros and the entries.
    #[tactic(auto, unfolding(load_meaning::specs::Table::table_bytes))]
    fn body_bytes(&self, alloc: Global) -> Result<Vec<u8>, TableFault>
        ensures bytes { IfOk result (λ bytes. bytes.items ≡ table_bytes (map file_entry self.now)) }
        ensures memory_alone { IfErr result (λ fault. fault ≡ TableFault.Memory) }
        ensures fit { All FitsTarget self.now }
    {
        let mut bytes = Vec::with_capacity(alloc, 12 + 14 * self.targets.len())?;
        bytes.extend_from_slice(&[0; 8])?;
        for target in self.targets.iter() {
            put_entry(&mut bytes, target)?;
        }
        bytes.extend_from_slice(&[0; 4])?;
        Ok(bytes)
    }
}

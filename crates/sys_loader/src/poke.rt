//! Bytes that are poked.

ghost use Rattle.std.specs.Prelude.{◌≡◌, ◌<◌, ℕ, length, slice_set, IsSome, IsSomeAnd, Some, IfOk, IfErr};
ghost use Rattle.omf_io.specs.Files.{FileMap};
ghost use Rattle.iigs_meaning.specs.Slots.{get};
ghost use Rattle.loader_machine.specs.Rule.{RoomRule};
ghost use Rattle.iigs_meaning.specs.Memory.{bytes_at};
ghost use Rattle.loader_machine.specs.State.{Machine};
ghost use Rattle.loader_machine.specs.Commands.{Poke};
ghost use Rattle.loader_machine.specs.Refusals.{poke_refusal};
ghost use Rattle.loader_agrees.specs.Agrees.{Agrees, Met, seen_by};
ghost use Rattle.sys_loader.specs.Replies.{done_reply};
ghost use Rattle.loader_users.specs.Bytes.{with_bytes};
ghost use Rattle.sys_loader.specs.Lives.{CanPoke, DidPoke};

use crate::loader::Loader;
use iigs_compact_memory::CompactBanks;
use iigs_meaning::Handle;
use loader_machine::LoaderFault;
use loader_users::{active, is_table};

/// Writes a byte of a block that is there.
fn poke_byte(banks: &mut CompactBanks, h: Handle, at: u32, byte: u8)
    requires there { IsSomeAnd (get banks.old.slots h) (λ block. IsSome block.at) }
    requires within { at < length (bytes_at banks.old h.slot) }
    ensures { banks.new ≡ with_bytes banks.old h.slot (slice_set (bytes_at banks.old h.slot) at byte) }
{
    let bytes = banks.lend(h);
    bytes[at as usize] = byte;
}

impl Loader {
    // The handle of an active segment of which a byte may be written.
    fn pokable(&self, id: u16, number: u16, at: u32) -> Result<Handle, LoaderFault>
        ensures can { IfOk result (λ h. CanPoke self.now id number at h) }
        ensures refused { IfErr result (λ fault. poke_refusal self.now.memory.slots (seen_by self.now id) number at ≡ Some fault) }
    {
        let user = self.running(id)?;
        let segment = user.kept_segment(number)?;
        let h = active(&self.banks, segment.handle)?;
        if is_table(&segment.head) {
            return Err(LoaderFault::TableByte);
        }
        if at >= segment.head.length {
            return Err(LoaderFault::OutOfSegment);
        }
        Ok(h)
    }

    // Writes a byte of an active segment.
    fn write_byte(&mut self, user: u16, segment: u16, at: u32, byte: u8) -> Result<(), LoaderFault>
        ensures did { DidPoke self.old user segment at byte result self.new }
    {
        let h = self.pokable(user, segment, at)?;
        poke_byte(&mut self.banks, h, at, byte);
        Ok(())
    }

    /// Writes a byte into an active segment of a user that runs; a jump table's bytes can't be written. The byte stays until
    /// the segment is read again.
    pub fn poke(&mut self, user: u16, segment: u16, at: u32, byte: u8) -> Result<(), LoaderFault>
        // Over files with which the loader agrees, it is the machine's step.
        ensures meets { (held : FileMap) (state : Machine) → Agrees held self.old state
            → Met RoomRule held state (Poke user segment at byte) (done_reply result) self.new }

        // Over any files this much of it holds.
        ensures did { DidPoke self.old user segment at byte result self.new }
    {
        self.recall_invariant();
        self.write_byte(user, segment, at, byte)
    }
}

//! Segments in memory.

ghost use Rattle.std.specs.Prelude.{◌≡◌, ◌+◌, ◌≤◌, ℕ, length, take, drop, Some, false, IfOk, IfErr};
ghost use Rattle.loader_machine.specs.Presences as presences;

use iigs_compact_memory::CompactBanks;
use iigs_meaning::{BlockFault, Handle};
use loader_machine::{LoaderFault, Presence};

/// Whether and where a handle's block is.
pub fn presence(banks: &CompactBanks, handle: Option<Handle>) -> Presence
    ensures { result ≡ presences.presence banks.now.slots handle }
{
    let Some(h) = handle else {
        return Presence::Absent;
    };
    let block = match banks.state(h) {
        Ok(block) => block,
        Err(BlockFault::Stale) => return Presence::Absent,
        Err(BlockFault::Empty) => return Presence::Absent,
    };
    let Some(at) = block.at else {
        return Presence::Purged(h);
    };
    if block.locked {
        Presence::Active(h, at)
    } else {
        Presence::Idle(h, at)
    }
}

/// The handle of an active segment.
pub fn active(banks: &CompactBanks, handle: Option<Handle>) -> Result<Handle, LoaderFault>
    ensures ok { IfOk result (λ h. (handle ≡ Some h) × ((address : ℕ) × (presences.presence banks.now.slots (Some h) ≡ Presence.Active h address))) }
    ensures err { IfErr result (λ fault. (fault ≡ LoaderFault.NotActive) × (presences.is_active (presences.presence banks.now.slots handle) ≡ false)) }
{
    let presence = presence(banks, handle);
    match presence {
        Presence::Active(h, _) => Ok(h),
        Presence::Idle(_, _) => Err(LoaderFault::NotActive),
        Presence::Purged(_) => Err(LoaderFault::NotActive),
        Presence::Absent => Err(LoaderFault::NotActive),
    }
}

/// `count` bytes from an offset on.
pub fn slice(bytes: &[u8], at: usize, count: usize) -> &[u8]
    requires { at + count ≤ length bytes.now }
    ensures { result.now ≡ take count (drop at bytes.now) }
{
    &bytes[at..at + count]
}

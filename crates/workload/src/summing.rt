//! The sum of the contents of active segments.

ghost use Rattle.std.specs.Prelude.{◌≡◌, ◌<◌, ◌+◌, ◌-◌, ◌%◌, ◌^◌, sum};
ghost use Rattle.omf_io.specs.Files.{FileMap};
ghost use Rattle.loader_machine.specs.State.{Machine};
ghost use Rattle.loader_agrees.specs.Agrees.{Agrees};
ghost use Rattle.workload.specs.Work.{IsShown, IsSum};

use crate::rounds::USER;
use sys_loader::Loader;

/// The sum of bytes on a sum, modulo 2^32.
#[tactic(auto, using(crate::proofs::Sums::sum_more))]
fn sum_of(so_far: u32, bytes: &[u8]) -> u32
    ensures { result ≡ (so_far + sum bytes.now) % 2 ^ 32 }
{
    let mut sum = so_far;
    'bytes: for byte in bytes {
        sum = sum.wrapping_add(u32::from(*byte));
    }
    sum
}

/// The bytes of a segment of the user, where it is active, and else none.
fn active_bytes(loader: &Loader, segment: u16) -> &[u8]
    ensures { (held : FileMap) (state : Machine) → Agrees held loader.now state → IsShown held state segment result.now }
{
    let info = match loader.info(USER, segment) {
        Ok(info) => info,
        Err(_) => return &[],
    };
    match loader.bytes(USER, segment, 0, info.length) {
        Ok(bytes) => bytes,
        Err(_) => &[],
    }
}

/// The sum of all bytes of the user's active segments, modulo 2^32, among the first `count` segments.
#[tactic(auto, using(crate::proofs::Sums::sum_start, crate::proofs::Sums::sum_step, crate::proofs::Sums::sum_end))]
pub fn active_sum(loader: &Loader, count: u16) -> u32
    requires { count < 2 ^ 16 - 1 }
    ensures { (held : FileMap) (state : Machine) → Agrees held loader.now state → IsSum held state count result }
{
    let mut sum = 0;
    'segments: for segment in 1..count + 1 {
        sum = sum_of(sum, active_bytes(loader, segment));
    }
    sum
}

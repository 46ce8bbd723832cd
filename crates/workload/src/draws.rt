//! Numbers that look random, the same for the same seed.

ghost use Rattle.std.specs.Prelude.{◌≡◌, ◌<◌, ◌/◌, ◌^◌};
ghost use Rattle.workload_meaning.specs.Draws.{next};

/// The draws after a number.
#[derive(Clone, Copy, Debug, PartialEq, Eq)]
pub struct Draws {
    /// The number after which the next draw is made.
    pub last: u32,
}

/// The number that follows a given one.
fn next(x: u32) -> u32
    ensures { result ≡ next x }
{
    ((u64::from(x) * 1_664_525 + 1_013_904_223) % 0x1_0000_0000) as u32
}

impl Draws {
    /// Draws a number below 65,536.
    pub fn draw(&mut self) -> u32
        ensures drawn { result ≡ next self.old.last / 65536 }
        ensures small { result < 2 ^ 16 }
        ensures next { self.new.last ≡ next self.old.last }
    {
        self.last = next(self.last);
        self.last / 65_536
    }
}

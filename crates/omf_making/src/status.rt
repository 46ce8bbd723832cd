//! How a run of the tool ends.

/// The status with which the program ends.
#[derive(Clone, Copy, Debug, PartialEq, Eq)]
pub enum Status {
    /// 0: the command is done.
    Done,
    /// 1: an input is refused, and the line says why and where.
    Refused,
    /// 2: the arguments are no form of a command.
    Usage,
    /// 3: an input couldn't be read.
    CannotRead,
    /// 4: the output couldn't be written whole.
    CannotWrite,
    /// 5: a line couldn't be printed whole.
    CannotPrint,
    /// 6: out of memory.
    Memory,
}

impl Status {
    ghost use Rattle.std.specs.Prelude.{◌≡◌};
    ghost use Rattle.omf_making.specs.Code.{code_of};

    /// The program's exit status.
    pub fn code(self) -> u8
        ensures { result ≡ code_of self }
    {
        match self {
            Status::Done => 0,
            Status::Refused => 1,
            Status::Usage => 2,
            Status::CannotRead => 3,
            Status::CannotWrite => 4,
            Status::CannotPrint => 5,
            Status::Memory => 6,
        }
    }
}

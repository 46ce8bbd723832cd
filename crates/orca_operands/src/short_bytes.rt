//! Few constant bytes (GS/OS Reference, appendix F, CONST).

ghost use Rattle.std.specs.Prelude.{◌≤◌};

/// One to four bytes: the first `count` of these.
#[derive(Clone, Copy)]
pub struct ShortBytes {
    pub(crate) first: u8,
    pub(crate) second: u8,
    pub(crate) third: u8,
    pub(crate) fourth: u8,
    pub(crate) count: u8,
    ghost some: { 1 ≤ count },
    ghost few: { count ≤ 4 },
}

impl ShortBytes {
    ghost use Rattle.std.specs.Prelude.{◌≡◌, ◌≤◌, ◌∷◌, []};
    ghost use Rattle.byteorder.specs.Endian.{little_bytes};
    ghost use Rattle.orca_operands.specs.FewView.{few_bytes};

    /// An opcode, and the lowest `width` bytes of a number.
    #[tactic(auto, using(crate::proofs::FewLaws::first_bytes))]
    #[inline(always)]
    pub(crate) fn of_number(opcode: u8, width: u8, n: u32) -> ShortBytes
        requires { width ≤ 3 }
        ensures { few_bytes result ≡ opcode ∷ little_bytes width n }
    {
        let [low, middle, high, _] = n.to_le_bytes();
        ShortBytes {
            first: opcode,
            second: low,
            third: middle,
            fourth: high,
            count: width + 1,
        }
    }

    /// An opcode, and two bytes.
    pub(crate) fn of_two(opcode: u8, second: u8, third: u8) -> ShortBytes
        ensures { few_bytes result ≡ opcode ∷ second ∷ third ∷ [] }
    {
        ShortBytes {
            first: opcode,
            second,
            third,
            fourth: 0,
            count: 3,
        }
    }
}

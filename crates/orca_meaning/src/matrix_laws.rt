//! What holds of the opcode matrix.

ghost use Rattle.std.specs.Prelude.{◌≡◌, length};
ghost use Rattle.orca_meaning.specs.Matrix.{matrix};
ghost use Rattle.orca_meaning.specs.MatrixLaws.{NoneTwice, OpcodeIsPlace};

/// The laws of the opcode matrix: each byte is an opcode, no instruction has two, and `opcode_of` finds the one.
pub fn matrix_has_laws()
    ensures whole { length matrix ≡ 256 }
    ensures once { NoneTwice }
    ensures place { OpcodeIsPlace }
{}

//! Where the fields of a header are.

ghost use Rattle.std.specs.Prelude.{◌≡◌, ◌<◌};
ghost use Rattle.omf_format.specs.Header.{displacement_of};

use omf_format::Field;

/// Where in a header of a version a field is, in bytes from the segment's start.
pub fn displacement_of(version: u8, field: Field) -> u32
    ensures value { result ≡ displacement_of version field }
    ensures small { result < 44 }
{
    match field {
        Field::NumLen => 0x0E,
        Field::Version => 0x0F,
        Field::BankSize => 0x10,
        Field::Kind => { if version == 1 { 0x0C } else { 0x14 } }
        Field::NumSex => 0x20,
        Field::DispName => 0x28,
        Field::DispData => 0x2A,
        Field::ResSpc => 0x04,
    }
}

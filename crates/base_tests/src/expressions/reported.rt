//! Expressions, and what is reported for them.
use omf_expr::{ExprFault, Value, ValueFault};

/// What is reported of an expression: that it is none, or its value, or why it has none.
pub type Reported = Result<Result<Value, ValueFault>, ExprFault>;

pub fn place(segment: u16, offset: u32, shift: i8) -> Value {
    Value::At {
        file: 1,
        segment,
        offset,
        shift,
    }
}

/// What is to be reported of an expression.
pub enum Want {
    /// A place in segment 2: its offset and shift.
    Place(u32, i8),
    Number(u32),
    /// It has no value.
    NoValue(ValueFault),
    /// It is no expression.
    Faulty(ExprFault),
}

pub fn as_reported(want: &Want) -> Reported {
    match *want {
        Want::Place(offset, shift) => Ok(Ok(place(2, offset, shift))),
        Want::Number(number) => Ok(Ok(Value::Fixed(number))),
        Want::NoValue(fault) => Ok(Err(fault)),
        Want::Faulty(fault) => Err(fault),
    }
}

/// Expressions, LABLEN, and what is reported. There is one name AB, at offset $100; the location counter is $40 and the start $30, all in
/// segment 2.
pub static REPORTED: [(&[u8], u8, Want); 53] = [
    // Places move, differ and shift.
    (b"\x80\x00", 0, Want::Place(0x40, 0)),
    (b"\x83\x02AB\x00", 0, Want::Place(0x100, 0)),
    (b"\x82\x02AB\x00", 0, Want::Number(0)),
    (b"\x84\x02AB\x00", 0, Want::Number(0x84)),
    (b"\x86\x02AB\x00", 0, Want::Number(0x86)),
    (b"\x87\x05\x00\x00\x00\x00", 0, Want::Place(0x35, 0)),
    (b"\x87\xFF\xFF\xFF\xFF\x00", 0, Want::Place(0x2F, 0)),
    (
        b"\x83\x02AB\x81\x05\x00\x00\x00\x01\x00",
        0,
        Want::Place(0x105, 0),
    ),
    (
        b"\x81\x05\x00\x00\x00\x83\x02AB\x01\x00",
        0,
        Want::Place(0x105, 0),
    ),
    (
        b"\x83\x02AB\x81\x01\x01\x00\x00\x02\x00",
        0,
        Want::Place(0xFFFFFFFF, 0),
    ),
    (
        b"\x81\x05\x00\x00\x00\x83\x02AB\x02\x00",
        0,
        Want::NoValue(ValueFault::NotRelocatable),
    ),
    (b"\x83\x02AB\x80\x02\x00", 0, Want::Number(0xC0)),
    (b"\x80\x83\x02AB\x02\x00", 0, Want::Number(0xFFFFFF40)),
    (
        b"\x83\x02AB\x80\x01\x00",
        0,
        Want::NoValue(ValueFault::NotRelocatable),
    ),
    (
        b"\x83\x02AB\x81\xF8\xFF\xFF\xFF\x07\x00",
        0,
        Want::Place(0x100, -8),
    ),
    (
        b"\x83\x02AB\x81\x00\x00\x00\x00\x07\x00",
        0,
        Want::Place(0x100, 0),
    ),
    (
        b"\x83\x02AB\x81\x1F\x00\x00\x00\x07\x00",
        0,
        Want::Place(0x100, 31),
    ),
    (
        b"\x83\x02AB\x81\x20\x00\x00\x00\x07\x00",
        0,
        Want::NoValue(ValueFault::NotRelocatable),
    ),
    (
        b"\x83\x02AB\x81\xE0\xFF\xFF\xFF\x07\x00",
        0,
        Want::NoValue(ValueFault::NotRelocatable),
    ),
    (
        b"\x83\x02AB\x81\x00\x00\x00\x00\x04\x00",
        0,
        Want::NoValue(ValueFault::NotRelocatable),
    ),
    (
        b"\x81\x00\x00\x00\x00\x83\x02AB\x04\x00",
        0,
        Want::NoValue(ValueFault::NotRelocatable),
    ),
    (
        b"\x83\x02AB\x06\x00",
        0,
        Want::NoValue(ValueFault::NotRelocatable),
    ),
    (
        b"\x83\x02AB\x83\x02AB\x11\x00",
        0,
        Want::NoValue(ValueFault::NotRelocatable),
    ),
    // The first fault in the order of the terms.
    (
        b"\x81\x05\x00\x00\x00\x81\x00\x00\x00\x00\x04\x00",
        0,
        Want::NoValue(ValueFault::DivideByZero),
    ),
    (
        b"\x83\x02AC\x80\x06\x01\x00",
        0,
        Want::NoValue(ValueFault::Unknown(0)),
    ),
    (
        b"\x80\x06\x83\x02AC\x01\x00",
        0,
        Want::NoValue(ValueFault::NotRelocatable),
    ),
    (
        b"\x81\x05\x00\x00\x00\x81\x00\x00\x00\x00\x04\x83\x02AC\x01\x00",
        0,
        Want::NoValue(ValueFault::DivideByZero),
    ),
    (
        b"\x81\x05\x00\x00\x00\x85\x01B\x01\x00",
        0,
        Want::NoValue(ValueFault::Unknown(5)),
    ),
    // Names follow LABLEN.
    (b"\x83\x02AB\x00", 0, Want::Place(0x100, 0)),
    (b"\x83\x03AB \x00", 0, Want::NoValue(ValueFault::Unknown(0))),
    (b"\x83\x00\x00", 0, Want::Faulty(ExprFault::BadTerm(0))),
    (b"\x83\x02A", 0, Want::Faulty(ExprFault::Truncated(0))),
    (b"\x83", 0, Want::Faulty(ExprFault::Truncated(0))),
    (b"\x83A\x00", 1, Want::NoValue(ValueFault::Unknown(0))),
    (b"\x83 \x00", 1, Want::Faulty(ExprFault::BadTerm(0))),
    (b"\x83", 1, Want::Faulty(ExprFault::Truncated(0))),
    (b"\x83AB\x00", 2, Want::Place(0x100, 0)),
    (b"\x83AB        \x00", 10, Want::Place(0x100, 0)),
    (
        b"\x83AB       C\x00",
        10,
        Want::NoValue(ValueFault::Unknown(0)),
    ),
    (
        b"\x83 AB       \x00",
        10,
        Want::NoValue(ValueFault::Unknown(0)),
    ),
    (
        b"\x83          \x00",
        10,
        Want::Faulty(ExprFault::BadTerm(0)),
    ),
    (b"\x83AB       ", 10, Want::Faulty(ExprFault::Truncated(0))),
    // The first faulty term decides.
    (b"\x00", 0, Want::Faulty(ExprFault::Shape(0))),
    (b"", 0, Want::Faulty(ExprFault::Truncated(0))),
    (b"\x80", 0, Want::Faulty(ExprFault::Truncated(1))),
    (b"\x80\x80\x00", 0, Want::Faulty(ExprFault::Shape(2))),
    (b"\x80\x01\x80\x00", 0, Want::Faulty(ExprFault::Shape(1))),
    (b"\x06\x00", 0, Want::Faulty(ExprFault::Shape(0))),
    (b"\x80\x16\x00", 0, Want::Faulty(ExprFault::BadTerm(1))),
    (b"\x80\x7F", 0, Want::Faulty(ExprFault::BadTerm(1))),
    (b"\x88\x00", 0, Want::Faulty(ExprFault::BadTerm(0))),
    (
        b"\x80\x81\x05\x00\x00",
        0,
        Want::Faulty(ExprFault::Truncated(1)),
    ),
    (b"\x01\x16", 0, Want::Faulty(ExprFault::Shape(0))),
];

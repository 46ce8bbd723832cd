// Every record, written; and the locations of a SUPER.
ghost use Rattle.std.specs.Prelude.{IsTrue, ◌==◌};
ghost use Rattle.omf_format.specs.Field.{is_count};
ghost use Rattle.omf_format.specs.Record.{is_formula, IsDistance};

use crate::rows::is_well;
use omf_expr::Expr;
use omf_records::{Locations, PutFault, Rec, put_record};
use std::alloc::Global;
use std::test::Fail;

/// An object with every record under LABLEN 0.
static COUNTED: &[u8] = &[
    0xE9, 0, 0, 0, 0, 0, 0, 0, 8, 0, 0, 0, 0, 0, 4, 2, 0, 0, 1, 0, 0, 0, 0, 0, 0, 0, 0, 0, 0, 0, 0,
    0, 0, 0, 1, 0, 0, 0, 0, 0, 0x2C, 0, 0x38, 0, 0x20, 0x20, 0x20, 0x20, 0x20, 0x20, 0x20, 0x20,
    0x20, 0x20, 1, 0x41, 3, 0xA9, 1, 0x60, 0xF2, 2, 0, 0, 0, 0xEA, 0xEA, 0xE0, 0, 1, 0, 0, 0xE1,
    0x10, 0, 0, 0, 0xE2, 2, 0xF8, 1, 0, 0, 0, 0x78, 0x56, 0x34, 0x12, 0xE3, 3, 0, 2, 0, 0, 0, 1, 0,
    3, 2, 4, 0, 0, 0, 0xE4, 3, 0x41, 0x42, 0x43, 0xE5, 3, 0x41, 0x80, 0x42, 0xE6, 1, 0x47, 2, 0,
    0x4E, 0, 0xE7, 1, 0x51, 0, 0, 0x4E, 1, 0x81, 5, 0, 0, 0, 0, 0xEB, 2, 0x83, 1, 0x41, 0x81, 5, 0,
    0, 0, 1, 0, 0xEC, 1, 0x80, 0, 0xED, 2, 0x87, 1, 0, 0, 0, 0, 0xEE, 1, 1, 0, 0, 0, 0x83, 1, 0x42,
    0, 0xEF, 1, 0x4C, 4, 0, 0x4D, 0, 0xF0, 1, 0x45, 0, 0, 0x4E, 0, 0x82, 1, 0x45, 0, 0xF1, 5, 0, 0,
    0, 0xF3, 3, 0x83, 1, 0x44, 0, 0xF4, 3, 2, 0x78, 0x56, 0x34, 0x12, 3, 0x4E, 0x7F, 0x4D, 0xF5, 4,
    0x1F, 1, 0, 0x34, 0x12, 0xF6, 1, 0xE1, 2, 0, 5, 0x78, 0x56, 0xF7, 5, 0, 0, 0, 2, 0x82, 1, 1, 5,
    0,
];

/// Constants and moves of the location counter.
fn put_constants(out: &mut Vec<u8>) -> Result<(), PutFault> {
    put_record(
        out,
        &Rec::Const {
            bytes: &[0xA9, 1, 0x60],
        },
    )?;
    put_record(
        out,
        &Rec::LongConst {
            bytes: &[0xEA, 0xEA],
        },
    )?;
    put_record(out, &Rec::Align { n: 0x100 })?;
    put_record(out, &Rec::Org { n: 0x10 })
}

/// The patches that have a place each.
fn put_patches(out: &mut Vec<u8>) -> Result<(), PutFault> {
    put_record(
        out,
        &Rec::Reloc {
            count: 2,
            shift: -8,
            location: 1,
            offset: 0x1234_5678,
        },
    )?;
    put_record(
        out,
        &Rec::InterSeg {
            count: 3,
            shift: 0,
            location: 2,
            file: 1,
            segment: 0x203,
            offset: 4,
        },
    )
}

/// The same in fewer bytes, a SUPER, and END.
fn put_short_patches(out: &mut Vec<u8>) -> Result<(), PutFault> {
    put_record(
        out,
        &Rec::ShortReloc {
            count: 4,
            shift: 31,
            location: 1,
            offset: 0x1234,
        },
    )?;
    put_record(
        out,
        &Rec::ShortInterSeg {
            count: 1,
            shift: -31,
            location: 2,
            segment: 5,
            offset: 0x5678,
        },
    )?;
    put_record(
        out,
        &Rec::Super {
            form: 2,
            bytes: &[0x82, 1, 1, 5],
        },
    )?;
    put_record(out, &Rec::End)
}

/// Names alone.
fn put_names(out: &mut Vec<u8>) -> Result<(), PutFault> {
    put_record(out, &Rec::Using { name: b"ABC" })?;
    put_record(out, &Rec::Strong { name: b"A\x80B" })
}

/// A label, or, with an expression, an equate.
fn put_label(
    out: &mut Vec<u8>,
    global: bool,
    name: &[u8; 1],
    length: u16,
    form: u8,
    private: u8,
) -> Result<(), PutFault> {
    put_record(
        out,
        &Rec::Label {
            global,
            name: name.as_slice(),
            length,
            form,
            private,
        },
    )
}

fn put_equate(
    out: &mut Vec<u8>,
    global: bool,
    name: &[u8; 1],
    private: u8,
    bytes: &[u8],
) -> Result<(), Fail> {
    let expr = Expr::of(bytes, 0)?;
    put_record(
        out,
        &Rec::Equate {
            global,
            name: name.as_slice(),
            length: 0,
            form: 0x4E,
            private,
            expr: expr.bytes(),
        },
    )?;
    Ok(())
}

/// The expression records of which this is the count and this the distance.
fn put_formula(out: &mut Vec<u8>, code: u8, count: u8, n: u32, bytes: &[u8]) -> Result<(), Fail>
    requires code { IsTrue (is_formula code) }
    requires count { IsTrue (is_count count) }
    requires distance { IsDistance (code == 0xEE) n }
{
    let expr = Expr::of(bytes, 0)?;
    put_record(
        out,
        &Rec::Formula {
            code,
            count,
            n,
            expr: expr.bytes(),
        },
    )?;
    Ok(())
}

/// Every record.
fn put_all(out: &mut Vec<u8>) -> Result<(), Fail> {
    put_constants(out)?;
    put_patches(out)?;
    put_names(out)?;
    put_label(out, true, b"G", 2, 0x4E, 0)?;
    put_equate(out, true, b"Q", 1, &[0x81, 5, 0, 0, 0, 0])?;
    put_formula(out, 0xEB, 2, 0, b"\x83\x01A\x81\x05\0\0\0\x01\0")?;
    put_formula(out, 0xEC, 1, 0, b"\x80\0")?;
    put_formula(out, 0xED, 2, 0, b"\x87\x01\0\0\0\0")?;
    put_formula(out, 0xEE, 1, 1, b"\x83\x01B\0")?;
    put_label(out, false, b"L", 4, 0x4D, 0)?;
    put_equate(out, false, b"E", 0, b"\x82\x01E\0")?;
    put_space(out)?;
    put_formula(out, 0xF3, 3, 0, b"\x83\x01D\0")?;
    put_entry(out)?;
    put_short_patches(out)?;
    Ok(())
}

fn put_space(out: &mut Vec<u8>) -> Result<(), PutFault> {
    put_record(out, &Rec::Space { n: 5 })
}

fn put_entry(out: &mut Vec<u8>) -> Result<(), PutFault> {
    put_record(
        out,
        &Rec::Entry {
            segment: 0x203,
            offset: 0x1234_5678,
            name: b"N\x7FM",
        },
    )
}

/// Whether every record is written as it is in the body of the object.
fn all_are_written(alloc: Global) -> Result<bool, Fail> {
    let mut out = Vec::new(alloc);
    put_all(&mut out)?;
    Ok(COUNTED.get(0x38..) == Some(out.as_slice()))
}

/// The first places of locations, and what follows them.
fn places() -> [Option<u64>; 6] {
    let mut locations = Locations::of(&[0x82, 0x01, 0x01, 0x05, 0x00, 0xFF, 0xFF, 0x00, 0x10]);
    let mut places = [Some(0); 6];
    for place in &mut places {
        *place = locations.next();
    }
    places
}

/// Two pages are passed over, and the third has two locations; the fourth has one, and after 127 more pages there is one.
static PLACES: [Option<u64>; 6] = [
    Some(0x201),
    Some(0x205),
    Some(0x3FF),
    Some((4 + 127) * 256 + 0x10),
    None,
    None,
];

#[test]
fn records_are_written_and_locations_go_page_by_page(rt: HostRuntime) -> Result<(), Fail> {
    is_well(&rt, all_are_written(rt.alloc())?);
    is_well(&rt, places() == PLACES);
    Ok(())
}

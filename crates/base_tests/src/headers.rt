// Headers: the first check that holds is the one that is reported, and what is written is read.
ghost use Rattle.std.specs.Prelude.{IfOk};
ghost use Rattle.omf_format.specs.Header.{IsWritable};
ghost use Rattle.omf_header.specs.View.{fields};

use crate::asserting::same;
use omf_base::{Name, NameFault};
use omf_header::{Field, Header, HeaderFault, Kind, WriteHeaderFault, read_header, write_header};
use std::alloc::Global;

/// The header of a code segment `A` of 16 bytes, with a body of one byte.
static HEADER: [u8; 57] = [
    0x39, 0, 0, 0, 2, 0, 0, 0, 0x10, 0, 0, 0, 0, 0, 4, 2, 0, 0, 1, 0, 0, 0, 0, 0, 1, 2, 3, 4, 5, 6,
    7, 8, 0, 0, 9, 10, 11, 12, 13, 14, 0x2C, 0, 0x38, 0, 0x4C, 0x4F, 0x41, 0x44, 0x20, 0x20, 0x20,
    0x20, 0x20, 0x20, 1, 0x41, 0,
];

// The calls as the tests make them. They promise nothing, so a test's proof is as short as the test.
fn read(alloc: Global, bytes: &[u8]) -> Result<Header, HeaderFault> {
    // No file is as long.
    if bytes.len() > 0x100_0000 {
        return Err(HeaderFault::Memory);
    }
    read_header(alloc, bytes)
}

fn fault(alloc: Global, bytes: &[u8]) -> Option<HeaderFault> {
    match read(alloc, bytes) {
        Ok(_) => None,
        Err(fault) => Some(fault),
    }
}

fn put(bytes: &mut [u8], at: usize, value: u8) {
    if let Some(byte) = bytes.get_mut(at) {
        *byte = value;
    }
}

/// Each check breaks after the one before it, from the last to the first.
static BREAKS: [(usize, u8, HeaderFault); 9] = [
    (0x07, 1, HeaderFault::BadField(Field::ResSpc)),
    (0x2A, 0x37, HeaderFault::BadField(Field::DispData)),
    (0x00, 0x3A, HeaderFault::Truncated(57)),
    (0x28, 0x2B, HeaderFault::BadField(Field::DispName)),
    (0x20, 1, HeaderFault::Unsupported(Field::NumSex)),
    (0x14, 0x11, HeaderFault::Unsupported(Field::Kind)),
    (0x10, 1, HeaderFault::BadField(Field::BankSize)),
    (0x0F, 3, HeaderFault::Unsupported(Field::Version)),
    (0x0E, 2, HeaderFault::Unsupported(Field::NumLen)),
];

#[test]
fn the_first_check_is_reported(rt: HostRuntime) {
    let alloc = rt.alloc();
    same(&rt, &"whole", fault(alloc, &HEADER), None);
    let cut = fault(alloc, &HEADER[..43]);
    same(&rt, &"cut", cut, Some(HeaderFault::Truncated(43)));

    let mut bytes = HEADER;
    for (at, value, want) in &BREAKS {
        put(&mut bytes, *at, *value);
        same(&rt, at, fault(alloc, &bytes), Some(*want));
    }
}

/// What is reported of a header: whether it has the name, the alignment, and whether it stays in a bank.
type Reported = (bool, u32, bool);

/// Bytes of that header that are changed, the name, and what is reported.
static CHANGED: [(&[(usize, u8)], &[u8], Reported); 8] = [
    // With LABLEN 2 the name is the two bytes after the load name, here `A` and a space.
    (
        &[(0x0D, 2), (0x36, 0x41), (0x37, 0x20)],
        b"A",
        (true, 0x10000, true),
    ),
    // Alignment is a page or a bank.
    (
        &[(0x1C, 0), (0x1D, 0), (0x1E, 0), (0x1F, 0)],
        b"A",
        (true, 1, true),
    ),
    (
        &[(0x1C, 1), (0x1D, 0), (0x1E, 0), (0x1F, 0)],
        b"A",
        (true, 0x100, true),
    ),
    (
        &[(0x1C, 0), (0x1D, 1), (0x1E, 0), (0x1F, 0)],
        b"A",
        (true, 0x100, true),
    ),
    (
        &[(0x1C, 1), (0x1D, 1), (0x1E, 0), (0x1F, 0)],
        b"A",
        (true, 0x10000, true),
    ),
    (
        &[(0x1C, 0), (0x1D, 0), (0x1E, 1), (0x1F, 0)],
        b"A",
        (true, 0x10000, true),
    ),
    (
        &[(0x1C, 0), (0x1D, 0), (0x1E, 2), (0x1F, 0)],
        b"A",
        (true, 0x10000, true),
    ),
    // Without a BANKSIZE it may leave its bank.
    (&[(0x12, 0)], b"A", (true, 0x10000, false)),
];

/// What is reported of that header with bytes changed; and ORG, SEGNUM and ENTRY, where it has the load name.
fn reported(
    alloc: Global,
    changes: &[(usize, u8)],
    name: &[u8],
) -> Result<(Reported, Option<[u32; 3]>), HeaderFault> {
    let mut bytes = HEADER;
    for (at, value) in changes {
        put(&mut bytes, *at, *value);
    }
    let header = read(alloc, &bytes)?;
    let reported = (
        header.name.bytes() == name,
        header.alignment(),
        header.stays_in_bank(),
    );
    if header.load_name != *b"LOAD      " {
        return Ok((reported, None));
    }
    let places = [header.org, u32::from(header.seg_num), header.entry];
    Ok((reported, Some(places)))
}

#[test]
fn fields_are_where_they_stand(rt: HostRuntime) {
    let alloc = rt.alloc();
    let places = Some([0x04030201, 0x0A09, 0x0E0D0C0B]);
    for (changes, name, want) in &CHANGED {
        same(
            &rt,
            changes,
            reported(alloc, changes, name),
            Ok((*want, places)),
        );
    }
}

/// Bits of KIND, and the attributes: dynamic, private, not in special memory, in an absolute bank, reloaded, skipped and relative to a
/// bank.
static ATTRIBUTES: [(u16, [bool; 7]); 9] = [
    (0x0000, [false; 7]),
    (0x8000, [true, false, false, false, false, false, false]),
    (0x4000, [false, true, false, false, false, false, false]),
    (0x1000, [false, false, true, false, false, false, false]),
    (0x0800, [false, false, false, true, false, false, false]),
    (0x0400, [false, false, false, false, true, false, false]),
    (0x0200, [false, false, false, false, false, true, false]),
    (0x0100, [false, false, false, false, false, false, true]),
    (0x20FF, [false; 7]),
];

/// The attributes of the bits, whether a segment with them is static, and its type.
fn attributes(bits: u16) -> ([bool; 7], bool, u16) {
    let kind = Kind { bits };
    let attributes = [
        kind.is_dynamic(),
        kind.is_private(),
        kind.avoids_special(),
        kind.is_absolute_bank(),
        kind.is_reload(),
        kind.is_skip(),
        kind.is_bank_relative(),
    ];
    (attributes, kind.is_static(), u16::from(kind.form()))
}

#[test]
fn attributes_have_their_bits(rt: HostRuntime) {
    for (bits, want) in &ATTRIBUTES {
        let [is_dynamic, ..] = *want;
        same(
            &rt,
            bits,
            attributes(*bits),
            (*want, !is_dynamic, *bits % 32),
        );
    }
}

/// What the header says.
fn made(alloc: Global) -> Result<Header, NameFault>
    ensures { IfOk result (λ header. IsWritable (fields header)) }
{
    Ok(Header {
        byte_count: 0,
        res_spc: 2,
        length: 0x10,
        lab_len: 0,
        version: 2,
        bank_size: 0x10000,
        kind: Kind { bits: 0 },
        org: 0x04030201,
        align: 0x08070605,
        seg_num: 0x0A09,
        entry: 0x0E0D0C0B,
        disp_name: 0,
        disp_data: 0,
        load_name: *b"LOAD      ",
        name: Name::of(alloc, b"A")?,
    })
}

/// Whether the header that is written before a body of a given number of bytes is the one that was read.
fn written(alloc: Global, body: u32) -> Result<Result<bool, WriteHeaderFault>, NameFault> {
    let header = made(alloc)?;
    match write_header(alloc, &header, body) {
        Ok(bytes) => Ok(Ok(bytes.as_slice() == &HEADER[..56])),
        Err(fault) => Ok(Err(fault)),
    }
}

/// Lengths of a body, and whether the header before it is that one. A segment above the limit is too long.
static WRITTEN: [(u32, Result<bool, WriteHeaderFault>); 4] = [
    (1, Ok(true)),
    (16_777_216 - 56, Ok(false)),
    (16_777_216 - 56 + 1, Err(WriteHeaderFault::TooLong)),
    (16_777_216, Err(WriteHeaderFault::TooLong)),
];

#[test]
fn a_written_header_is_the_one_that_was_read(rt: HostRuntime) {
    for (body, want) in &WRITTEN {
        same(&rt, body, written(rt.alloc(), *body), Ok(*want));
    }
}

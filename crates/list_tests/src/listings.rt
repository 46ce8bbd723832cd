//! What no clause says: that memory is enough, and what the definitions make of objects written out.

use orca_asm::assemble;
use std::alloc::Global;
use std::test::Fail;
use w65_list::{ListCause, ListFault, list_source};

/// The object of a source without macro files.
fn object(alloc: Global, source: &[u8]) -> Vec<u8> {
    let macros = Vec::new(alloc);
    match assemble(alloc, source, &macros) {
        Ok(object) => object,
        Err(_) => Vec::new(alloc),
    }
}

/// The listing of an object.
fn listing(alloc: Global, file: &[u8]) -> Vec<u8> {
    if file.len() > 0xFFFF_FFFF {
        return Vec::new(alloc);
    }
    match list_source(alloc, file) {
        Ok(text) => text,
        Err(_) => Vec::new(alloc),
    }
}

/// Sources with the listings of their objects.
static LISTINGS: [(&str, &str); 6] = [
    (
        "A START\n LDA #$6001\n DS 5\n END\n",
        "A START\n KIND $0000\n LONGA ON\n LONGI ON\n LDA #$6001\n DS $00000005\n END\n",
    ),
    (
        "A START\n SEP #$20\n LONGA OFF\n LDA #B\n MVN $02,$01\n JSL B-5\n END\n",
        "A START\n KIND $0000\n LONGA ON\n LONGI ON\n SEP #$20\n LONGA OFF\n LDA #B\n MVN $02,$01\n JSL >B-$00000005\n END\n",
    ),
    (
        " ALIGN 256\n ORG 4096\nA DATA L\nX EQU 5\nY GEQU 6\nB ANOP\nC ENTRY\n ALIGN 2\n ORG *+3\n USING M\n DC R'N'\n DC S'W'\n DC A2'(B+1)*2'\n END\n",
        " ALIGN $00000100\n ORG $00001000\nA DATA L\n KIND $0001\n LONGA ON\n LONGI ON\nX EQU $00000005\nY GEQU $00000006\nB ANOP\nC ENTRY\n ALIGN $00000002\n ORG *+$00000003\n USING M\n DC R'N'\n DC S'W'\n DC A2'(B+$00000001)*$00000002'\n END\n",
    ),
    (
        "A START\n DC H'80FEAD00A9'\n DC A2'N'\n DC H'C210A2'\n DC A2'N'\n DC H'E210A2'\n DC A1'N'\n DC H'A2'\n END\n",
        "A START\n KIND $0000\n LONGA ON\n LONGI ON\n DC H'80FE'\n DC H'AD00'\n LDA #N\n REP #$10\n LDX #N\n SEP #$10\n LONGI OFF\n LDX #N\n DC H'A2'\n END\n",
    ),
    (
        "A START\n REP #$30\n SEP #$30\n LONGA OFF\n LONGI OFF\n ASL A\n RTS\n BRK 1\n LDA ($05),Y\n LDA [$05]\n STA $1234,X\n END\n",
        "A START\n KIND $0000\n LONGA ON\n LONGI ON\n REP #$30\n SEP #$30\n LONGA OFF\n LONGI OFF\n ASL A\n RTS\n BRK $01\n LDA (<$05),Y\n LDA [<$05]\n STA |$1234,X\n END\n",
    ),
    ("", ""),
];

/// Sources that are the listings of their own objects: each form of an expression, each mode with a name and with a number, and
/// runs that end within an instruction.
static OWN_LISTINGS: [&str; 5] = [
    "A START L\n KIND $0000\n LONGA ON\n LONGI ON\n DC A4'*'\n DC A3'-B'\n DC A2'(B+$00000001)*$00000002'\n DC A1'.NOT.B'\n DC A2'B|$00000004'\n DC A2'B/$00000003'\n DC A2'B-$00000001'\n DC A2'B.AND.C'\n DC A2'B.OR.C'\n DC A2'B.EOR.C'\n DC A2'B<=C'\n DC A2'B>=C'\n DC A2'B<>C'\n DC A2'B<C'\n DC A2'B>C'\n DC A2'B=C'\n DC A2'-(-B)'\n END\n",
    "A DATA\n KIND $4001\n LONGA ON\n LONGI ON\n LDA #N\n LDX #N\n LDA <N\n LDA <N,X\n LDX <N,Y\n LDA (<N)\n LDA (<N),Y\n LDA (<N,X)\n LDA [<N]\n LDA [<N],Y\n LDA N,S\n LDA (N,S),Y\n LDA |N\n LDA |N,X\n LDA |N,Y\n JMP (|N)\n JMP (|N,X)\n JML [|N]\n LDA >N\n LDA >N,X\n JSL >N\n JML >N\n BRA N\n BRL N\n PER N\n BRK N\n COP N\n WDM N\n LDA |N+$00000001\n LDA |N-$00000001\n END\n",
    "A START\n KIND $0000\n LONGA ON\n LONGI ON\n LDA #$1234\n LDX #$1234\n LDA <$12\n LDA <$12,X\n LDX <$12,Y\n LDA (<$12)\n LDA (<$12),Y\n LDA (<$12,X)\n LDA [<$12]\n LDA [<$12],Y\n LDA $12,S\n LDA ($12,S),Y\n LDA |$1234\n LDA |$1234,X\n LDA |$1234,Y\n JMP (|$1234)\n JMP (|$1234,X)\n JML [|$1234]\n LDA >$123456\n LDA >$123456,X\n JSL >$123456\n JML >$123456\n DC H'8012'\n DC H'821234'\n DC H'621234'\n BRK $12\n MVN $12,$34\n ROL A\n NOP\n END\n",
    "A START\n KIND $0000\n LONGA ON\n LONGI ON\n DC H'A9'\n DC S'W'\n DC H'A9'\n DC A2'*'\nB ANOP\n DC H'A9'\nC ENTRY\n DC H'AF1234'\n DS $00000001\n END\n",
    "A START\n KIND $0000\n LONGA ON\n LONGI ON\n END\nB DATA\n KIND $0010\n LONGA ON\n LONGI ON\n END\n",
];

#[test]
fn objects_have_their_listings(rt: HostRuntime) -> Result<(), Fail> {
    let alloc = rt.alloc();
    for (source, want) in &LISTINGS {
        let text = listing(alloc, object(alloc, source.as_bytes()).as_slice());
        assert!(rt; text.as_slice() == want.as_bytes(), "{source}");
    }
    Ok(())
}

#[test]
fn listings_are_assembled_and_listed_again(rt: HostRuntime) -> Result<(), Fail> {
    let alloc = rt.alloc();
    for source in &OWN_LISTINGS {
        let file = object(alloc, source.as_bytes());
        assert!(rt; !file.is_empty(), "{source}");
        let text = listing(alloc, file.as_slice());
        assert!(rt; text.as_slice() == source.as_bytes(), "{source}");
    }
    Ok(())
}

#[test]
fn the_listing_of_a_plain_object_gives_its_bytes_again(rt: HostRuntime) -> Result<(), Fail> {
    let alloc = rt.alloc();
    let file = object(alloc, b"A START\n LDA #$6001\n DS 5\n END\n");
    let again = object(alloc, listing(alloc, file.as_slice()).as_slice());
    assert_eq!(rt; file.len(), 66);
    assert!(rt; again.as_slice() == file.as_slice());
    Ok(())
}

/// Changes a byte.
fn put(file: &mut Vec<u8>, at: usize, byte: u8) {
    if at < file.len() {
        file[at] = byte;
    }
}

/// The place at which a file can't be listed, or 0xFFFF_FFFF where that isn't why it has no listing.
fn refused_at(alloc: Global, file: &[u8]) -> u32 {
    if file.len() > 0xFFFF_FFFF {
        return 0xFFFF_FFFF;
    }
    match list_source(alloc, file) {
        Ok(_) => 0xFFFF_FFFF,
        Err(fault) => {
            if fault.cause == ListCause::NotListable && fault.segment == 1 {
                fault.at
            } else {
                0xFFFF_FFFF
            }
        }
    }
}

/// Bytes of the header that can't be listed: KIND, SEGNAME, LOADNAME (two), ALIGN, ENTRY, LENGTH.
static HEADERS: [(usize, u8); 7] = [
    (0x14, 0x02),
    (0x37, 0x61),
    (0x2C, 0x61),
    (0x2D, 0x42),
    (0x1C, 0x03),
    (0x24, 0x01),
    (0x08, 0x05),
];

#[test]
fn headers_that_have_no_line_are_refused_at_the_start(rt: HostRuntime) -> Result<(), Fail> {
    let alloc = rt.alloc();
    for (at, byte) in &HEADERS {
        let mut file = object(alloc, b"A START\n END\n");
        put(&mut file, *at, *byte);
        assert_eq!(rt; refused_at(alloc, file.as_slice()), 0);
    }
    let mut file = object(alloc, b"A START\n END\n");
    put(&mut file, 0x11, 0x80);
    put(&mut file, 0x12, 0);
    assert_eq!(rt; refused_at(alloc, file.as_slice()), 0);
    Ok(())
}

/// LENGTH, a body, and the place of the record that can't be listed.
static BODIES: [(u8, &[u8], u32); 22] = [
    // A formula of an offset, with an attribute, with a bit operator, of numbers alone, and a weak name in a formula.
    (2, b"\xEB\x02\x87\x01\x00\x00\x00\x00\x00", 0x38),
    (2, b"\xEB\x02\x84\x01B\x00\x00", 0x38),
    (2, b"\xEB\x02\x83\x01B\x83\x01C\x12\x00\x00", 0x38),
    (2, b"\xEB\x02\x81\x01\x00\x00\x00\x00\x00", 0x38),
    (2, b"\xEB\x02\x82\x01B\x83\x01C\x01\x00\x00", 0x38),
    // A weak name with another count, and a name in lower case.
    (1, b"\xEB\x01\x82\x01B\x00\x00", 0x38),
    (2, b"\xEB\x02\x83\x01b\x00\x00", 0x38),
    // A name that the segment makes an equate, before and after.
    (
        2,
        b"\xEB\x02\x83\x01B\x00\xF0\x01B\x00\x00N\x00\x81\x01\x00\x00\x00\x00\x00",
        0x38,
    ),
    (
        2,
        b"\xF0\x01B\x00\x00N\x00\x81\x01\x00\x00\x00\x00\xEB\x02\x83\x01B\x00\x00",
        0x45,
    ),
    // ZEXPR, BEXPR, LEXPR and RELEXPR without an opcode, and one after the opcode of another.
    (1, b"\xEC\x01\x83\x01B\x00\x00", 0x38),
    (2, b"\xED\x02\x83\x01B\x00\x00", 0x38),
    (3, b"\xF3\x03\x83\x01B\x00\x00", 0x38),
    (1, b"\xEE\x01\x01\x00\x00\x00\x83\x01B\x00\x00", 0x38),
    (2, b"\x01\xAD\xEC\x01\x83\x01B\x00\x00", 0x3A),
    // An alignment that is none, or more than the header's.
    (0, b"\xE0\x03\x00\x00\x00\x00", 0x38),
    (0, b"\xE0\x02\x00\x00\x00\x00", 0x38),
    // Names in lower case, a private GLOBAL, an equate of no number, and names defined twice.
    (0, b"\xE4\x01b\x00", 0x38),
    (0, b"\xE5\x01b\x00", 0x38),
    (0, b"\xE6\x01B\x00\x00N\x01\x00", 0x38),
    (0, b"\xF0\x01B\x00\x00N\x00\x80\x00\x00", 0x38),
    (0, b"\xEF\x01A\x00\x00N\x00\x00", 0x38),
    (0, b"\xEF\x01B\x00\x00N\x00\xEF\x01B\x00\x00N\x00\x00", 0x3F),
];

/// The segment `A` of this LENGTH with this body.
fn segment(alloc: Global, length: u8, body: &[u8]) -> Vec<u8> {
    let mut file = object(alloc, b"A START\n END\n");
    file.truncate(0x38);
    if file.extend_from_slice(body).is_err() {
        return Vec::new(alloc);
    }
    let size = file.len();
    if size < 0x100 {
        put(&mut file, 0, size as u8);
    }
    put(&mut file, 8, length);
    file
}

#[test]
fn records_that_have_no_line_are_refused_at_their_places(rt: HostRuntime) -> Result<(), Fail> {
    let alloc = rt.alloc();
    for (length, body, place) in &BODIES {
        let file = segment(alloc, *length, body);
        assert_eq!(rt; refused_at(alloc, file.as_slice()), *place);
    }
    Ok(())
}

#[test]
fn other_faults_are_reported(rt: HostRuntime) -> Result<(), Fail> {
    let alloc = rt.alloc();
    let file = segment(alloc, 0, b"\xFF");
    let want = ListFault {
        cause: ListCause::Unsupported,
        segment: 1,
        at: 0x38,
    };
    assert!(rt; file.len() < 0x1000);
    match list_source(alloc, file.as_slice()) {
        Ok(_) => assert!(rt; false),
        Err(fault) => assert!(rt; fault == want),
    }
    Ok(())
}

/// 65,536 instructions of a byte: with START and END there are more lines than a source may have.
fn long_object(alloc: Global) -> Vec<u8> {
    let mut file = segment(alloc, 0, b"\xF2\x00\x00\x01\x00");
    for _ in 0..0x1_0000 {
        if file.push(0xEA).is_err() {
            return Vec::new(alloc);
        }
    }
    if file.push(0x00).is_err() {
        return Vec::new(alloc);
    }
    put(&mut file, 0, 0x3E);
    put(&mut file, 2, 0x01);
    put(&mut file, 10, 0x01);
    file
}

#[test]
fn a_listing_of_too_many_lines_is_refused(rt: HostRuntime) -> Result<(), Fail> {
    let alloc = rt.alloc();
    let file = long_object(alloc);
    let want = ListFault {
        cause: ListCause::TooLong,
        segment: 0,
        at: 0,
    };
    if file.len() > 0xFFFF_FFFF {
        return Ok(());
    }
    match list_source(alloc, file.as_slice()) {
        Ok(_) => assert!(rt; false),
        Err(fault) => assert!(rt; fault == want),
    }
    Ok(())
}

//! Written bodies against bytes that were worked out apart from this code.

ghost use Rattle.std.specs.Prelude.{◌≤◌, map, length};
ghost use Rattle.std.specs.Bool.{OnTrue};
ghost use Rattle.load_meaning.specs.WrittenBody.{AreWritten, IsWrittenPatch};
ghost use Rattle.load_writer.specs.WrittenParts.{seen};

use crate::asserting::same;
use omf_cells::{Body, BodyFault, Patch, body_of};
use std::alloc::{AllocError, Global};

/// Count and shift are those of a patch, and it lies in a part of the segment.
fn is_inside(patch: &Patch, from: usize, size: usize) -> bool
    requires { size ≤ 0xFFFFFF }
    ensures written { OnTrue result (IsWrittenPatch size (seen patch.now)) }
    ensures from { OnTrue result (from ≤ (patch.now).at) }
{
    let _value = *patch;
    let end = patch.at as usize + usize::from(patch.count);
    if patch.count < 1 || patch.count > 4 {
        return false;
    }
    if patch.shift < -31 || patch.shift > 31 {
        return false;
    }
    from <= patch.at as usize && end <= size
}

/// The patches rise, don't overlap and lie inside `size` bytes.
fn are_written(patches: &[Patch], size: usize) -> bool
    requires { size ≤ 0xFFFFFF }
    ensures { OnTrue result (AreWritten size 0 (map seen patches.now)) }
{
    let mut from = 0;
    'patches: for patch in patches {
        if !is_inside(patch, from, size) {
            return false;
        }
        from = patch.at as usize + usize::from(patch.count);
    }
    true
}

fn patch(at: u32, count: u8, shift: i8, segment: u16, offset: u32) -> Patch {
    Patch {
        at,
        count,
        shift,
        segment,
        offset,
    }
}

/// The body, where the patches can be written.
fn written(
    alloc: Global,
    own: u16,
    content: &[u8],
    patches: &Vec<Patch>,
) -> Result<Body, BodyFault> {
    if content.len() > 0xFFFFFF || !are_written(patches, content.len()) {
        return Err(BodyFault::Memory);
    }
    body_of(alloc, own, content, patches)
}

/// The bytes from a place on.
fn following(bytes: &[u8], at: usize) -> &[u8] {
    match bytes.get(at..) {
        Some(rest) => rest,
        None => &[],
    }
}

/// Place, count, shift, segment and offset of a patch.
type Row = (u32, u8, i8, u16, u32);

fn patches_of(alloc: Global, rows: &[Row]) -> Result<Vec<Patch>, AllocError> {
    let mut patches = Vec::new(alloc);
    for (at, count, shift, segment, offset) in rows {
        patches.push(patch(*at, *count, *shift, *segment, *offset))?;
    }
    Ok(patches)
}

/// Whether the segment's body with these patches has these bytes, and how many zeros are left out.
fn body(
    alloc: Global,
    own: u16,
    content: &[u8],
    rows: &[Row],
    bytes: &[u8],
) -> Result<(bool, u32), BodyFault> {
    let patches = patches_of(alloc, rows)?;
    let body = written(alloc, own, content, &patches)?;
    Ok((body.bytes.as_slice() == bytes, body.zeros))
}

/// The segment's own number, its bytes, its patches, the bytes of its body, and how many zeros are left out.
static BODIES: [(u16, &[u8], &[Row], &[u8], u32); 7] = [
    // JSL to the segment's own start.
    (
        1,
        &[0x22, 0, 0, 0],
        &[(1, 3, 0, 1, 0)],
        &[
            0xF2, 0x04, 0, 0, 0, 0x22, 0, 0, 0, 0xF7, 0x03, 0, 0, 0, 0x01, 0x00, 0x01,
        ],
        0,
    ),
    // Three calls through a jump table, which is segment 3.
    (
        1,
        &[0x22, 9, 9, 9, 0x22, 9, 9, 9, 0x22, 9, 9, 9, 0x6B],
        &[(1, 3, 0, 3, 0x12), (5, 3, 0, 3, 0x12), (9, 3, 0, 3, 0x20)],
        &[
            0xF2, 0x0D, 0, 0, 0, 0x22, 0x12, 0, 3, 0x22, 0x12, 0, 3, 0x22, 0x20, 0, 3, 0x6B, 0xF7,
            0x05, 0, 0, 0, 0x02, 0x02, 0x01, 0x05, 0x09,
        ],
        0,
    ),
    // The example of the document.
    (
        1,
        &[0x22, 9, 9, 9, 0xAD, 9, 9, 0x4C, 9, 9, 0, 0],
        &[(1, 3, 0, 3, 0x12), (5, 2, 0, 1, 0x30), (8, 2, 0, 1, 0x40)],
        &[
            0xF2, 0x0A, 0, 0, 0, 0x22, 0x12, 0, 3, 0xAD, 0x30, 0, 0x4C, 0x40, 0, 0xF7, 4, 0, 0, 0,
            0, 1, 5, 8, 0xF7, 3, 0, 0, 0, 2, 0, 1,
        ],
        2,
    ),
    // SUPER of type 0 at 0, of type 14 at 2, of type 37 at 4, cINTERSEG for segments 13 and 0, INTERSEG, cRELOC, RELOC.
    (
        7,
        &[9; 20],
        &[
            (0, 2, 0, 7, 0x1234),
            (2, 2, 0, 1, 0x0102),
            (4, 2, -16, 12, 0x0304),
            (6, 2, 0, 13, 0x0506),
            (8, 2, 0, 0, 0x0708),
            (10, 3, 0, 256, 0x090A),
            (13, 1, -8, 7, 0x0B0C),
            (14, 3, 0, 7, 0x10D0E),
        ],
        &[
            0xF2, 0x14, 0, 0, 0, 0x34, 0x12, 0x02, 0x01, 0x04, 0x03, 0x06, 0x05, 0x08, 0x07, 0x0A,
            0x09, 0, 0x0C, 0x0E, 0x0D, 0x01, 9, 9, 9, 0xF6, 2, 0, 6, 0, 13, 0x06, 0x05, 0xF6, 2, 0,
            8, 0, 0, 0x08, 0x07, 0xE3, 3, 0, 10, 0, 0, 0, 1, 0, 0, 1, 0x0A, 0x09, 0, 0, 0xF5, 1,
            0xF8, 13, 0, 0x0C, 0x0B, 0xE2, 3, 0, 14, 0, 0, 0, 0x0E, 0x0D, 0x01, 0, 0xF7, 3, 0, 0,
            0, 0, 0, 0, 0xF7, 3, 0, 0, 0, 14, 0, 2, 0xF7, 3, 0, 0, 0, 37, 0, 4,
        ],
        0,
    ),
    // Zeros at the end are left out.
    (7, &[0, 0, 0], &[], &[], 3),
    (7, &[0, 5, 0, 0], &[], &[0xF2, 2, 0, 0, 0, 0, 5], 2),
    // Zeros of a patch are written.
    (
        7,
        &[0, 5, 0, 0],
        &[(1, 2, 0, 7, 0)],
        &[0xF2, 3, 0, 0, 0, 0, 0, 0, 0xF7, 3, 0, 0, 0, 0, 0, 1],
        1,
    ),
];

#[test]
fn bodies_have_their_bytes(rt: HostRuntime) {
    for (own, content, rows, bytes, zeros) in &BODIES {
        let reported = body(rt.alloc(), *own, content, rows, bytes);
        same(&rt, rows, reported, Ok((true, *zeros)));
    }
}

/// Adds patches of two bytes from a place on, for the segments 12 to 1 in falling order.
fn push_falling(patches: &mut Vec<Patch>, from: u32, shift: i8) -> Result<(), AllocError> {
    let mut at = from;
    for segment in (1..13u16).rev() {
        patches.push(patch(at, 2, shift, segment, 0xFFFF))?;
        at = at.wrapping_add(2);
    }
    Ok(())
}

/// Types 37 to 14 in falling order, and then 2, 1 and 0, each of three bytes or two.
fn patches_of_types(alloc: Global) -> Result<Vec<Patch>, AllocError> {
    let mut patches = Vec::new(alloc);
    push_falling(&mut patches, 0, -16)?;
    push_falling(&mut patches, 24, 0)?;
    patches.push(patch(48, 3, 0, 255, 0xFFFF))?;
    patches.push(patch(51, 3, 0, 20, 0xFFFF))?;
    patches.push(patch(54, 2, 0, 20, 0xFFFF))?;
    Ok(patches)
}

/// Adds a SUPER of a type with one location in the first page.
fn push_super(out: &mut Vec<u8>, form: u8, low: u8) -> Result<(), AllocError> {
    out.extend_from_slice(&[0xF7, 3, 0, 0, 0, form, 0, low])?;
    Ok(())
}

/// One SUPER of each of these types.
fn supers(alloc: Global) -> Result<Vec<u8>, AllocError> {
    let mut out = Vec::new(alloc);
    push_super(&mut out, 0, 54)?;
    push_super(&mut out, 1, 51)?;
    push_super(&mut out, 2, 48)?;
    let mut low = 46u8;
    for form in 14..38u8 {
        push_super(&mut out, form, low)?;
        low = low.wrapping_sub(2);
    }
    Ok(out)
}

/// Whether one SUPER of each type follows the data of a body with these patches, and how many zeros are left out.
fn records_of_types(alloc: Global) -> Result<(bool, u32), BodyFault> {
    let patches = patches_of_types(alloc)?;
    let body = written(alloc, 20, &[0; 56], &patches)?;
    let wanted = supers(alloc)?;
    Ok((following(&body.bytes, 61) == wanted.as_slice(), body.zeros))
}

/// Whether these bytes follow the type in the SUPER of two locations of own references, in the first page and after a gap of pages.
fn is_gap(alloc: Global, pages: u32, want: &[u8]) -> Result<bool, BodyFault> {
    let content = vec![in alloc; 0u8; 0x10000]?;
    let second = pages.wrapping_add(1).wrapping_mul(256);
    let patches = patches_of(alloc, &[(0, 2, 0, 7, 0), (second, 2, 0, 7, 0)])?;
    let body = written(alloc, 7, &content, &patches)?;
    // after the code, the length and the data of LCONST, and the code, the length and the type of SUPER
    let at = usize::wrapping_sub(0x10000 + 5 + 6, body.zeros as usize);
    Ok(following(&body.bytes, at) == want)
}

/// Gaps of pages, and the bytes that follow the type.
static GAPS: [(u32, &[u8]); 6] = [
    (0, &[0, 0, 0, 0]),
    (1, &[0, 0, 0x81, 0, 0]),
    (127, &[0, 0, 0xFF, 0, 0]),
    (128, &[0, 0, 0xFF, 0x81, 0, 0]),
    (129, &[0, 0, 0xFF, 0x82, 0, 0]),
    (254, &[0, 0, 0xFF, 0xFF, 0, 0]),
];

#[test]
fn each_type_of_super_once_and_pages_are_passed_over(rt: HostRuntime) {
    let alloc = rt.alloc();
    same(&rt, &"types", records_of_types(alloc), Ok((true, 0)));
    for (pages, want) in &GAPS {
        same(&rt, pages, is_gap(alloc, *pages, want), Ok(true));
    }
}

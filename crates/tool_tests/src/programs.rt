// A load file of several segments, made by hand from the format.
use std::test::Fail;

/// A load segment, whose name is empty.
#[derive(Clone, Copy)]
pub(crate) struct Segment {
    /// SEGNUM.
    pub(crate) number: u8,
    /// KIND, its low byte first.
    pub(crate) kind: [u8; 2],
    /// LENGTH, its low byte first.
    pub(crate) length: [u8; 4],
    /// RESSPC.
    pub(crate) res_spc: u8,
    /// BANKSIZE, its low byte first.
    pub(crate) bank_size: [u8; 4],
    /// ORG, its low byte first.
    pub(crate) org: [u8; 4],
    /// ENTRY.
    pub(crate) entry: u8,
    /// What follows its header.
    pub(crate) body: &'static [u8],
}

/// A first code segment without bytes, which stays in a bank.
const CODE: Segment = Segment {
    number: 1,
    kind: [0, 0],
    length: [0; 4],
    res_spc: 0,
    bank_size: [0, 0, 1, 0],
    org: [0; 4],
    entry: 0,
    body: &[0],
};

/// A program of six segments: code with patches to the others, data, a dynamic one, a jump table of one entry, a skipped
/// one, and a direct page and stack.
pub(crate) static SIX: [Segment; 6] = [
    Segment {
        length: [12, 0, 0, 0],
        body: &[
            0xF2, 12, 0, 0, 0, 0xAF, 0, 0, 0, 0x22, 0, 0, 0, 0x4C, 0, 0, 0x60, // the data
            0xE3, 3, 0, 1, 0, 0, 0, 1, 0, 2, 0, 1, 0, 0, 0, // the place of segment 2 plus 1
            0xE3, 3, 0, 5, 0, 0, 0, 1, 0, 4, 0, 18, 0, 0, 0, // that of the table's entry
            0xE2, 2, 0, 9, 0, 0, 0, 11, 0, 0, 0, // the own place plus 11
            0,
        ],
        ..CODE
    },
    Segment {
        number: 2,
        kind: [1, 0],
        length: [4, 0, 0, 0],
        res_spc: 2,
        body: &[0xF2, 2, 0, 0, 0, 0x11, 0x22, 0],
        ..CODE
    },
    Segment {
        number: 3,
        kind: [0, 0x80],
        length: [2, 0, 0, 0],
        body: &[0xF2, 2, 0, 0, 0, 0xEA, 0x6B, 0],
        ..CODE
    },
    Segment {
        number: 4,
        kind: [2, 0],
        length: [26, 0, 0, 0],
        body: &[
            0xF2, 26, 0, 0, 0, 0, 0, 0, 0, 0, 0, 0, 0, // zeros
            0, 0, 1, 0, 3, 0, 1, 0, 0, 0, 0x22, 0, 0xF0, 0xE1, 0, 0, 0, 0, // the entry
            0,
        ],
        ..CODE
    },
    Segment {
        number: 5,
        kind: [1, 2],
        length: [1, 0, 0, 0],
        body: &[0xF2, 1, 0, 0, 0, 0x55, 0],
        ..CODE
    },
    Segment {
        number: 6,
        kind: [0x12, 0],
        length: [0x80, 0, 0, 0],
        res_spc: 0x80,
        ..CODE
    },
];

/// The displacement of KIND's high byte of its segment 2.
pub(crate) const DATA_KIND: usize = 0x87;

/// The second byte of its data.
pub(crate) const DATA_BYTE: usize = 0x72 + 0x37 + 6;

/// Appends a load segment.
pub(crate) fn put_segment(out: &mut Vec<u8>, segment: &Segment) -> Result<(), Fail> {
    let [s0, s1, s2, s3] = u32::try_from(0x37 + segment.body.len())?.to_le_bytes();
    let [l0, l1, l2, l3] = segment.length;
    let [b0, b1, b2, b3] = segment.bank_size;
    let [k0, k1] = segment.kind;
    let [o0, o1, o2, o3] = segment.org;
    let (res_spc, number, entry) = (segment.res_spc, segment.number, segment.entry);
    let header = [
        s0, s1, s2, s3, res_spc, 0, 0, 0, l0, l1, l2, l3, 0, 0, 4, 2, b0, b1, b2, b3, k0, k1, 0, 0,
        o0, o1, o2, o3, 0, 0, 0, 0, 0, 0, number, 0, entry, 0, 0, 0, 0x2C, 0, 0x37, 0,
    ];
    out.extend_from_slice(&header)?;
    out.extend_from_slice(b"          \0")?;
    out.extend_from_slice(segment.body)?;
    Ok(())
}

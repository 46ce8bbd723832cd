//! Headers, as C sees them.

ghost use Rattle.std.specs.Prelude.{◌≡◌};
ghost use Rattle.omf_header.specs.View.{fields};
ghost use Rattle.omf_c_files.specs.Views.{ReportsFields};

use crate::fault::zero_padded;
use omf_header::Header;

/// The fields of a segment's header. Displacements are in the segment, counted from its start.
#[repr(C)]
#[derive(Drop)]
pub struct OmfHeader {
    /// The bytes of the segment in the file (BYTECNT, in version 1 512 times the number of blocks).
    pub byte_count: u32,
    /// The zero bytes after the body's bytes in memory (RESSPC).
    pub res_spc: u32,
    /// The bytes of the segment in memory, RESSPC among them (LENGTH).
    pub length: u32,
    /// 0 where the segment may cross banks, else at most $10000 (BANKSIZE).
    pub bank_size: u32,
    /// The address that the segment asks for, or 0 (ORG).
    pub org: u32,
    /// The alignment that the segment asks for, or 0 (ALIGN).
    pub align: u32,
    /// The offset in the segment at which it is entered (ENTRY).
    pub entry: u32,
    /// The type and the attributes as in version 2 (KIND).
    pub kind: u16,
    /// The number that the file gives the segment (SEGNUM).
    pub seg_num: u16,
    /// The displacement of the names (DISPNAME).
    pub disp_name: u16,
    /// The displacement of the body (DISPDATA).
    pub disp_data: u16,
    /// How many bytes a name takes, or 0 where each has a length byte (LABLEN).
    pub lab_len: u8,
    /// The version of the format, 1 or 2 (VERSION).
    pub version: u8,
    /// LOADNAME, padded with spaces.
    pub load_name: [u8; 10],
    /// How many bytes SEGNAME has, without the spaces that pad it under a LABLEN above 0.
    pub name_size: u32,
    /// SEGNAME, with zeros after it.
    pub name: [u8; 256],
}

/// A header, as C sees it.
pub fn to_omf_header(header: &Header) -> OmfHeader
    ensures { ReportsFields result (fields header.now) }
{
    let name = header.name.bytes();
    OmfHeader {
        byte_count: header.byte_count,
        res_spc: header.res_spc,
        length: header.length,
        bank_size: header.bank_size,
        org: header.org,
        align: header.align,
        entry: header.entry,
        kind: header.kind.bits,
        seg_num: header.seg_num,
        disp_name: header.disp_name,
        disp_data: header.disp_data,
        lab_len: header.lab_len,
        version: header.version,
        load_name: header.load_name,
        name_size: name.len() as u32,
        name: zero_padded(name),
    }
}

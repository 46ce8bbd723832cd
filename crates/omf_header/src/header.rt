//! A header as a value.

ghost use Rattle.std.specs.Prelude.{◌≡◌};
ghost use Rattle.omf_format.specs.Header.{alignment_of, stays_in_bank};

use crate::kind::Kind;
use omf_base::Name;
use std::alloc::{AllocError, Global};

/// A segment's header. Displacements are in the segment, counted from its start.
#[derive(PartialEq, Eq, Drop)]
pub struct Header {
    /// The bytes of the segment in the file (BYTECNT, in version 1 512 times the number of blocks).
    pub byte_count: u32,
    /// The zero bytes after the body's bytes in memory (RESSPC).
    pub res_spc: u32,
    /// The bytes of the segment in memory, RESSPC among them (LENGTH).
    pub length: u32,
    /// How many bytes a name takes, or 0 where each has a length byte (LABLEN).
    pub lab_len: u8,
    /// The version of the format, 1 or 2 (VERSION).
    pub version: u8,
    /// 0 where the segment may cross banks, else at most $10000 (BANKSIZE).
    pub bank_size: u32,
    /// The type and the attributes (KIND; a header of version 1 has fewer, in one byte).
    pub kind: Kind,
    /// The address that the segment asks for, or 0 (ORG).
    pub org: u32,
    /// The alignment that the segment asks for, or 0 (ALIGN).
    pub align: u32,
    /// The number that the file gives the segment (SEGNUM).
    pub seg_num: u16,
    /// The offset in the segment at which it is entered (ENTRY).
    pub entry: u32,
    /// The displacement of the names (DISPNAME).
    pub disp_name: u16,
    /// The displacement of the body (DISPDATA).
    pub disp_data: u16,
    /// LOADNAME, padded with spaces.
    pub load_name: [u8; 10],
    /// SEGNAME, without the spaces that pad it under a LABLEN above 0.
    pub name: Name,
}

impl Header {
    ghost use Rattle.std.specs.Prelude.{◌≡◌, IfOk};
    ghost use Rattle.omf_header.specs.View.{fields};
    ghost use Rattle.omf_header.specs.Written.{written, with_reserved_zeros};

    /// A header of version 2 that has no zeros after the data, asks for no address and no alignment, and is entered at the start. What its
    /// writing gives it is 0.
    pub fn written(
        load_name: [u8; 10],
        name: Name,
        kind: Kind,
        length: u32,
        bank_size: u32,
        seg_num: u16,
    ) -> Header
        ensures { fields result ≡ written load_name name kind.bits length bank_size seg_num }
    {
        Header {
            byte_count: 0,
            res_spc: 0,
            length,
            lab_len: 0,
            version: 2,
            bank_size,
            kind,
            org: 0,
            align: 0,
            seg_num,
            entry: 0,
            disp_name: 0,
            disp_data: 0,
            load_name,
            name,
        }
    }

    /// A copy of version 2 with `zeros` zeros after the data. What its writing gives it is 0.
    pub(crate) fn with_reserved_zeros(
        &self,
        alloc: Global,
        zeros: u32,
    ) -> Result<Header, AllocError>
        ensures { IfOk result (λ header. fields header ≡ with_reserved_zeros (fields self.now) zeros) }
    {
        let name = Name::from_vec(Vec::from_slice(alloc, self.name.bytes())?);
        Ok(Header {
            byte_count: 0,
            res_spc: zeros,
            length: self.length,
            lab_len: 0,
            version: 2,
            bank_size: self.bank_size,
            kind: self.kind,
            org: self.org,
            align: self.align,
            seg_num: self.seg_num,
            entry: self.entry,
            disp_name: 0,
            disp_data: 0,
            load_name: self.load_name,
            name,
        })
    }

    /// Of what the segment's address is a multiple: 1 for ALIGN 0, $100 for an ALIGN up to $100, and $10000 for a greater
    /// one.
    pub fn alignment(&self) -> u32
        ensures { result ≡ alignment_of self.now.align }
    {
        match self.align {
            0 => 1,
            1..=0x100 => 0x100,
            _ => 0x10000,
        }
    }

    /// BANKSIZE isn't 0: the segment may not cross banks.
    pub fn stays_in_bank(&self) -> bool
        ensures { result ≡ stays_in_bank self.now.bank_size }
    {
        self.bank_size != 0
    }
}

//! The names that a load file gives to others: its ENTRY records.

ghost use Rattle.std.specs.Prelude.{◌≡◌, ◌+◌, ◌≤◌, ◌++◌, length, map, OnOk};
ghost use Rattle.std.specs.List.{flat_map};
ghost use Rattle.omf_format.specs.Reading.{records_of, IsBody};
ghost use Rattle.load_meaning.specs.Exports.{exports_of_record};
ghost use Rattle.omf_records.specs.View as records;
ghost use Rattle.load_tables.specs.View.{seen_export};

use omf_records::{Rec, Records};
use std::alloc::AllocError;

/// A name, and the place that it represents.
#[derive(Clone, Copy, Debug, PartialEq, Eq)]
pub struct Export<'a> {
    pub name: &'a [u8],
    pub segment: u16,
    pub offset: u32,
    /// The number of the segment whose body has the record.
    pub holder: u16,
}

/// Adds what a record of the segment with this number exports.
fn add_export<'a>(
    rec: &Rec<'a>,
    holder: u16,
    exports: &mut Vec<Export<'a>>,
) -> Result<(), AllocError>
    ensures value { OnOk result (map seen_export exports.new.items ≡ map seen_export exports.old.items ++ exports_of_record holder (records.view rec.now)) }
    ensures one { OnOk result (length exports.new.items ≤ length exports.old.items + 1) }
{
    match *rec {
        Rec::Entry {
            segment,
            offset,
            name,
        } => {
            exports.push(Export {
                name,
                segment,
                offset,
                holder,
            })?;
            Ok(())
        }
        Rec::End
        | Rec::Const { .. }
        | Rec::LongConst { .. }
        | Rec::Align { .. }
        | Rec::Org { .. }
        | Rec::Space { .. }
        | Rec::Reloc { .. }
        | Rec::InterSeg { .. }
        | Rec::ShortReloc { .. }
        | Rec::ShortInterSeg { .. }
        | Rec::Super { .. }
        | Rec::Using { .. }
        | Rec::Strong { .. }
        | Rec::Label { .. }
        | Rec::Equate { .. }
        | Rec::Formula { .. } => Ok(()),
    }
}

/// Adds what the records of the segment with this number export, of which there are no more than bytes.
pub fn add_exports<'a>(
    records: Records<'a>,
    holder: u16,
    exports: &mut Vec<Export<'a>>,
) -> Result<(), AllocError>
    requires { IsBody records }
    ensures value { OnOk result (map seen_export exports.new.items
        ≡ map seen_export exports.old.items ++ flat_map (λ found. exports_of_record holder found.1) (records_of records.entry)) }
    ensures few { OnOk result (length exports.new.items ≤ length exports.old.items + length records.entry.left) }
{
    let mut records = records;
    'records: loop {
        match records.next() {
            Ok(None) => return Ok(()),
            Ok(Some(found)) => add_export(&found.1, holder, exports)?,
            Err(_) => unreachable!(),
        }
    }
}

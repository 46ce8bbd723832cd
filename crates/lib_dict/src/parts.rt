//! The three records of a dictionary.

ghost use Rattle.std.specs.Prelude.{◌≡◌, option_map};
ghost use Rattle.omf_format.specs.Reading.{IsBody, records_of};
ghost use Rattle.omf_records.specs.View.{view};
ghost use Rattle.load_meaning.specs.Pathnames.{long_bytes};
ghost use Rattle.lib_dict.specs.Parts.{seen_parts, TakesLong, TakesLast, ArePartsOf};

use omf_records::{Rec, Records};

/// What the three records hold.
#[derive(Clone, Copy)]
pub struct Parts<'a> {
    /// File numbers with names.
    pub first: &'a [u8],
    /// Rows.
    pub second: &'a [u8],
    /// The displacement in the file of the second record.
    pub at: u32,
    /// The rows' names.
    pub third: &'a [u8],
}

/// The bytes of an LCONST.
fn long_bytes<'a>(rec: &Rec<'a>) -> Option<&'a [u8]>
    ensures { option_map (λ bytes. bytes.now) result ≡ long_bytes (view rec.now) }
{
    match *rec {
        Rec::LongConst { bytes } => Some(bytes),
        Rec::End
        | Rec::Const { .. }
        | Rec::Align { .. }
        | Rec::Org { .. }
        | Rec::Space { .. }
        | Rec::Reloc { .. }
        | Rec::InterSeg { .. }
        | Rec::ShortReloc { .. }
        | Rec::ShortInterSeg { .. }
        | Rec::Super { .. }
        | Rec::Using { .. }
        | Rec::Strong { .. }
        | Rec::Label { .. }
        | Rec::Equate { .. }
        | Rec::Formula { .. }
        | Rec::Entry { .. } => None,
    }
}

/// The next record with its displacement, where it is an LCONST.
fn next_long<'a>(records: &mut Records<'a>) -> Option<(u32, &'a [u8])>
    ensures { TakesLong records.old records.new (option_map (λ found. (found.0, found.1.now)) result) }
{
    match records.next() {
        Ok(Some(found)) => match long_bytes(&found.1) {
            Some(bytes) => Some((found.0, bytes)),
            None => None,
        },
        Ok(None) => None,
        Err(_) => None,
    }
}

/// There is one record more, and it is the last.
fn takes_last(records: &mut Records) -> bool
    ensures { TakesLast records.old result }
{
    match records.next() {
        Ok(Some(_)) => match records.next() {
            Ok(Some(_)) => false,
            Ok(None) => true,
            Err(_) => false,
        },
        Ok(None) => false,
        Err(_) => false,
    }
}

/// The three records of a body that has nothing else but END.
pub fn parts_of<'a>(records: Records<'a>) -> Option<Parts<'a>>
    requires { IsBody records }
    ensures { ArePartsOf (option_map seen_parts result) (records_of records.entry) }
{
    let mut records = records;
    let (_, first) = next_long(&mut records)?;
    let (at, second) = next_long(&mut records)?;
    let (_, third) = next_long(&mut records)?;
    if takes_last(&mut records) {
        Some(Parts {
            first,
            second,
            at,
            third,
        })
    } else {
        None
    }
}

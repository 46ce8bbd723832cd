//! The bytes that one record puts into its segment.

ghost use Rattle.std.specs.Prelude.{◌≡◌, ◌+◌, ◌<◌, ◌≤◌, ◌^◌, ◌++◌, length, take, drop};
ghost use Rattle.omf_format.specs.Record.{content_of};
ghost use Rattle.omf_records.specs.View.{view};

use omf_records::Rec;

/// How many they are.
pub fn content_size(rec: &Rec) -> u64
    ensures value { result ≡ length (content_of (view rec.now)) }
    ensures small { result < 2 ^ 63 }
{
    match rec {
        Rec::End => 0,
        Rec::Const { bytes } | Rec::LongConst { bytes } => bytes.len() as u64,
        Rec::Space { n } => u64::from(*n),
        Rec::Align { .. }
        | Rec::Org { .. }
        | Rec::Reloc { .. }
        | Rec::InterSeg { .. }
        | Rec::ShortReloc { .. }
        | Rec::ShortInterSeg { .. }
        | Rec::Super { .. }
        | Rec::Using { .. }
        | Rec::Strong { .. }
        | Rec::Label { .. }
        | Rec::Equate { .. }
        | Rec::Formula { .. }
        | Rec::Entry { .. } => 0,
    }
}

/// Writes them over those from a place on.
pub fn write_content(rec: &Rec, out: &mut [u8], at: usize)
    requires { at + length (content_of (view rec.now)) ≤ length out.old }
    ensures { out.new ≡ take at out.old ++ content_of (view rec.now) ++ drop (at + length (content_of (view rec.now))) out.old }
{
    match rec {
        Rec::End => {}
        Rec::Const { bytes } | Rec::LongConst { bytes } => {
            out[at..at + bytes.len()].copy_from_slice(bytes);
        }
        Rec::Space { n } => out[at..at + *n as usize].fill(0),
        Rec::Align { .. }
        | Rec::Org { .. }
        | Rec::Reloc { .. }
        | Rec::InterSeg { .. }
        | Rec::ShortReloc { .. }
        | Rec::ShortInterSeg { .. }
        | Rec::Super { .. }
        | Rec::Using { .. }
        | Rec::Strong { .. }
        | Rec::Label { .. }
        | Rec::Equate { .. }
        | Rec::Formula { .. }
        | Rec::Entry { .. } => {}
    }
}

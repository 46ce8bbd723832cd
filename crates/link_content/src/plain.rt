//! What a record without an expression puts into its load segment.

ghost use Rattle.std.specs.Prelude.{◌≡◌, ◌+◌, ◌<◌, ◌^◌, ◌++◌, List, OnOk, length};
ghost use Rattle.load_meaning.specs.Cells.{Cell};
ghost use Rattle.object_meaning.specs.Sizes.{size_at};
ghost use Rattle.omf_records.specs.View.{view};
ghost use Rattle.link_content.specs.Contents.{HoldsCells};
ghost use Rattle.link_content.specs.Plain.{plain_cells};

use crate::content::LoadContent;
use omf_base::padding;
use omf_records::Rec;
use std::alloc::AllocError;

/// Puts what a record gives that is at this place of its segment; an expression gives nothing here.
pub fn put_plain<'a>(
    content: &mut LoadContent<'a>,
    rec: &Rec<'a>,
    location: u32,
) -> Result<(), AllocError>
    requires { length (content.old).bytes + size_at location (view rec.now) < 2 ^ 32 }
    ensures { OnOk result ((cells : List Cell) → HoldsCells cells content.old → HoldsCells (cells ++ plain_cells location (view rec.now)) content.new) }
{
    match rec {
        Rec::Const { bytes } => content.lend_bytes(bytes),
        Rec::LongConst { bytes } => content.lend_bytes(bytes),
        Rec::Align { n } => {
            content.put_zeros(padding(*n, location) as usize);
            Ok(())
        }
        Rec::Org { n } => {
            content.put_zeros(*n as usize);
            Ok(())
        }
        Rec::Space { n } => {
            content.put_zeros(*n as usize);
            Ok(())
        }
        Rec::End
        | Rec::Reloc { .. }
        | Rec::InterSeg { .. }
        | Rec::ShortReloc { .. }
        | Rec::ShortInterSeg { .. }
        | Rec::Super { .. }
        | Rec::Using { .. }
        | Rec::Strong { .. }
        | Rec::Label { .. }
        | Rec::Equate { .. }
        | Rec::Formula { .. }
        | Rec::Entry { .. } => Ok(()),
    }
}

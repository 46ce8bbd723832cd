//! The segments of a load file, each with its number and the size of its data checked.

ghost use Rattle.std.specs.Prelude.{◌≡◌, ◌<◌, ◌^◌, length, map, option_map, IfSome};
ghost use Rattle.load_meaning.specs.Loadable.{shape_fault, first_in};
ghost use Rattle.load_meaning.specs.laws.Steps.{in_segment};
ghost use Rattle.omf_records.specs.Segments.{segment_of_view};
ghost use Rattle.load_content.specs.Views.{IsLoadView, AreShown};

use load_content::is_longer;
use load_meaning::{LoadCause, LoadFault};
use omf_records::SegmentView;

/// What is wrong with the segment that has this number.
fn fault_of(view: &SegmentView, number: u32) -> Option<LoadFault>
    requires short { length view.now.file.now < 2 ^ 32 }
    requires shown { IsLoadView view.now.file.now view.now }
    ensures value { result ≡ option_map (in_segment number) (shape_fault number (segment_of_view view.now)) }
    ensures named { IfSome result (λ fault. fault.cause ≡ LoadCause.Memory → ⊥) }
{
    if u32::from(view.header.seg_num) != number {
        return Some(LoadFault {
            cause: LoadCause::Sequence,
            segment: number,
            at: view.start,
        });
    }
    if is_longer(view.records(), view.header.length) {
        return Some(LoadFault {
            cause: LoadCause::DataTooLong,
            segment: number,
            at: view.start,
        });
    }
    None
}

/// The first fault of phase 2, segment by segment.
pub fn check_shapes(views: &Vec<SegmentView>) -> Option<LoadFault>
    requires { AreShown views.now.items }
    ensures value { result ≡ first_in shape_fault 1 (map segment_of_view views.now.items) }
    ensures named { IfSome result (λ fault. fault.cause ≡ LoadCause.Memory → ⊥) }
{
    let mut number = 1;
    'views: for view in views {
        match fault_of(view, number) {
            Some(fault) => return Some(fault),
            None => {}
        }
        number += 1;
    }
    None
}

//! Run-time library files: load files whose segments are all dynamic, and none skipped.

ghost use Rattle.std.specs.Prelude.{◌≡◌, ◌+◌, ◌<◌, ◌^◌, length, map, option_map, IfSome};
ghost use Rattle.load_meaning.specs.Loadable.{first_in};
ghost use Rattle.load_meaning.specs.laws.Steps.{in_segment};
ghost use Rattle.load_meaning.specs.Runtime.{kind_fault};
ghost use Rattle.omf_records.specs.Segments.{segment_of_view};

use load_meaning::{LoadCause, LoadFault};
use omf_records::SegmentView;

/// Why the segment with this number isn't allowed in a run-time library file.
fn fault_of(view: &SegmentView, number: u32) -> Option<LoadFault>
    ensures value { result ≡ option_map (in_segment number) (kind_fault number (segment_of_view view.now)) }
    ensures named { IfSome result (λ fault. fault.cause ≡ LoadCause.Memory → ⊥) }
{
    if view.header.kind.is_dynamic() && !view.header.kind.is_skip() {
        return None;
    }
    Some(LoadFault {
        cause: LoadCause::NotLoadFile,
        segment: number,
        at: view.start,
    })
}

/// The first segment that isn't allowed there.
pub fn check_kinds(views: &Vec<SegmentView>) -> Option<LoadFault>
    requires { length views.now.items + 1 < 2 ^ 32 }
    ensures value { result ≡ first_in kind_fault 1 (map segment_of_view views.now.items) }
    ensures named { IfSome result (λ fault. fault.cause ≡ LoadCause.Memory → ⊥) }
{
    let mut number = 1;
    'views: for view in views {
        match fault_of(view, number) {
            Some(fault) => return Some(fault),
            None => {}
        }
        number += 1;
    }
    None
}

//! Where entries of a jump table lead, as C sees it.

ghost use Rattle.std.specs.Prelude.{◌≡◌};
ghost use Rattle.omf_c_files.specs.Views.{target_view};

use load_meaning::Target;

/// A place in a dynamic segment, to which an entry of a jump table leads.
#[repr(C)]
#[derive(Clone, Copy, Drop)]
pub struct OmfTarget {
    /// The number of the file, from 1.
    pub file: u16,
    /// The number of the segment in that file, from 1.
    pub segment: u16,
    /// The offset in the segment.
    pub offset: u32,
}

/// A target, as C sees it.
pub fn to_omf_target(target: Target) -> OmfTarget
    ensures { result ≡ target_view target }
{
    OmfTarget {
        file: target.file,
        segment: target.segment,
        offset: target.offset,
    }
}

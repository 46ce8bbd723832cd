//! What a file exports, as C sees it.

ghost use Rattle.std.specs.Prelude.{◌≡◌};
ghost use Rattle.load_tables.specs.View.{seen_export};
ghost use Rattle.omf_c_files.specs.Views.{export_view};

use load_tables::Export;

/// The place that an exported name represents.
#[repr(C)]
#[derive(Clone, Copy, Drop)]
pub struct OmfExport {
    /// The offset in the segment.
    pub offset: u32,
    /// The number of the segment, from 1.
    pub segment: u16,
}

/// An exported place, as C sees it.
pub fn to_omf_export(export: &Export<'_>) -> OmfExport
    ensures { result ≡ export_view (seen_export export.now) }
{
    OmfExport {
        offset: export.offset,
        segment: export.segment,
    }
}

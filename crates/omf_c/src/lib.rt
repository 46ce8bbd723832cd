//! What C and C++ call: load files are described and placed, and sources are assembled, files linked, libraries made and files listed, each
//! into the caller's room. `omf.h` declares the same. No call keeps anything: what it takes of memory it gives back at its end.
#![tactic(auto)]

mod making;
mod naming;
mod opening;

pub use making::{
    omf_assemble, omf_compact, omf_dump, omf_expand, omf_library, omf_link, omf_link_runtime,
    omf_link_with, omf_list, omf_map, omf_map_runtime, omf_map_with,
};
pub use naming::omf_cause_name;
pub use omf_c_files::{OmfExport, OmfFault, OmfFileView, OmfHeader, OmfTarget};
pub use omf_c_making::{OmfBytes, OmfFile};
pub use opening::{
    omf_close, omf_entries, omf_export, omf_exports, omf_header, omf_is_runtime, omf_open,
    omf_path, omf_paths, omf_place, omf_segments,
};

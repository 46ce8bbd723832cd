//! The segments of a file.

ghost use Rattle.std.specs.Prelude.{◌≡◌, ◌+◌, ◌<◌, ◌≤◌, ◌^◌, length, take, drop, IfOk, IfErr};
ghost use Rattle.omf_format.specs.File.{body_reader};

use crate::layout::Layout;
use crate::reading::Records;
use omf_header::Header;

/// A segment of a file: where it starts, its header, and the file that it is in.
#[derive(Drop)]
pub struct SegmentView<'a> {
    /// The displacement of the segment in the file.
    pub start: u32,
    pub header: Header,
    pub file: &'a [u8],
}

impl<'a> SegmentView<'a> {
    ghost use Rattle.omf_header.specs.View.{fields};
    ghost use Rattle.omf_records.specs.Segments.{placed_view, IsPlaced};

    /// A reader at the start of the segment's body. Its records borrow slices of the file.
    #[tactic(auto, unfolding(omf_format::specs::File::body_reader))]
    pub fn records(&self) -> Records<'a>
        requires { IsPlaced (placed_view self.now) }
        ensures { result ≡ body_reader self.now.start (fields self.now.header) self.now.file.now }
    {
        let start = self.start as usize;
        let end = start + self.header.byte_count as usize;
        let body = bytes_between(self.file, start + self.header.disp_data as usize, end);
        let layout = Layout {
            lab_len: self.header.lab_len,
            version: self.header.version,
        };
        Records::new(end as u32, body, layout)
    }
}

/// The bytes from one displacement up to another.
fn bytes_between(bytes: &[u8], from: usize, to: usize) -> &[u8]
    requires ordered { from ≤ to }
    requires within { to ≤ length bytes.now }
    ensures value { result.now ≡ drop from (take to bytes.now) }
    ensures size { length result.now ≤ to }
{
    &bytes[from..to]
}

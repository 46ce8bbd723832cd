//! The name of a segment, borrowed from the file.

ghost use Rattle.std.specs.Prelude.{◌≡◌, ◌+◌, ◌<◌, ◌≤◌, ◌^◌, ◌==◌, if◌then◌else◌, length, take, drop};
ghost use Rattle.omf_records.specs.Segments.{placed_view, IsPlaced};

use omf_records::SegmentView;

/// `size` bytes from a displacement on.
fn bytes_at(bytes: &[u8], from: usize, size: usize) -> &[u8]
    requires { from + size ≤ length bytes.now }
    ensures { result.now ≡ take size (drop from bytes.now) }
{
    &bytes[from..from + size]
}

/// Where a SEGNAME begins, which with LABLEN 0 has a length byte before it.
fn name_start(names: usize, lab_len: u8) -> usize
    requires { names < 2 ^ 63 }
    ensures { result ≡ (if lab_len == 0 then names + 1 else names) }
{
    if lab_len == 0 { names + 1 } else { names }
}

/// SEGNAME, without what pads it, as a slice of the file (LABLEN, DISPNAME).
pub fn title<'a>(segment: &SegmentView<'a>) -> &'a [u8]
    requires { IsPlaced (placed_view segment.now) }
    ensures { result.now ≡ segment.now.header.name }
{
    let names = name_start(
        segment.header.disp_name as usize + 10,
        segment.header.lab_len,
    );
    let size = segment.header.name.bytes().len();
    bytes_at(segment.file, segment.start as usize + names, size)
}

/// LOADNAME, as a slice of the file (DISPNAME).
pub fn load_name<'a>(segment: &SegmentView<'a>) -> &'a [u8]
    requires { IsPlaced (placed_view segment.now) }
    ensures { result.now ≡ segment.now.header.load_name }
{
    let start = segment.start as usize + segment.header.disp_name as usize;
    bytes_at(segment.file, start, 10)
}

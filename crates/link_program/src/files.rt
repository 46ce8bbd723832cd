//! The segments of files that were read.

ghost use Rattle.std.specs.Prelude.{◌≡◌, option_map, IfSome};
ghost use Rattle.omf_records.specs.Segments.{IsSound, segment_of_view};
ghost use Rattle.link_program.specs.Files.{segment_in};

use omf_records::{SegmentList, SegmentView};

/// The segment of a file: file and segment count from 1.
pub fn segment_in<'s, 'a>(
    files: &'s [SegmentList<'a>],
    file: u32,
    segment: u32,
) -> Option<&'s SegmentView<'a>>
    ensures value { option_map (λ view. segment_of_view view.now) result ≡ segment_in files.now file segment }
    ensures sound { IfSome result (λ view. IsSound view.now) }
{
    if file == 0 {
        return None;
    }
    match files.get(file as usize - 1) {
        Some(list) => list.get(segment),
        None => None,
    }
}

/// LENGTH, which bounds the cells of a sound body.
pub fn length_of(segment: &SegmentView) -> u32
    ensures { result ≡ (segment.now).header.length }
{
    segment.header.length
}

//! The list of a file's segments.

ghost use Rattle.std.specs.Prelude.{◌≡◌, ◌<◌, ◌^◌, length, option_map, IfSome, IfOk, IfErr};
ghost use Rattle.omf_format.specs.File.{segment_at, IsFile};
ghost use Rattle.omf_records.specs.Segments.{segment_of_view, IsSound, IsRefused};

use crate::checks::segment_at;
use crate::segment::SegmentView;
use omf_format::FileFault;
use std::alloc::Global;
use std::marker::Model;

/// The segments of a file, in order. Contracts see the list of them: where each starts, its header's fields, and its records.
#[derive(Drop)]
pub struct SegmentList<'a> {
    views: Vec<SegmentView<'a>>,
}

impl<'a> Model for SegmentList<'a> {
    ghost use Rattle.std.specs.Prelude.{List, map};
    ghost use Rattle.omf_format.specs.File.{Segment};
    ghost use Rattle.omf_records.specs.Segments.{segment_of_view, FitsViews};

    ghost Value = { List Segment };

    ghost view = { λ list. map segment_of_view list.views.items };

    ghost invariant = { λ list. FitsViews list.views.items };
}

impl<'a> SegmentList<'a> {
    /// How many segments there are.
    pub fn count(&self) -> u32
        ensures { result ≡ length self.now }
    {
        self.views.len() as u32
    }

    /// The segment at a place, from 1.
    pub fn get(&self, place: u32) -> Option<&SegmentView<'a>>
        ensures value { option_map (λ view. segment_of_view view.now) result ≡ segment_at self.now place }

        // A reader of its body may be had, and hands out the segment's records.
        ensures sound { IfSome result (λ view. IsSound view.now) }
    {
        if place == 0 {
            return None;
        }
        match self.views.get(place as usize - 1) {
            Some(view) => Some(view),
            None => None,
        }
    }
}

/// The segments of a file, their headers and records checked: each header before its records.
pub fn segments<'a>(alloc: Global, file: &'a [u8]) -> Result<SegmentList<'a>, FileFault>
    requires { length file.now < 2 ^ 32 }
    ensures found { IfOk result (λ list. IsFile list file.now) }
    ensures refused { IfErr result (λ fault. IsRefused fault file.now) }
{
    let mut views = Vec::new(alloc);
    let mut start = 0;
    let mut number = 1;
    'segments: while start < file.len() {
        let view = segment_at(alloc, file, start as u32, number)?;
        start += view.header.byte_count as usize;
        number += 1;
        views.push(view)?;
    }
    Ok(SegmentList { views })
}

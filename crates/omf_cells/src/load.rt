//! A load file, as it was read.

ghost use Rattle.std.specs.Prelude.{◌≡◌, ◌↔◌, ◌++◌, length, take, map, slice_get, IsTrue, IfOk, IfSome, OnOk, MatchOption, option_map};
ghost use Rattle.load_meaning.specs.Cells.{cell_at};
ghost use Rattle.load_meaning.specs.Exports.{exports_of};
ghost use Rattle.load_meaning.specs.Pathnames.{paths_of, pathnames_of};
ghost use Rattle.load_meaning.specs.LoadTable.{table_of};
ghost use Rattle.load_meaning.specs.Runtime.{runtime_fault};
ghost use Rattle.omf_header.specs.View.{fields};
ghost use Rattle.load_content.specs.View.{view};
ghost use Rattle.load_content.specs.Places.{Stands};
ghost use Rattle.load_tables.specs.View.{seen_export};
ghost use Rattle.load_writer.specs.WrittenParts.{seen};
ghost use Rattle.omf_cells.specs.Load.{IsOutside, HasFields, HasLength, HasPatches, HasBytes, table_targets, Shows, ShowsContent};
ghost use Rattle.omf_cells.specs.Whole.{front_at, data_at, HasData, HasWhole};

use crate::ends::{end_from, last_end};
use crate::whole::{are_spaced, in_places, whole_patches};
use jump_table::entry_count;
use load_content::{
    Cell, Places, SegmentContent, byte_at, gives_patches, lone_piece, put_bytes, spot_at,
    write_body, write_spots,
};
use load_meaning::{LoadCause, LoadFault, Target};
use load_tables::{Export, check_kinds, pathnames_of, table_of, target_from};
use load_writer::Patch;
use omf_header::Header;
use omf_records::SegmentView;
use std::alloc::{AllocError, Global};
use std::marker::Model;

/// A load file. Contracts see the list of its segments. Beside the headers it keeps where the data of each segment is
/// in the file, and the bytes that patches give; and what the file exports, and its paths.
#[derive(Drop)]
pub struct LoadFile<'a> {
    pub(crate) views: Vec<SegmentView<'a>>,
    pub(crate) contents: Vec<SegmentContent<'a>>,
    pub(crate) exports: Vec<Export<'a>>,
    pub(crate) paths: Vec<&'a [u8]>,
}

impl<'a> Model for LoadFile<'a> {
    ghost use Rattle.std.specs.Prelude.{List, map};
    ghost use Rattle.omf_format.specs.File.{Segment};
    ghost use Rattle.omf_records.specs.Segments.{segment_of_view};
    ghost use Rattle.omf_cells.specs.Load.{IsKept};

    ghost Value = { List Segment };

    ghost view = { λ load. map segment_of_view load.views.items };

    ghost invariant = { λ load. IsKept load.views.items load.contents.items load.exports.items load.paths.items };
}

impl<'a> LoadFile<'a> {
    /// How many segments there are.
    pub fn count(&self) -> u32
        ensures { result ≡ length self.now }
    {
        self.views.len() as u32
    }

    /// The segment with this number, from 1.
    fn segment(&self, number: u32) -> Option<&SegmentView<'a>>
        ensures { MatchOption result (IsOutside self.now number) (λ view. Shows self.now number view.now) }
    {
        if number == 0 {
            return None;
        }
        match self.views.get(number as usize - 1) {
            Some(view) => Some(view),
            None => None,
        }
    }

    /// The segment with this number, from 1, and what is kept of it beside its header.
    pub fn content(&self, number: u32) -> Option<(&SegmentView<'a>, &SegmentContent<'a>)>
        ensures { MatchOption result (IsOutside self.now number) (λ found. ShowsContent self.now number found.0.now found.1.now) }
    {
        if number == 0 {
            return None;
        }
        let place = number as usize - 1;
        if place < self.views.len() {
            Some((&self.views[place], &self.contents[place]))
        } else {
            None
        }
    }

    /// The header of the segment with this number, from 1.
    pub fn header(&self, segment: u32) -> Option<&Header>
        ensures { MatchOption result (IsOutside self.now segment) (λ header. HasFields self.now segment (fields header.now)) }
    {
        match self.segment(segment) {
            Some(view) => Some(&view.header),
            None => None,
        }
    }

    /// The cell at an offset, from 0, of the segment with this number, from 1. It is searched for, and no memory is taken.
    pub fn cell(&self, segment: u32, at: u32) -> Option<Cell>
        ensures { option_map view result ≡ cell_at self.now segment at }
    {
        let (view, content) = match self.content(segment) {
            Some(found) => found,
            None => return None,
        };
        if at >= view.header.length {
            return None;
        }
        match spot_at(&content.spots, &content.runs, at) {
            Some(spot) => Some(Cell::Part {
                file: 1,
                segment: spot.segment,
                offset: spot.offset,
                shift: spot.shift,
                index: spot.first,
            }),
            None => Some(Cell::Byte(byte_at(&content.pieces, at))),
        }
    }

    /// The number of the file's jump table, if it has one.
    pub fn table(&self) -> Option<u32>
        ensures { result ≡ table_of self.now }
    {
        table_of(&self.views)
    }

    /// How many entries the file's jump table has; 0 where there is none.
    pub fn target_count(&self) -> u32
        ensures { result ≡ length (table_targets self.now) }
    {
        let Some(number) = self.table() else {
            return 0;
        };
        match self.segment(number) {
            Some(view) => entry_count(view.header.length),
            None => 0,
        }
    }

    /// Where the entry at a place of the file's jump table, from 0, leads.
    pub fn target(&self, place: u32) -> Option<Target>
        ensures { result ≡ slice_get (table_targets self.now) place }
    {
        let Some(number) = self.table() else {
            return None;
        };
        let (view, content) = match self.content(number) {
            Some(found) => found,
            None => return None,
        };
        if place >= entry_count(view.header.length) {
            return None;
        }
        Some(target_from(view, &content.pieces, place))
    }

    /// The number of the file's pathname segment, if it has one.
    pub fn pathnames(&self) -> Option<u32>
        ensures { result ≡ pathnames_of self.now }
    {
        pathnames_of(&self.views)
    }

    /// How many rows the pathname segment has; 0 where there is none.
    pub fn paths(&self) -> u32
        ensures { result ≡ length (paths_of self.now) }
    {
        self.paths.len() as u32
    }

    /// The path of the row at a place, from 0: that of the file with the number `place` + 2.
    pub fn path(&self, place: u32) -> Option<&'a [u8]>
        ensures { option_map (λ path. path.now) result ≡ slice_get (paths_of self.now) place }
    {
        match self.paths.get(place as usize) {
            Some(path) => Some(*path),
            None => None,
        }
    }

    /// How many names the file exports.
    pub fn exports(&self) -> u32
        ensures { result ≡ length (exports_of self.now) }
    {
        self.exports.len() as u32
    }

    /// The name at a place among those that the file exports, from 0, in segment and record order.
    pub fn export(&self, place: u32) -> Option<Export<'a>>
        ensures { option_map seen_export result ≡ slice_get (exports_of self.now) place }
    {
        match self.exports.get(place as usize) {
            Some(export) => Some(*export),
            None => None,
        }
    }

    /// The first segment that isn't allowed in a run-time library file.
    #[tactic(auto, unfolding(load_meaning::specs::Runtime::runtime_fault))]
    pub(crate) fn kind_fault(&self) -> Option<LoadFault>
        ensures value { result ≡ runtime_fault self.now }
        ensures named { IfSome result (λ fault. fault.cause ≡ LoadCause.Memory → ⊥) }
    {
        check_kinds(&self.views)
    }

    /// Whether there is a segment with this number, from 1, that has patches. No memory is taken.
    pub fn has_patches(&self, segment: u32) -> bool
        ensures { IsTrue result ↔ HasPatches self.now segment }
    {
        match self.segment(segment) {
            Some(view) => gives_patches(view.records()),
            None => false,
        }
    }

    /// Writes the bytes of the segment with this number, from 1, which has no patches. No memory is taken.
    pub fn data_into(&self, segment: u32, out: &mut [u8])
        requires length { HasLength self.now segment (length out.old) }
        requires unpatched { ¬ HasPatches self.now segment }
        ensures { HasBytes self.now segment out.new }
    {
        match self.segment(segment) {
            Some(view) => write_body(view.records(), out),
            None => unreachable!(),
        }
    }

    /// How many cells the segment with this number, from 1, has up to the last one that isn't a byte 0. No memory is taken.
    pub fn front(&self, segment: u32) -> u32
        ensures { result ≡ front_at self.now segment }
    {
        let (_, content) = match self.content(segment) {
            Some(found) => found,
            None => return 0,
        };
        end_from(&content.pieces, last_end(&content.spots)) as u32
    }

    /// Appends the first `size` bytes of the data of the segment with this number, from 1, or all where there are fewer. These are the
    /// bytes of its records and zeros after them up to LENGTH. When out of memory, part of them may be appended.
    pub fn put_data(&self, segment: u32, size: u32, out: &mut Vec<u8>) -> Result<(), AllocError>
        ensures { OnOk result (out.new.items ≡ out.old.items ++ take size (data_at self.now segment)) }
    {
        let (view, content) = match self.content(segment) {
            Some(found) => found,
            None => return Ok(()),
        };
        put_bytes(&content.pieces, size.min(view.header.length), out)
    }

    /// The data of the segment with this number, from 1, without zeros at their end, where they are in the file one after
    /// another.
    pub fn data(&self, segment: u32) -> Option<&'a [u8]>
        ensures { IfSome result (λ bytes. HasData self.now segment bytes.now) }
    {
        match self.content(segment) {
            Some(found) => lone_piece(&found.1.pieces),
            None => None,
        }
    }

    /// The patches of the segment with this number, from 1, in the order of their offsets, where no two share a byte. Over the data they
    /// give the segment's cells.
    pub fn patches(&self, alloc: Global, segment: u32) -> Result<Option<Vec<Patch>>, AllocError>
        ensures { IfOk result (λ found. IfSome found (λ patches. HasWhole self.now segment (map seen patches.items))) }
    {
        let (view, content) = match self.content(segment) {
            Some(found) => found,
            None => return Ok(None),
        };
        let patches = match whole_patches(alloc, &content.spots)? {
            Some(patches) => in_places(patches)?,
            None => return Ok(None),
        };
        if are_spaced(&patches, view.header.length) {
            Ok(Some(patches))
        } else {
            Ok(None)
        }
    }
}

/// Writes the bytes in memory of the segment with this number, from 1, where the file's segments lie at these places: its data, and over
/// them the bytes of each patch, in file order. A target without a place counts as one at address 0. The entries of a jump table are as in
/// the file. No memory is taken.
pub fn patch_into(load: &LoadFile, segment: u32, places: &Places, out: &mut [u8])
    requires { HasLength load.now segment (length out.old) }
    ensures { Stands load.now segment places.now out.new }
{
    let (view, content) = match load.content(segment) {
        Some(found) => found,
        None => unreachable!(),
    };
    write_body(view.records(), out);
    write_spots(&content.spots, places, out);
}

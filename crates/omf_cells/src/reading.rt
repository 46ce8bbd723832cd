//! Reading a load file: each segment in order, header, name and type before its records, and then the segments together.

ghost use Rattle.std.specs.Prelude.{◌≡◌, ◌<◌, ◌^◌, length, map, IfOk, IfErr, IsErrAnd, OnOk, None};
ghost use Rattle.load_meaning.specs.Pathnames.{paths_of};
ghost use Rattle.load_meaning.specs.Loadable.{IsLoadable, later_fault};
ghost use Rattle.load_meaning.specs.Runtime.{IsRuntime};
ghost use Rattle.omf_records.specs.Segments.{segment_of_view};
ghost use Rattle.load_content.specs.Views.{IsLoadView, AreShown, IsLaterRefused};
ghost use Rattle.load_content.specs.Content.{AreContents};
ghost use Rattle.load_tables.specs.View.{seen_paths};
ghost use Rattle.omf_cells.specs.Load.{IsReadRefused, IsRefused, IsRuntimeRefused};

use crate::front::front_at;
use crate::load::LoadFile;
use crate::records::check_records;
use crate::shape::check_shapes;
use load_content::{SegmentContent, contents_of};
use load_meaning::{LoadCause, LoadFault};
use load_tables::{add_exports, check_pathnames, check_tables};
use omf_records::SegmentView;
use std::alloc::Global;

/// The segment with this number that starts there. Its header, name and type and its records are checked.
fn segment_from(
    alloc: Global,
    file: &[u8],
    start: u32,
    number: u32,
) -> Result<SegmentView<'_>, LoadFault>
    requires short { length file.now < 2 ^ 32 }
    requires inside { start < length file.now }
    ensures start { IfOk result (λ view. view.start ≡ start) }
    ensures ok { IfOk result (λ view. IsLoadView file.now view) }
    ensures err { IfErr result (λ fault. IsReadRefused fault number start file.now) }
{
    let header = front_at(alloc, file, start, number)?;
    let view = SegmentView {
        start,
        header,
        file,
    };
    check_records(view.records(), number)?;
    Ok(view)
}

/// What is kept of each segment and the file's paths, or the first fault of the phases after phase 1, each of which goes over all
/// segments.
#[tactic(auto, unfolding(load_meaning::specs::Loadable::later_fault))]
fn check_later<'a>(
    alloc: Global,
    views: &Vec<SegmentView<'a>>,
) -> Result<(Vec<SegmentContent<'a>>, Vec<&'a [u8]>), LoadFault>
    requires { AreShown views.now.items }
    ensures sound { OnOk result (later_fault (map segment_of_view views.now.items) ≡ None) }
    ensures contents { IfOk result (λ kept. AreContents views.now.items kept.0.items) }
    ensures paths { IfOk result (λ kept. seen_paths kept.1.items ≡ paths_of (map segment_of_view views.now.items)) }
    ensures refused { IfErr result (λ fault. IsLaterRefused fault (later_fault (map segment_of_view views.now.items))) }
{
    match check_shapes(views) {
        Some(fault) => return Err(fault),
        None => {}
    }
    let contents = contents_of(alloc, views)?;
    let paths = check_pathnames(alloc, views)?;
    match check_tables(views, &contents, paths.len() as u32) {
        Some(fault) => Err(fault),
        None => Ok((contents, paths)),
    }
}

/// The load file that these bytes are. It is refused exactly where it has a first fault, or when out of memory.
pub fn read_load<'a>(alloc: Global, file: &'a [u8]) -> Result<LoadFile<'a>, LoadFault>
    requires { length file.now < 2 ^ 32 }
    ensures ok { IfOk result (λ load. IsLoadable file.now load) }
    ensures refused { IfErr result (λ fault. IsRefused fault file.now) }

    // An empty file takes no memory.
    ensures empty { length file.now ≡ 0 → IsErrAnd result (λ fault. fault.cause ≡ LoadCause.NotLoadFile) }
{
    if file.is_empty() {
        return Err(LoadFault {
            cause: LoadCause::NotLoadFile,
            segment: 0,
            at: 0,
        });
    }
    let mut views = Vec::new(alloc);
    let mut exports = Vec::new(alloc);
    let mut start = 0;
    let mut number = 1;
    'segments: while start < file.len() {
        let view = segment_from(alloc, file, start as u32, number)?;
        add_exports(view.records(), view.header.seg_num, &mut exports)?;
        start += view.header.byte_count as usize;
        number += 1;
        views.push(view)?;
    }
    let (contents, paths) = check_later(alloc, &views)?;
    Ok(LoadFile {
        views,
        contents,
        exports,
        paths,
    })
}

/// The load file, as a run-time library file: all segments are dynamic, and none is skipped. It is refused exactly where it has a first
/// fault as that, or when out of memory.
pub fn read_runtime<'a>(alloc: Global, file: &'a [u8]) -> Result<LoadFile<'a>, LoadFault>
    requires { length file.now < 2 ^ 32 }
    ensures ok { IfOk result (λ load. IsRuntime file.now load) }
    ensures refused { IfErr result (λ fault. IsRuntimeRefused fault file.now) }
{
    let load = read_load(alloc, file)?;
    match load.kind_fault() {
        Some(fault) => Err(fault),
        None => Ok(load),
    }
}

//! The linked list grows by the segments of libraries that its uses want.

ghost use Rattle.std.specs.Prelude.{◌≡◌, List, OnOk, IfOk, false, replicate, if◌then◌else◌};
ghost use Rattle.link_meaning.specs.Member.{LinkSetting, Input};
ghost use Rattle.link_program.specs.Grown.{MayGrow, HasGrown};

use crate::files::{length_of, segment_in};
use crate::linked::Linked;
use crate::outside::OutsideNames;
use link_tables::Offers;
use omf_records::SegmentList;
use std::alloc::{AllocError, Global};

/// `count` flags, none of which is set.
fn flags(alloc: Global, count: usize) -> Result<Vec<bool>, AllocError>
    ensures { IfOk result (λ flags. flags.items ≡ replicate count false) }
{
    let mut flags = Vec::new(alloc);
    for _ in 0..count {
        flags.push(false)?;
    }
    Ok(flags)
}

/// Where the next search begins: at the use that was served, or where any may be open again at the first one.
fn next_cursor(opens: bool, number: usize) -> usize
    ensures { result ≡ (if opens then 0 else number) }
{
    if opens { 0 } else { number }
}

/// Adds the segment of the row that the first use wants, until no use wants any. Each row is taken once at most.
///
/// The uses before the cursor want nothing. It is set back only where an added data segment has the name of one other that is
/// found by it: a name of USING may then find two, and what was found in the first one isn't found any more.
pub fn grow<'a>(
    alloc: Global,
    files: &[SegmentList<'a>],
    outside: &OutsideNames,
    offers: &Offers,
    linked: &mut Linked<'a>,
) -> Result<(), AllocError>
    requires { (setting : LinkSetting) × (inputs : List Input) × MayGrow setting inputs files.now outside.now offers.now linked.old }
    ensures { OnOk result ((setting : LinkSetting) (inputs : List Input) → MayGrow setting inputs files.now outside.now offers.now linked.old
        → HasGrown setting inputs files.now linked.new) }
{
    let mut taken = flags(alloc, offers.count())?;
    let mut cursor = 0;
    'members: loop {
        let (number, row) = match linked.wanted(outside, offers, cursor) {
            None => return Ok(()),
            Some(found) => found,
        };
        let origin = offers.origin(row);
        let segment = match segment_in(files, origin.file, origin.segment) {
            Some(segment) => segment,
            None => unreachable!(),
        };
        cursor = next_cursor(linked.opens(segment, origin), number);
        let _length = length_of(segment);
        linked.add(alloc, segment, origin)?;
        taken[row] = true;
    }
}

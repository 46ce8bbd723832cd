//! The subrecords of a SUPER (GS/OS Reference, appendix F, "SUPER").

ghost use Rattle.std.specs.Prelude.{◌≡◌, ◌≤◌, ◌%◌, ◌++◌, length, map, OnOk, IfOk};
ghost use Rattle.std.specs.List.{flat_map};
ghost use Rattle.omf_format.specs.Super.{page_text};
ghost use Rattle.load_meaning.specs.WrittenPages.{passing, pages_text, Rise};
ghost use Rattle.load_writer.specs.WrittenParts.{run};

use crate::written::BodyFault;
use omf_base::{first_items, items_after};
use std::alloc::Global;

/// Appends the subrecords that pass over `pages` pages.
#[tactic(auto, using(crate::proofs::PageTexts::passing_more, crate::proofs::PageTexts::passing_last))]
fn put_skips(out: &mut Vec<u8>, pages: u32) -> Result<(), BodyFault>
    ensures { OnOk result (out.new.items ≡ out.old.items ++ flat_map page_text (passing pages)) }
{
    let mut left = pages;
    'skips: while left > 127 {
        out.push(0xFF)?;
        left -= 127;
    }
    if left > 0 {
        out.push(0x80 + left as u8)?;
    }
    Ok(())
}

/// How many locations at the start lie in a page.
fn count_in(locations: &[u32], page: u32) -> usize
    ensures { result ≡ run page locations.now }
{
    let mut count = 0;
    'front: for at in locations {
        if *at / 256 != page {
            return count;
        }
        count += 1;
    }
    count
}

/// Appends the low bytes of locations.
fn put_lows(out: &mut Vec<u8>, locations: &[u32]) -> Result<(), BodyFault>
    ensures { OnOk result (out.new.items ≡ out.old.items ++ map (λ at. at % 256) locations.now) }
{
    for at in locations {
        out.push((*at % 256) as u8)?;
    }
    Ok(())
}

/// The subrecords of rising locations.
pub fn pages(alloc: Global, locations: &[u32]) -> Result<Vec<u8>, BodyFault>
    requires { Rise 0 locations.now }
    ensures { IfOk result (λ text. text.items ≡ pages_text locations.now) }
{
    let mut out = Vec::new(alloc);
    let mut page = 0;
    let mut left = locations;
    'pages: while let Some((at, _)) = left.split_first() {
        let here = *at / 256;
        put_skips(&mut out, here - page)?;
        let count = count_in(left, here);
        out.push((count - 1) as u8)?;
        put_lows(&mut out, first_items(left, count))?;
        left = items_after(left, count);
        page = here + 1;
    }
    Ok(out)
}

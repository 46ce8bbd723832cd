//! The records of a segment that is known to be sound.

ghost use Rattle.std.specs.Prelude.{◌≡◌, ◌<◌, List, ℕ, length, option_map, IfSome, OnSome};
ghost use Rattle.omf_format.specs.Record.{Record, IsRecord};
ghost use Rattle.omf_records.specs.View.{view};
ghost use Rattle.link_tables.specs.Coming.{Coming, IsComing, Walks, seen_record};

use omf_records::{Rec, Records};

/// The next record, with its displacement in the file, and None after END.
#[inline(always)]
pub fn next_record<'a>(records: &mut Records<'a>) -> Option<(u32, Rec<'a>)>
    requires { IsComing records.old }
    ensures walk { (back : List (ℕ × Record)) → Coming records.old back → Walks records.new back (option_map seen_record result) }
    ensures formed { IfSome result (λ found. IsRecord records.old.layout (view found.1)) }
    ensures layout { records.new.layout ≡ records.old.layout }
    ensures shorter { OnSome result (length records.new.left < length records.old.left) }
{
    match records.next() {
        Ok(found) => found,
        Err(_) => unreachable!(),
    }
}

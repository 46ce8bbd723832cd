//! Reading a body, record by record, with no memory taken.

ghost use Rattle.std.specs.Prelude.{◌≡◌, ◌<◌, ◌≤◌, false, length, slice_index, IfOk, IfSome, OnSome};
ghost use Rattle.omf_format.specs.Record.{IsRecord};
ghost use Rattle.omf_format.specs.Reading.{next_answer, after_next, is_end};
ghost use Rattle.omf_format.specs.laws.Steps.{fault_at};
ghost use Rattle.omf_records.specs.View.{record_answer, view, view_layout};

use crate::front::record_at_front;
use crate::layout::Layout;
use crate::record::Rec;
use omf_format::{Flaw, RecordFault};
use std::marker::Model;

/// A reader of a segment's records, in order. Contracts see where it is: the displacement in the file at which the segment ends, the bytes
/// that are left, whether END was handed out, and how names and labels are laid out.
#[derive(Drop)]
pub struct Records<'a> {
    end: u32,
    left: &'a [u8],
    ended: bool,
    layout: Layout,
}

impl<'a> Model for Records<'a> {
    ghost use Rattle.std.specs.Prelude.{◌≤◌, length};
    ghost use Rattle.omf_format.specs.Reading.{Reader};
    ghost use Rattle.omf_records.specs.View.{view_layout};

    ghost Value = { Reader };

    ghost view = { λ r. record { end = r.end; left = r.left.now; ended = r.ended; layout = view_layout r.layout } };

    ghost invariant = { λ r. length r.left.now ≤ r.end };
}

impl<'a> Records<'a> {
    /// A reader of these bytes, which end at the displacement `end` in the file.
    pub(crate) fn new(end: u32, left: &'a [u8], layout: Layout) -> Records<'a>
        requires { length left.now ≤ end }
        ensures { result ≡ record { end = end; left = left.now; ended = false; layout = view_layout layout } }
    {
        Records {
            end,
            left,
            ended: false,
            layout,
        }
    }

    /// The next record, with the displacement of its code in the file. END is handed out, and None follows it. After a fault the same fault
    /// is returned again. What follows END in the segment isn't read.
    #[inline(always)]
    #[tactic(auto, unfolding(omf_format::specs::Reading::next_answer, omf_format::specs::Reading::after_next))]
    pub fn next(&mut self) -> Result<Option<(u32, Rec<'a>)>, RecordFault>
        ensures answer { record_answer result ≡ next_answer self.old }
        ensures after { self.new ≡ after_next self.old }

        // Each record that is returned is one of the format.
        ensures formed { IfOk result (λ found. IfSome found (λ f. IsRecord self.old.layout (view f.1))) }

        // Each record that is returned makes what is left shorter.
        ensures shorter { IfOk result (λ found. OnSome found (length self.new.left < length self.old.left)) }
    {
        if self.ended {
            return Ok(None);
        }
        let at = self.end - self.left.len() as u32;
        match record_at_front(self.left, self.layout) {
            Ok((rec, left)) => {
                self.ended = is_end(&rec);
                self.left = left;
                Ok(Some((at, rec)))
            }
            Err(flaw) => Err(self.fault(flaw)),
        }
    }

    /// A flaw of the next record, with its place.
    #[cold]
    #[inline(never)]
    fn fault(&self, flaw: Flaw) -> RecordFault
        ensures { result ≡ fault_at self.now flaw }
    {
        let at = self.end - self.left.len() as u32;
        let code = match self.left {
            [] => 0,
            [code, ..] => *code,
        };
        match flaw {
            Flaw::Cut => RecordFault::Truncated(self.end),
            Flaw::Unread => RecordFault::Unsupported(code, at),
            Flaw::Broken => RecordFault::BadRecord(at),
        }
    }
}

fn is_end(rec: &Rec) -> bool
    ensures { result ≡ is_end (view rec.now) }
{
    matches!(rec, Rec::End)
}

//! The text of a listing while it is written.

ghost use Rattle.std.specs.Prelude.{◌≤◌, length};

use crate::stop::LineStop;
use omf_base::{Line, LineFault};
use std::alloc::Global;

/// The most bytes and lines of a source.
const MAX_BYTES: usize = 16_777_216;

const MAX_LINES: u32 = 65_536;

/// The most bytes of a line.
const MAX_LINE: usize = 255;

/// The lines so far, as long as they aren't too many, and after them the line that is being written.
#[derive(Drop)]
pub struct ListingText {
    pub(crate) text: Line,
    /// Where the open line starts.
    pub(crate) start: usize,
    /// How many lines are whole.
    pub(crate) lines: u32,
    /// There were too many bytes or lines.
    pub(crate) over: bool,
    alloc: Global,
    ghost inside: { start ≤ length text },
    ghost few: { lines ≤ 65536 },
}

impl ListingText {
    ghost use Rattle.std.specs.Prelude.{◌≡◌, ◌++◌, [], ◌<◌, Some, None, option_map, OnOk, IsErrOf};
    ghost use Rattle.omf_base.specs.Digits.{hexadecimal};
    ghost use Rattle.list_lines.specs.Kept.{with_line};
    ghost use Rattle.list_lines.specs.OutputView.{has_room, finished_lines, open_line};

    /// A text without lines.
    pub fn new(alloc: Global) -> ListingText
        ensures kept { finished_lines result ≡ Some ([], 0) }
        ensures line { open_line result ≡ [] }
    {
        ListingText {
            text: Line::new(alloc),
            start: 0,
            lines: 0,
            over: false,
            alloc,
        }
    }

    /// Appends bytes to the open line.
    pub(crate) fn put(&mut self, piece: &[u8]) -> Result<(), LineFault>
        ensures line { OnOk result (open_line self.new ≡ open_line self.old ++ piece.now) }
        ensures kept { OnOk result (finished_lines self.new ≡ finished_lines self.old) }
    {
        self.text.put(piece)
    }

    /// Appends a text to the open line.
    pub(crate) fn word(&mut self, piece: &str) -> Result<(), LineFault>
        ensures line { OnOk result (open_line self.new ≡ open_line self.old ++ piece.now) }
        ensures kept { OnOk result (finished_lines self.new ≡ finished_lines self.old) }
    {
        self.text.text(piece)
    }

    /// Appends a number in at least `digits` hexadecimal digits. `digits` is at most 8.
    pub(crate) fn digits(&mut self, value: u32, digits: u32) -> Result<(), LineFault>
        requires { digits ≤ 8 }
        ensures line { OnOk result (open_line self.new ≡ open_line self.old ++ hexadecimal digits value) }
        ensures kept { OnOk result (finished_lines self.new ≡ finished_lines self.old) }
    {
        self.text.hex(value, digits)
    }

    /// Whether one more line may be kept.
    fn has_room(&self) -> bool
        ensures { result ≡ has_room self.now.over self.now.lines (length self.now.text) }
    {
        !self.over && self.lines < MAX_LINES && self.text.bytes().len() < MAX_BYTES
    }

    /// Ends the open line. A line of more than 255 bytes can't be listed.
    #[tactic(auto, using(crate::proofs::Ended::no_room, crate::proofs::Ended::room))]
    pub(crate) fn finish(&mut self) -> Result<(), LineStop>
        ensures kept { OnOk result (finished_lines self.new ≡ with_line (open_line self.old) (finished_lines self.old)) }
        ensures line { OnOk result (open_line self.new ≡ []) }
        ensures short { OnOk result (length (open_line self.old) ≤ 255) }
        ensures long { IsErrOf result LineStop.NotListable → 255 < length (open_line self.old) }
    {
        let size = self.text.bytes().len();
        if size - self.start > MAX_LINE {
            return Err(LineStop::NotListable);
        }
        if !self.has_room() {
            self.give_up();
            return Ok(());
        }
        self.text.put(b"\n")?;
        self.start = size + 1;
        self.lines += 1;
        Ok(())
    }

    /// The text is too long: the lines that follow are only looked at, and what was written needn't be kept.
    fn give_up(&mut self)
        ensures kept { finished_lines self.new ≡ None }
        ensures line { open_line self.new ≡ [] }
    {
        self.over = true;
        if self.text.bytes().len() >= MAX_BYTES {
            self.text = Line::new(self.alloc);
        }
        self.start = self.text.bytes().len();
    }

    /// The text, unless it is too long.
    #[tactic(auto, using(crate::proofs::Ended::whole_text))]
    pub fn into_text(self) -> Option<Vec<u8>>
        requires { open_line self ≡ [] }
        ensures { option_map (λ text. text.items) result ≡ option_map (λ found. found.0) (finished_lines self) }
    {
        if self.over {
            return None;
        }
        Some(self.text.into_bytes())
    }
}

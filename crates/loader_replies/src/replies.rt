//! The lines of replies to a script's commands.

ghost use Rattle.std.specs.Prelude.{◌≡◌, ◌≢◌, ◌++◌, take, drop, IfOk, OnOk, codes};
ghost use Rattle.std.specs.List.{flat_map};
ghost use Rattle.omf_base.specs.Digits.{hexadecimal};
ghost use Rattle.loader_machine.specs.Commands as machine;
ghost use Rattle.loader_machine.specs.Replies.{handle_text, at_text, cause_text, refused_text, reply_line};
ghost use Rattle.loader_machine.specs.laws.Words.{presence_text, entry_text, shown_text, lock_text, there_text, block_text, bad_file_text, other_text};
ghost use Rattle.sys_loader.specs.Replies.{where_reply, done_reply};
ghost use Rattle.loader_replies.specs.Answered.{IsLineOf};

use iigs_meaning::{BlockState, Handle};
use load_meaning::{LoadCause, LoadFault};
use loader_machine::{LoaderFault, Presence};
use omf_base::{Line, LineFault};
use std::alloc::Global;
use sys_loader::{Entered, Info, Started};

/// The reply of a command that is done.
#[tactic(auto, unfolding(loader_machine::specs::Replies::reply_line, loader_machine::specs::Replies::reply_text))]
pub fn okay_line(alloc: Global) -> Result<Line, LineFault>
    ensures { IfOk result (λ text. text ≡ reply_line machine.Okay) }
{
    let mut line = Line::new(alloc);
    line.text("ok")?;
    line.text("\n")?;
    Ok(line)
}

/// Appends an address, or that there is none.
fn put_entry(line: &mut Line, entry: Option<u32>) -> Result<(), LineFault>
    ensures { OnOk result (line.new ≡ line.old ++ entry_text entry) }
{
    match entry {
        Some(address) => line.hex(address, 6),
        None => line.text("none"),
    }
}

/// The reply to a load.
#[tactic(auto, unfolding(loader_machine::specs::Replies::reply_line, loader_machine::specs::Replies::reply_text))]
pub fn started_line(alloc: Global, started: Started) -> Result<Line, LineFault>
    ensures { IfOk result (λ text. text ≡ reply_line (machine.Started started.user started.entry)) }
{
    let mut line = Line::new(alloc);
    line.text("user ")?;
    line.hex(u32::from(started.user), 4)?;
    line.text(" entry ")?;
    put_entry(&mut line, started.entry)?;
    line.text("\n")?;
    Ok(line)
}

/// The reply that a segment was made active.
#[tactic(auto, unfolding(loader_machine::specs::Replies::reply_line, loader_machine::specs::Replies::reply_text))]
pub fn active_line(alloc: Global, segment: u16, address: u32) -> Result<Line, LineFault>
    ensures { IfOk result (λ text. text ≡ reply_line (machine.MadeActive segment address)) }
{
    let mut line = Line::new(alloc);
    line.text("active ")?;
    line.hex(u32::from(segment), 4)?;
    put_at(&mut line, address)?;
    line.text("\n")?;
    Ok(line)
}

/// The reply that a JSL enters a place.
#[tactic(auto, unfolding(loader_machine::specs::Replies::reply_line, loader_machine::specs::Replies::reply_text))]
pub fn entered_line(alloc: Global, place: Entered) -> Result<Line, LineFault>
    ensures { IfOk result (λ text. text ≡ reply_line (machine.Entered place.user place.segment place.offset place.address)) }
{
    let mut line = Line::new(alloc);
    line.text("entered ")?;
    line.hex(u32::from(place.user), 4)?;
    line.text(" ")?;
    line.hex(u32::from(place.segment), 4)?;
    line.text(" ")?;
    line.hex(place.offset, 8)?;
    put_at(&mut line, place.address)?;
    line.text("\n")?;
    Ok(line)
}

/// The reply to a purge.
#[tactic(auto, unfolding(loader_machine::specs::Replies::reply_line, loader_machine::specs::Replies::reply_text))]
pub fn counted_line(alloc: Global, count: u32) -> Result<Line, LineFault>
    ensures { IfOk result (λ text. text ≡ reply_line (machine.Counted count)) }
{
    let mut line = Line::new(alloc);
    line.text("purged ")?;
    line.hex(count, 4)?;
    line.text("\n")?;
    Ok(line)
}

/// The reply to a slide.
#[tactic(auto, unfolding(loader_machine::specs::Replies::reply_line, loader_machine::specs::Replies::reply_text))]
pub fn moved_line(alloc: Global, count: u32) -> Result<Line, LineFault>
    ensures { IfOk result (λ text. text ≡ reply_line (machine.Moved count)) }
{
    let mut line = Line::new(alloc);
    line.text("moved ")?;
    line.hex(count, 4)?;
    line.text("\n")?;
    Ok(line)
}

/// Appends bytes, each after a space.
fn put_others(line: &mut Line, bytes: &[u8]) -> Result<(), LineFault>
    ensures { OnOk result (line.new ≡ line.old ++ flat_map other_text bytes.now) }
{
    'bytes: for place in 0..bytes.len() {
        put_other(line, bytes[place])?;
    }
    Ok(())
}

/// Appends a byte after a space.
fn put_other(line: &mut Line, byte: u8) -> Result<(), LineFault>
    ensures { OnOk result (line.new ≡ line.old ++ other_text byte) }
{
    line.text(" ")?;
    line.hex(u32::from(byte), 2)
}

/// Appends bytes with one space between them.
fn put_shown(line: &mut Line, bytes: &[u8]) -> Result<(), LineFault>
    ensures { OnOk result (line.new ≡ line.old ++ shown_text bytes.now) }
{
    match bytes.split_first() {
        Some((first, others)) => {
            line.hex(u32::from(*first), 2)?;
            put_others(line, others)
        }
        None => Ok(()),
    }
}

/// The reply that shows bytes.
#[tactic(auto, unfolding(loader_machine::specs::Replies::reply_line, loader_machine::specs::Replies::reply_text))]
pub fn shown_line(alloc: Global, bytes: &[u8]) -> Result<Line, LineFault>
    ensures { IfOk result (λ text. text ≡ reply_line (machine.Shown bytes.now)) }
{
    let mut line = Line::new(alloc);
    put_shown(&mut line, bytes)?;
    line.text("\n")?;
    Ok(line)
}

/// The reply that an address lies nowhere.
#[tactic(auto, unfolding(loader_machine::specs::Replies::reply_line, loader_machine::specs::Replies::reply_text))]
fn nothing_line(alloc: Global) -> Result<Line, LineFault>
    ensures { IfOk result (λ text. text ≡ reply_line machine.Nothing) }
{
    let mut line = Line::new(alloc);
    line.text("nothing")?;
    line.text("\n")?;
    Ok(line)
}

/// The reply that an address lies in a segment.
#[tactic(auto, unfolding(loader_machine::specs::Replies::reply_line, loader_machine::specs::Replies::reply_text))]
fn lies_line(alloc: Global, place: Entered) -> Result<Line, LineFault>
    ensures { IfOk result (λ text. text ≡ reply_line (machine.Lies place.user place.segment place.offset)) }
{
    let mut line = Line::new(alloc);
    line.hex(u32::from(place.user), 4)?;
    line.text(" ")?;
    line.hex(u32::from(place.segment), 4)?;
    line.text(" ")?;
    line.hex(place.offset, 8)?;
    line.text("\n")?;
    Ok(line)
}

/// The reply that says where an address lies.
pub fn where_line(alloc: Global, place: Option<Entered>) -> Result<Line, LineFault>
    ensures { IfOk result (λ text. text ≡ reply_line (where_reply place)) }
{
    match place {
        Some(entered) => lies_line(alloc, entered),
        None => nothing_line(alloc),
    }
}

/// Appends a handle in six digits.
#[tactic(auto, unfolding(loader_machine::specs::Replies::handle_text))]
fn put_handle(line: &mut Line, handle: Handle) -> Result<(), LineFault>
    ensures { OnOk result (line.new ≡ line.old ++ handle_text handle) }
{
    line.hex(u32::from(handle.slot), 4)?;
    line.hex(u32::from(handle.generation), 2)
}

/// Appends ` at ` and an address.
#[tactic(auto, unfolding(loader_machine::specs::Replies::at_text))]
fn put_at(line: &mut Line, address: u32) -> Result<(), LineFault>
    ensures { OnOk result (line.new ≡ line.old ++ at_text address) }
{
    line.text(" at ")?;
    line.hex(address, 6)
}

/// A line that begins with a word, and then a handle.
fn handle_front(alloc: Global, word: &str, handle: Handle) -> Result<Line, LineFault>
    ensures { IfOk result (λ text. text ≡ word.now ++ handle_text handle) }
{
    let mut line = Line::new(alloc);
    line.text(word)?;
    put_handle(&mut line, handle)?;
    Ok(line)
}

/// A line that begins with a word, a handle, and its address.
fn there_front(alloc: Global, word: &str, handle: Handle, address: u32) -> Result<Line, LineFault>
    ensures { IfOk result (λ text. text ≡ word.now ++ handle_text handle ++ at_text address) }
{
    let mut line = handle_front(alloc, word, handle)?;
    put_at(&mut line, address)?;
    Ok(line)
}

/// A line that begins with this word.
fn word_front(alloc: Global, word: &str) -> Result<Line, LineFault>
    ensures { IfOk result (λ text. text ≡ word.now) }
{
    let mut line = Line::new(alloc);
    line.text(word)?;
    Ok(line)
}

/// A line that begins with whether and where a segment is in memory.
fn presence_front(alloc: Global, presence: Presence) -> Result<Line, LineFault>
    ensures { IfOk result (λ text. text ≡ presence_text presence) }
{
    match presence {
        Presence::Absent => word_front(alloc, "absent"),
        Presence::Purged(handle) => handle_front(alloc, "purged ", handle),
        Presence::Idle(handle, address) => there_front(alloc, "idle ", handle, address),
        Presence::Active(handle, address) => there_front(alloc, "active ", handle, address),
    }
}

/// The reply that reports a segment.
#[tactic(auto, unfolding(loader_machine::specs::Replies::reply_line, loader_machine::specs::Replies::reply_text))]
pub fn info_line(alloc: Global, info: Info) -> Result<Line, LineFault>
    ensures { IfOk result (λ text. text ≡ reply_line (machine.SegmentIs info.presence info.length info.kind)) }
{
    let mut line = presence_front(alloc, info.presence)?;
    line.text(" length ")?;
    line.hex(info.length, 8)?;
    line.text(" kind ")?;
    line.hex(u32::from(info.kind), 4)?;
    line.text("\n")?;
    Ok(line)
}

/// The reply that reports a new block.
#[tactic(auto, unfolding(loader_machine::specs::Replies::reply_line, loader_machine::specs::Replies::reply_text))]
pub fn placed_line(alloc: Global, handle: Handle, address: u32) -> Result<Line, LineFault>
    ensures { IfOk result (λ text. text ≡ reply_line (machine.Placed handle address)) }
{
    let mut line = there_front(alloc, "handle ", handle, address)?;
    line.text("\n")?;
    Ok(line)
}

/// Appends whether a block is locked.
fn put_lock(line: &mut Line, locked: bool) -> Result<(), LineFault>
    ensures { OnOk result (line.new ≡ line.old ++ lock_text locked) }
{
    if locked {
        line.text(" locked")
    } else {
        line.text(" unlocked")
    }
}

/// A line that reports a block that is there.
fn block_front(alloc: Global, address: u32, state: BlockState) -> Result<Line, LineFault>
    ensures { IfOk result (λ text. text ≡ there_text address state) }
{
    let mut line = Line::new(alloc);
    line.text("at ")?;
    line.hex(address, 6)?;
    line.text(" size ")?;
    line.hex(state.size, 8)?;
    line.text(" level ")?;
    line.hex(u32::from(state.level), 1)?;
    put_lock(&mut line, state.locked)?;
    Ok(line)
}

/// A line that reports a block.
fn state_front(alloc: Global, state: BlockState) -> Result<Line, LineFault>
    ensures { IfOk result (λ text. text ≡ block_text state.at state) }
{
    match state.at {
        Some(address) => block_front(alloc, address, state),
        None => word_front(alloc, "empty"),
    }
}

/// The reply that reports a block.
#[tactic(auto, unfolding(loader_machine::specs::Replies::reply_line, loader_machine::specs::Replies::reply_text))]
pub fn state_line(alloc: Global, state: BlockState) -> Result<Line, LineFault>
    ensures { IfOk result (λ text. text ≡ reply_line (machine.BlockIs state)) }
{
    let mut line = state_front(alloc, state)?;
    line.text("\n")?;
    Ok(line)
}

/// The reply that says how many bytes are free.
#[tactic(auto, unfolding(loader_machine::specs::Replies::reply_line, loader_machine::specs::Replies::reply_text))]
pub fn room_line(alloc: Global, count: u32) -> Result<Line, LineFault>
    ensures { IfOk result (λ text. text ≡ reply_line (machine.RoomIs count)) }
{
    let mut line = Line::new(alloc);
    line.hex(count, 8)?;
    line.text("\n")?;
    Ok(line)
}

/// The name of a load file's fault.
#[tactic(auto, unfolding(loader_machine::specs::Replies::cause_text))]
fn cause_name(cause: LoadCause) -> &'static str
    ensures { result.now ≡ cause_text cause }
{
    match cause {
        LoadCause::NotLoadFile => "NotLoadFile",
        LoadCause::Truncated => "Truncated",
        LoadCause::BadHeader => "BadHeader",
        LoadCause::Unsupported => "Unsupported",
        LoadCause::BadRecord => "BadRecord",
        LoadCause::Sequence => "Sequence",
        LoadCause::DataTooLong => "DataTooLong",
        LoadCause::PatchOutside => "PatchOutside",
        LoadCause::NoSuchTarget => "NoSuchTarget",
        LoadCause::DynamicTarget => "DynamicTarget",
        LoadCause::BadTable => "BadTable",
        LoadCause::Memory => "Memory",
    }
}

/// A line that reports a load file's fault.
fn bad_file_front(alloc: Global, fault: LoadFault) -> Result<Line, LineFault>
    ensures { IfOk result (λ text. text ≡ bad_file_text fault) }
{
    let mut line = Line::new(alloc);
    line.text("refused BadFile ")?;
    line.text(cause_name(fault.cause))?;
    line.text(" ")?;
    line.hex(fault.segment, 4)?;
    line.text(" ")?;
    line.hex(fault.at, 8)?;
    Ok(line)
}

/// A line of a word and a number in four digits.
fn number_front(alloc: Global, word: &str, number: u32) -> Result<Line, LineFault>
    ensures { IfOk result (λ text. text ≡ word.now ++ hexadecimal 4 number) }
{
    let mut line = Line::new(alloc);
    line.text(word)?;
    line.hex(number, 4)?;
    Ok(line)
}

/// A line that reports a refusal. Lack of memory is none.
#[tactic(auto, unfolding(loader_machine::specs::Replies::refused_text))]
fn refusal_front(alloc: Global, fault: LoaderFault) -> Result<Line, LineFault>
    ensures { IfOk result (λ text. (fault ≢ LoaderFault.Memory) × (text ≡ refused_text fault)) }
{
    match fault {
        LoaderFault::NoUser => word_front(alloc, "refused NoUser"),
        LoaderFault::NotRunning => word_front(alloc, "refused NotRunning"),
        LoaderFault::Running => word_front(alloc, "refused Running"),
        LoaderFault::NoSegment => word_front(alloc, "refused NoSegment"),
        LoaderFault::Static => word_front(alloc, "refused Static"),
        LoaderFault::NotActive => word_front(alloc, "refused NotActive"),
        LoaderFault::OutOfSegment => word_front(alloc, "refused OutOfSegment"),
        LoaderFault::TableByte => word_front(alloc, "refused TableByte"),
        LoaderFault::NotJsl => word_front(alloc, "refused NotJsl"),
        LoaderFault::NoTarget => word_front(alloc, "refused NoTarget"),
        LoaderFault::NotEntry => word_front(alloc, "refused NotEntry"),
        LoaderFault::TooManyUsers => word_front(alloc, "refused TooManyUsers"),
        LoaderFault::CannotRead => word_front(alloc, "cannot read"),
        LoaderFault::BadFile(bad) => bad_file_front(alloc, bad),
        LoaderFault::Changed { kept: _, found } => {
            number_front(alloc, "refused Changed ", found.segment)
        }
        LoaderFault::NoHandle => word_front(alloc, "refused NoHandle"),
        LoaderFault::NoRoom(number) => { number_front(alloc, "refused NoRoom ", u32::from(number)) }
        LoaderFault::Stale => word_front(alloc, "refused Stale"),
        LoaderFault::LoaderOwned => word_front(alloc, "refused LoaderOwned"),
        LoaderFault::Empty => word_front(alloc, "refused Empty"),
        LoaderFault::Memory => Err(LineFault::Memory),
    }
}

/// The reply of a refused command. Lack of memory is no reply.
#[tactic(auto, unfolding(loader_machine::specs::Replies::reply_line, loader_machine::specs::Replies::reply_text))]
pub fn refusal_line(alloc: Global, fault: LoaderFault) -> Result<Line, LineFault>
    ensures { IfOk result (λ text. (fault ≢ LoaderFault.Memory) × (text ≡ reply_line (machine.Refused fault))) }
{
    let mut line = refusal_front(alloc, fault)?;
    line.text("\n")?;
    Ok(line)
}

/// The line of a reply that reports nothing, or of a refusal.
pub fn done_line(alloc: Global, done: Result<(), LoaderFault>) -> Result<Line, LineFault>
    ensures { IsLineOf result (done_reply done) }
{
    match done {
        Ok(()) => okay_line(alloc),
        Err(fault) => refusal_line(alloc, fault),
    }
}

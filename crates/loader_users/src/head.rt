//! What a segment's header asks of the loader.

ghost use Rattle.std.specs.Prelude.{◌≡◌, ◌==◌};
ghost use Rattle.omf_format.specs.Header as format;
ghost use Rattle.iigs_meaning.specs.Fits.{IsWant};
ghost use Rattle.loader_machine.specs.Heads as heads;
ghost use Rattle.loader_machine.specs.laws.Words as words;
ghost use Rattle.loader_machine.specs.Steps as steps;

use iigs_meaning::Want;
use loader_machine::SegmentHead;
use omf_header::Kind;

/// The type of a jump table.
const TABLE: u8 = 0x02;

/// The type of a direct page and stack.
const STACK: u8 = 0x12;

/// The type of code.
const CODE: u8 = 0x00;

/// The size of a page, which is the least alignment of a stack.
const PAGE: u32 = 0x100;

/// The size of a bank.
const BANK: u32 = 0x10000;

fn kind(head: &SegmentHead) -> Kind
    ensures { result.bits ≡ head.now.kind }
{
    Kind { bits: head.kind }
}

/// Whether the segment is never loaded.
pub fn is_skipped(head: &SegmentHead) -> bool
    ensures { result ≡ format.is_skipped head.now.kind }
{
    kind(head).is_skip()
}

/// Whether the segment is loaded when it is called.
pub fn is_dynamic(head: &SegmentHead) -> bool
    ensures { result ≡ format.is_dynamic head.now.kind }
{
    kind(head).is_dynamic()
}

/// Whether the segment is loaded with its file.
pub fn is_static(head: &SegmentHead) -> bool
    ensures { result ≡ heads.is_static head.now }
{
    let kind = kind(head);
    !kind.is_dynamic() && !kind.is_skip()
}

/// Whether the segment is static, and read again at each restart.
pub fn is_read_again(head: &SegmentHead) -> bool
    ensures { result ≡ steps.is_read_again head.now }
{
    is_static(head) && kind(head).is_reload()
}

/// Whether the segment is a jump table.
pub fn is_table(head: &SegmentHead) -> bool
    ensures { result ≡ heads.is_table head.now }
{
    kind(head).form() == TABLE
}

/// Whether the segment is code.
pub fn is_code(head: &SegmentHead) -> bool
    ensures { result ≡ (format.form_of head.now.kind == 0x00) }
{
    kind(head).form() == CODE
}

fn is_stack(head: &SegmentHead) -> bool
    ensures { result ≡ words.is_stack head.now }
{
    kind(head).form() == STACK
}

/// Of what the segment's address is a multiple.
fn alignment(head: &SegmentHead) -> u32
    ensures { result ≡ format.alignment_of head.now.align }
{
    match head.align {
        0 => 1,
        1..=0x100 => PAGE,
        _ => BANK,
    }
}

fn stays_in_bank(head: &SegmentHead) -> bool
    ensures { result ≡ format.stays_in_bank head.now.bank_size }
{
    head.bank_size != 0
}

fn fixes_bank(head: &SegmentHead) -> bool
    ensures { result ≡ words.fixes_bank head.now }
{
    let kind = kind(head);
    head.org != 0 && (kind.is_absolute_bank() && !kind.is_bank_relative())
}

fn fixes_low(head: &SegmentHead) -> bool
    ensures { result ≡ words.fixes_low head.now }
{
    let kind = kind(head);
    head.org != 0 && (kind.is_bank_relative() && !kind.is_absolute_bank())
}

fn fixes_address(head: &SegmentHead) -> bool
    ensures { result ≡ words.fixes_address head.now }
{
    head.org != 0 && (!fixes_bank(head) && !fixes_low(head))
}

fn some_if(asked: bool, n: u32) -> Option<u32>
    ensures { result ≡ heads.some_if asked n }
{
    if asked { Some(n) } else { None }
}

fn stack_want(head: &SegmentHead) -> Want
    ensures is { result ≡ words.stack_want head.now }
    ensures want { IsWant result }
{
    Want {
        size: head.length.max(1),
        align: alignment(head).max(PAGE),
        no_cross: stays_in_bank(head),
        no_special: false,
        at: None,
        bank: Some(0),
        low: None,
    }
}

fn plain_want(head: &SegmentHead) -> Want
    ensures is { result ≡ words.plain_want head.now }
    ensures want { IsWant result }
{
    Want {
        size: head.length.max(1),
        align: alignment(head),
        no_cross: stays_in_bank(head),
        no_special: kind(head).avoids_special(),
        at: some_if(fixes_address(head), head.org),
        bank: some_if(fixes_bank(head), head.org / BANK),
        low: some_if(fixes_low(head), head.org % BANK),
    }
}

/// What is asked of the segment's place.
#[tactic(auto, unfolding(loader_machine::specs::Heads::want_of))]
pub fn want_of(head: &SegmentHead) -> Want
    ensures is { result ≡ heads.want_of head.now }
    ensures want { IsWant result }
{
    if is_stack(head) {
        stack_want(head)
    } else {
        plain_want(head)
    }
}

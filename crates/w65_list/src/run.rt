//! Constant bytes as instructions.

ghost use Rattle.std.specs.Prelude.{◌≡◌, ◌≤◌, ◌<◌, ◌+◌, ◌∷◌, [], false, drop, take, get_or, length, slice_get, OnOk, IfOk, IsErrOf, Some, IfSome, option_map};
ghost use Rattle.std.specs.List.{list_all};
ghost use Rattle.byteorder.specs.Endian.{little_number};
ghost use Rattle.asm_meaning.specs.declared.directives.Switch.TheVariants.{LongA, LongI};
ghost use Rattle.asm_meaning.specs.Instruction.{kind_of};
ghost use Rattle.list_meaning.specs.Listed.{Banks};
ghost use Rattle.list_meaning.specs.Listing.{is_short, operand_by, said_instruction, widths_past, said_rest, widths_rest, turns_between, widths_by, widths_following, instruction_of_opcode, after_opcode};
ghost use Rattle.list_meaning.specs.laws.Steps.{written_or};
ghost use Rattle.list_lines.specs.LineView.{WroteAll, HasSize, operand_view};
ghost use Rattle.list_lines.specs.OutputView.{finished_lines, open_line};
ghost use Rattle.w65_list.specs.RunView.{turned_between, widths_view};

use asm_meaning::Switch;
use list_lines::{LineStop, ListingText, Wanted, put_dc_bytes, put_instruction, put_switch};
use omf_base::items_after;
use orca_meaning::{Mnemonic, Mode};
use w65_encode::{decode, length};

/// Whether the accumulator and the index registers have 16 bits.
#[derive(Clone, Copy, Debug, PartialEq, Eq)]
pub struct RegisterWidths {
    /// The accumulator.
    pub long_a: bool,
    /// The index registers.
    pub long_i: bool,
}

/// The widths whose bits are set are these.
fn with_bits(widths: RegisterWidths, bits: u8, on: bool) -> RegisterWidths
    ensures { widths_view result ≡ widths_by on bits (widths_view widths) }
{
    RegisterWidths {
        long_a: if bits & 0x20 == 0 { widths.long_a } else { on },
        long_i: if bits & 0x10 == 0 { widths.long_i } else { on },
    }
}

/// The first byte, or 0.
fn first_byte(bytes: &[u8]) -> u8
    ensures { result ≡ little_number 1 bytes.now }
{
    match bytes.first() {
        Some(first) => *first,
        None => 0,
    }
}

/// The widths after an instruction with constant bytes.
#[tactic(auto, unfolding(list_meaning::specs::Listing::widths_following))]
fn widths_after(widths: RegisterWidths, mnemonic: Mnemonic, operand: &[u8]) -> RegisterWidths
    ensures { widths_view result ≡ widths_following mnemonic operand.now (widths_view widths) }
{
    match mnemonic {
        Mnemonic::Rep => with_bits(widths, first_byte(operand), true),
        Mnemonic::Sep => with_bits(widths, first_byte(operand), false),
        _ => widths,
    }
}

/// The instruction of an opcode.
pub fn instruction_of(opcode: u8) -> (Mnemonic, Mode)
    ensures { result ≡ instruction_of_opcode opcode }
{
    decode(opcode)
}

/// How many bytes are after an opcode.
#[tactic(auto, unfolding(asm_meaning::specs::Instruction::operand_bytes))]
pub fn operand_size(widths: RegisterWidths, opcode: u8) -> usize
    ensures size { result ≡ after_opcode (widths_view widths) opcode }
    ensures few { result ≤ 3 }
{
    length(opcode, widths.long_a, widths.long_i) as usize - 1
}

/// LONGA where its width changed.
#[tactic(auto, using(list_lines::proofs::Written::wrote_one, list_lines::proofs::Written::wrote_none, list_lines::proofs::Written::long_one))]
fn put_long_a(out: &mut ListingText, old: bool, new: bool) -> Result<(), LineStop>
    requires { open_line out.old ≡ [] }
    ensures wrote { OnOk result (WroteAll (turned_between LongA old new) out.old out.new) }
    ensures long { IsErrOf result LineStop.NotListable → list_all is_short (turned_between LongA old new) ≡ false }
{
    if old == new {
        return Ok(());
    }
    put_switch(out, Switch::LongA, new)
}

/// LONGI where its width changed.
#[tactic(auto, using(list_lines::proofs::Written::wrote_one, list_lines::proofs::Written::wrote_none, list_lines::proofs::Written::long_one))]
fn put_long_i(out: &mut ListingText, old: bool, new: bool) -> Result<(), LineStop>
    requires { open_line out.old ≡ [] }
    ensures wrote { OnOk result (WroteAll (turned_between LongI old new) out.old out.new) }
    ensures long { IsErrOf result LineStop.NotListable → list_all is_short (turned_between LongI old new) ≡ false }
{
    if old == new {
        return Ok(());
    }
    put_switch(out, Switch::LongI, new)
}

/// LONGA and LONGI where a width changed.
#[tactic(auto, using(list_lines::proofs::Written::wrote_both, list_lines::proofs::Written::long_first, list_lines::proofs::Written::long_second))]
fn put_turns(
    out: &mut ListingText,
    old: RegisterWidths,
    new: RegisterWidths,
) -> Result<(), LineStop>
    requires { open_line out.old ≡ [] }
    ensures wrote { OnOk result (WroteAll (turns_between (widths_view old) (widths_view new)) out.old out.new) }
    ensures long { IsErrOf result LineStop.NotListable → list_all is_short (turns_between (widths_view old) (widths_view new)) ≡ false }
{
    put_long_a(out, old.long_a, new.long_a)?;
    put_long_i(out, old.long_i, new.long_i)
}

/// The number that at most three bytes are, the lowest first.
fn number_of(bytes: &[u8]) -> u32
    requires { length bytes.now ≤ 3 }
    ensures { result ≡ little_number (length bytes.now) bytes.now }
{
    match bytes {
        [] => 0,
        [a] => u32::from(*a),
        [a, b] => u32::from(*a) + 256 * u32::from(*b),
        [a, b, c, ..] => u32::from(*a) + 256 * (u32::from(*b) + 256 * u32::from(*c)),
    }
}

/// The two banks of a block move: the destination is first.
fn banks(bytes: &[u8]) -> Wanted<'static>
    ensures { operand_view result ≡ Banks (little_number 1 (drop 1 bytes.now)) (little_number 1 bytes.now) }
{
    match bytes {
        [] => Wanted::Banks(0, 0),
        [destination] => Wanted::Banks(0, *destination),
        [destination, source, ..] => Wanted::Banks(*source, *destination),
    }
}

/// The operand of an instruction by its bytes; None for a branch.
#[tactic(auto, unfolding(asm_meaning::specs::Instruction::kind_of))]
fn wanted_operand(mode: Mode, bytes: &[u8]) -> Option<Wanted<'static>>
    requires { length bytes.now ≤ 3 }
    ensures value { option_map operand_view result ≡ operand_by (kind_of mode) bytes.now }
    ensures size { IfSome result (λ w. HasSize (operand_view w)) }
{
    match mode {
        Mode::Implied | Mode::Accumulator => Some(Wanted::Missing),
        Mode::Relative8 | Mode::Relative16 => None,
        Mode::Move => Some(banks(bytes)),
        _ => Some(Wanted::Number(bytes.len() as u32, number_of(bytes))),
    }
}

/// The line of a whole instruction.
#[tactic(auto, using(list_lines::proofs::Written::wrote_one, list_lines::proofs::Written::long_one))]
fn put_whole(
    out: &mut ListingText,
    found: (Mnemonic, Mode),
    instruction: &[u8],
) -> Result<(), LineStop>
    requires line { open_line out.old ≡ [] }
    requires some { 1 ≤ length instruction.now }
    requires most { length instruction.now ≤ 4 }
    ensures wrote { OnOk result (WroteAll (written_or found.0 found.1 instruction.now (operand_by (kind_of found.1) (drop 1 instruction.now))) out.old out.new) }
    ensures long { IsErrOf result LineStop.NotListable
        → list_all is_short (written_or found.0 found.1 instruction.now (operand_by (kind_of found.1) (drop 1 instruction.now))) ≡ false }
{
    match wanted_operand(found.1, &instruction[1..]) {
        Some(operand) => put_instruction(out, found.0, found.1, operand),
        None => put_dc_bytes(out, instruction),
    }
}

/// The lines of an instruction of the rest of a run, which may be cut, and the widths after it.
#[tactic(auto, using(list_lines::proofs::Written::wrote_one, list_lines::proofs::Written::long_one, list_lines::proofs::Written::wrote_both, list_lines::proofs::Written::long_first, list_lines::proofs::Written::long_second), unfolding(list_meaning::specs::Listing::said_instruction))]
fn list_instruction(
    out: &mut ListingText,
    widths: RegisterWidths,
    instruction: &[u8],
) -> Result<RegisterWidths, LineStop>
    requires line { open_line out.old ≡ [] }
    requires some { 1 ≤ length instruction.now }
    requires most { length instruction.now ≤ after_opcode (widths_view widths) (get_or instruction.now 0 0) + 1 }
    ensures wrote { OnOk result (WroteAll (said_instruction (widths_view widths) (get_or instruction.now 0 0) (drop 1 instruction.now)) out.old out.new) }
    ensures widths { IfOk result (λ w. widths_view w ≡ widths_past (widths_view widths) (get_or instruction.now 0 0) (drop 1 instruction.now)) }
    ensures long { IsErrOf result LineStop.NotListable
        → list_all is_short (said_instruction (widths_view widths) (get_or instruction.now 0 0) (drop 1 instruction.now)) ≡ false }
{
    let opcode = instruction[0];
    if instruction.len() <= operand_size(widths, opcode) {
        put_dc_bytes(out, instruction)?;
        return Ok(widths);
    }
    let found = instruction_of(opcode);
    put_whole(out, found, instruction)?;
    let after = widths_after(widths, found.0, &instruction[1..]);
    put_turns(out, widths, after)?;
    Ok(after)
}

/// The instruction at the start of a run, as far as the run has it.
fn front_of(widths: RegisterWidths, run: &[u8]) -> &[u8]
    requires { 1 ≤ length run.now }
    ensures value { result.now ≡ take (after_opcode (widths_view widths) (get_or run.now 0 0) + 1) run.now }
    ensures some { 1 ≤ length result.now }
    ensures within { length result.now ≤ length run.now }
{
    let size = operand_size(widths, run[0]);
    if run.len() <= size {
        run
    } else {
        &run[..size + 1]
    }
}

/// The lines of the rest of a run, and the widths after it.
#[tactic(auto, using(crate::proofs::RunLaws::on_step, crate::proofs::RunLaws::on_end, crate::proofs::RunLaws::on_long))]
pub fn put_rest(
    out: &mut ListingText,
    widths: RegisterWidths,
    run: &[u8],
) -> Result<RegisterWidths, LineStop>
    requires { open_line out.old ≡ [] }
    ensures wrote { OnOk result (WroteAll (said_rest (widths_view widths) 0 run.now) out.old out.new) }
    ensures widths { IfOk result (λ w. widths_view w ≡ widths_rest (widths_view widths) 0 run.now) }
    ensures long { IsErrOf result LineStop.NotListable → list_all is_short (said_rest (widths_view widths) 0 run.now) ≡ false }
{
    let mut widths = widths;
    let mut left = run;
    'instructions: while !left.is_empty() {
        let front = front_of(widths, left);
        widths = list_instruction(out, widths, front)?;
        left = items_after(left, front.len());
    }
    Ok(widths)
}

/// The widths after an instruction of the rest of a run, which may be cut.
fn widths_after_front(widths: RegisterWidths, instruction: &[u8]) -> RegisterWidths
    requires some { 1 ≤ length instruction.now }
    requires most { length instruction.now ≤ after_opcode (widths_view widths) (get_or instruction.now 0 0) + 1 }
    ensures { widths_view result ≡ widths_past (widths_view widths) (get_or instruction.now 0 0) (drop 1 instruction.now) }
{
    let opcode = instruction[0];
    if instruction.len() <= operand_size(widths, opcode) {
        return widths;
    }
    widths_after(widths, instruction_of(opcode).0, &instruction[1..])
}

/// The widths after the rest of a run.
#[tactic(auto, using(crate::proofs::RunLaws::widths_on))]
pub fn widths_following(widths: RegisterWidths, run: &[u8]) -> RegisterWidths
    ensures { widths_view result ≡ widths_rest (widths_view widths) 0 run.now }
{
    let mut widths = widths;
    let mut left = run;
    'instructions: while !left.is_empty() {
        let front = front_of(widths, left);
        widths = widths_after_front(widths, front);
        left = items_after(left, front.len());
    }
    widths
}

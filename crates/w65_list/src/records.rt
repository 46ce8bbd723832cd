//! The lines of records.

ghost use Rattle.std.specs.Prelude.{◌≡◌, ◌∷◌, ◌≤◌, ◌==◌, if◌then◌else◌, ◌&&◌, ◌||◌, [], ℕ, List, true, ◌++◌, None, Some, not, false, nat_le, option_map, IfSome, IfOk, OnOk, IsErrOf, is_some};
ghost use Rattle.std.specs.Int.{is_power_of_two};
ghost use Rattle.std.specs.List.{list_all};
ghost use Rattle.omf_format.specs.declared.codes.TheConstants.{EXPR};
ghost use Rattle.omf_format.specs.Expression.{Tree, Spells, IsExpression};
ghost use Rattle.omf_format.specs.Header.{alignment_of};
ghost use Rattle.omf_format.specs.Record as format;
ghost use Rattle.omf_header.specs.View.{fields};
ghost use Rattle.omf_records.specs.View.{view};
ghost use Rattle.omf_expr.specs.View.{view as seen};
ghost use Rattle.asm_meaning.specs.Instruction.{kind_of, address_code};
ghost use Rattle.object_meaning.specs.Terms.{tree_in};
ghost use Rattle.list_meaning.specs.Listed.{ListedStatement, Aligns, OrgIs, Ds, UsingIs, StrongIs, Labels, Equates, FormulaIs, WeakIs, EndIs};
ghost use Rattle.list_meaning.specs.Listing as listing;
ghost use Rattle.list_meaning.specs.Listing.{Given, is_record, record_by, record_of_opcode, with_run_written, then_said, with_name, is_among, is_listable, is_short, if_short, unless_zero, equate_given, number_of, both_long, dc_of_formula, weak_of, simple_of, split_last, formula_listable, formula_given, given_by};
ghost use Rattle.list_meaning.specs.laws.Steps.{are_short, follows_opcode, held_back, is_held};
ghost use Rattle.w65_list.specs.BeforeView.{IsBefore};
ghost use Rattle.list_lines.specs.FormulaView.{IsFront, simple_four, weak_two};
ghost use Rattle.w65_list.specs.Giving.{Gave, IsGiven, formula_seen, held_by, held_with, equate_by, HasExpression};
ghost use Rattle.list_lines.specs.LineView.{HasSize, operand_view, Wrote, WroteAll};
ghost use Rattle.list_lines.specs.NamesView.{AreNames};
ghost use Rattle.list_lines.specs.OutputView.{open_line};
ghost use Rattle.w65_list.specs.RunView.{widths_view};

use crate::run::{RegisterWidths, instruction_of, operand_size, put_rest, widths_following};
use list_lines::{
    FormulaFacts, Front, LineStop, ListingText, Names, Wanted, facts_of, first_bytes, front_of,
    is_listable, put_align, put_dc_formula, put_dc_strong, put_dc_weak, put_ds, put_end,
    put_equate, put_instruction, put_label, put_org, put_using, text_of,
};
use omf_expr::Expr;
use omf_format::{BEXPR, EXPR, LEXPR, RELEXPR, ZEXPR};
use omf_header::Header;
use omf_records::Rec;
use orca_meaning::{Mnemonic, Mode};
use std::alloc::{AllocError, Global};

/// What the lines so far leave: the present widths, the constant bytes directly before, and the names that were defined.
#[derive(Drop)]
pub(crate) struct PendingRun<'a> {
    widths: RegisterWidths,
    run: Vec<u8>,
    names: Names<'a>,
}

/// Both registers have 16 bits.
const BOTH_LONG: RegisterWidths = RegisterWidths {
    long_a: true,
    long_i: true,
};

/// An expression record without its expression.
#[derive(Clone, Copy)]
struct ListedFormula {
    code: u8,
    count: u8,
    n: u32,
}

/// The code of the record of an address that is no constant.
fn address_code(mnemonic: Mnemonic) -> u8
    ensures { result ≡ address_code mnemonic 3 }
{
    match mnemonic {
        Mnemonic::Jsl | Mnemonic::Jml => LEXPR,
        _ => EXPR,
    }
}

/// The code, the count and the n of the record of an operand that is no constant.
#[tactic(auto, unfolding(asm_meaning::specs::Instruction::kind_of, list_meaning::specs::Listing::record_by))]
fn record_by(mnemonic: Mnemonic, mode: Mode, bytes: u8) -> Option<ListedFormula>
    ensures { option_map formula_seen result ≡ record_by mnemonic (kind_of mode) bytes }
{
    let (code, n) = match mode {
        Mode::Implied | Mode::Accumulator | Mode::Move => return None,
        Mode::Immediate | Mode::Signature => (EXPR, 0),
        Mode::Relative8 | Mode::Relative16 => (RELEXPR, u32::from(bytes)),
        Mode::Absolute
        | Mode::AbsoluteX
        | Mode::AbsoluteY
        | Mode::AbsoluteIndirect
        | Mode::AbsoluteXIndirect
        | Mode::AbsoluteLongIndirect => (BEXPR, 0),
        Mode::Long | Mode::LongX => (address_code(mnemonic), 0),
        Mode::Direct
        | Mode::DirectX
        | Mode::DirectY
        | Mode::DirectIndirect
        | Mode::DirectIndirectY
        | Mode::DirectXIndirect
        | Mode::DirectLong
        | Mode::DirectLongY
        | Mode::Stack
        | Mode::StackIndirectY => (ZEXPR, 0),
    };
    Some(ListedFormula {
        code,
        count: bytes,
        n,
    })
}

/// Whether an opcode has this record for its operand, at these widths.
fn follows(widths: RegisterWidths, opcode: u8, formula: ListedFormula) -> bool
    ensures { result ≡ is_record formula.code formula.count formula.n (record_of_opcode (widths_view widths) opcode) }
{
    let (mnemonic, mode) = instruction_of(opcode);
    match record_by(mnemonic, mode, operand_size(widths, opcode) as u8) {
        Some(found) => {
            found.code == formula.code && found.count == formula.count && found.n == formula.n
        }
        None => false,
    }
}

/// The lines of an EXPR that isn't part of an instruction.
fn put_apart(
    alloc: Global,
    out: &mut ListingText,
    count: u8,
    expr: &Expr,
    front: Front,
) -> Result<(), LineStop>
    requires line { open_line out.old ≡ [] }
    requires spelled { IsExpression expr.now.lab_len expr.now.text }
    requires front { IsFront expr.now front }
    ensures wrote { OnOk result ((tree : Tree) → Spells expr.now.lab_len expr.now.text tree → Wrote (dc_of_formula count tree (weak_of tree)) out.old out.new) }
    ensures long { IsErrOf result LineStop.NotListable → (tree : Tree) → Spells expr.now.lab_len expr.now.text tree → is_short (dc_of_formula count tree (weak_of tree)) ≡ false }
{
    match front.weak() {
        Some(name) => put_dc_weak(out, name),
        None => {
            let formula = text_of(alloc, expr)?;
            put_dc_formula(out, u32::from(count), first_bytes(formula.bytes(), 256))
        }
    }
}

/// A run without its last byte, and that byte.
#[tactic(auto, using(crate::proofs::Gives::last_split, crate::proofs::Gives::none_split))]
fn split_last(run: &[u8]) -> Option<(&[u8], u8)>
    ensures { option_map (λ found. (found.0.now, found.1)) result ≡ split_last run.now }
{
    match run.split_last() {
        Some((last, rest)) => Some((rest, *last)),
        None => None,
    }
}

/// Whether a record that isn't EXPR follows on an opcode that has it.
fn follows_last(run: &[u8], formula: ListedFormula) -> bool
    ensures { result ≡ follows_opcode formula.code formula.count formula.n (split_last run.now) }
{
    match split_last(run) {
        Some((_, opcode)) => follows(BOTH_LONG, opcode, formula),
        None => false,
    }
}

/// The number where the expression that bytes spell is one.
fn number_in(expr: &[u8], lab_len: u8) -> Option<u32>
    requires { IsExpression lab_len expr.now }
    ensures { (tree : Tree) → Spells lab_len expr.now tree → result ≡ number_of tree }
{
    let expr = Expr::spelled(expr, lab_len);
    front_of(&expr).number()
}

/// Whether a label or an equate can be listed by its private byte.
fn may_stand(global: bool, private: u8) -> bool
    ensures { result ≡ (not global || private == 0) }
{
    !global || private == 0
}

/// Whether an EXPR can be listed whose names can: it is a weak name of two bytes, or a formula that is written.
fn is_listable_expr(known: FormulaFacts, count: u8, front: Front) -> bool
    ensures { result ≡ (if is_some (weak_two (option_map seen front.entry.first) (option_map seen front.entry.second)) then count == 2 else (known.written && known.varies)) }
{
    match front.weak() {
        Some(_) => count == 2,
        None => known.written && known.varies,
    }
}

/// Whether another expression record can be listed whose names can: it is simple, and follows on an opcode that has it.
fn is_listable_operand(run: &[u8], formula: ListedFormula, front: Front) -> bool
    ensures { result ≡ (is_some (simple_four (option_map seen front.entry.first) (option_map seen front.entry.second) (option_map seen front.entry.third) (option_map seen front.entry.fourth))
        && follows_opcode formula.code formula.count formula.n (split_last run.now)) }
{
    match front.simple() {
        Some(_) => follows_last(run, formula),
        None => false,
    }
}

/// Whether an expression record can be listed whose names can.
fn is_listable_by_kind(
    known: FormulaFacts,
    run: &[u8],
    formula: ListedFormula,
    front: Front,
) -> bool
    ensures { result ≡ (if formula.code == EXPR
        then (if is_some (weak_two (option_map seen front.entry.first) (option_map seen front.entry.second)) then formula.count == 2 else (known.written && known.varies))
        else (is_some (simple_four (option_map seen front.entry.first) (option_map seen front.entry.second) (option_map seen front.entry.third) (option_map seen front.entry.fourth))
        && follows_opcode formula.code formula.count formula.n (split_last run.now))) }
{
    if formula.code == EXPR {
        is_listable_expr(known, formula.count, front)
    } else {
        is_listable_operand(run, formula, front)
    }
}

/// Whether an expression record can be listed.
fn is_formula_listable(
    equated: &Names,
    run: &[u8],
    formula: ListedFormula,
    expr: &Expr,
    front: Front,
) -> bool
    requires { IsFront expr.now front }
    ensures { (b : listing.PendingRun) (all : List (List ℕ)) (tree : Tree) → b.run ≡ run.now → AreNames equated.now all → Spells expr.now.lab_len expr.now.text tree
        → result ≡ formula_listable all b formula.code formula.count formula.n tree }
{
    let known = facts_of(expr, equated);
    known.named && is_listable_by_kind(known, run, formula, front)
}

/// The lines of END, with DS for RESSPC.
#[tactic(auto, using(list_lines::proofs::Written::wrote_one, list_lines::proofs::Written::wrote_both, list_lines::proofs::Written::long_one, list_lines::proofs::Written::long_first, list_lines::proofs::Written::long_second))]
fn put_reserved_and_end(out: &mut ListingText, res_spc: u32) -> Result<(), LineStop>
    requires { open_line out.old ≡ [] }
    ensures wrote { OnOk result (WroteAll (unless_zero Ds res_spc ++ EndIs ∷ []) out.old out.new) }
    ensures long { IsErrOf result LineStop.NotListable → list_all is_short (unless_zero Ds res_spc ++ EndIs ∷ []) ≡ false }
{
    if res_spc != 0 {
        put_ds(out, res_spc)?;
    }
    put_end(out)
}

impl<'a> PendingRun<'a> {
    /// Before the first record: both registers have 16 bits, and the segment's name is the first that it defines.
    pub(crate) fn new(alloc: Global, name: &'a [u8]) -> Result<PendingRun<'a>, AllocError>
        ensures { IfOk result (λ before. IsBefore before (record { widths = both_long; run = []; names = name.now ∷ [] })) }
    {
        let mut names = Names::new(alloc);
        names.add(name)?;
        Ok(PendingRun {
            widths: BOTH_LONG,
            run: Vec::new(alloc),
            names,
        })
    }

    /// Writes the run.
    fn flush(&mut self, out: &mut ListingText) -> Result<(), LineStop>
        requires { open_line out.old ≡ [] }
        ensures gave { OnOk result ((b : listing.PendingRun) → IsBefore self.old b → Gave (with_run_written b) out.old out.new self.new) }
        ensures long { IsErrOf result LineStop.NotListable → (b : listing.PendingRun) → IsBefore self.old b → are_short (with_run_written b) ≡ false }
        ensures line { OnOk result (open_line out.new ≡ []) }
    {
        self.widths = put_rest(out, self.widths, self.run.as_slice())?;
        self.run.clear();
        Ok(())
    }

    /// One more name is defined.
    fn define(&mut self, name: &'a [u8]) -> Result<(), AllocError>
        ensures { OnOk result ((b : listing.PendingRun) → IsBefore self.old b → IsBefore self.new (record b { names = name.now ∷ b.names })) }
    {
        self.names.add(name)
    }

    /// Whether a name can be listed and wasn't defined yet.
    fn is_new(&self, name: &[u8]) -> bool
        ensures { (b : listing.PendingRun) → IsBefore self.now b → result ≡ (is_listable name.now && not (is_among b.names name.now)) }
    {
        is_listable(name) && !self.names.has(name)
    }

    /// Constant bytes.
    fn take_bytes(&mut self, bytes: &[u8]) -> Result<(), AllocError>
        ensures { OnOk result ((b : listing.PendingRun) → IsBefore self.old b → IsBefore self.new (record b { run = b.run ++ bytes.now })) }
    {
        self.run.extend_from_slice(bytes)
    }

    /// The lines of END, with DS for RESSPC.
    fn end(&mut self, out: &mut ListingText, res_spc: u32) -> Result<(), LineStop>
        requires { open_line out.old ≡ [] }
        ensures gave { OnOk result ((b : listing.PendingRun) → IsBefore self.old b → Gave (then_said (unless_zero Ds res_spc ++ EndIs ∷ []) (with_run_written b)) out.old out.new self.new) }
        ensures long { IsErrOf result LineStop.NotListable → (b : listing.PendingRun) → IsBefore self.old b → are_short (then_said (unless_zero Ds res_spc ++ EndIs ∷ []) (with_run_written b)) ≡ false }
    {
        self.flush(out)?;
        put_reserved_and_end(out, res_spc)
    }

    /// The line of ALIGN.
    fn align(&mut self, out: &mut ListingText, n: u32) -> Result<(), LineStop>
        requires { open_line out.old ≡ [] }
        ensures gave { OnOk result ((b : listing.PendingRun) → IsBefore self.old b → Gave (then_said (Aligns n ∷ []) (with_run_written b)) out.old out.new self.new) }
        ensures long { IsErrOf result LineStop.NotListable → (b : listing.PendingRun) → IsBefore self.old b → are_short (then_said (Aligns n ∷ []) (with_run_written b)) ≡ false }
    {
        self.flush(out)?;
        put_align(out, n)
    }

    /// The line of ORG.
    fn move_on(&mut self, out: &mut ListingText, n: u32) -> Result<(), LineStop>
        requires { open_line out.old ≡ [] }
        ensures gave { OnOk result ((b : listing.PendingRun) → IsBefore self.old b → Gave (then_said (OrgIs n ∷ []) (with_run_written b)) out.old out.new self.new) }
        ensures long { IsErrOf result LineStop.NotListable → (b : listing.PendingRun) → IsBefore self.old b → are_short (then_said (OrgIs n ∷ []) (with_run_written b)) ≡ false }
    {
        self.flush(out)?;
        put_org(out, n)
    }

    /// The line of DS.
    fn space(&mut self, out: &mut ListingText, n: u32) -> Result<(), LineStop>
        requires { open_line out.old ≡ [] }
        ensures gave { OnOk result ((b : listing.PendingRun) → IsBefore self.old b → Gave (then_said (Ds n ∷ []) (with_run_written b)) out.old out.new self.new) }
        ensures long { IsErrOf result LineStop.NotListable → (b : listing.PendingRun) → IsBefore self.old b → are_short (then_said (Ds n ∷ []) (with_run_written b)) ≡ false }
    {
        self.flush(out)?;
        put_ds(out, n)
    }

    /// The line of USING.
    fn using(&mut self, out: &mut ListingText, name: &[u8]) -> Result<(), LineStop>
        requires { open_line out.old ≡ [] }
        ensures gave { OnOk result ((b : listing.PendingRun) → IsBefore self.old b → Gave (then_said (UsingIs name.now ∷ []) (with_run_written b)) out.old out.new self.new) }
        ensures long { IsErrOf result LineStop.NotListable → (b : listing.PendingRun) → IsBefore self.old b → are_short (then_said (UsingIs name.now ∷ []) (with_run_written b)) ≡ false }
    {
        self.flush(out)?;
        put_using(out, name)
    }

    /// The line of STRONG.
    fn strong(&mut self, out: &mut ListingText, name: &[u8]) -> Result<(), LineStop>
        requires { open_line out.old ≡ [] }
        ensures gave { OnOk result ((b : listing.PendingRun) → IsBefore self.old b → Gave (then_said (StrongIs name.now ∷ []) (with_run_written b)) out.old out.new self.new) }
        ensures long { IsErrOf result LineStop.NotListable → (b : listing.PendingRun) → IsBefore self.old b → are_short (then_said (StrongIs name.now ∷ []) (with_run_written b)) ≡ false }
    {
        self.flush(out)?;
        put_dc_strong(out, name)
    }

    /// The line of GLOBAL or LOCAL.
    fn label(&mut self, out: &mut ListingText, global: bool, name: &[u8]) -> Result<(), LineStop>
        requires { open_line out.old ≡ [] }
        ensures gave { OnOk result ((b : listing.PendingRun) → IsBefore self.old b → Gave (then_said (Labels global name.now ∷ []) (with_run_written b)) out.old out.new self.new) }
        ensures long { IsErrOf result LineStop.NotListable → (b : listing.PendingRun) → IsBefore self.old b → are_short (then_said (Labels global name.now ∷ []) (with_run_written b)) ≡ false }
    {
        self.flush(out)?;
        put_label(out, global, name)
    }

    /// The line of GEQU or EQU.
    fn equate(
        &mut self,
        out: &mut ListingText,
        global: bool,
        name: &[u8],
        n: u32,
    ) -> Result<(), LineStop>
        requires { open_line out.old ≡ [] }
        ensures gave { OnOk result ((b : listing.PendingRun) → IsBefore self.old b → Gave (then_said (Equates global name.now n ∷ []) (with_run_written b)) out.old out.new self.new) }
        ensures long { IsErrOf result LineStop.NotListable → (b : listing.PendingRun) → IsBefore self.old b → are_short (then_said (Equates global name.now n ∷ []) (with_run_written b)) ≡ false }
    {
        self.flush(out)?;
        put_equate(out, global, name, n)
    }

    /// The opcode that is held back for this record, if its byte is the last of the run.
    fn held_byte(&self, formula: ListedFormula) -> Option<u8>
        ensures { (b : listing.PendingRun) → IsBefore self.now b → result ≡ held_by b formula.code formula.count formula.n (split_last b.run) }
    {
        let (rest, opcode) = split_last(self.run.as_slice())?;
        if follows(widths_following(self.widths, rest), opcode, formula) {
            Some(opcode)
        } else {
            None
        }
    }

    /// The opcode that is held back, and its operand.
    fn held_operand<'b>(&self, formula: ListedFormula, front: Front<'b>) -> Option<(u8, Wanted<'b>)>
        ensures value { (b : listing.PendingRun) → IsBefore self.now b → option_map (λ found. (found.0, operand_view found.1)) result
            ≡ held_with (held_by b formula.code formula.count formula.n (split_last b.run))
            (simple_four (option_map seen front.entry.first) (option_map seen front.entry.second) (option_map seen front.entry.third) (option_map seen front.entry.fourth)) }
        ensures size { IfSome result (λ found. HasSize (operand_view found.1)) }
    {
        let operand = front.simple()?;
        let opcode = self.held_byte(formula)?;
        Some((opcode, operand))
    }

    /// The run without its last byte.
    fn shorten(&mut self)
        ensures { (b : listing.PendingRun) (rest : List ℕ) (opcode : ℕ) → IsBefore self.old b → b.run ≡ rest ++ opcode ∷ [] → IsBefore self.new (record b { run = rest }) }
    {
        self.run.pop();
    }

    /// Writes the run without its last byte.
    fn flush_rest(&mut self, out: &mut ListingText) -> Result<(), LineStop>
        requires { open_line out.old ≡ [] }
        ensures gave { OnOk result ((b : listing.PendingRun) (rest : List ℕ) (opcode : ℕ) → IsBefore self.old b → b.run ≡ rest ++ opcode ∷ [] → Gave (with_run_written (record b { run = rest })) out.old out.new self.new) }
        ensures long { IsErrOf result LineStop.NotListable → (b : listing.PendingRun) (rest : List ℕ) (opcode : ℕ) → IsBefore self.old b → b.run ≡ rest ++ opcode ∷ [] → are_short (with_run_written (record b { run = rest })) ≡ false }
        ensures line { OnOk result (open_line out.new ≡ []) }
    {
        self.shorten();
        self.flush(out)
    }

    /// The lines of an opcode that is held back and its operand.
    fn put_held(
        &mut self,
        out: &mut ListingText,
        opcode: u8,
        operand: Wanted,
    ) -> Result<(), LineStop>
        requires line { open_line out.old ≡ [] }
        requires size { HasSize (operand_view operand) }
        ensures gave { OnOk result ((b : listing.PendingRun) (rest : List ℕ) → IsBefore self.old b → b.run ≡ rest ++ opcode ∷ []
            → Gave (held_back b rest opcode (operand_view operand.entry)) out.old out.new self.new) }
        ensures long { IsErrOf result LineStop.NotListable → (b : listing.PendingRun) (rest : List ℕ) → IsBefore self.old b → b.run ≡ rest ++ opcode ∷ []
            → are_short (held_back b rest opcode (operand_view operand.entry)) ≡ false }
    {
        self.flush_rest(out)?;
        let (mnemonic, mode) = instruction_of(opcode);
        put_instruction(out, mnemonic, mode, operand)
    }

    /// The lines of the run, and of an EXPR that isn't part of an instruction.
    fn put_beside(
        &mut self,
        alloc: Global,
        out: &mut ListingText,
        count: u8,
        expr: &Expr,
        front: Front,
    ) -> Result<(), LineStop>
        requires line { open_line out.old ≡ [] }
        requires spelled { IsExpression expr.now.lab_len expr.now.text }
        requires front { IsFront expr.now front }
        ensures gave { OnOk result ((b : listing.PendingRun) (tree : Tree) → IsBefore self.old b → Spells expr.now.lab_len expr.now.text tree
            → Gave (then_said (dc_of_formula count tree (weak_of tree) ∷ []) (with_run_written b)) out.old out.new self.new) }
        ensures long { IsErrOf result LineStop.NotListable → (b : listing.PendingRun) (tree : Tree) → IsBefore self.old b → Spells expr.now.lab_len expr.now.text tree
            → are_short (then_said (dc_of_formula count tree (weak_of tree) ∷ []) (with_run_written b)) ≡ false }
    {
        self.flush(out)?;
        put_apart(alloc, out, count, expr, front)
    }

    /// The lines of an expression record that can be listed.
    fn put_formula(
        &mut self,
        alloc: Global,
        out: &mut ListingText,
        formula: ListedFormula,
        expr: &Expr,
        front: Front,
    ) -> Result<(), LineStop>
        requires line { open_line out.old ≡ [] }
        requires spelled { IsExpression expr.now.lab_len expr.now.text }
        requires front { IsFront expr.now front }
        ensures gave { OnOk result ((b : listing.PendingRun) (tree : Tree) → IsBefore self.old b → Spells expr.now.lab_len expr.now.text tree
            → Gave (formula_given b formula.code formula.count formula.n tree (split_last b.run) (simple_of tree)) out.old out.new self.new) }
        ensures long { IsErrOf result LineStop.NotListable → (b : listing.PendingRun) (tree : Tree) → IsBefore self.old b → Spells expr.now.lab_len expr.now.text tree
            → are_short (formula_given b formula.code formula.count formula.n tree (split_last b.run) (simple_of tree)) ≡ false }
    {
        match self.held_operand(formula, front) {
            Some((opcode, operand)) => self.put_held(out, opcode, operand),
            None => self.put_beside(alloc, out, formula.count, expr, front),
        }
    }

    /// END, where its lines are short.
    fn end_record(&mut self, out: &mut ListingText, res_spc: u32) -> Result<(), LineStop>
        requires { open_line out.old ≡ [] }
        ensures given { OnOk result ((b : listing.PendingRun) → IsBefore self.old b → IsGiven (if_short true (then_said (unless_zero Ds res_spc ++ EndIs ∷ []) (with_run_written b))) out.old out.new self.new) }
        ensures refused { IsErrOf result LineStop.NotListable → (b : listing.PendingRun) → IsBefore self.old b → if_short true (then_said (unless_zero Ds res_spc ++ EndIs ∷ []) (with_run_written b)) ≡ None }
    {
        self.end(out, res_spc)
    }

    /// ALIGN, where its n is a power of two, at most $10000 and at most the header's alignment.
    fn align_record(
        &mut self,
        out: &mut ListingText,
        alignment: u32,
        n: u32,
    ) -> Result<(), LineStop>
        requires { open_line out.old ≡ [] }
        ensures given { OnOk result ((b : listing.PendingRun) → IsBefore self.old b → IsGiven (if_short (is_power_of_two n && nat_le n 0x10000 && nat_le n alignment) (then_said (Aligns n ∷ []) (with_run_written b))) out.old out.new self.new) }
        ensures refused { IsErrOf result LineStop.NotListable → (b : listing.PendingRun) → IsBefore self.old b → if_short (is_power_of_two n && nat_le n 0x10000 && nat_le n alignment) (then_said (Aligns n ∷ []) (with_run_written b)) ≡ None }
    {
        if !n.is_power_of_two() || n > 0x10000 || n > alignment {
            return Err(LineStop::NotListable);
        }
        self.align(out, n)
    }

    /// ORG.
    fn move_record(&mut self, out: &mut ListingText, n: u32) -> Result<(), LineStop>
        requires { open_line out.old ≡ [] }
        ensures given { OnOk result ((b : listing.PendingRun) → IsBefore self.old b → IsGiven (if_short true (then_said (OrgIs n ∷ []) (with_run_written b))) out.old out.new self.new) }
        ensures refused { IsErrOf result LineStop.NotListable → (b : listing.PendingRun) → IsBefore self.old b → if_short true (then_said (OrgIs n ∷ []) (with_run_written b)) ≡ None }
    {
        self.move_on(out, n)
    }

    /// DS.
    fn space_record(&mut self, out: &mut ListingText, n: u32) -> Result<(), LineStop>
        requires { open_line out.old ≡ [] }
        ensures given { OnOk result ((b : listing.PendingRun) → IsBefore self.old b → IsGiven (if_short true (then_said (Ds n ∷ []) (with_run_written b))) out.old out.new self.new) }
        ensures refused { IsErrOf result LineStop.NotListable → (b : listing.PendingRun) → IsBefore self.old b → if_short true (then_said (Ds n ∷ []) (with_run_written b)) ≡ None }
    {
        self.space(out, n)
    }

    /// USING, where its name can be listed.
    fn using_record(&mut self, out: &mut ListingText, name: &[u8]) -> Result<(), LineStop>
        requires { open_line out.old ≡ [] }
        ensures given { OnOk result ((b : listing.PendingRun) → IsBefore self.old b → IsGiven (if_short (is_listable name.now) (then_said (UsingIs name.now ∷ []) (with_run_written b))) out.old out.new self.new) }
        ensures refused { IsErrOf result LineStop.NotListable → (b : listing.PendingRun) → IsBefore self.old b → if_short (is_listable name.now) (then_said (UsingIs name.now ∷ []) (with_run_written b)) ≡ None }
    {
        if !is_listable(name) {
            return Err(LineStop::NotListable);
        }
        self.using(out, name)
    }

    /// STRONG, where its name can be listed.
    fn strong_record(&mut self, out: &mut ListingText, name: &[u8]) -> Result<(), LineStop>
        requires { open_line out.old ≡ [] }
        ensures given { OnOk result ((b : listing.PendingRun) → IsBefore self.old b → IsGiven (if_short (is_listable name.now) (then_said (StrongIs name.now ∷ []) (with_run_written b))) out.old out.new self.new) }
        ensures refused { IsErrOf result LineStop.NotListable → (b : listing.PendingRun) → IsBefore self.old b → if_short (is_listable name.now) (then_said (StrongIs name.now ∷ []) (with_run_written b)) ≡ None }
    {
        if !is_listable(name) {
            return Err(LineStop::NotListable);
        }
        self.strong(out, name)
    }

    /// GLOBAL or LOCAL, where a GLOBAL isn't private and the name is new.
    fn label_record(
        &mut self,
        out: &mut ListingText,
        global: bool,
        name: &'a [u8],
        private: u8,
    ) -> Result<(), LineStop>
        requires { open_line out.old ≡ [] }
        ensures given { OnOk result ((b : listing.PendingRun) → IsBefore self.old b → IsGiven (if_short ((not global || private == 0) && is_listable name.now && not (is_among b.names name.now)) (with_name name.now (then_said (Labels global name.now ∷ []) (with_run_written b)))) out.old out.new self.new) }
        ensures refused { IsErrOf result LineStop.NotListable → (b : listing.PendingRun) → IsBefore self.old b → if_short ((not global || private == 0) && is_listable name.now && not (is_among b.names name.now)) (with_name name.now (then_said (Labels global name.now ∷ []) (with_run_written b))) ≡ None }
    {
        if !may_stand(global, private) {
            return Err(LineStop::NotListable);
        }
        if !self.is_new(name) {
            return Err(LineStop::NotListable);
        }
        self.define(name)?;
        self.label(out, global, name)
    }

    /// GEQU or EQU of a number, where the name is new.
    fn number_record(
        &mut self,
        out: &mut ListingText,
        global: bool,
        name: &'a [u8],
        n: u32,
    ) -> Result<(), LineStop>
        requires { open_line out.old ≡ [] }
        ensures given { OnOk result ((b : listing.PendingRun) → IsBefore self.old b → IsGiven (equate_given b global name.now (Some n)) out.old out.new self.new) }
        ensures refused { IsErrOf result LineStop.NotListable → (b : listing.PendingRun) → IsBefore self.old b → equate_given b global name.now (Some n) ≡ None }
    {
        if !self.is_new(name) {
            return Err(LineStop::NotListable);
        }
        self.define(name)?;
        self.equate(out, global, name, n)
    }

    /// GEQU or EQU, where a GEQU isn't private and the expression is a number.
    fn equate_record(
        &mut self,
        out: &mut ListingText,
        global: bool,
        name: &'a [u8],
        private: u8,
        number: Option<u32>,
    ) -> Result<(), LineStop>
        requires { open_line out.old ≡ [] }
        ensures given { OnOk result ((b : listing.PendingRun) → IsBefore self.old b → IsGiven (equate_by (not global || private == 0) (equate_given b global name.now number)) out.old out.new self.new) }
        ensures refused { IsErrOf result LineStop.NotListable → (b : listing.PendingRun) → IsBefore self.old b → equate_by (not global || private == 0) (equate_given b global name.now number) ≡ None }
    {
        if !may_stand(global, private) {
            return Err(LineStop::NotListable);
        }
        match number {
            Some(n) => self.number_record(out, global, name, n),
            None => Err(LineStop::NotListable),
        }
    }

    /// An expression record.
    fn formula_record(
        &mut self,
        alloc: Global,
        out: &mut ListingText,
        equated: &Names,
        formula: ListedFormula,
        expr: &Expr,
    ) -> Result<(), LineStop>
        requires line { open_line out.old ≡ [] }
        requires spelled { IsExpression expr.now.lab_len expr.now.text }
        ensures given { OnOk result ((b : listing.PendingRun) (all : List (List ℕ)) (tree : Tree) → AreNames equated.now all → Spells expr.now.lab_len expr.now.text tree → IsBefore self.old b → IsGiven (if_short (formula_listable all b formula.code formula.count formula.n tree) (formula_given b formula.code formula.count formula.n tree (split_last b.run) (simple_of tree))) out.old out.new self.new) }
        ensures refused { IsErrOf result LineStop.NotListable → (b : listing.PendingRun) (all : List (List ℕ)) (tree : Tree) → AreNames equated.now all → Spells expr.now.lab_len expr.now.text tree → IsBefore self.old b → if_short (formula_listable all b formula.code formula.count formula.n tree) (formula_given b formula.code formula.count formula.n tree (split_last b.run) (simple_of tree)) ≡ None }
    {
        let front = front_of(expr);
        if !is_formula_listable(equated, self.run.as_slice(), formula, expr, front) {
            return Err(LineStop::NotListable);
        }
        self.put_formula(alloc, out, formula, expr, front)
    }

    /// The lines of a record, and what it leaves. It refuses a record that can't be listed.
    #[tactic(auto, unfolding(list_meaning::specs::Listing::given_by))]
    pub(crate) fn put_record(
        &mut self,
        alloc: Global,
        out: &mut ListingText,
        header: &Header,
        equated: &Names,
        rec: &Rec<'a>,
    ) -> Result<(), LineStop>
        requires line { open_line out.old ≡ [] }
        requires spelled { HasExpression header.now.lab_len (view rec.now) }
        ensures given { OnOk result ((b : listing.PendingRun) (all : List (List ℕ)) → IsBefore self.old b → AreNames equated.now all
            → IsGiven (given_by (fields header.now) all b (view rec.now)) out.old out.new self.new) }
        ensures refused { IsErrOf result LineStop.NotListable → (b : listing.PendingRun) (all : List (List ℕ)) → IsBefore self.old b → AreNames equated.now all
            → given_by (fields header.now) all b (view rec.now) ≡ None }
    {
        match rec {
            Rec::End => self.end_record(out, header.res_spc),
            Rec::Const { bytes } | Rec::LongConst { bytes } => {
                self.take_bytes(bytes)?;
                Ok(())
            }
            Rec::Align { n } => self.align_record(out, header.alignment(), *n),
            Rec::Org { n } => self.move_record(out, *n),
            Rec::Space { n } => self.space_record(out, *n),
            Rec::Using { name } => self.using_record(out, name),
            Rec::Strong { name } => self.strong_record(out, name),
            Rec::Label {
                global,
                name,
                private,
                ..
            } => self.label_record(out, *global, name, *private),
            Rec::Equate {
                global,
                name,
                private,
                expr,
                ..
            } => {
                let number = number_in(expr, header.lab_len);
                self.equate_record(out, *global, name, *private, number)
            }
            Rec::Formula {
                code,
                count,
                n,
                expr,
            } => {
                let formula = ListedFormula {
                    code: *code,
                    count: *count,
                    n: *n,
                };
                let expr = Expr::spelled(expr, header.lab_len);
                self.formula_record(alloc, out, equated, formula, &expr)
            }
            Rec::Reloc { .. }
            | Rec::InterSeg { .. }
            | Rec::ShortReloc { .. }
            | Rec::ShortInterSeg { .. }
            | Rec::Super { .. }
            | Rec::Entry { .. } => Err(LineStop::NotListable),
        }
    }
}

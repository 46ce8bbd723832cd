//! The lines of a listing, each of which is written whole.

ghost use Rattle.std.specs.Prelude.{◌≡◌, ◌++◌, ◌∷◌, ◌≤◌, ◌<◌, ◌*◌, [], codes, false, length, take, OnOk, IsErrOf, if◌then◌else◌};
ghost use Rattle.omf_base.specs.Digits.{hexadecimal};
ghost use Rattle.omf_format.specs.Expression.{Tree};
ghost use Rattle.list_meaning.specs.Listed.{NextAlignIs, NextOrg, StartIs, KindIs, SwitchIs, Ds, Aligns, OrgIs, UsingIs, StrongIs, Labels, Equates, Instructs, Bytes, WeakIs, FormulaIs, EndIs, number_text, wanted_text, formula_text, switch_text};
ghost use Rattle.list_meaning.specs.laws.Steps.{operand_text, on_text, with_leading_space};
ghost use Rattle.list_meaning.specs.Listing.{is_short};
ghost use Rattle.list_lines.specs.LineView.{Wrote, HasSize, has_no_text, operand_view};
ghost use Rattle.list_lines.specs.OutputView.{finished_lines, open_line};

use crate::output::ListingText;
use crate::spellings::{shape, spelling};
use crate::stop::LineStop;
use asm_meaning::Switch;
use omf_base::LineFault;
use orca_meaning::{Mnemonic, Mode};

/// The operand of an instruction.
#[derive(Clone, Copy)]
pub enum Wanted<'a> {
    /// None.
    Missing,
    /// A number of a given number of bytes, 1 to 3.
    Number(u32, u32),
    /// Two banks, the source first.
    Banks(u8, u8),
    /// A name.
    Label(&'a [u8]),
    /// A name, and a number that is added to it or taken from it.
    Moved(&'a [u8], bool, u32),
}

/// Writes a label and an operation.
fn statement(out: &mut ListingText, label: &[u8], operation: &str) -> Result<(), LineFault>
    requires { open_line out.old ≡ [] }
    ensures line { OnOk result (open_line out.new ≡ label.now ++ (0x20 ∷ operation.now)) }
    ensures kept { OnOk result (finished_lines out.new ≡ finished_lines out.old) }
{
    out.put(label)?;
    out.word(" ")?;
    out.word(operation)
}

/// Writes an operand after a space, or nothing where there is none.
fn operand(out: &mut ListingText, text: &[u8]) -> Result<(), LineFault>
    ensures line { OnOk result (open_line out.new ≡ open_line out.old ++ with_leading_space text.now) }
    ensures kept { OnOk result (finished_lines out.new ≡ finished_lines out.old) }
{
    if text.is_empty() {
        return Ok(());
    }
    out.word(" ")?;
    out.put(text)
}

/// Writes `$` and a given number of digits.
fn number(out: &mut ListingText, n: u32, digits: u32) -> Result<(), LineFault>
    requires { digits ≤ 8 }
    ensures line { OnOk result (open_line out.new ≡ open_line out.old ++ number_text digits n) }
    ensures kept { OnOk result (finished_lines out.new ≡ finished_lines out.old) }
{
    out.word("$")?;
    out.digits(n, digits)
}

/// Writes ALIGN before START.
#[tactic(auto, using(crate::proofs::Written::wrote_of, crate::proofs::Written::long_of), unfolding(list_meaning::specs::Listed::said_text))]
pub fn put_next_align(out: &mut ListingText, n: u32) -> Result<(), LineStop>
    requires { open_line out.old ≡ [] }
    ensures wrote { OnOk result (Wrote (NextAlignIs n) out.old out.new) }
    ensures long { IsErrOf result LineStop.NotListable → is_short (NextAlignIs n) ≡ false }
{
    statement(out, b"", "ALIGN ")?;
    number(out, n, 8)?;
    out.finish()
}

/// Writes ORG before START.
#[tactic(auto, using(crate::proofs::Written::wrote_of, crate::proofs::Written::long_of), unfolding(list_meaning::specs::Listed::said_text))]
pub fn put_next_org(out: &mut ListingText, n: u32) -> Result<(), LineStop>
    requires { open_line out.old ≡ [] }
    ensures wrote { OnOk result (Wrote (NextOrg n) out.old out.new) }
    ensures long { IsErrOf result LineStop.NotListable → is_short (NextOrg n) ≡ false }
{
    statement(out, b"", "ORG ")?;
    number(out, n, 8)?;
    out.finish()
}

/// Writes START, or DATA where the segment may cross banks.
#[tactic(auto, using(crate::proofs::Written::wrote_of, crate::proofs::Written::long_of), unfolding(list_meaning::specs::Listed::said_text))]
pub fn put_start(
    out: &mut ListingText,
    crosses: bool,
    name: &[u8],
    load_name: &[u8],
) -> Result<(), LineStop>
    requires { open_line out.old ≡ [] }
    ensures wrote { OnOk result (Wrote (StartIs crosses name.now load_name.now) out.old out.new) }
    ensures long { IsErrOf result LineStop.NotListable → is_short (StartIs crosses name.now load_name.now) ≡ false }
{
    statement(out, name, if crosses { "DATA" } else { "START" })?;
    operand(out, load_name)?;
    out.finish()
}

/// Writes KIND.
#[tactic(auto, using(crate::proofs::Written::wrote_of, crate::proofs::Written::long_of), unfolding(list_meaning::specs::Listed::said_text))]
pub fn put_kind(out: &mut ListingText, n: u16) -> Result<(), LineStop>
    requires { open_line out.old ≡ [] }
    ensures wrote { OnOk result (Wrote (KindIs n) out.old out.new) }
    ensures long { IsErrOf result LineStop.NotListable → is_short (KindIs n) ≡ false }
{
    statement(out, b"", "KIND ")?;
    number(out, u32::from(n), 4)?;
    out.finish()
}

/// The operation of a switch.
fn switch_word(switch: Switch) -> &'static str
    ensures { result.now ≡ switch_text switch }
{
    match switch {
        Switch::LongA => "LONGA",
        Switch::LongI => "LONGI",
        Switch::Msb => "MSB",
    }
}

/// Writes LONGA or LONGI.
#[tactic(auto, using(crate::proofs::Written::wrote_of, crate::proofs::Written::long_of), unfolding(list_meaning::specs::Listed::said_text))]
pub fn put_switch(out: &mut ListingText, switch: Switch, on: bool) -> Result<(), LineStop>
    requires { open_line out.old ≡ [] }
    ensures wrote { OnOk result (Wrote (SwitchIs switch on) out.old out.new) }
    ensures long { IsErrOf result LineStop.NotListable → is_short (SwitchIs switch on) ≡ false }
{
    statement(out, b"", switch_word(switch))?;
    out.word(if on { " ON" } else { " OFF" })?;
    out.finish()
}

/// Writes DS.
#[tactic(auto, using(crate::proofs::Written::wrote_of, crate::proofs::Written::long_of), unfolding(list_meaning::specs::Listed::said_text))]
pub fn put_ds(out: &mut ListingText, n: u32) -> Result<(), LineStop>
    requires { open_line out.old ≡ [] }
    ensures wrote { OnOk result (Wrote (Ds n) out.old out.new) }
    ensures long { IsErrOf result LineStop.NotListable → is_short (Ds n) ≡ false }
{
    statement(out, b"", "DS ")?;
    number(out, n, 8)?;
    out.finish()
}

/// Writes ALIGN in a segment.
#[tactic(auto, using(crate::proofs::Written::wrote_of, crate::proofs::Written::long_of), unfolding(list_meaning::specs::Listed::said_text))]
pub fn put_align(out: &mut ListingText, n: u32) -> Result<(), LineStop>
    requires { open_line out.old ≡ [] }
    ensures wrote { OnOk result (Wrote (Aligns n) out.old out.new) }
    ensures long { IsErrOf result LineStop.NotListable → is_short (Aligns n) ≡ false }
{
    statement(out, b"", "ALIGN ")?;
    number(out, n, 8)?;
    out.finish()
}

/// Writes ORG in a segment.
#[tactic(auto, using(crate::proofs::Written::wrote_of, crate::proofs::Written::long_of), unfolding(list_meaning::specs::Listed::said_text))]
pub fn put_org(out: &mut ListingText, n: u32) -> Result<(), LineStop>
    requires { open_line out.old ≡ [] }
    ensures wrote { OnOk result (Wrote (OrgIs n) out.old out.new) }
    ensures long { IsErrOf result LineStop.NotListable → is_short (OrgIs n) ≡ false }
{
    statement(out, b"", "ORG *+")?;
    number(out, n, 8)?;
    out.finish()
}

/// Writes USING.
#[tactic(auto, using(crate::proofs::Written::wrote_of, crate::proofs::Written::long_of), unfolding(list_meaning::specs::Listed::said_text))]
pub fn put_using(out: &mut ListingText, name: &[u8]) -> Result<(), LineStop>
    requires { open_line out.old ≡ [] }
    ensures wrote { OnOk result (Wrote (UsingIs name.now) out.old out.new) }
    ensures long { IsErrOf result LineStop.NotListable → is_short (UsingIs name.now) ≡ false }
{
    statement(out, b"", "USING")?;
    operand(out, name)?;
    out.finish()
}

/// Writes DC R.
#[tactic(auto, using(crate::proofs::Written::wrote_of, crate::proofs::Written::long_of), unfolding(list_meaning::specs::Listed::said_text))]
pub fn put_dc_strong(out: &mut ListingText, name: &[u8]) -> Result<(), LineStop>
    requires { open_line out.old ≡ [] }
    ensures wrote { OnOk result (Wrote (StrongIs name.now) out.old out.new) }
    ensures long { IsErrOf result LineStop.NotListable → is_short (StrongIs name.now) ≡ false }
{
    statement(out, b"", "DC R'")?;
    out.put(name)?;
    out.word("'")?;
    out.finish()
}

/// Writes a label with ENTRY or ANOP.
#[tactic(auto, using(crate::proofs::Written::wrote_of, crate::proofs::Written::long_of), unfolding(list_meaning::specs::Listed::said_text))]
pub fn put_label(out: &mut ListingText, global: bool, name: &[u8]) -> Result<(), LineStop>
    requires { open_line out.old ≡ [] }
    ensures wrote { OnOk result (Wrote (Labels global name.now) out.old out.new) }
    ensures long { IsErrOf result LineStop.NotListable → is_short (Labels global name.now) ≡ false }
{
    statement(out, name, if global { "ENTRY" } else { "ANOP" })?;
    out.finish()
}

/// Writes GEQU or EQU.
#[tactic(auto, using(crate::proofs::Written::wrote_of, crate::proofs::Written::long_of), unfolding(list_meaning::specs::Listed::said_text))]
pub fn put_equate(out: &mut ListingText, global: bool, name: &[u8], n: u32) -> Result<(), LineStop>
    requires { open_line out.old ≡ [] }
    ensures wrote { OnOk result (Wrote (Equates global name.now n) out.old out.new) }
    ensures long { IsErrOf result LineStop.NotListable → is_short (Equates global name.now n) ≡ false }
{
    statement(out, name, if global { "GEQU " } else { "EQU " })?;
    number(out, n, 8)?;
    out.finish()
}

/// The formula of an operand.
fn formula(out: &mut ListingText, wanted: Wanted) -> Result<(), LineFault>
    requires { HasSize (operand_view wanted) }
    ensures line { OnOk result (open_line out.new ≡ open_line out.old ++ wanted_text (operand_view wanted.entry)) }
    ensures kept { OnOk result (finished_lines out.new ≡ finished_lines out.old) }
{
    match wanted {
        Wanted::Missing => Ok(()),
        Wanted::Number(bytes, n) => number(out, n, 2 * bytes),
        Wanted::Banks(source, destination) => {
            number(out, u32::from(source), 2)?;
            out.word(",")?;
            number(out, u32::from(destination), 2)
        }
        Wanted::Label(name) => out.put(name),
        Wanted::Moved(name, adds, n) => {
            out.put(name)?;
            out.word(if adds { "+" } else { "-" })?;
            number(out, n, 8)
        }
    }
}

/// Whether an operand has no formula.
fn is_nothing(wanted: Wanted) -> bool
    ensures { result ≡ has_no_text (operand_view wanted.entry) }
{
    match wanted {
        Wanted::Missing => true,
        Wanted::Label(name) => name.is_empty(),
        Wanted::Number(_, _) | Wanted::Banks(_, _) | Wanted::Moved(_, _, _) => false,
    }
}

/// Writes an operand with the text before and after its formula.
fn whole_operand(
    out: &mut ListingText,
    front: &str,
    wanted: Wanted,
    back: &str,
) -> Result<(), LineFault>
    requires { HasSize (operand_view wanted) }
    ensures line { OnOk result (open_line out.new ≡ open_line out.old ++ (front.now ++ (wanted_text (operand_view wanted.entry) ++ back.now))) }
    ensures kept { OnOk result (finished_lines out.new ≡ finished_lines out.old) }
{
    out.word(front)?;
    formula(out, wanted)?;
    out.word(back)
}

/// Writes the operand of an instruction after a space, or nothing where there is none.
#[tactic(auto, using(crate::proofs::Formulas::spaced_none, crate::proofs::Formulas::spaced_some))]
fn spaced_operand(
    out: &mut ListingText,
    front: &str,
    wanted: Wanted,
    back: &str,
) -> Result<(), LineFault>
    requires { HasSize (operand_view wanted) }
    ensures line { OnOk result (open_line out.new ≡ open_line out.old ++ with_leading_space (front.now ++ (wanted_text (operand_view wanted.entry) ++ back.now))) }
    ensures kept { OnOk result (finished_lines out.new ≡ finished_lines out.old) }
{
    if front.is_empty() && is_nothing(wanted) && back.is_empty() {
        return Ok(());
    }
    out.word(" ")?;
    whole_operand(out, front, wanted, back)
}

/// Writes an instruction.
#[tactic(auto, using(crate::proofs::Written::wrote_of, crate::proofs::Written::long_of), unfolding(list_meaning::specs::Listed::said_text))]
pub fn put_instruction(
    out: &mut ListingText,
    mnemonic: Mnemonic,
    mode: Mode,
    wanted: Wanted,
) -> Result<(), LineStop>
    requires line { open_line out.old ≡ [] }
    requires size { HasSize (operand_view wanted) }
    ensures wrote { OnOk result (Wrote (Instructs mnemonic mode (operand_view wanted.entry)) out.old out.new) }
    ensures long { IsErrOf result LineStop.NotListable → is_short (Instructs mnemonic mode (operand_view wanted.entry)) ≡ false }
{
    statement(out, b"", spelling(mnemonic))?;
    let (front, back) = shape(mode);
    spaced_operand(out, front, wanted, back)?;
    out.finish()
}

/// Writes DC H.
#[tactic(auto, using(crate::proofs::Written::wrote_of, crate::proofs::Written::long_of), unfolding(list_meaning::specs::Listed::said_text))]
pub fn put_dc_bytes(out: &mut ListingText, bytes: &[u8]) -> Result<(), LineStop>
    requires { open_line out.old ≡ [] }
    ensures wrote { OnOk result (Wrote (Bytes bytes.now) out.old out.new) }
    ensures long { IsErrOf result LineStop.NotListable → is_short (Bytes bytes.now) ≡ false }
{
    statement(out, b"", "DC H'")?;
    'bytes: for place in 0..bytes.len() {
        out.digits(u32::from(bytes[place]), 2)?;
    }
    out.word("'")?;
    out.finish()
}

/// Writes DC A with a formula, of which the first 256 bytes are enough.
#[tactic(auto, using(crate::proofs::Formulas::sum_wrote, crate::proofs::Formulas::sum_long))]
pub fn put_dc_formula(out: &mut ListingText, count: u32, formula: &[u8]) -> Result<(), LineStop>
    requires { open_line out.old ≡ [] }
    ensures wrote { OnOk result ((tree : Tree) → formula.now ≡ take 256 (formula_text tree) → Wrote (FormulaIs count tree) out.old out.new) }
    ensures long { IsErrOf result LineStop.NotListable → (tree : Tree) → formula.now ≡ take 256 (formula_text tree) → is_short (FormulaIs count tree) ≡ false }
{
    statement(out, b"", "DC A")?;
    out.digits(count, 1)?;
    out.word("'")?;
    out.put(formula)?;
    out.word("'")?;
    out.finish()
}

/// Writes DC S.
#[tactic(auto, using(crate::proofs::Written::wrote_of, crate::proofs::Written::long_of), unfolding(list_meaning::specs::Listed::said_text))]
pub fn put_dc_weak(out: &mut ListingText, name: &[u8]) -> Result<(), LineStop>
    requires { open_line out.old ≡ [] }
    ensures wrote { OnOk result (Wrote (WeakIs name.now) out.old out.new) }
    ensures long { IsErrOf result LineStop.NotListable → is_short (WeakIs name.now) ≡ false }
{
    statement(out, b"", "DC S'")?;
    out.put(name)?;
    out.word("'")?;
    out.finish()
}

/// Writes END.
#[tactic(auto, using(crate::proofs::Written::wrote_of, crate::proofs::Written::long_of), unfolding(list_meaning::specs::Listed::said_text))]
pub fn put_end(out: &mut ListingText) -> Result<(), LineStop>
    requires { open_line out.old ≡ [] }
    ensures wrote { OnOk result (Wrote EndIs out.old out.new) }
    ensures long { IsErrOf result LineStop.NotListable → is_short EndIs ≡ false }
{
    statement(out, b"", "END")?;
    out.finish()
}

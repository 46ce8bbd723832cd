//! What the statements of conditional assembly do (ORCA/M reference manual, "Conditional assembly directives").

ghost use Rattle.std.specs.Prelude.{◌≡◌, ◌==◌, ◌≤◌, ◌<◌, [], length, take, drop, Some, None, Ok, Err, IfOk, IsTrue, false};
ghost use Rattle.macro_meaning.specs.Effect.{pair_or_earlier_fault, or_bad, first_time, declaring, settable, setting, middle_from, IsMiddle, IsSetting, IsDone};
ghost use Rattle.macro_meaning.specs.laws.Steps.{earlier, printed_number, printed_answer, middle_of, going, going_to, counting, note_effect, noting, IsBranchIf, IsNote, resting};
ghost use Rattle.macro_meaning.specs.Pieces.{pieces, unquoted_text, joined_texts};
ghost use Rattle.orca_symbols.specs.View.{values, texts_of};
ghost use Rattle.orca_macro.specs.EffectView.{effect_view};
ghost use Rattle.macro_meaning.specs.Condition.{Answer, IsCondition};

use crate::effect::Effect;
use macro_meaning::{Declaration, MacroCause, Statement, SymbolKind};
use orca_symbols::{
    OperandPiece, SharedTextTable, SymbolText, Values, Word, condition, declaration_of, is_count,
    is_declaration, is_kind, is_target, join_quoted, kind_of, number, pieces, signed_decimal,
    symbol_word, target_word, two_pieces, unquote,
};
use orca_text::LinePart;
use std::alloc::{AllocError, Global};

/// Of two faults at once the one that is reported: NoSuchSymbol precedes BadSetting.
fn earlier(cause: MacroCause, other: MacroCause) -> MacroCause
    ensures { result ≡ earlier cause other }
{
    match cause {
        MacroCause::BadSetting => other,
        _ => cause,
    }
}

/// Two answers, or the earlier of their faults.
#[inline(always)]
fn pair_or_earlier_fault<A: Drop, B: Drop>(
    a: Result<A, MacroCause>,
    b: Result<B, MacroCause>,
) -> Result<(A, B), MacroCause>
    ensures { result ≡ pair_or_earlier_fault a b }
{
    match a {
        Ok(first) => match b {
            Ok(second) => Ok((first, second)),
            Err(cause) => Err(cause),
        },
        Err(cause) => match b {
            Ok(_) => Err(cause),
            Err(other) => Err(earlier(cause, other)),
        },
    }
}

/// What was found; it must be there.
fn or_bad<A: Drop>(found: Option<A>) -> Result<A, MacroCause>
    ensures { result ≡ or_bad found }
{
    match found {
        Some(a) => Ok(a),
        None => Err(MacroCause::BadSetting),
    }
}

/// The first declaration of a name in its expansion.
fn first_time<'a>(texts: &SharedTextTable, declaration: Declaration, name: Word<'a>) -> Effect<'a>
    ensures { effect_view result ≡ first_time name.entry declaration (texts_of texts.now name.entry) }
{
    match declaration {
        Declaration::Local(_) => Effect::DeclareSymbol(name, declaration),
        Declaration::Shared(kind) => match texts.get(name.bytes()) {
            None => Effect::DeclareSymbol(name, declaration),
            Some(other) => {
                if is_kind(kind, other.kind) {
                    return Effect::DeclareSymbol(name, declaration);
                }
                Effect::Fail(MacroCause::BadSetting)
            }
        },
    }
}

/// A declaration of a symbol.
#[tactic(auto, unfolding(macro_meaning::specs::Effect::declaring))]
fn declaring<'a>(of: Values<'_>, declaration: Declaration, named: Option<Word<'a>>) -> Effect<'a>
    ensures { effect_view result ≡ declaring (values of.entry) declaration named.entry }
{
    let Some(name) = named else {
        return Effect::Fail(MacroCause::BadSetting);
    };
    if is_count(name.bytes()) {
        return Effect::Fail(MacroCause::BadSetting);
    }
    match of.symbols.get(name.bytes()) {
        Some(found) => {
            if is_declaration(declaration, declaration_of(found)) {
                return Effect::NoEffect;
            }
            Effect::Fail(MacroCause::BadSetting)
        }
        None => first_time(of.texts, declaration, name),
    }
}

/// The symbol of this kind that a label names.
#[tactic(auto, unfolding(macro_meaning::specs::Effect::settable))]
#[inline(always)]
fn settable<'a>(
    of: Values<'_>,
    kind: SymbolKind,
    named: Option<Word<'a>>,
) -> Result<Word<'a>, MacroCause>
    ensures { result ≡ settable (values of.entry) kind named.entry }
{
    let Some(name) = named else {
        return Err(MacroCause::BadSetting);
    };
    if is_count(name.bytes()) {
        return Err(MacroCause::BadSetting);
    }
    match of.symbols.get(name.bytes()) {
        Some(found) => {
            if is_kind(kind, kind_of(found)) {
                return Ok(name);
            }
            Err(MacroCause::BadSetting)
        }
        None => Err(MacroCause::NoSuchSymbol),
    }
}

/// The symbol in the label is set to a text.
#[tactic(auto, unfolding(macro_meaning::specs::Effect::setting))]
#[inline(always)]
fn setting<'a>(
    alloc: Global,
    of: Values<'_>,
    kind: SymbolKind,
    label: LinePart<'a>,
    text: Result<SymbolText, MacroCause>,
) -> Result<Effect<'a>, AllocError>
    ensures { IfOk result (λ d. effect_view d ≡ setting (values of.entry) kind label.entry.bytes.now text) }
{
    let named = symbol_word(alloc, label)?;
    match pair_or_earlier_fault(settable(of, kind, named), text) {
        Ok((name, text)) => Ok(Effect::SetSymbol(name, kind, text)),
        Err(cause) => Ok(Effect::Fail(cause)),
    }
}

/// A number as SETA and SETB print it.
fn printed_number(alloc: Global, kind: SymbolKind, n: u32) -> Result<SymbolText, AllocError>
    ensures { IfOk result (λ v. v ≡ printed_number kind n) }
{
    match kind {
        SymbolKind::Flag => {
            if n == 0 {
                return SymbolText::of(alloc, LinePart { bytes: b"0" });
            }
            SymbolText::of(alloc, LinePart { bytes: b"1" })
        }
        SymbolKind::Number => signed_decimal(alloc, n.cast_signed()),
        SymbolKind::Text => signed_decimal(alloc, n.cast_signed()),
    }
}

/// An answer as SETA and SETB print it.
fn printed_answer(
    alloc: Global,
    kind: SymbolKind,
    answer: Result<u32, MacroCause>,
) -> Result<Result<SymbolText, MacroCause>, AllocError>
    ensures { IfOk result (λ v. v ≡ printed_answer kind answer) }
{
    match answer {
        Ok(n) => {
            let text = printed_number(alloc, kind, n)?;
            Ok(Ok(text))
        }
        Err(cause) => Ok(Err(cause)),
    }
}

/// SETA, SETB or SETC.
fn effect_of_set<'a>(
    alloc: Global,
    of: Values<'_>,
    kind: SymbolKind,
    label: LinePart<'a>,
    operand: LinePart<'_>,
) -> Result<Effect<'a>, AllocError>
    ensures { IfOk result (λ d. IsSetting (values of.entry) kind label.entry.bytes.now operand.entry.bytes.now (effect_view d)) }
{
    match kind {
        SymbolKind::Number => set_number(alloc, of, SymbolKind::Number, label, operand),
        SymbolKind::Flag => set_number(alloc, of, SymbolKind::Flag, label, operand),
        SymbolKind::Text => {
            let text = joined_text(alloc, operand)?;
            setting(alloc, of, SymbolKind::Text, label, text)
        }
    }
}

/// SETA or SETB.
#[inline(always)]
fn set_number<'a>(
    alloc: Global,
    of: Values<'_>,
    kind: SymbolKind,
    label: LinePart<'a>,
    operand: LinePart<'_>,
) -> Result<Effect<'a>, AllocError>
    ensures { IfOk result (λ d. (answer : Answer)
        × IsCondition (values of.entry) operand.entry.bytes.now answer
        × (effect_view d ≡ setting (values of.entry) kind label.entry.bytes.now (printed_answer kind answer))) }
{
    let answer = condition(alloc, of, operand)?;
    let text = printed_answer(alloc, kind, answer)?;
    setting(alloc, of, kind, label, text)
}

/// Texts in quotes, joined.
#[tactic(auto, using(crate::proofs::Texts::joined_fits))]
fn joined_text(
    alloc: Global,
    operand: LinePart<'_>,
) -> Result<Result<SymbolText, MacroCause>, AllocError>
    ensures { IfOk result (λ text. text ≡ or_bad (joined_texts (pieces 0x2B operand.entry.bytes.now))) }
{
    let found = pieces(alloc, b'+', operand)?;
    match join_quoted(alloc, found.as_slice())? {
        Some(text) => Ok(Ok(SymbolText::from_vec(text))),
        None => Ok(Err(MacroCause::BadSetting)),
    }
}

/// The first `count` bytes.
#[tactic(auto, using(crate::proofs::Texts::take_whole))]
fn front_of(text: &[u8], count: usize) -> &[u8]
    ensures value { result.now ≡ take count text.now }
    ensures bound { length result.now ≤ length text.now }
{
    if count < text.len() {
        let (front, _) = text.split_at(count);
        return front;
    }
    text
}

/// What follows the first `count` bytes.
#[tactic(auto, using(orca_symbols::proofs::Parted::drop_all))]
fn following_first(text: &[u8], count: usize) -> &[u8]
    ensures value { result.now ≡ drop count text.now }
    ensures bound { length result.now ≤ length text.now }
{
    if count < text.len() {
        let (_, following) = text.split_at(count);
        return following;
    }
    &[]
}

/// `count` bytes of a text from a place on, which is counted from 1.
#[tactic(auto, using(crate::proofs::Texts::middle_good, crate::proofs::Texts::middle_low, crate::proofs::Texts::middle_few))]
fn middle_from(
    alloc: Global,
    text: LinePart<'_>,
    start: i32,
    count: i32,
) -> Result<Result<SymbolText, MacroCause>, AllocError>
    ensures { IfOk result (λ found. found ≡ middle_from text.entry.bytes.now start count) }
{
    if start < 1 {
        return Ok(Err(MacroCause::BadSetting));
    }
    if count < 0 {
        return Ok(Err(MacroCause::BadSetting));
    }
    let following = following_first(text.bytes, start.unsigned_abs() as usize - 1);
    let middle = LinePart {
        bytes: front_of(following, count.unsigned_abs() as usize),
    };
    let found = SymbolText::of(alloc, middle)?;
    Ok(Ok(found))
}

/// AMID of a text, a place and a count.
#[tactic(auto, using(crate::proofs::Both::second_fault))]
fn middle_with<'a>(
    alloc: Global,
    of: Values<'_>,
    label: LinePart<'a>,
    text: LinePart<'_>,
    numbers: Result<(u32, u32), MacroCause>,
) -> Result<Effect<'a>, AllocError>
    ensures { IfOk result (λ d. effect_view d ≡ setting (values of.entry) SymbolKind.Text label.entry.bytes.now (middle_of (pair_or_earlier_fault (or_bad (unquoted_text text.entry.bytes.now)) numbers))) }
{
    match numbers {
        Ok((start, count)) => match unquote(text.bytes) {
            Some(inside) => {
                let inside = LinePart { bytes: inside };
                let found = middle_from(alloc, inside, start.cast_signed(), count.cast_signed())?;
                setting(alloc, of, SymbolKind::Text, label, found)
            }
            None => setting(
                alloc,
                of,
                SymbolKind::Text,
                label,
                Err(MacroCause::BadSetting),
            ),
        },
        Err(cause) => setting(alloc, of, SymbolKind::Text, label, Err(cause)),
    }
}

/// AMID.
fn effect_of_amid<'a>(
    alloc: Global,
    of: Values<'_>,
    label: LinePart<'a>,
    operands: &[OperandPiece<'_>],
) -> Result<Effect<'a>, AllocError>
    ensures { IfOk result (λ d. IsMiddle (values of.entry) label.entry.bytes.now operands.now (effect_view d)) }
{
    match operands {
        [text, start, count] => {
            let start = number(alloc, of, start.part())?;
            let count = number(alloc, of, count.part())?;
            middle_with(
                alloc,
                of,
                label,
                text.part(),
                pair_or_earlier_fault(start, count),
            )
        }
        _ => setting(
            alloc,
            of,
            SymbolKind::Text,
            label,
            Err(MacroCause::BadSetting),
        ),
    }
}

/// Whether a condition was found not to hold.
fn is_zero(answer: Result<u32, MacroCause>) -> bool
    ensures { IsTrue result → answer ≡ Ok 0 }
{
    match answer {
        Ok(n) => n == 0,
        Err(_) => false,
    }
}

/// AIF.
#[tactic(auto, using(crate::proofs::Both::two_branch, crate::proofs::Both::no_branch, crate::proofs::Both::not_two))]
fn branch_if<'a>(
    alloc: Global,
    of: Values<'_>,
    operand: LinePart<'a>,
) -> Result<Effect<'a>, AllocError>
    ensures { IfOk result (λ d. IsBranchIf (values of.entry) (pieces 0x2C operand.entry.bytes.now) (effect_view d)) }
{
    let Some((asked, target)) = two_pieces(b',', operand) else {
        return Ok(Effect::Fail(MacroCause::BadSetting));
    };
    let answer = condition(alloc, of, asked)?;
    if is_zero(answer) {
        if is_target(target.bytes) {
            return Ok(Effect::NoEffect);
        }
    }
    let target = target_word(alloc, target)?;
    Ok(going(pair_or_earlier_fault(answer, or_bad(target))))
}

/// A branch where the value isn't 0.
fn going<'a>(asked: Result<(u32, Word<'a>), MacroCause>) -> Effect<'a>
    ensures { effect_view result ≡ going asked.entry }
{
    match asked {
        Ok((n, name)) => {
            if n == 0 {
                return Effect::NoEffect;
            }
            Effect::BranchTo(name)
        }
        Err(cause) => Effect::Fail(cause),
    }
}

/// A branch.
fn going_to<'a>(target: Option<Word<'a>>) -> Effect<'a>
    ensures { effect_view result ≡ going_to target.entry }
{
    match target {
        Some(name) => Effect::BranchTo(name),
        None => Effect::Fail(MacroCause::BadSetting),
    }
}

/// ACTR.
fn counting<'a>(answer: Result<u32, MacroCause>) -> Effect<'a>
    ensures { effect_view result ≡ counting answer }
{
    match answer {
        Ok(n) => Effect::SetCounter(n),
        Err(cause) => Effect::Fail(cause),
    }
}

/// A note of this severity.
fn effect_of_note<'a>(n: u32) -> Effect<'a>
    ensures { effect_view result ≡ note_effect n }
{
    if n.cast_signed() >= 8 {
        return Effect::Fail(MacroCause::Noted(n));
    }
    Effect::NoEffect
}

/// MNOTE of a text and a severity.
#[tactic(auto, using(crate::proofs::Both::second_fault))]
fn noting<'a>(text: &[u8], answer: Result<u32, MacroCause>) -> Effect<'a>
    ensures { effect_view result ≡ noting (pair_or_earlier_fault (or_bad (unquoted_text text.now)) answer) }
{
    match answer {
        Ok(n) => match unquote(text) {
            Some(_) => effect_of_note(n),
            None => Effect::Fail(MacroCause::BadSetting),
        },
        Err(cause) => Effect::Fail(cause),
    }
}

/// MNOTE.
fn note<'a>(
    alloc: Global,
    of: Values<'_>,
    operands: &[OperandPiece<'_>],
) -> Result<Effect<'a>, AllocError>
    ensures { IfOk result (λ d. IsNote (values of.entry) operands.now (effect_view d)) }
{
    match operands {
        [text, severity] => {
            let answer = number(alloc, of, severity.part())?;
            Ok(noting(text.part().bytes, answer))
        }
        _ => Ok(Effect::Fail(MacroCause::BadSetting)),
    }
}

/// ANOP, or no operation.
fn resting<'a>(label: &[u8], text: LinePart<'a>) -> Effect<'a>
    ensures { effect_view result ≡ resting label.now text.entry.bytes.now }
{
    if label.is_empty() {
        return Effect::NoEffect;
    }
    Effect::Emit(Word::borrowed(text))
}

/// A statement of conditional assembly.
pub(crate) fn effect_of_statement<'a>(
    alloc: Global,
    of: Values<'_>,
    statement: Statement,
    text: LinePart<'a>,
    label: LinePart<'a>,
    operand: LinePart<'a>,
) -> Result<Effect<'a>, AllocError>
    ensures { IfOk result (λ d. IsDone (values of.entry) statement text.entry.bytes.now label.entry.bytes.now operand.entry.bytes.now (effect_view d)) }
{
    match statement {
        Statement::Declare(declaration) => {
            let named = symbol_word(alloc, operand)?;
            Ok(declaring(of, declaration, named))
        }
        Statement::Set(kind) => effect_of_set(alloc, of, kind, label, operand),
        Statement::Middle => {
            let operands = pieces(alloc, b',', operand)?;
            effect_of_amid(alloc, of, label, operands.as_slice())
        }
        Statement::BranchIf => branch_if(alloc, of, operand),
        Statement::Branch => {
            let target = target_word(alloc, operand)?;
            Ok(going_to(target))
        }
        Statement::Count => {
            let answer = number(alloc, of, operand)?;
            Ok(counting(answer))
        }
        Statement::Nothing => Ok(resting(label.bytes, text)),
        Statement::Leave => Ok(Effect::Exit),
        Statement::Note => {
            let operands = pieces(alloc, b',', operand)?;
            note(alloc, of, operands.as_slice())
        }
        Statement::Define => Ok(Effect::Emit(Word::borrowed(text))),
    }
}

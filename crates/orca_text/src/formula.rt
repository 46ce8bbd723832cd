//! A formula read token by token, to its terms in postfix order.

ghost use Rattle.std.specs.Prelude.{◌≡◌, ℕ, List, Bool, ◌≤◌, ◌<◌, ◌∷◌, ◌++◌, ◌&&◌, [], map, length, IfOk, OnOk, IfSome, IfNone, MatchOption, Some, None, true, false};
ghost use Rattle.orca_meaning.specs.Formula.{sign_code, operator_code, operator_level, term_of};
ghost use Rattle.orca_meaning.specs.laws.Machine.{Bracket, Pending, state, reduced, step, closed, ended};
ghost use Rattle.orca_text.specs.TokenView.{operand, operand_token, operator_token};
ghost use Rattle.orca_meaning.specs.Token.{Between};
ghost use Rattle.orca_text.specs.Closing.{Closes};
ghost use Rattle.orca_text.specs.FormulaAt.{IsFormulaAt, HasNoFormula};
ghost use Rattle.orca_text.specs.Next.{IsNext};
ghost use Rattle.orca_text.specs.View.{term};
ghost use Rattle.orca_text.specs.WaitView.{wait};

use crate::formula_term::{Formula, FormulaTerm};
use crate::line_part::LinePart;
use crate::operand_tokens::{
    FormulaOperand, OperandToken, OperatorToken, operand_token, operator_token,
};
use crate::waiting::{Wait, Waiting};
use orca_meaning::{Operands, Operator, Sign};
use std::alloc::{AllocError, Global};

/// The level of an operator between two operands.
#[inline(always)]
pub(crate) fn level(operator: Operator) -> u8
    ensures { result ≡ operator_level operator }
{
    match operator {
        Operator::Multiply | Operator::Divide | Operator::Shift => 2,
        Operator::Add | Operator::Subtract => 3,
        Operator::Less
        | Operator::Greater
        | Operator::LessOrEqual
        | Operator::GreaterOrEqual
        | Operator::NotEqual
        | Operator::Equal => 4,
        Operator::And => 5,
        Operator::Or | Operator::Eor => 6,
    }
}

/// What an operator between two operands is in an expression.
#[inline(always)]
fn operator_code(operator: Operator) -> u8
    ensures { result ≡ operator_code operator }
{
    match operator {
        Operator::Add => 0x01,
        Operator::Subtract => 0x02,
        Operator::Multiply => 0x03,
        Operator::Divide => 0x04,
        Operator::Shift => 0x07,
        Operator::And => 0x08,
        Operator::Or => 0x09,
        Operator::Eor => 0x0A,
        Operator::LessOrEqual => 0x0C,
        Operator::GreaterOrEqual => 0x0D,
        Operator::NotEqual => 0x0E,
        Operator::Less => 0x0F,
        Operator::Greater => 0x10,
        Operator::Equal => 0x11,
    }
}

/// What an operator before one operand is in an expression.
fn sign_code(sign: Sign) -> u8
    ensures { result ≡ sign_code sign }
{
    match sign {
        Sign::Negate => 0x06,
        Sign::Not => 0x0B,
    }
}

/// The operand as a term. 0 represents a number that is too large.
#[inline(always)]
fn operand_term(of: FormulaOperand) -> FormulaTerm
    ensures { term result ≡ term_of (operand of).0 }
{
    match of {
        FormulaOperand::Here => FormulaTerm::Location,
        FormulaOperand::Number(n) => FormulaTerm::Constant(n),
        FormulaOperand::TooLarge => FormulaTerm::Constant(0),
        FormulaOperand::Label(name) => FormulaTerm::Named(0x83, name),
        FormulaOperand::LengthOf(name) => FormulaTerm::Named(0x84, name),
        FormulaOperand::CountOf(name) => FormulaTerm::Named(0x86, name),
    }
}

/// Takes the operator on top, if it is as tight as the level.
#[tactic(auto, using(crate::proofs::Steps::none_tight, crate::proofs::Steps::bracket_tight, crate::proofs::Steps::not_tight))]
#[inline(always)]
fn pop_tight(waiting: &mut Waiting, tight: u8) -> Option<u8>
    requires { 1 ≤ tight }
    ensures { MatchOption result
        ((waiting.new ≡ waiting.old) × ((out : _) → reduced tight out waiting.old ≡ (out, waiting.old)))
        (λ code. (m : _) × (m ≤ tight) × (waiting.old ≡ Pending m code ∷ waiting.new)) }
{
    let Some(last) = waiting.last_waiting() else {
        return None;
    };
    match last {
        Wait::Before(sign) => {
            waiting.pop();
            Some(sign_code(sign))
        }
        Wait::Between(operator) => {
            if level(operator) <= tight {
                waiting.pop();
                return Some(operator_code(operator));
            }
            None
        }
        Wait::Bracket => None,
    }
}

/// Closes the operators on top that are as tight as the level.
#[tactic(auto, using(crate::proofs::Steps::one_closed))]
fn reduce(out: &mut Vec<FormulaTerm>, waiting: &mut Waiting, tight: u8) -> Result<(), AllocError>
    requires { 1 ≤ tight }
    ensures ok { OnOk result ((map term out.new.items, waiting.new) ≡ reduced tight (map term out.old.items) waiting.old) }
{
    'tight: while let Some(code) = pop_tight(waiting, tight) {
        out.push(FormulaTerm::Operator(code))?;
    }
    Ok(())
}

/// What a closing parenthesis, or the end, finds once all operators are closed.
#[derive(Clone, Copy)]
enum Closing {
    /// The parenthesis that it closes, which waits no more.
    Shut,
    /// Nothing: the formula is whole.
    Whole,
    /// An operator.
    Open,
}

/// Closes all operators back to the last open parenthesis, and that too.

fn close(out: &mut Vec<FormulaTerm>, waiting: &mut Waiting) -> Result<Closing, AllocError>
    ensures ok { IfOk result (λ closing. Closes closing (reduced 6 (map term out.old.items) waiting.old) (map term out.new.items) waiting.new) }
{
    reduce(out, waiting, 6)?;
    let Some(last) = waiting.pop() else {
        return Ok(Closing::Whole);
    };
    match last {
        Wait::Bracket => Ok(Closing::Shut),
        Wait::Before(_) => Ok(Closing::Open),
        Wait::Between(_) => Ok(Closing::Open),
    }
}

/// Whether a token is a number that is too large.
#[inline(always)]
fn is_too_large(next: &OperandToken) -> bool
    ensures { result ≡ (operand_token next.now).1 }
{
    match next {
        OperandToken::Value(FormulaOperand::TooLarge) => true,
        OperandToken::Value(FormulaOperand::Here) => false,
        OperandToken::Value(FormulaOperand::Number(_)) => false,
        OperandToken::Value(FormulaOperand::Label(_)) => false,
        OperandToken::Value(FormulaOperand::LengthOf(_)) => false,
        OperandToken::Value(FormulaOperand::CountOf(_)) => false,
        OperandToken::Before(_) => false,
        OperandToken::Opens => false,
    }
}

/// Takes a token where an operand is expected. Returns whether one is expected after it too.
#[tactic(auto, using(crate::proofs::Steps::map_push), unfolding(orca_meaning::specs::laws::Machine::step))]
#[inline(always)]
fn take_operand(
    out: &mut Vec<FormulaTerm>,
    waiting: &mut Waiting,
    next: OperandToken,
) -> Result<bool, AllocError>
    ensures ok { IfOk result (λ again. step (state (map term out.old.items) waiting.old true) (operand_token next).0
        ≡ Some (state (map term out.new.items) waiting.new again)) }
{
    match next {
        OperandToken::Value(operand) => {
            out.push(operand_term(operand))?;
            Ok(false)
        }
        OperandToken::Before(sign) => {
            waiting.push(Wait::Before(sign))?;
            Ok(true)
        }
        OperandToken::Opens => {
            waiting.push(Wait::Bracket)?;
            Ok(true)
        }
    }
}

/// Takes an operator between two operands.
#[inline(always)]
fn take_operator(
    out: &mut Vec<FormulaTerm>,
    waiting: &mut Waiting,
    operator: Operator,
) -> Result<(), AllocError>
    ensures ok { OnOk result (step (state (map term out.old.items) waiting.old false) (Between operator)
        ≡ Some (state (map term out.new.items) waiting.new true)) }
{
    reduce(out, waiting, level(operator))?;
    waiting.push(Wait::Between(operator))?;
    Ok(())
}

/// How a formula continues.
enum Next<'a> {
    /// After one more token, where an operand is expected or not.
    Goes(bool, &'a [u8]),
    /// It ends here.
    Ends,
    /// No formula is there.
    Fails,
}

/// Takes the token where an operand is expected.
#[inline(always)]
fn operand_next<'a>(
    alloc: Global,
    operands: Operands,
    left: LinePart<'a>,
    out: &mut Vec<FormulaTerm>,
    waiting: &mut Waiting,
    large: &mut bool,
) -> Result<Next<'a>, AllocError>
    ensures { IfOk result (λ next. IsNext operands (state (map term out.old.items) waiting.old true) large.old left.entry.bytes.now next (map term out.new.items) waiting.new large.new) }
{
    let Some((next, following)) = operand_token(alloc, operands, left)? else {
        return Ok(Next::Fails);
    };
    *large = *large || is_too_large(&next);
    let again = take_operand(out, waiting, next)?;
    Ok(Next::Goes(again, following))
}

/// Takes what follows an operand.
#[inline(always)]
fn operator_next<'a>(
    left: &'a [u8],
    out: &mut Vec<FormulaTerm>,
    waiting: &mut Waiting,
) -> Result<Next<'a>, AllocError>
    ensures { (operands : Operands) (large : Bool) → IfOk result (λ next. IsNext operands (state (map term out.old.items) waiting.old false) large left.now next (map term out.new.items) waiting.new large) }
{
    match operator_token(left) {
        Some((OperatorToken::Between(operator), following)) => {
            take_operator(out, waiting, operator)?;
            Ok(Next::Goes(true, following))
        }
        Some((OperatorToken::Closes, following)) => match close(out, waiting)? {
            Closing::Shut => Ok(Next::Goes(false, following)),
            Closing::Whole => Ok(Next::Ends),
            Closing::Open => Ok(Next::Fails),
        },
        None => match close(out, waiting)? {
            Closing::Whole => Ok(Next::Ends),
            Closing::Shut => Ok(Next::Fails),
            Closing::Open => Ok(Next::Fails),
        },
    }
}

/// Takes one more token, where an operand is expected or not.
#[inline(always)]
fn take_next<'a>(
    alloc: Global,
    operands: Operands,
    expects: bool,
    left: LinePart<'a>,
    out: &mut Vec<FormulaTerm>,
    waiting: &mut Waiting,
    large: &mut bool,
) -> Result<Next<'a>, AllocError>
    ensures { IfOk result (λ next. IsNext operands (state (map term out.old.items) waiting.old expects) large.old left.entry.bytes.now next (map term out.new.items) waiting.new large.new) }
{
    if expects {
        return operand_next(alloc, operands, left, out, waiting, large);
    }
    operator_next(left.bytes, out, waiting)
}

/// A formula at the start of a text.
#[derive(Drop)]
pub struct FormulaAt<'a> {
    /// Its terms in postfix order, with 0 for each number that is too large.
    pub formula: Formula,
    /// Whether a number in it is above 4,294,967,295.
    pub large: bool,
    /// What follows it.
    pub rest: &'a [u8],
}

/// The formula that is at the start of a text, as far as operators go on, if one does.
pub fn formula_at<'a>(
    alloc: Global,
    operands: Operands,
    text: LinePart<'a>,
) -> Result<Option<FormulaAt<'a>>, AllocError>
    ensures found { IfOk result (λ found. IfSome found (λ x. IsFormulaAt operands text.entry.bytes.now x.formula x.large x.rest.now)) }
    ensures none { IfOk result (λ found. IfNone found (HasNoFormula operands text.entry.bytes.now)) }
    ensures bound { IfOk result (λ found. IfSome found (λ x. length x.rest.now ≤ length text.entry.bytes.now)) }
{
    let mut out = Vec::new(alloc);
    let mut waiting = Waiting::new(alloc);
    let mut large = false;
    let mut expects = true;
    let mut left = text.bytes;
    'tokens: loop {
        match take_next(
            alloc,
            operands,
            expects,
            LinePart { bytes: left },
            &mut out,
            &mut waiting,
            &mut large,
        )? {
            Next::Goes(again, following) => {
                expects = again;
                left = following;
            }
            Next::Ends => {
                return Ok(Some(FormulaAt {
                    formula: Formula::of(out),
                    large,
                    rest: left,
                }));
            }
            Next::Fails => return Ok(None),
        }
    }
}

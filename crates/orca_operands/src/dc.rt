//! The elements of DC (ORCA/M reference manual, "Declare Constant").

ghost use Rattle.asm_meaning.specs.Constant.{Constants};
ghost use Rattle.std.specs.Prelude.{◌≡◌, ◌≤◌, Bool, ◌∷◌, ◌⊎◌, ◌^◌, [], List, ℕ, map, Some, None, Ok, Err, IfOk, IfSome, IfNone};
ghost use Rattle.asm_meaning.specs.Elements.{Element, ElementValue, IsElementAt};
ghost use Rattle.asm_meaning.specs.laws.Steps.{text_byte, strong_piece, weak_piece};
ghost use Rattle.asm_meaning.specs.Elements as elements;
ghost use Rattle.asm_meaning.specs.Pieces.{Bytes};
ghost use Rattle.asm_meaning.specs.Formulas.{expression_text};
ghost use Rattle.omf_format.specs.Expression.{Leaf};
ghost use Rattle.omf_format.specs.Expression as expression;
ghost use Rattle.orca_operands.specs.DcView.{HasValue, HasNoValue, HasElement, repeated_pieces, part_answer};
ghost use Rattle.orca_operands.specs.ElementView.{element_kind, HasWidth};
ghost use Rattle.orca_operands.specs.NamesView.{constants};
ghost use Rattle.orca_operands.specs.PieceView.{piece, pieces_answer};
ghost use Rattle.asm_meaning.specs.laws.GivenLaws.{IsNameLength};
ghost use Rattle.std.specs.List.{AllByRecursion};

use crate::causes::earlier;
use crate::count::count_at;
use crate::digits::bytes_of_digits;
use crate::element::{ElementKind, closed_at, kind_at, text_at, text_byte};
use crate::encoding::RepeatedPieces;
use crate::lists::names_in;
use crate::names::KnownConstants;
use crate::numbers::numbers_in;
use crate::piece::Piece;
use asm_meaning::AsmCause;
use omf_base::{Name, NameFault};
use omf_expr::{Term, put_term};
use omf_format::EXPR;
use orca_text::{LinePart, after_byte};
use std::alloc::{AllocError, Global};

/// What constant bytes give.
fn one_piece(alloc: Global, bytes: Vec<u8>) -> Result<Vec<Piece>, AllocError>
    ensures { IfOk result (λ v. map piece v.items ≡ Bytes bytes.items ∷ []) }
{
    let mut pieces = Vec::with_capacity(alloc, 1)?;
    pieces.push(Piece::Bytes(bytes))?;
    Ok(pieces)
}

/// Numbers of a given number of bytes.
fn number_value<'a>(
    alloc: Global,
    known: KnownConstants<'_>,
    width: u8,
    text: LinePart<'a>,
) -> Result<Option<(Result<Vec<Piece>, AsmCause>, &'a [u8])>, AllocError>
    requires width { width ≤ 4 }
    ensures found { IfOk result (λ found. IfSome found (λ x. (msb : Bool) → HasValue (constants known.entry) msb (elements.Number width) text.entry.bytes.now (pieces_answer x.0) x.1.now)) }
    ensures none { IfOk result (λ found. IfNone found (HasNoValue (elements.Number width) text.entry.bytes.now)) }
{
    let Some((inner, rest)) = closed_at(text.bytes) else {
        return Ok(None);
    };
    let found = numbers_in(alloc, known, width, LinePart { bytes: inner })?;
    match found {
        Some(answer) => Ok(Some((answer, rest))),
        None => Ok(None),
    }
}

/// The digits of H.
fn hexadecimal_value<'a>(
    alloc: Global,
    text: &'a [u8],
) -> Result<Option<(Result<Vec<Piece>, AsmCause>, &'a [u8])>, AllocError>
    ensures found { IfOk result (λ found. IfSome found (λ x. (constants : Constants) (msb : Bool) → HasValue constants msb elements.Hexadecimal text.now (pieces_answer x.0) x.1.now)) }
    ensures none { IfOk result (λ found. IfNone found (HasNoValue elements.Hexadecimal text.now)) }
{
    let Some((inner, rest)) = closed_at(text) else {
        return Ok(None);
    };
    let found = bytes_of_digits(alloc, 16, 2, inner)?;
    match found {
        Some(bytes) => {
            let pieces = one_piece(alloc, bytes)?;
            Ok(Some((Ok(pieces), rest)))
        }
        None => Ok(None),
    }
}

/// The digits of B.
fn binary_value<'a>(
    alloc: Global,
    text: &'a [u8],
) -> Result<Option<(Result<Vec<Piece>, AsmCause>, &'a [u8])>, AllocError>
    ensures found { IfOk result (λ found. IfSome found (λ x. (constants : Constants) (msb : Bool) → HasValue constants msb elements.Binary text.now (pieces_answer x.0) x.1.now)) }
    ensures none { IfOk result (λ found. IfNone found (HasNoValue elements.Binary text.now)) }
{
    let Some((inner, rest)) = closed_at(text) else {
        return Ok(None);
    };
    let found = bytes_of_digits(alloc, 2, 8, inner)?;
    match found {
        Some(bytes) => {
            let pieces = one_piece(alloc, bytes)?;
            Ok(Some((Ok(pieces), rest)))
        }
        None => Ok(None),
    }
}

/// The bytes of a text; with MSB on their high bits are set.
fn marked_bytes(alloc: Global, msb: bool, bytes: &[u8]) -> Result<Vec<u8>, AllocError>
    ensures { IfOk result (λ v. v.items ≡ map (text_byte msb) bytes.now) }
{
    let mut out = Vec::with_capacity(alloc, bytes.len())?;
    'bytes: for byte in bytes {
        out.push(text_byte(msb, *byte))?;
    }
    Ok(out)
}

/// The text of C.
fn text_value<'a>(
    alloc: Global,
    msb: bool,
    text: &'a [u8],
) -> Result<Option<(Result<Vec<Piece>, AsmCause>, &'a [u8])>, AllocError>
    ensures found { IfOk result (λ found. IfSome found (λ x. (constants : Constants) → HasValue constants msb elements.Characters text.now (pieces_answer x.0) x.1.now)) }
    ensures none { IfOk result (λ found. IfNone found (HasNoValue elements.Characters text.now)) }
{
    let found = text_at(alloc, text)?;
    match found {
        Some((bytes, rest)) => {
            let marked = marked_bytes(alloc, msb, bytes.as_slice())?;
            let pieces = one_piece(alloc, marked)?;
            Ok(Some((Ok(pieces), rest)))
        }
        None => Ok(None),
    }
}

/// The same name once more.
fn same_name(alloc: Global, name: &Name) -> Result<Name, AllocError>
    ensures { IfOk result (λ copy. copy ≡ name.now) }
{
    match Name::of(alloc, name.bytes()) {
        Ok(copy) => Ok(copy),
        Err(NameFault::TooLong) => unreachable!(),
        Err(NameFault::Memory) => Err(AllocError),
    }
}

/// What each name of R gives.
fn strong_pieces(alloc: Global, names: &[Name]) -> Result<Vec<Piece>, AllocError>
    ensures { IfOk result (λ v. map piece v.items ≡ map strong_piece names.now) }
{
    let mut out = Vec::with_capacity(alloc, names.len())?;
    'names: for name in names {
        let copy = same_name(alloc, name)?;
        out.push(Piece::Strong(copy))?;
    }
    Ok(out)
}

/// The expression of a weak name.
fn weak_text(alloc: Global, name: &[u8]) -> Result<Vec<u8>, AllocError>
    requires { IsNameLength name.now }
    ensures { IfOk result (λ v. v.items ≡ expression_text (Leaf (expression.Named 0x82 name.now))) }
{
    let mut out = Vec::new(alloc);
    match put_term(&mut out, &Term::Named(0x82, name)) {
        Ok(()) => {}
        Err(_) => return Err(AllocError),
    }
    out.push(0)?;
    Ok(out)
}

/// What each name of S gives.
fn weak_pieces(alloc: Global, names: &[Name]) -> Result<Vec<Piece>, AllocError>
    requires { AllByRecursion IsNameLength names.now }
    ensures { IfOk result (λ v. map piece v.items ≡ map weak_piece names.now) }
{
    let mut out = Vec::with_capacity(alloc, names.len())?;
    'names: for name in names {
        let expr = weak_text(alloc, name.bytes())?;
        out.push(Piece::Formula {
            code: EXPR,
            count: 2,
            n: 0,
            expr,
        })?;
    }
    Ok(out)
}

/// The names of R.
fn strong_value<'a>(
    alloc: Global,
    text: LinePart<'a>,
) -> Result<Option<(Result<Vec<Piece>, AsmCause>, &'a [u8])>, AllocError>
    ensures found { IfOk result (λ found. IfSome found (λ x. (constants : Constants) (msb : Bool) → HasValue constants msb elements.References text.entry.bytes.now (pieces_answer x.0) x.1.now)) }
    ensures none { IfOk result (λ found. IfNone found (HasNoValue elements.References text.entry.bytes.now)) }
{
    let Some((inner, rest)) = closed_at(text.bytes) else {
        return Ok(None);
    };
    let found = names_in(alloc, LinePart { bytes: inner })?;
    match found {
        Some(names) => {
            let pieces = strong_pieces(alloc, names.as_slice())?;
            Ok(Some((Ok(pieces), rest)))
        }
        None => Ok(None),
    }
}

/// The names of S.
fn weak_value<'a>(
    alloc: Global,
    text: LinePart<'a>,
) -> Result<Option<(Result<Vec<Piece>, AsmCause>, &'a [u8])>, AllocError>
    ensures found { IfOk result (λ found. IfSome found (λ x. (constants : Constants) (msb : Bool) → HasValue constants msb elements.WeakReferences text.entry.bytes.now (pieces_answer x.0) x.1.now)) }
    ensures none { IfOk result (λ found. IfNone found (HasNoValue elements.WeakReferences text.entry.bytes.now)) }
{
    let Some((inner, rest)) = closed_at(text.bytes) else {
        return Ok(None);
    };
    let found = names_in(alloc, LinePart { bytes: inner })?;
    match found {
        Some(names) => {
            let pieces = weak_pieces(alloc, names.as_slice())?;
            Ok(Some((Ok(pieces), rest)))
        }
        None => Ok(None),
    }
}

/// The value of a type, after its opening quote, and what follows its closing one.
fn value_at<'a>(
    alloc: Global,
    known: KnownConstants<'_>,
    msb: bool,
    kind: ElementKind,
    text: LinePart<'a>,
) -> Result<Option<(Result<Vec<Piece>, AsmCause>, &'a [u8])>, AllocError>
    requires width { HasWidth kind }
    ensures found { IfOk result (λ found. IfSome found (λ x. HasValue (constants known.entry) msb (element_kind kind) text.entry.bytes.now (pieces_answer x.0) x.1.now)) }
    ensures none { IfOk result (λ found. IfNone found (HasNoValue (element_kind kind) text.entry.bytes.now)) }
{
    match kind {
        ElementKind::Number(width) => {
            let found = number_value(alloc, known, width, text)?;
            Ok(found)
        }
        ElementKind::Hexadecimal => {
            let found = hexadecimal_value(alloc, text.bytes)?;
            Ok(found)
        }
        ElementKind::Binary => {
            let found = binary_value(alloc, text.bytes)?;
            Ok(found)
        }
        ElementKind::Characters => {
            let found = text_value(alloc, msb, text.bytes)?;
            Ok(found)
        }
        ElementKind::References => {
            let found = strong_value(alloc, text)?;
            Ok(found)
        }
        ElementKind::WeakReferences => {
            let found = weak_value(alloc, text)?;
            Ok(found)
        }
    }
}

/// A value that is repeated `count` times, or the earlier of two faults.
fn part_of(
    count: Result<u32, AsmCause>,
    value: Result<Vec<Piece>, AsmCause>,
) -> Result<RepeatedPieces, AsmCause>
    ensures { part_answer result ≡ repeated_pieces count (pieces_answer value) }
{
    match count {
        Ok(count) => match value {
            Ok(pieces) => Ok(RepeatedPieces { count, pieces }),
            Err(cause) => Err(cause),
        },
        Err(cause) => match value {
            Ok(_pieces) => Err(cause),
            Err(other) => Err(earlier(cause, other)),
        },
    }
}

/// What the element at the start gives, and what follows it.
pub fn element_at<'a>(
    alloc: Global,
    known: KnownConstants<'_>,
    msb: bool,
    text: LinePart<'a>,
) -> Result<Option<(Result<RepeatedPieces, AsmCause>, &'a [u8])>, AllocError>
    ensures found { IfOk result (λ found. IfSome found (λ x. HasElement (constants known.entry) msb text.entry.bytes.now (part_answer x.0) x.1.now)) }
    ensures none { IfOk result (λ found. IfNone found ((element : Element) (rest : List ℕ) → IsElementAt text.entry.bytes.now element rest → ⊥)) }
{
    let counted = count_at(alloc, known, text)?;
    let Some((count, following)) = counted else {
        return Ok(None);
    };
    let Some((kind, quote)) = kind_at(following) else {
        return Ok(None);
    };
    let Some(inner) = after_byte(quote, b'\'') else {
        return Ok(None);
    };
    let found = value_at(alloc, known, msb, kind, LinePart { bytes: inner })?;
    let Some((value, rest)) = found else {
        return Ok(None);
    };
    Ok(Some((part_of(count, value), rest)))
}

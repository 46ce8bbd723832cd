//! The object of the workload.

ghost use Rattle.std.specs.Prelude.{◌≡◌, ◌≤◌, ◌<◌, ◌+◌, ◌*◌, ◌%◌, ◌^◌, ◌++◌, ◌∷◌, [], length, replicate, OnOk, IfOk, true, false, ◌==◌};
ghost use Rattle.omf_format.specs.declared.codes.TheConstants.{EXPR, RELEXPR, LEXPR};
ghost use Rattle.omf_format.specs.Field.{written_layout, IsName};
ghost use Rattle.omf_format.specs.Header.{header_bytes, is_listed, form_of};
ghost use Rattle.omf_format.specs.Expression.{IsExpression};
ghost use Rattle.omf_format.specs.Record.{End, Const, LongConst, Formula, is_formula, spelling, IsRecord};
ghost use Rattle.omf_records.specs.View.{view};
ghost use Rattle.asm_meaning.specs.Object.{records_text, segment_text};
ghost use Rattle.workload_meaning.specs.Draws.{next, following};
ghost use Rattle.workload_meaning.specs.Object.{name_of, padded, value_of, header_for, calls, main_segment, dynamic_segment, object};

use crate::draws::Draws;
use omf_base::{Line, Name, NameFault};
use omf_expr::{Term, put_term};
use omf_format::{EXPR, LEXPR};
use omf_header::{Header, Kind, WriteHeaderFault, write_header};
use omf_records::{Rec, put_record};
use std::alloc::{AllocError, Global};

/// The name of a dynamic segment.
#[tactic(auto, using(workload_meaning::specs::laws::NameLaws::name_short, workload_meaning::specs::laws::NameLaws::is_name))]
fn name_of(alloc: Global, i: u32) -> Result<Line, AllocError>
    requires { i ≤ 64 }
    ensures name { IfOk result (λ name. name ≡ name_of i) }
    ensures is_name { IfOk result (λ name. IsName 0 name) }
    ensures short { IfOk result (λ name. length name ≤ 10) }
{
    let mut name = Line::new(alloc);
    name.text("D").map_err(|_| AllocError)?;
    name.dec(i).map_err(|_| AllocError)?;
    Ok(name)
}

/// A load name.
fn pad_name(name: &[u8]) -> [u8; 10]
    requires { length name.now ≤ 10 }
    ensures { result ≡ padded name.now }
{
    let mut all = [b' '; 10];
    all[..name.len()].copy_from_slice(name);
    all
}

/// An expression that is a name alone.
#[tactic(auto, using(workload_meaning::specs::laws::NameLaws::is_value), unfolding(workload_meaning::specs::Object::value_of))]
fn value_of(alloc: Global, name: &[u8]) -> Result<Vec<u8>, AllocError>
    requires { IsName 0 name.now }
    ensures value { IfOk result (λ expr. expr.items ≡ value_of name.now) }
    ensures is_value { IfOk result (λ expr. IsExpression 0 expr.items) }
{
    let mut expr = Vec::new(alloc);
    put_term(&mut expr, &Term::Named(0x83, name)).map_err(|_| AllocError)?;
    expr.push(0)?;
    Ok(expr)
}

/// Appends a record.
fn append_record(body: &mut Vec<u8>, rec: &Rec) -> Result<(), AllocError>
    requires { IsRecord written_layout (view rec.now) }
    ensures { OnOk result (body.new.items ≡ body.old.items ++ spelling written_layout (view rec.now)) }
{
    put_record(body, rec).map_err(|_| AllocError)
}

/// Appends a formula of three bytes: a name alone.
fn put_value(alloc: Global, body: &mut Vec<u8>, code: u8, name: &[u8]) -> Result<(), AllocError>
    requires code { is_formula code ≡ true }
    requires near { (code == RELEXPR) ≡ false }
    requires name { IsName 0 name.now }
    ensures { OnOk result (body.new.items ≡ body.old.items ++ spelling written_layout (Formula code 3 0 (value_of name.now))) }
{
    let expr = value_of(alloc, name)?;
    append_record(
        body,
        &Rec::Formula {
            code,
            count: 3,
            n: 0,
            expr: &expr,
        },
    )
}

/// Appends `size` bytes.
fn put_bytes(alloc: Global, body: &mut Vec<u8>, byte: u8, size: u32) -> Result<(), AllocError>
    ensures { OnOk result (body.new.items ≡ body.old.items ++ spelling written_layout (LongConst (replicate size byte))) }
{
    let bytes = vec![in alloc; byte; size as usize]?;
    append_record(body, &Rec::LongConst { bytes: &bytes })
}

/// Appends a JSL to a dynamic segment.
fn put_call(alloc: Global, body: &mut Vec<u8>, i: u32) -> Result<(), AllocError>
    requires { i ≤ 64 }
    ensures { OnOk result (body.new.items ≡ body.old.items ++ (spelling written_layout (Const (0x22 ∷ []))
        ++ spelling written_layout (Formula LEXPR 3 0 (value_of (name_of i))))) }
{
    let name = name_of(alloc, i)?;
    append_record(body, &Rec::Const { bytes: &[0x22] })?;
    put_value(alloc, body, LEXPR, name.bytes())
}

/// The records of the segment MAIN.
#[tactic(auto, using(crate::proofs::Parts::calls_start, crate::proofs::Parts::calls_step))]
fn calls(alloc: Global, n: u32) -> Result<Vec<u8>, AllocError>
    requires { n ≤ 64 }
    ensures records { IfOk result (λ body. body.items ≡ records_text (calls n 1)) }
    ensures short { IfOk result (λ body. length body.items ≤ 65536) }
{
    let mut body = Vec::new(alloc);
    'calls: for i in 1..n + 1 {
        put_call(alloc, &mut body, i)?;
    }
    append_record(&mut body, &Rec::End)?;
    Ok(body)
}

/// The records of a dynamic segment with `size` bytes after its name's value.
fn content(alloc: Global, i: u32, name: &[u8], size: u32) -> Result<Vec<u8>, AllocError>
    requires is_name { IsName 0 name.now }
    requires short { length name.now ≤ 10 }
    requires number { i ≤ 64 }
    requires small { size < 4112 }
    ensures records { IfOk result (λ body. body.items ≡ records_text (Formula EXPR 3 0 (value_of name.now) ∷ LongConst (replicate size i) ∷ End ∷ [])) }
    ensures short { IfOk result (λ body. length body.items ≤ 65536) }
{
    let mut body = Vec::new(alloc);
    put_value(alloc, &mut body, EXPR, name)?;
    put_bytes(alloc, &mut body, i as u8, size)?;
    append_record(&mut body, &Rec::End)?;
    Ok(body)
}

/// Appends a segment that stays in a bank: its header, and the bytes of its records.
fn put_segment(
    alloc: Global,
    object: &mut Vec<u8>,
    kind: u16,
    size: u32,
    number: u16,
    name: &[u8],
    body: &[u8],
) -> Result<(), AllocError>
    requires listed { is_listed (form_of kind) ≡ true }
    requires short { length name.now ≤ 10 }
    requires small { length body.now ≤ 65536 }
    ensures { OnOk result (object.new.items ≡ object.old.items ++ (header_bytes (header_for kind size number name.now) (length body.now) ++ body.now)) }
{
    let header = Header {
        byte_count: 0,
        res_spc: 0,
        length: size,
        lab_len: 0,
        version: 2,
        bank_size: 0x10000,
        kind: Kind { bits: kind },
        org: 0,
        align: 0,
        seg_num: number,
        entry: 0,
        disp_name: 0,
        disp_data: 0,
        load_name: pad_name(name),
        name: name_in(alloc, name)?,
    };
    let written = match write_header(alloc, &header, body.len() as u32) {
        Ok(written) => written,
        Err(WriteHeaderFault::TooLong) => unreachable!(),
        Err(WriteHeaderFault::Memory) => return Err(AllocError),
    };
    object.extend_from_slice(&written)?;
    object.extend_from_slice(body)
}

/// The name of a segment.
fn name_in(alloc: Global, name: &[u8]) -> Result<Name, AllocError>
    requires { length name.now ≤ 10 }
    ensures { IfOk result (λ made. made ≡ name.now) }
{
    match Name::of(alloc, name) {
        Ok(name) => Ok(name),
        Err(NameFault::TooLong) => unreachable!(),
        Err(NameFault::Memory) => Err(AllocError),
    }
}

/// Appends the segment MAIN.
#[tactic(auto, unfolding(asm_meaning::specs::Object::segment_text))]
fn put_main(alloc: Global, object: &mut Vec<u8>, n: u32) -> Result<(), AllocError>
    requires { n ≤ 64 }
    ensures { OnOk result (object.new.items ≡ object.old.items ++ segment_text (main_segment n)) }
{
    let body = calls(alloc, n)?;
    put_segment(alloc, object, 0x0000, 4 * n, 1, b"MAIN", &body)
}

/// Appends a dynamic segment.
#[tactic(auto, unfolding(asm_meaning::specs::Object::segment_text))]
fn put_dynamic(alloc: Global, object: &mut Vec<u8>, i: u32, size: u32) -> Result<(), AllocError>
    requires number { i ≤ 64 }
    requires small { size < 4112 }
    ensures { OnOk result (object.new.items ≡ object.old.items ++ segment_text (dynamic_segment i size)) }
{
    let name = name_of(alloc, i)?;
    let body = content(alloc, i, name.bytes(), size)?;
    put_segment(
        alloc,
        object,
        0x8000,
        3 + size,
        i as u16 + 1,
        name.bytes(),
        &body,
    )
}

/// The object of `n` dynamic segments, 1 to 64: one that calls them, and these. The sizes are drawn, and `draws` continues after them.
#[tactic(auto, using(crate::proofs::Parts::segments_start, crate::proofs::Parts::segments_step))]
pub fn object(alloc: Global, n: u32, draws: &mut Draws) -> Result<Vec<u8>, AllocError>
    requires { n ≤ 64 }
    ensures made { IfOk result (λ made. made.items ≡ object n draws.old.last) }
    ensures short { IfOk result (λ made. length made.items ≤ 16777216) }
    ensures following { OnOk result (draws.new.last ≡ following n draws.old.last) }
{
    let mut object = Vec::new(alloc);
    put_main(alloc, &mut object, n)?;
    'segments: for i in 1..n + 1 {
        put_dynamic(alloc, &mut object, i, 16 + draws.draw() % 4096)?;
    }
    Ok(object)
}

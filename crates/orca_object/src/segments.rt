//! START and its kin, END, ENTRY, USING and KIND (ORCA/M reference manual, "Assembler directives"; GS/OS Reference, appendix F,
//! "Segment header").

ghost use Rattle.std.specs.Prelude.{◌≡◌, true, ◌≤◌, ◌-◌, ◌++◌, length, replicate, IfOk, List, ℕ};
ghost use Rattle.omf_format.specs.Header.{is_listed, form_of, IsWritable};
ghost use Rattle.asm_meaning.specs.State.{kind_of, bank_size_of, State};
ghost use Rattle.omf_header.specs.View.{fields};
ghost use Rattle.orca_object.specs.EndView.{ended_header};
ghost use Rattle.orca_meaning.specs.Characters.{folded};
ghost use Rattle.asm_meaning.specs.Statement.{load_name_of, listed_kind};
ghost use Rattle.asm_meaning.specs.laws.Steps.{entering};
ghost use Rattle.orca_meaning.specs.Line.{Line};
ghost use Rattle.asm_meaning.specs.declared.directives.Operation.TheVariants.{Direct};
ghost use Rattle.asm_meaning.specs.declared.directives.Directive.TheVariants as directives;
ghost use Rattle.orca_object.specs.StateView.{ShowsState, IsLeft, Leaves};
ghost use Rattle.orca_object.specs.DoneView.{IsSome, kinded_by, using_by};
ghost use Rattle.orca_object.specs.DoingView.{ending};

use crate::object::put_segment;
use crate::state::{AsmState, OpenSegment, SegmentBody};
use asm_meaning::{AsmCause, Class};
use omf_base::Name;
use omf_format::DIRECTIVE_LABEL;
use omf_header::{Header, Kind, header_size};
use omf_records::Rec;
use orca_operands::{
    DefinedNames, RecordBytes, earlier, is_name, name_of, number_in, pair_or_earlier_fault,
};
use orca_text::LinePart;
use std::alloc::{AllocError, Global};
use std::mem;

/// KIND of a class.
fn kind_of(class: Class) -> u16
    ensures kind { result ≡ kind_of class }
    ensures listed { is_listed (form_of result) ≡ true }
{
    match class {
        Class::Code => 0x0000,
        Class::PrivateCode => 0x4000,
        Class::Data => 0x0001,
        Class::PrivateData => 0x4001,
    }
}

/// BANKSIZE of a class.
fn bank_size_of(class: Class) -> u32
    ensures value { result ≡ bank_size_of class }
    ensures small { result ≤ 0x10000 }
{
    match class {
        Class::Code | Class::PrivateCode => 0x10000,
        Class::Data | Class::PrivateData => 0,
    }
}

/// The header of a segment that ends.
fn header_of(segment: OpenSegment) -> (Header, RecordBytes)
    ensures header { fields result.0 ≡ ended_header segment }
    ensures writable { IsWritable (fields result.0) }
    ensures text { result.1 ≡ segment.body.writer.text }
{
    let load_name = segment.load_name;
    let body = segment.body;
    let header = Header {
        byte_count: 0,
        res_spc: 0,
        length: body.cells as u32,
        lab_len: 0,
        version: 2,
        bank_size: bank_size_of(segment.class),
        kind: Kind { bits: segment.kind },
        org: segment.org,
        align: segment.align,
        seg_num: segment.number,
        entry: 0,
        disp_name: 0,
        disp_data: 0,
        load_name,
        name: segment.name,
    };
    let writer = body.writer;
    (header, writer.text)
}

/// The bytes of a LOADNAME.
const SIZE: usize = 10;

/// A text in upper case, and spaces up to ten bytes.
fn pad_load_name(text: &[u8]) -> [u8; 10]
    requires { length text.now ≤ 10 }
    ensures { result ≡ folded text.now ++ replicate (10 - length text.now) 0x20 }
{
    let mut name = [b' '; SIZE];
    'bytes: for i in 0..text.len() {
        name[i] = text[i].to_ascii_uppercase();
    }
    name
}

/// A name of at most ten bytes, with spaces up to ten; no operand is ten spaces.
#[tactic(auto, unfolding(asm_meaning::specs::Statement::load_name_of))]
fn load_name_of(text: &[u8]) -> Result<[u8; 10], AsmCause>
    ensures { result ≡ load_name_of text.now }
{
    if text.is_empty() {
        return Ok([b' '; SIZE]);
    }
    if is_name(text) && text.len() <= SIZE {
        return Ok(pad_load_name(text));
    }
    Err(AsmCause::BadOperand)
}

/// Whether a type of segments is one that is listed.
fn is_listed(form: u32) -> bool
    ensures { result ≡ is_listed form }
{
    matches!(form, 0x00 | 0x01 | 0x02 | 0x04 | 0x08 | 0x10 | 0x12)
}

/// KIND has two bytes, and its type is one that is listed.
fn listed_kind(n: u32) -> Result<u16, AsmCause>
    ensures kind { result ≡ listed_kind n }
    ensures listed { IfOk result (λ kind. is_listed (form_of kind) ≡ true) }
{
    if !is_listed(n % 32) {
        return Err(AsmCause::BadOperand);
    }
    if n > 0xFFFF {
        return Err(AsmCause::DoesNotFit);
    }
    Ok(n as u16)
}

impl AsmState {
    ghost use Rattle.std.specs.Prelude.{◌≡◌, ◌≤◌, ◌∷◌, [], length, OnOk, true, None};
    ghost use Rattle.omf_format.specs.declared.codes.TheConstants.{DIRECTIVE_LABEL};
    ghost use Rattle.orca_meaning.specs.Line.{Line};
    ghost use Rattle.omf_format.specs.Record.{End, Label, Using};
    ghost use Rattle.asm_meaning.specs.State.{State, in_segment, with_local_record, state_after_start, state_after_end, with_records};
    ghost use Rattle.orca_object.specs.StateView.{ShowsState};
    ghost use Rattle.omf_format.specs.Header.{is_listed, form_of};
    ghost use Rattle.asm_meaning.specs.Statement.{with_kind};

    /// START and its kin.
    fn begin(
        &mut self,
        alloc: Global,
        file: u32,
        line: u32,
        class: Class,
        name: Name,
        load_name: [u8; 10],
    ) -> Result<(), AllocError>
        ensures { OnOk result ((state : State) (l : Line) → ShowsState state self.old → file ≡ l.file → line ≡ l.number → ShowsState (state_after_start state l class name load_name) self.new) }
    {
        let mut names = DefinedNames::new(alloc);
        names.set(alloc, name.bytes(), None)?;
        let front = mem::replace(&mut self.front, RecordBytes::new(alloc));
        let mut text = RecordBytes::room(alloc, header_size(&name))?;
        text.join(front)?;
        let open = OpenSegment {
            file,
            line,
            class,
            kind: kind_of(class),
            org: self.org,
            align: self.align,
            number: self.number,
            load_name,
            name,
            names,
            body: SegmentBody::new(alloc, text),
        };
        self.segment = Some(open);
        self.org = 0;
        self.align = 0;
        Ok(())
    }

    /// END.
    fn end(&mut self, alloc: Global, label: &Name) -> Result<(), AllocError>
        ensures { OnOk result ((state : State) → ShowsState state self.old → ShowsState (state_after_end (in_segment (with_local_record label.now DIRECTIVE_LABEL (End ∷ [])) state)) self.new) }
    {
        let mut open = match mem::replace(&mut self.segment, None) {
            Some(open) => open,
            None => return Ok(()),
        };
        open.mark_record(alloc, label, &Rec::End)?;
        let (header, text) = header_of(open);
        put_segment(alloc, &mut self.object, &header, text)?;
        self.number = ((u32::from(self.number) + 1) % 0x10000) as u16;
        Ok(())
    }

    /// KIND.
    fn kind(&mut self, alloc: Global, label: &Name, n: u16) -> Result<(), AllocError>
        requires listed { is_listed (form_of n) ≡ true }
        ensures { OnOk result ((state : State) → ShowsState state self.old → ShowsState (in_segment (λ s. with_kind n (with_local_record label.now DIRECTIVE_LABEL [] s)) state) self.new) }
    {
        if let Some(open) = &mut self.segment {
            open.mark_alone(alloc, label)?;
            open.kind = n;
            return Ok(());
        }
        Ok(())
    }

    /// USING.
    fn using(&mut self, alloc: Global, label: &Name, name: &Name) -> Result<(), AllocError>
        requires some { 1 ≤ length name.now }
        ensures { OnOk result ((state : State) → ShowsState state self.old → ShowsState (in_segment (with_local_record label.now DIRECTIVE_LABEL (Using name.now ∷ [])) state) self.new) }
    {
        let using = Rec::Using { name: name.bytes() };
        if let Some(open) = &mut self.segment {
            open.mark_record(alloc, label, &using)?;
            return Ok(());
        }
        Ok(())
    }

    /// ENTRY.
    fn entry(&mut self, alloc: Global, label: &Name) -> Result<(), AllocError>
        requires some { 1 ≤ length label.now }
        ensures { OnOk result ((state : State) → ShowsState state self.old → ShowsState (in_segment (with_records label.now None (Label true label.now 0 DIRECTIVE_LABEL 0 ∷ []) []) state) self.new) }
    {
        let global = Rec::Label {
            global: true,
            name: label.bytes(),
            length: 0,
            form: DIRECTIVE_LABEL,
            private: 0,
        };
        if let Some(open) = &mut self.segment {
            open.name_record(alloc, label, None, &global)?;
            return Ok(());
        }
        Ok(())
    }
}

/// START and its kin.
pub(crate) fn do_begin(
    alloc: Global,
    kept: &mut AsmState,
    file: u32,
    number: u32,
    class: Class,
    label: Result<Name, AsmCause>,
    text: &[u8],
) -> Result<Result<(), AsmCause>, AllocError>
    ensures { IfOk result (λ done. (state : State) (line : Line) → ShowsState state kept.old → file ≡ line.file → number ≡ line.number → IsLeft state line (Direct (directives.Begin class)) label text.now done kept.new) }
{
    match load_name_of(text) {
        Ok(load_name) => match label {
            Ok(name) => {
                kept.begin(alloc, file, number, class, name, load_name)?;
                Ok(Ok(()))
            }
            Err(cause) => Ok(Err(cause)),
        },
        Err(other) => match label {
            Ok(_name) => Ok(Err(other)),
            Err(cause) => Ok(Err(earlier(cause, other))),
        },
    }
}

/// END.
pub(crate) fn do_end(
    alloc: Global,
    kept: &mut AsmState,
    label: Result<Name, AsmCause>,
) -> Result<Result<(), AsmCause>, AllocError>
    ensures { IfOk result (λ done. (state : State) → ShowsState state kept.old → Leaves done kept.new (ending state label)) }
{
    match label {
        Ok(name) => {
            kept.end(alloc, &name)?;
            Ok(Ok(()))
        }
        Err(cause) => Ok(Err(cause)),
    }
}

/// ENTRY.
fn entering(
    alloc: Global,
    kept: &mut AsmState,
    label: Result<Name, AsmCause>,
) -> Result<Result<(), AsmCause>, AllocError>
    requires some { IsSome label }
    ensures { IfOk result (λ done. (state : State) → ShowsState state kept.old → Leaves done kept.new (entering state label)) }
{
    match label {
        Ok(name) => {
            kept.entry(alloc, &name)?;
            Ok(Ok(()))
        }
        Err(cause) => Ok(Err(cause)),
    }
}

/// ENTRY.
pub(crate) fn do_entry(
    alloc: Global,
    kept: &mut AsmState,
    label: Result<Name, AsmCause>,
) -> Result<Result<(), AsmCause>, AllocError>
    requires some { IsSome label }
    ensures { IfOk result (λ done. (state : State) (l : Line) (text : List ℕ) → ShowsState state kept.old → IsLeft state l (Direct directives.Entry) label text done kept.new) }
{
    entering(alloc, kept, label)
}

/// USING, by the name of its operand.
fn using(
    alloc: Global,
    kept: &mut AsmState,
    label: Result<Name, AsmCause>,
    found: Result<Name, AsmCause>,
) -> Result<Result<(), AsmCause>, AllocError>
    requires found { IsSome found }
    ensures { IfOk result (λ done. (state : State) → ShowsState state kept.old → Leaves done kept.new (using_by state label found)) }
{
    match pair_or_earlier_fault(label, found) {
        Ok((name, found)) => {
            kept.using(alloc, &name, &found)?;
            Ok(Ok(()))
        }
        Err(cause) => Ok(Err(cause)),
    }
}

/// USING.
pub(crate) fn do_using(
    alloc: Global,
    kept: &mut AsmState,
    label: Result<Name, AsmCause>,
    text: LinePart<'_>,
) -> Result<Result<(), AsmCause>, AllocError>
    ensures { IfOk result (λ done. (state : State) (line : Line) → ShowsState state kept.old → IsLeft state line (Direct directives.Using) label text.entry.bytes.now done kept.new) }
{
    let found = name_of(alloc, text)?;
    using(alloc, kept, label, found)
}

/// KIND, by its number.
fn kinding(
    alloc: Global,
    kept: &mut AsmState,
    label: Result<Name, AsmCause>,
    number: Result<u32, AsmCause>,
) -> Result<Result<(), AsmCause>, AllocError>
    ensures { IfOk result (λ done. (state : State) → ShowsState state kept.old → Leaves done kept.new (kinded_by state label number)) }
{
    let kind = match number {
        Ok(n) => listed_kind(n),
        Err(cause) => Err(cause),
    };
    match pair_or_earlier_fault(label, kind) {
        Ok((name, n)) => {
            kept.kind(alloc, &name, n)?;
            Ok(Ok(()))
        }
        Err(cause) => Ok(Err(cause)),
    }
}

/// KIND.
pub(crate) fn do_kind(
    alloc: Global,
    kept: &mut AsmState,
    label: Result<Name, AsmCause>,
    text: LinePart<'_>,
) -> Result<Result<(), AsmCause>, AllocError>
    ensures { IfOk result (λ done. (state : State) (line : Line) → ShowsState state kept.old → IsLeft state line (Direct directives.Kind) label text.entry.bytes.now done kept.new) }
{
    let number = number_in(alloc, kept.known_constants(), text)?;
    kinding(alloc, kept, label, number)
}

//! What lines leave for the lines after them, with the segment that is open (ORCA/M reference manual, "Assembler directives";
//! GS/OS Reference, appendix F).

ghost use Rattle.std.specs.Prelude.{◌≡◌, ◌≤◌, true};
ghost use Rattle.omf_format.specs.Header.{is_listed, form_of};
ghost use Rattle.asm_meaning.specs.State.{greatest_length};

use asm_meaning::{AsmCause, Class};
use omf_base::Name;
use omf_format::DIRECTIVE_LABEL;
use omf_records::Rec;
use orca_operands::{
    DefinedNames, KnownConstants, OutsideConstants, RecordBytes, RecordWriter, Widths,
};
use std::alloc::{AllocError, Global};

/// The most cells that a segment may have, whatever its class.
const MOST_CELLS: u64 = 0xFF_FFFF;

/// Room for a segment's header, its records, and how many cells they give, which are no more than a segment may have.
#[derive(Drop)]
pub(crate) struct SegmentBody {
    pub(crate) writer: RecordWriter,
    pub(crate) cells: u64,
    ghost short: { cells ≤ 0xFFFFFF },
}

/// A segment that hasn't ended.
#[derive(Drop)]
pub(crate) struct OpenSegment {
    /// The file of the line that begins it, and that line's number.
    pub(crate) file: u32,
    pub(crate) line: u32,
    pub(crate) class: Class,
    /// KIND, whose type is one that is listed.
    pub(crate) kind: u16,
    pub(crate) org: u32,
    pub(crate) align: u32,
    /// SEGNUM.
    pub(crate) number: u16,
    pub(crate) load_name: [u8; 10],
    pub(crate) name: Name,
    /// The names that it defines.
    pub(crate) names: DefinedNames,
    pub(crate) body: SegmentBody,
    ghost listed: { is_listed (form_of kind) ≡ true },
}

/// The widths of the registers, whether MSB is on, the constants from outside segments, what waits for the next segment,
/// the segment that is open, and the bytes of those that have ended.
#[derive(Drop)]
pub(crate) struct AsmState {
    pub(crate) widths: Widths,
    pub(crate) msb: bool,
    pub(crate) outside: OutsideConstants,
    /// ORG, ALIGN and the first records of the next segment.
    pub(crate) org: u32,
    pub(crate) align: u32,
    pub(crate) front: RecordBytes,
    pub(crate) segment: Option<OpenSegment>,
    /// SEGNUM of the next segment.
    pub(crate) number: u16,
    pub(crate) object: RecordBytes,
}

/// The most cells of a segment of a class.
fn greatest_length(class: Class) -> u64
    ensures { result ≡ greatest_length class }
{
    match class {
        Class::Code | Class::PrivateCode => 0x10000,
        Class::Data | Class::PrivateData => 0xFF_FFFF,
    }
}

impl SegmentBody {
    ghost use Rattle.std.specs.Prelude.{◌≡◌, ◌+◌, ◌<◌, ◌++◌, ◌∷◌, [], List, ℕ, replicate, OnOk, OnErr, IfErr};
    ghost use Rattle.omf_format.specs.Field.{written_layout};
    ghost use Rattle.omf_format.specs.Record.{Record, IsRecord};
    ghost use Rattle.omf_records.specs.View.{view};
    ghost use Rattle.object_meaning.specs.Sizes.{size_at};
    ghost use Rattle.asm_meaning.specs.declared.faults.AsmCause.TheVariants.{SegmentTooLong};
    ghost use Rattle.asm_meaning.specs.Object.{records_text};
    ghost use Rattle.asm_meaning.specs.Pieces.{place_after};
    ghost use Rattle.orca_object.specs.BodyView.{ShowsBody};
    ghost use Rattle.orca_operands.specs.TextView.{text_within_limit, kept_text};

    /// Records that give no cells, after room for a header.
    #[tactic(auto, using(crate::proofs::Bodies::begins))]
    pub(crate) fn new(alloc: Global, text: RecordBytes) -> SegmentBody
        ensures { (room : ℕ) (records : List Record) → kept_text text ≡ text_within_limit (replicate room 0 ++ records_text records) → place_after 0 records ≡ 0 → ShowsBody room records result }
    {
        SegmentBody {
            writer: RecordWriter::new(alloc, text),
            cells: 0,
        }
    }

    /// One more record, which gives no cells.
    pub(crate) fn put(&mut self, rec: &Rec) -> Result<(), AllocError>
        requires record { IsRecord written_layout (view rec.now) }
        requires none { size_at self.old.cells (view rec.now) ≡ 0 }
        ensures body { OnOk result ((room : ℕ) (records : List Record) → ShowsBody room records self.old → ShowsBody room (records ++ view rec.now ∷ []) self.new) }
        ensures cells { OnOk result (self.new.cells ≡ self.old.cells) }
    {
        self.writer.text.put(rec)
    }

    /// Adds `size` cells, unless there are then more than a segment may have.
    pub(crate) fn grow(&mut self, size: u64) -> Result<(), AsmCause>
        ensures cells { OnOk result (self.new.cells ≡ self.old.cells + size) }
        ensures writer { OnOk result (self.new.writer ≡ self.old.writer) }
        ensures cause { IfErr result (λ cause. cause ≡ SegmentTooLong) }
        ensures long { OnErr result (0xFFFFFF < self.old.cells + size) }
    {
        if size > MOST_CELLS - self.cells {
            return Err(AsmCause::SegmentTooLong);
        }
        self.cells += size;
        Ok(())
    }
}

impl OpenSegment {
    ghost use Rattle.std.specs.Prelude.{◌≡◌, ◌∷◌, [], OnOk, IfOk};
    ghost use Rattle.omf_format.specs.declared.codes.TheConstants.{DIRECTIVE_LABEL};
    ghost use Rattle.omf_format.specs.Field.{written_layout};
    ghost use Rattle.omf_format.specs.Record.{IsRecord};
    ghost use Rattle.omf_records.specs.View.{view};
    ghost use Rattle.object_meaning.specs.Sizes.{size_at};
    ghost use Rattle.asm_meaning.specs.State.{StartedSegment, local_of, with_local_record};
    ghost use Rattle.orca_object.specs.StateView.{ShowsSegment, ShowsGrown, with_defined_name, with_records, with_local_label};

    /// One more name, where the statement has a label.
    fn define(&mut self, alloc: Global, label: &Name, value: Option<u32>) -> Result<(), AllocError>
        ensures segment { OnOk result ((s : StartedSegment) → ShowsSegment s self.old → ShowsSegment (with_defined_name label.now value s) self.new) }
        ensures cells { self.new.body.cells ≡ self.old.body.cells }
    {
        let name = label.bytes();
        if name.is_empty() {
            return Ok(());
        }
        self.names.set(alloc, name, value)
    }

    /// One more record, which gives no cells.
    fn put(&mut self, rec: &Rec) -> Result<(), AllocError>
        requires record { IsRecord written_layout (view rec.now) }
        requires none { size_at self.old.body.cells (view rec.now) ≡ 0 }
        ensures segment { OnOk result ((s : StartedSegment) → ShowsSegment s self.old → ShowsSegment (with_records (view rec.now ∷ []) s) self.new) }
        ensures cells { OnOk result (self.new.body.cells ≡ self.old.body.cells) }
    {
        self.body.put(rec)
    }

    /// A name with a record that gives no cells.
    pub(crate) fn name_record(
        &mut self,
        alloc: Global,
        label: &Name,
        value: Option<u32>,
        rec: &Rec,
    ) -> Result<(), AllocError>
        requires record { IsRecord written_layout (view rec.now) }
        requires none { size_at self.old.body.cells (view rec.now) ≡ 0 }
        ensures segment { OnOk result ((s : StartedSegment) → ShowsSegment s self.old → ShowsSegment (with_records (view rec.now ∷ []) (with_defined_name label.now value s)) self.new) }
    {
        self.define(alloc, label, value)?;
        self.put(rec)
    }

    /// LOCAL of a label, where the statement has one: its length, as far as two bytes hold it, and its type.
    fn put_local(&mut self, label: &Name, form: u8, size: u64) -> Result<(), AllocError>
        ensures segment { OnOk result ((s : StartedSegment) → ShowsSegment s self.old → ShowsSegment (with_records (local_of label.now form size) s) self.new) }
        ensures cells { OnOk result (self.new.body.cells ≡ self.old.body.cells) }
    {
        let name = label.bytes();
        if name.is_empty() {
            return Ok(());
        }
        let local = Rec::Label {
            global: false,
            name,
            length: size.min(0xFFFF) as u16,
            form,
            private: 0,
        };
        self.put(&local)
    }

    /// A label, with its LOCAL.
    pub(crate) fn mark(
        &mut self,
        alloc: Global,
        label: &Name,
        form: u8,
        size: u64,
    ) -> Result<(), AllocError>
        ensures segment { OnOk result ((s : StartedSegment) → ShowsSegment s self.old → ShowsSegment (with_local_label label.now form size s) self.new) }
        ensures cells { OnOk result (self.new.body.cells ≡ self.old.body.cells) }
    {
        self.define(alloc, label, None)?;
        self.put_local(label, form, size)
    }

    /// The label of a directive that gives no records.
    pub(crate) fn mark_alone(&mut self, alloc: Global, label: &Name) -> Result<(), AllocError>
        ensures { OnOk result ((s : StartedSegment) → ShowsSegment s self.old → ShowsSegment (with_local_record label.now DIRECTIVE_LABEL [] s) self.new) }
    {
        self.mark(alloc, label, DIRECTIVE_LABEL, 0)
    }

    /// A record that gives no cells, with the label of its directive.
    pub(crate) fn mark_record(
        &mut self,
        alloc: Global,
        label: &Name,
        rec: &Rec,
    ) -> Result<(), AllocError>
        requires record { IsRecord written_layout (view rec.now) }
        requires none { size_at self.old.body.cells (view rec.now) ≡ 0 }
        ensures { OnOk result ((s : StartedSegment) → ShowsSegment s self.old → ShowsSegment (with_local_record label.now DIRECTIVE_LABEL (view rec.now ∷ []) s) self.new) }
    {
        self.mark(alloc, label, DIRECTIVE_LABEL, 0)?;
        self.put(rec)
    }

    /// A record that gives `size` cells, with the label of its directive.
    pub(crate) fn give_record(
        &mut self,
        alloc: Global,
        label: &Name,
        rec: &Rec,
        size: u64,
    ) -> Result<Result<(), AsmCause>, AllocError>
        requires record { IsRecord written_layout (view rec.now) }
        requires size { size ≡ size_at self.old.body.cells (view rec.now) }
        ensures { IfOk result (λ done. (s : StartedSegment) → ShowsSegment s self.old → ShowsGrown done (with_local_record label.now DIRECTIVE_LABEL (view rec.now ∷ []) s) self.new) }
    {
        self.mark(alloc, label, DIRECTIVE_LABEL, size)?;
        match self.body.grow(size) {
            Ok(()) => {
                self.body.writer.text.put(rec)?;
                Ok(Ok(()))
            }
            Err(cause) => Ok(Err(cause)),
        }
    }
}

impl AsmState {
    ghost use Rattle.std.specs.Prelude.{◌≡◌, [], is_some, None, OnOk};
    ghost use Rattle.asm_meaning.specs.State.{State, start, in_segment, with_local_record};
    ghost use Rattle.asm_meaning.specs.laws.Steps.{is_too_long};
    ghost use Rattle.omf_format.specs.declared.codes.TheConstants.{DIRECTIVE_LABEL};
    ghost use Rattle.asm_meaning.specs.declared.directives.Operation.{Operation};
    ghost use Rattle.asm_meaning.specs.Statement.{constants_of, is_taken, begins_segment};
    ghost use Rattle.orca_operands.specs.NamesView.{constants};
    ghost use Rattle.orca_object.specs.StateView.{ShowsState};

    /// Before the first line.
    pub(crate) fn new(alloc: Global) -> AsmState
        ensures state { ShowsState start result }
        ensures short { result.segment ≡ None }
    {
        AsmState {
            widths: Widths {
                long_a: true,
                long_i: true,
            },
            msb: false,
            outside: OutsideConstants::new(alloc),
            org: 0,
            align: 0,
            front: RecordBytes::new(alloc),
            segment: None,
            number: 1,
            object: RecordBytes::new(alloc),
        }
    }

    /// The constants that are known.
    pub(crate) fn known_constants(&self) -> KnownConstants<'_>
        ensures { (state : State) → ShowsState state self.now → constants result ≡ constants_of state }
    {
        let names = match &self.segment {
            Some(open) => Some(&open.names),
            None => None,
        };
        KnownConstants {
            names,
            outside: &self.outside,
        }
    }

    /// Whether a segment is open.
    pub(crate) fn is_open(&self) -> bool
        ensures { (state : State) → ShowsState state self.now → result ≡ is_some state.segment }
    {
        match &self.segment {
            Some(_) => true,
            None => false,
        }
    }

    /// Whether a name can't be defined again.
    pub(crate) fn is_taken(&self, begins: bool, name: &[u8]) -> bool
        ensures { (state : State) (operation : Operation) → ShowsState state self.now → begins ≡ begins_segment operation → result ≡ is_taken state state.segment operation name.now }
    {
        if let Some(open) = &self.segment {
            return open.names.get(name).is_some();
        }
        if begins {
            return false;
        }
        self.outside.get(name).is_some()
    }

    /// Whether the open segment has more cells than its class may have.
    pub(crate) fn is_too_long(&self) -> bool
        ensures { (state : State) → ShowsState state self.now → result ≡ is_too_long state.segment }
    {
        match &self.segment {
            Some(open) => open.body.cells > greatest_length(open.class),
            None => false,
        }
    }

    /// The label of a directive that gives no records.
    pub(crate) fn mark_alone(&mut self, alloc: Global, label: &Name) -> Result<(), AllocError>
        ensures { OnOk result ((state : State) → ShowsState state self.old → ShowsState (in_segment (with_local_record label.now DIRECTIVE_LABEL []) state) self.new) }
    {
        if let Some(open) = &mut self.segment {
            open.mark_alone(alloc, label)?;
            return Ok(());
        }
        Ok(())
    }
}

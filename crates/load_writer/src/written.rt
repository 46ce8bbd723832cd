//! The body of a load segment, as a linker writes it (GS/OS Reference, appendix F, "Segment body").

ghost use Rattle.std.specs.Prelude.{◌≡◌, ◌≤◌, ◌++◌, length, map, IfOk, OnOk, OnErr};
ghost use Rattle.std.specs.List.{flat_map};
ghost use Rattle.omf_format.specs.Field.{written_layout};
ghost use Rattle.omf_format.specs.Record.{spelling, IsRecord, Super};
ghost use Rattle.load_meaning.specs.WrittenBody.{AreWritten, zeros_after, written_cells, lone_record, supers_from, body_text};
ghost use Rattle.load_meaning.specs.laws.Steps.{patches_stored_alone};
ghost use Rattle.load_writer.specs.WrittenParts.{seen, IsFront, locations_by_form, super_of};
ghost use Rattle.load_meaning.specs.WrittenPages.{pages_text, Rise};

use crate::by_form::{no_locations, put_in};
use crate::choice::{lone_record, super_form};
use crate::pages::pages;
use crate::written_data::put_data;
use omf_records::{PutFault, Rec, put_record};
use std::alloc::{AllocError, AllocFailed, Global};

/// `count` bytes from an offset on are the place of an offset in a segment of the same file, shifted left by `shift` bits, or right where
/// it is negative.
#[derive(Clone, Copy, Debug, PartialEq, Eq)]
pub struct Patch {
    /// The offset of the first byte.
    pub at: u32,
    /// 1 to 4 bytes.
    pub count: u8,
    /// -31 to 31 bits.
    pub shift: i8,
    /// The number of the target's segment, from 1.
    pub segment: u16,
    /// The target's offset in its segment.
    pub offset: u32,
}

/// The body of a load segment, without END.
#[derive(Drop)]
pub struct Body {
    pub bytes: Vec<u8>,
    /// How many zero bytes are after the body's data in memory: RESSPC.
    pub zeros: u32,
}

/// Why no body was written.
#[derive(Clone, Copy, Debug, PartialEq, Eq)]
pub enum BodyFault {
    Memory,
}

impl From<AllocError> for BodyFault {
    ghost use Rattle.std.specs.Prelude.{◌≡◌};
    ghost use Rattle.load_writer.specs.declared.written.BodyFault.TheVariants.{Memory};

    ghost from_gives = { λ _ fault. fault ≡ Memory };

    fn from(_: AllocError) -> BodyFault {
        BodyFault::Memory
    }
}

impl<T: Drop> From<AllocFailed<T>> for BodyFault {
    ghost use Rattle.std.specs.Prelude.{◌≡◌};
    ghost use Rattle.load_writer.specs.declared.written.BodyFault.TheVariants.{Memory};

    ghost from_gives = { λ _ fault. fault ≡ Memory };

    fn from(_: AllocFailed<T>) -> BodyFault {
        BodyFault::Memory
    }
}

impl From<PutFault> for BodyFault {
    ghost use Rattle.std.specs.Prelude.{◌≡◌};
    ghost use Rattle.load_writer.specs.declared.written.BodyFault.TheVariants.{Memory};

    ghost from_gives = { λ _ fault. fault ≡ Memory };

    fn from(_: PutFault) -> BodyFault {
        BodyFault::Memory
    }
}

/// Appends the records of the patches that are in no SUPER, in order. The answer is the locations of the others, by the type of the SUPER.
#[tactic(auto, using(crate::proofs::Fronts::front_whole, crate::proofs::Fronts::front_after))]
fn put_lone(
    alloc: Global,
    out: &mut Vec<u8>,
    own: u16,
    patches: &[Patch],
) -> Result<Vec<Vec<u32>>, BodyFault>
    requires { AreWritten 0xFFFFFF 0 (map seen patches.now) }
    ensures ok { OnOk result (out.new.items ≡ out.old.items ++ flat_map (spelling written_layout) (map (lone_record own) (patches_stored_alone own (map seen patches.now)))) }
    ensures lists { IfOk result (λ lists. map (λ l. l.items) lists.items ≡ locations_by_form own (map seen patches.now)) }
    ensures err { OnErr result (IsFront out.old.items out.new.items) }
{
    let mut lists = no_locations(alloc)?;
    'patches: for patch in patches {
        match super_form(own, patch) {
            Some(form) => put_in(&mut lists, form, patch.at)?,
            None => put_record(out, &lone_record(own, patch))?,
        }
    }
    Ok(lists)
}

/// Appends the SUPER of a type with these locations, if there are any.
fn put_super(alloc: Global, out: &mut Vec<u8>, form: u8, locations: &[u32]) -> Result<(), BodyFault>
    requires rise { Rise 0 locations.now }
    requires fits { 1 ≤ length locations.now → IsRecord written_layout (Super form (pages_text locations.now)) }
    ensures ok { OnOk result (out.new.items ≡ out.old.items ++ flat_map (spelling written_layout) (super_of form locations.now)) }
    ensures err { OnErr result (out.new.items ≡ out.old.items) }
{
    if locations.is_empty() {
        return Ok(());
    }
    let bytes = pages(alloc, locations)?;
    let rec = Rec::Super {
        form,
        bytes: &bytes,
    };
    put_record(out, &rec)?;
    Ok(())
}

/// Appends the SUPERs of all types in order, with the locations of these patches.
#[tactic(auto, using(crate::proofs::Fronts::front_whole, crate::proofs::Fronts::front_after))]
fn put_supers(
    alloc: Global,
    out: &mut Vec<u8>,
    own: u16,
    patches: &[Patch],
    lists: &[Vec<u32>],
) -> Result<(), BodyFault>
    requires patches { AreWritten 0xFFFFFF 0 (map seen patches.now) }
    requires lists { map (λ l. l.items) lists.now ≡ locations_by_form own (map seen patches.now) }
    ensures ok { OnOk result (out.new.items ≡ out.old.items ++ flat_map (spelling written_layout) (supers_from own (map seen patches.now) 0 38)) }
    ensures err { OnErr result (IsFront out.old.items out.new.items) }
{
    let mut form = 0u8;
    'forms: while form < 38 {
        let locations = &lists[usize::from(form)];
        put_super(alloc, out, form, locations)?;
        form += 1;
    }
    Ok(())
}

/// Appends the data and the records of the patches, and returns how many zero bytes are after the data in memory. When out of memory, part
/// of them may be appended.
#[tactic(auto, using(crate::proofs::Fronts::front_whole, crate::proofs::Fronts::front_after), unfolding(load_meaning::specs::WrittenBody::body_text, load_meaning::specs::WrittenBody::body_records))]
fn put_parts(
    alloc: Global,
    out: &mut Vec<u8>,
    own: u16,
    content: &[u8],
    patches: &[Patch],
) -> Result<u32, BodyFault>
    requires small { length content.now ≤ 0xFFFFFF }
    requires patches { AreWritten (length content.now) 0 (map seen patches.now) }
    ensures bytes { OnOk result (out.new.items ≡ out.old.items ++ body_text own content.now (map seen patches.now)) }
    ensures zeros { IfOk result (λ zeros. zeros ≡ zeros_after (written_cells content.now (map seen patches.now))) }
    ensures err { OnErr result (IsFront out.old.items out.new.items) }
{
    let size = put_data(out, own, content, patches)?;
    let lists = put_lone(alloc, out, own, patches)?;
    put_supers(alloc, out, own, patches, lists.as_slice())?;
    Ok((content.len() - size) as u32)
}

/// Appends the body, without END, of the load segment with this number whose cells are the content with the patches over it, and returns
/// how many zero bytes are after its data in memory: RESSPC. One LCONST holds the content up to the last cell that isn't a byte 0, with the
/// low bytes of each patch's offset over it. The patches follow it, each in the shortest record that can hold it, and all those of one type
/// of SUPER in one (GS/OS Reference, appendix F). When out of memory, nothing is appended.
///
/// `content` has at most $FFFFFF bytes. The patches rise, don't overlap and lie inside the content.
#[tactic(auto, using(crate::proofs::Fronts::front_left))]
pub fn put_body(
    alloc: Global,
    out: &mut Vec<u8>,
    own: u16,
    content: &[u8],
    patches: &[Patch],
) -> Result<u32, BodyFault>
    requires small { length content.now ≤ 0xFFFFFF }
    requires patches { AreWritten (length content.now) 0 (map seen patches.now) }
    ensures bytes { OnOk result (out.new.items ≡ out.old.items ++ body_text own content.now (map seen patches.now)) }
    ensures zeros { IfOk result (λ zeros. zeros ≡ zeros_after (written_cells content.now (map seen patches.now))) }
    ensures err { OnErr result (out.new.items ≡ out.old.items) }
{
    let start = out.len();
    match put_parts(alloc, out, own, content, patches) {
        Ok(zeros) => Ok(zeros),
        Err(fault) => {
            out.truncate(start);
            Err(fault)
        }
    }
}

/// The body, without END, of the load segment with this number, as `put_body` appends it.
///
/// `content` has at most $FFFFFF bytes. The patches rise, don't overlap and lie inside the content.
pub fn body_of(
    alloc: Global,
    own: u16,
    content: &[u8],
    patches: &Vec<Patch>,
) -> Result<Body, BodyFault>
    requires small { length content.now ≤ 0xFFFFFF }
    requires patches { AreWritten (length content.now) 0 (map seen patches.now.items) }
    ensures bytes { IfOk result (λ body. body.bytes.items ≡ body_text own content.now (map seen patches.now.items)) }
    ensures zeros { IfOk result (λ body. body.zeros ≡ zeros_after (written_cells content.now (map seen patches.now.items))) }
{
    let mut bytes = Vec::new(alloc);
    let zeros = put_body(alloc, &mut bytes, own, content, patches.as_slice())?;
    Ok(Body { bytes, zeros })
}

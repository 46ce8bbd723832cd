//! Load segments: which members one has, where in it each lies, and its header's fields.

ghost use Rattle.std.specs.Prelude.{◌≡◌, ◌+◌, ◌<◌, ◌≤◌, ◌^◌, ◌/◌, ◌*◌, ◌%◌, ◌++◌, ◌∷◌, [], List, ℕ, Some, None, map, false, slice_get, min, length, MatchOption, OnOk, IfOk};
ghost use Rattle.omf_records.specs.Segments.{IsSound, IsPlaced, placed_view, segment_of_view};
ghost use Rattle.omf_header.specs.View.{fields};
ghost use Rattle.link_meaning.specs.First.{HasNone, IsFirst};
ghost use Rattle.link_meaning.specs.Member.{Member, form_in};
ghost use Rattle.link_meaning.specs.Layout.{load_segment_kind, load_headers, load_names};
ghost use Rattle.link_meaning.specs.laws.Steps.{aligned_from, lesser_bank};
ghost use Rattle.link_meaning.specs.LinkFaults.{HasLayoutFault};
ghost use Rattle.link_tables.specs.Definitions.{IsOf};
ghost use Rattle.link_tables.specs.Laid.{Laid, IsFresh, IsJoined, IsAt, IsSpotOf, conflict_with, contains_text, is_long, is_other, AllShort, IsFirstLong, AllDynamic, IsFirstOther, layout_checks, ShowsLoad, AreHeaders};

use crate::definitions::Origin;
use crate::names::{Key, Matches, NameTable};
use crate::segname::load_name;
use link_meaning::{LinkCause, LinkFault, LinkForm, SearchStep};
use omf_base::{Name, Spot, without_trailing};
use omf_header::{Header, Kind};
use omf_records::SegmentView;
use std::alloc::{AllocError, Global};

/// One more than the most bytes of a load segment: greater ends are distinguished from lesser ones, and not from each other.
const TOO_LONG: u32 = 0x0100_0000;

/// The most load segments.
const MOST_LOADS: usize = 254;

/// A load segment so far.
#[derive(Clone, Copy)]
pub struct LoadLayout {
    /// Where the first member starts.
    first: Spot,
    load_name: [u8; 10],
    kind: Kind,
    org: u32,
    entry: u32,
    align: u32,
    bank_size: u32,
    /// Where the last member ends, or `TOO_LONG`.
    length: u32,
}

/// The place of a member: its load segment, from 0, and its offset there.
#[derive(Clone, Copy)]
pub struct LoadOffset {
    pub load: usize,
    pub offset: u64,
}

/// The load segments of the members so far.
#[derive(Drop)]
pub struct LinkLayout<'a> {
    names: NameTable<'a>,
    pub loads: Vec<LoadLayout>,
    pub places: Vec<LoadOffset>,
    /// Where the first member starts that asks for an address after another one of its load segment.
    conflict: Option<Spot>,
}

/// The lesser of two that aren't 0.
fn lesser_bank(a: u32, b: u32) -> u32
    ensures { result ≡ lesser_bank a b }
{
    if a == 0 {
        b
    } else if b == 0 {
        a
    } else {
        a.min(b)
    }
}

/// The kind of a load segment: bits 5 to 7 say nothing.
fn load_segment_kind(kind: Kind) -> Kind
    ensures { result.bits ≡ load_segment_kind kind.bits }
{
    Kind {
        bits: kind.bits / 256 * 256 + kind.bits % 32,
    }
}

/// The least multiple of an alignment at or after an end.
fn align_up(end: u32, align: u32) -> u64
    requires some { 0 < align }
    requires small { align ≤ 2 ^ 16 }
    ensures value { result ≡ aligned_from align end }
    ensures fits { result < 2 ^ 33 }
{
    u64::from(end).next_multiple_of(u64::from(align))
}

/// The end of a member, or `TOO_LONG` where it is greater.
fn end_of(offset: u64, length: u32) -> u32
    requires { offset < 2 ^ 33 }
    ensures { result ≡ min (offset + length) 16777216 }
{
    (offset + u64::from(length)).min(u64::from(TOO_LONG)) as u32
}

/// Where the first conflict is: the one so far, or that of a member that asks for an address after another one.
fn conflict_with(so_far: Option<Spot>, org: u32, spot: Spot) -> Option<Spot>
    ensures { result ≡ conflict_with so_far org spot }
{
    match so_far {
        Some(first) => Some(first),
        None => { if org == 0 { None } else { Some(spot) } }
    }
}

/// A load segment of one member.
fn load_of_member(header: &Header, spot: Spot) -> LoadLayout
    ensures { IsFresh (fields header.now) spot result }
{
    LoadLayout {
        first: spot,
        load_name: header.load_name,
        kind: load_segment_kind(header.kind),
        org: header.org,
        entry: header.entry,
        align: header.align,
        bank_size: header.bank_size,
        length: end_of(0, header.length),
    }
}

/// A load segment with one more member at this offset.
fn load_with_member(load: LoadLayout, header: &Header, offset: u64) -> LoadLayout
    requires { offset < 2 ^ 33 }
    ensures { IsJoined (fields header.now) offset load result }
{
    LoadLayout {
        align: load.align.max(header.align),
        bank_size: lesser_bank(load.bank_size, header.bank_size),
        length: end_of(offset, header.length),
        ..load
    }
}

/// More bytes than BANKSIZE lets it have, or than any load segment has.
fn is_long(load: &LoadLayout) -> bool
    ensures { result ≡ is_long load.now }
{
    load.length == TOO_LONG || (load.bank_size != 0 && load.bank_size < load.length)
}

/// It isn't dynamic, or is skipped, as no load segment of a run-time library file may be.
fn is_other(load: &LoadLayout) -> bool
    ensures { result ≡ is_other load.now }
{
    !(load.kind.is_dynamic() && !load.kind.is_skip())
}

impl<'a> LinkLayout<'a> {
    /// A layout without members.
    pub fn new(alloc: Global) -> LinkLayout<'a>
        ensures { Laid [] result }
    {
        LinkLayout {
            names: NameTable::new(alloc),
            loads: Vec::new(alloc),
            places: Vec::new(alloc),
            conflict: None,
        }
    }

    /// A member that begins a load segment.
    fn open(
        &mut self,
        segment: &SegmentView<'a>,
        name: &'a [u8],
        spot: Spot,
    ) -> Result<(), AllocError>
        ensures { OnOk result ((list : List Member) (m : Member) → IsAt m (segment_of_view segment.now) spot → name.now ≡ m.segment.fields.load_name
            → contains_text name.now (load_names list) ≡ false → Laid list self.old → Laid (list ++ m ∷ []) self.new) }
    {
        let load = self.loads.as_slice().len();
        let key = Key {
            step: SearchStep::Everyone,
            name,
        };
        self.names.add(key, load)?;
        self.loads.push(load_of_member(&segment.header, spot))?;
        self.places.push(LoadOffset { load, offset: 0 })?;
        Ok(())
    }

    /// One more member of a load segment.
    fn join(&mut self, header: &Header, load: usize, spot: Spot) -> Result<(), AllocError>
        requires { load < length self.old.loads.items }
        ensures { OnOk result ((list : List Member) (m : Member) → IsSpotOf m spot → m.segment.fields ≡ fields header.now
            → slice_get (load_names list) load ≡ Some m.segment.fields.load_name → Laid list self.old → Laid (list ++ m ∷ []) self.new) }
    {
        let old = self.loads[load];
        let offset = align_up(old.length, header.alignment());
        self.conflict = conflict_with(self.conflict, header.org, spot);
        self.places.push(LoadOffset { load, offset })?;
        self.loads[load] = load_with_member(old, header, offset);
        Ok(())
    }

    /// Adds a member after the others.
    pub fn add(&mut self, segment: &SegmentView<'a>, origin: Origin) -> Result<(), AllocError>
        requires placed { IsPlaced (placed_view segment.now) }
        requires laid { (list : List Member) × Laid list self.old }
        ensures { OnOk result ((list : List Member) (m : Member) → IsOf m origin → m.segment ≡ segment_of_view segment.now → Laid list self.old → Laid (list ++ m ∷ []) self.new) }
    {
        let name = load_name(segment);
        let spot = Spot {
            file: origin.file,
            segment: origin.segment,
            at: segment.start,
        };
        let key = Key {
            step: SearchStep::Everyone,
            name,
        };
        match self.names.look(key) {
            Matches::Nothing => self.open(segment, name, spot),
            Matches::One(load) => self.join(&segment.header, load, spot),
            Matches::Several(load) => self.join(&segment.header, load, spot),
        }
    }

    /// The first load segment that is too long.
    fn too_long(&self) -> Option<Spot>
        ensures { MatchOption result (AllShort self.now.loads.items) (λ spot. IsFirstLong self.now.loads.items spot) }
    {
        'loads: for load in &self.loads {
            if is_long(load) {
                return Some(load.first);
            }
        }
        None
    }

    /// The first load segment that may not be in a run-time library file: it isn't dynamic, or is skipped.
    fn not_dynamic(&self) -> Option<Spot>
        ensures { MatchOption result (AllDynamic self.now.loads.items) (λ spot. IsFirstOther self.now.loads.items spot) }
    {
        'loads: for load in &self.loads {
            if is_other(load) {
                return Some(load.first);
            }
        }
        None
    }

    /// What is wrong with the load segments of what is to be linked: a later member's address, their number, their lengths, or, of a
    /// run-time library file, their kinds.
    pub fn fault(&self, form: LinkForm) -> Option<LinkFault>
        ensures reported { (list : List Member) → form_in list ≡ form → Laid list self.now → MatchOption result
            (HasNone (HasLayoutFault list) layout_checks) (λ fault. IsFirst (HasLayoutFault list) layout_checks fault) }
        ensures fine { result ≡ None → (length self.now.loads.items ≤ 254) × AllShort self.now.loads.items }
    {
        match self.conflict {
            Some(spot) => return Some(fault_at(LinkCause::OrgConflict, spot)),
            None => {}
        }
        match self.loads.as_slice().get(MOST_LOADS) {
            Some(load) => return Some(fault_at(LinkCause::TooManySegments, load.first)),
            None => {}
        }
        match self.too_long() {
            Some(spot) => return Some(fault_at(LinkCause::SegmentTooLong, spot)),
            None => {}
        }
        match form {
            LinkForm::Program => None,
            LinkForm::Runtime => match self.not_dynamic() {
                Some(spot) => Some(fault_at(LinkCause::NotDynamic, spot)),
                None => None,
            },
        }
    }
}

/// A fault of a load segment.
fn fault_at(cause: LinkCause, spot: Spot) -> LinkFault
    ensures { result ≡ record { cause = cause; name = None; spot = spot } }
{
    LinkFault {
        cause,
        name: None,
        spot,
    }
}

/// The header of a load segment with this number.
fn header_of(alloc: Global, load: &LoadLayout, number: u16) -> Result<Header, AllocError>
    ensures { IfOk result (λ header. ShowsLoad load.now number (fields header)) }
{
    let name = Name::from_vec(Vec::from_slice(alloc, without_trailing(&load.load_name, 0x20))?);
    Ok(Header {
        byte_count: 0,
        res_spc: 0,
        length: load.length,
        lab_len: 0,
        version: 2,
        bank_size: load.bank_size,
        kind: load.kind,
        org: load.org,
        align: load.align,
        seg_num: number,
        entry: load.entry,
        disp_name: 0,
        disp_data: 0,
        load_name: load.load_name,
        name,
    })
}

/// The headers of the load segments, in order of number.
pub fn headers(alloc: Global, layout: &LinkLayout) -> Result<Vec<Header>, AllocError>
    requires { length layout.now.loads.items < 2 ^ 16 }
    ensures { IfOk result (λ headers. AreHeaders 1 layout.now.loads.items (map (λ header. fields header) headers.items)) }
{
    let mut headers = Vec::with_capacity(alloc, layout.loads.len())?;
    let mut number = 0;
    'loads: for load in &layout.loads {
        number += 1;
        headers.push(header_of(alloc, load, number)?)?;
    }
    Ok(headers)
}

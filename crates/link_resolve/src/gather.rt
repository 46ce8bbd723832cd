//! What is gathered of all inputs: their segments, the segments of the object files as members, and the rows of the libraries.

ghost use Rattle.std.specs.Prelude.{◌≡◌, ◌+◌, ◌*◌, ◌<◌, ◌≤◌, ◌^◌, ◌++◌, ◌∷◌, [], List, ℕ, Bool, true, None, length, IfOk, IfErr, OnOk};
ghost use Rattle.omf_format.specs.Header.{form_of};
ghost use Rattle.omf_format.specs.File.{IsFile};
ghost use Rattle.lib_dict.specs.Rows.{AreReadFrom};
ghost use Rattle.lib_dict.specs.Library.{HasRows};
ghost use Rattle.link_meaning.specs.Member.{Input, LinkSetting, Member, is_library, members_from};
ghost use Rattle.link_meaning.specs.LinkFaults.{segments_fault, IsInput, AreInputs};
ghost use Rattle.link_resolve.specs.Reading.{IsFileRefused};
ghost use Rattle.link_program.specs.Linked.{Holds};
ghost use Rattle.link_tables.specs.Offers.{AreOffers};
ghost use Rattle.link_program.specs.Inputs.{AllStand, IsSoundInput};
ghost use Rattle.link_resolve.specs.Gathered.{IsGathered, AreRows, AddsInput};

use crate::input::{fault_in, read_segments};
use crate::library::add_rows;
use lib_dict::{DictFault, Dictionary, dictionary_of_list, rows_are_laid_out};
use link_meaning::{LinkCause, LinkFault};
use link_program::{Linked, Offers, Origin, length_of, memory_fault};
use omf_records::{SegmentList, SegmentView};
use std::alloc::{AllocError, Global};

/// The inputs as they were read, in order.
#[derive(Drop)]
pub struct Gathered<'a> {
    pub files: Vec<SegmentList<'a>>,
    /// The list so far: the segments of the object files.
    pub linked: Linked<'a>,
    pub offers: Offers<'a>,
}

/// A file whose first segment is a dictionary is a library.
fn is_library(list: &SegmentList) -> bool
    ensures { result ≡ is_library list.now }
{
    match list.get(1) {
        Some(segment) => segment.header.kind.form() == 0x08,
        None => false,
    }
}

/// Adds the segments of the object file with this number.
fn add_object<'a>(
    alloc: Global,
    linked: &mut Linked<'a>,
    list: &SegmentList<'a>,
    file: u32,
) -> Result<(), AllocError>
    requires few { length linked.old.members.items + length list.now < 2 ^ 32 }
    requires sound { segments_fault 1 list.now ≡ None }
    ensures { OnOk result ((setting : LinkSetting) (before : List Member) → Holds before linked.old → Holds (before ++ members_from setting file 1 list.now) linked.new) }
{
    let mut number = 0;
    'segments: while number < list.count() {
        number += 1;
        let segment = match list.get(number) {
            Some(segment) => segment,
            None => unreachable!(),
        };
        let origin = Origin {
            file,
            segment: number,
            from: 0,
        };
        let _length = length_of(segment);
        linked.add(alloc, segment, origin)?;
    }
    Ok(())
}

/// The dictionary of the library with this number.
fn dictionary_of<'a>(
    alloc: Global,
    list: &SegmentList<'a>,
    file: u32,
) -> Result<Dictionary<'a>, LinkFault>
    requires read { (bytes : List ℕ) × AreReadFrom list.now bytes }
    requires sound { segments_fault 1 list.now ≡ None }
    requires library { is_library list.now ≡ true }
    ensures rows { IfOk result (λ dictionary. AreRows list.now dictionary) }
    ensures few { IfOk result (λ dictionary. (bytes : List ℕ) → AreReadFrom list.now bytes → 12 * length dictionary ≤ length bytes) }
    ensures refused { IfErr result (λ fault. (bytes : List ℕ) → AreReadFrom list.now bytes → IsFileRefused file bytes fault) }
{
    rows_are_laid_out();
    match dictionary_of_list(alloc, list) {
        Ok(dictionary) => Ok(dictionary),
        Err(DictFault::BadLibrary(at)) => Err(fault_in(file, 1, at, LinkCause::BadLibrary)),
        Err(DictFault::Memory) => Err(memory_fault()),
        Err(DictFault::File(_)) => unreachable!(),
        Err(DictFault::NotLibrary) => unreachable!(),
    }
}

impl<'a> Gathered<'a> {
    /// Nothing, before any input is read.
    pub fn new(alloc: Global) -> Gathered<'a>
        ensures { IsGathered [] result }
    {
        Gathered {
            files: Vec::new(alloc),
            linked: Linked::new(alloc),
            offers: Offers::new(alloc),
        }
    }

    /// Adds what is linked or offered of a file with this number that was read.
    fn add_segments(
        &mut self,
        alloc: Global,
        list: &SegmentList<'a>,
        file: u32,
    ) -> Result<(), LinkFault>
        requires few { length self.old.linked.members.items + length list.now < 2 ^ 32 }
        requires read { (bytes : List ℕ) × AreReadFrom list.now bytes }
        requires sound { segments_fault 1 list.now ≡ None }
        ensures files { self.new.files ≡ self.old.files }
        ensures added { OnOk result ((bytes : List ℕ) → AreReadFrom list.now bytes
            → (input : Input) × IsInput bytes input × (input.segments ≡ list.now) × IsSoundInput input × (12 * length input.rows ≤ length bytes) × AddsInput file input self.old self.new) }
        ensures refused { IfErr result (λ fault. (bytes : List ℕ) → AreReadFrom list.now bytes → IsFileRefused file bytes fault) }
    {
        if !is_library(list) {
            return match add_object(alloc, &mut self.linked, list, file) {
                Ok(()) => Ok(()),
                Err(_) => Err(memory_fault()),
            };
        }
        let dictionary = dictionary_of(alloc, list, file)?;
        match add_rows(&mut self.offers, list, &dictionary, file) {
            Ok(()) => Ok(()),
            Err(_) => Err(memory_fault()),
        }
    }

    /// Reads the next file.
    pub fn add(&mut self, alloc: Global, bytes: &'a [u8]) -> Result<(), LinkFault>
        requires short { length bytes.now + length self.old.linked.members.items < 2 ^ 32 }
        requires few { length self.old.files.items + 1 < 2 ^ 32 }
        ensures added { OnOk result ((inputs : List Input) → IsGathered inputs self.old
            → (input : Input) × IsInput bytes.now input × (12 * length input.rows ≤ length bytes.now) × IsGathered (inputs ++ input ∷ []) self.new) }
        ensures refused { IfErr result (λ fault. IsFileRefused (length self.old.files.items + 1) bytes.now fault) }
    {
        let file = self.files.as_slice().len() as u32 + 1;
        let list = read_segments(alloc, bytes, file)?;
        self.add_segments(alloc, &list, file)?;
        match self.files.push(list) {
            Ok(()) => Ok(()),
            Err(_) => Err(memory_fault()),
        }
    }
}

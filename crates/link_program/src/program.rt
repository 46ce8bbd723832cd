//! A resolved program: the linked list, what its names find, and its load segments.

ghost use Rattle.std.specs.Prelude.{◌≡◌, ◌-◌, List, ℕ, None, Some, length, option_map, slice_get, IfSome, IsNone};
ghost use Rattle.link_meaning.specs.Member.{setting_in, form_in};
ghost use Rattle.omf_header.specs.View.{fields};
ghost use Rattle.omf_records.specs.Segments.{IsSound, segment_of_view};
ghost use Rattle.link_meaning.specs.Member as meaning;
ghost use Rattle.link_meaning.specs.Search.{finds};
ghost use Rattle.link_meaning.specs.Layout.{load_headers};
ghost use Rattle.link_program.specs.Outside.{all_found};
ghost use Rattle.link_program.specs.Linked.{member_at};
ghost use Rattle.link_program.specs.Resolving.{first_found};
ghost use Rattle.link_meaning.specs.First.{IsIn};
ghost use Rattle.link_meaning.specs.Uses.{Use, uses_of};
ghost use Rattle.link_meaning.specs.LinkFaults.{LinkInput, IsResolved};
ghost use Rattle.link_program.specs.Programs.{IsKept, linked_at, header_at, symbol_of, symbol_view, FindsOnly, StandsInInput};
ghost use Rattle.omf_format.specs.declared.codes.TheConstants.{DIRECTIVE_LABEL};

use crate::files::segment_in;
use crate::linked::Linked;
use crate::outside::{Far, OutsideNames};
use lib_dict::{Member, rows_are_laid_out};
use link_meaning::LinkForm;
use link_tables::{Defined, LoadOffset};
use omf_base::Name;
use omf_cells::LoadFile;
use omf_format::DIRECTIVE_LABEL;
use omf_header::Header;
use omf_records::{SegmentList, SegmentView};
use std::marker::Model;

/// A member of the linked list: its file and its segment there, and its load segment and offset there. All but the offset count
/// from 1.
#[derive(Clone, Copy, Debug, PartialEq, Eq)]
pub struct LinkMember {
    pub file: u32,
    pub segment: u32,
    pub load_segment: u16,
    pub offset: u32,
}

/// What a name means: a definition of a member of the linked list, or a place in a run-time library file.
#[derive(Clone, Copy, Debug, PartialEq, Eq)]
pub struct Definition<'a> {
    /// The member's place in the linked list, from 1; 0 for a name of a run-time library file.
    pub member: u32,
    /// The number of the file in values: 1 is the linked file itself, and the run-time library files count from 2.
    pub file: u16,
    /// The number of the segment there, from 1: of a member that of its load segment.
    pub segment: u16,
    /// How many cells of the member are before the definition's record, 0 for a SEGNAME; in a run-time library file the offset.
    pub at: u32,
    /// The expression of GEQU and EQU, the $00 at its end included.
    pub expr: Option<&'a [u8]>,
    /// The length attribute.
    pub length: u16,
    /// The type attribute.
    pub form: u8,
}

/// What a program is made of.
#[derive(Drop)]
pub struct ResolvedProgram<'a> {
    pub files: Vec<SegmentList<'a>>,
    pub linked: Linked<'a>,
    pub places: Vec<LoadOffset>,
    pub headers: Vec<Header>,
    pub form: LinkForm,
    /// The run-time library files as they were given and as they were read.
    pub given: &'a [Member],
    pub runtimes: Vec<LoadFile<'a>>,
    pub outside: OutsideNames<'a>,
}

/// The files of a program, resolved. Contracts see the linked list.
#[derive(Drop)]
pub struct Program<'a> {
    pub(crate) kept: ResolvedProgram<'a>,
}

impl<'a> Model for Program<'a> {
    ghost use Rattle.std.specs.Prelude.{List};
    ghost use Rattle.link_meaning.specs.Member.{Member};
    ghost use Rattle.link_program.specs.Programs.{list_of, IsKept};

    ghost Value = { List Member };

    ghost view = { λ program. list_of program.kept };

    ghost invariant = { λ program. IsKept (list_of program.kept) program.kept };
}

/// A definition of a member in the load segment with this number.
fn definition_of(defined: Defined, load_segment: u16) -> Definition
    ensures { result ≡ record {
      member = defined.entry.member;
      file = 1;
      segment = load_segment;
      at = defined.entry.at;
      expr = defined.entry.expr;
      length = defined.entry.length;
      form = defined.entry.form;
    } }
{
    Definition {
        member: defined.member,
        file: 1,
        segment: load_segment,
        at: defined.at,
        expr: defined.expr,
        length: defined.length,
        form: defined.form,
    }
}

/// A name that means a place in a run-time library file.
fn definition_at<'a>(far: Far) -> Definition<'a>
    ensures { result ≡ record {
      member = 0;
      file = far.file;
      segment = far.segment;
      at = far.offset;
      expr = None;
      length = 0;
      form = DIRECTIVE_LABEL;
    } }
{
    Definition {
        member: 0,
        file: far.file,
        segment: far.segment,
        at: far.offset,
        expr: None,
        length: 0,
        form: DIRECTIVE_LABEL,
    }
}

impl<'a> Program<'a> {
    /// The program of what is kept of a list of resolved files.
    pub fn of(kept: ResolvedProgram<'a>) -> Program<'a>
        requires { (list : List meaning.Member) × IsKept list kept }
        ensures { (list : List meaning.Member) → IsKept list kept.entry → result ≡ list }
    {
        Program { kept }
    }

    /// How many members there are.
    pub fn members(&self) -> u32
        ensures { result ≡ length self.now }
    {
        self.kept.linked.count()
    }

    /// The member at a place of the list, from 1.
    pub fn member(&self, place: u32) -> Option<LinkMember>
        ensures { result ≡ linked_at self.now place }
    {
        let origin = match self.kept.linked.origin(place) {
            Some(origin) => origin,
            None => return None,
        };
        let stands = self.kept.places[place as usize - 1];
        Some(LinkMember {
            file: origin.file,
            segment: origin.segment,
            load_segment: (stands.load + 1) as u16,
            offset: stands.offset as u32,
        })
    }

    /// The segment of the member at a place of the list, from 1.
    pub fn view(&self, place: u32) -> Option<&SegmentView<'a>>
        ensures value { option_map (λ view. segment_of_view view.now) result ≡ option_map (λ m. m.segment) (member_at self.now place) }
        ensures sound { IfSome result (λ view. IsSound view.now) }
        // Whatever files this is the list of, it is the segment with the member's number of the input with the member's file number.
        ensures input { IfSome result (λ view. (given : LinkInput) (m : meaning.Member) → IsResolved given self.now → member_at self.now place ≡ Some m
            → StandsInInput given.inputs m.file m.number (segment_of_view view.now)) }
    {
        rows_are_laid_out();
        match self.kept.linked.origin(place) {
            Some(origin) => segment_in(self.kept.files.as_slice(), origin.file, origin.segment),
            None => None,
        }
    }

    /// What is linked.
    pub fn form(&self) -> LinkForm
        ensures { result ≡ form_in self.now }
    {
        self.kept.form
    }

    /// How many run-time library files the program is linked with.
    pub fn runtimes(&self) -> u32
        ensures { result ≡ length (setting_in self.now).runtimes }
    {
        self.kept.runtimes.len() as u32
    }

    /// The run-time library file at a place, from 0, as it was read: that of the number `place` + 2 in values.
    pub fn runtime(&self, place: u32) -> Option<&LoadFile<'a>>
        ensures { option_map (λ load. load.now) result ≡ option_map (λ r. r.segments) (slice_get (setting_in self.now).runtimes place) }
    {
        match self.kept.runtimes.get(place as usize) {
            Some(load) => Some(load),
            None => None,
        }
    }

    /// The path by which the run-time library file at a place, from 0, is known.
    pub fn runtime_path(&self, place: u32) -> Option<&'a Name>
        ensures { option_map (λ name. name.now) result ≡ option_map (λ r. r.path) (slice_get (setting_in self.now).runtimes place) }
    {
        if place as usize >= self.kept.runtimes.len() {
            return None;
        }
        match self.kept.given.get(place as usize) {
            Some(member) => Some(&member.name),
            None => None,
        }
    }

    /// What a name first finds in the member at a place, from 1, used there or not.
    pub fn symbol(&self, place: u32, name: &[u8]) -> Option<Definition<'a>>
        ensures found { (m : meaning.Member) → member_at self.now place ≡ Some m
            → option_map symbol_of result ≡ option_map (symbol_view self.now) (first_found (finds self.now place m name.now)) }
        ensures outside { member_at self.now place ≡ None → IsNone result }
        // A name that an expression or STRONG of the member uses finds nothing else.
        ensures only { (m : meaning.Member) (u : Use) → member_at self.now place ≡ Some m → IsIn (uses_of m.segment) u → u.name ≡ name.now
            → FindsOnly u.want (finds self.now place m name.now) }
    {
        match self.kept.linked.first(&self.kept.outside, place, name) {
            Some(number) => self.definition(number),
            None => None,
        }
    }

    /// What has a number, from 0: the definitions of all members in list and record order, and then the names of the run-time library
    /// files in file, segment and record order.
    pub fn definition(&self, number: usize) -> Option<Definition<'a>>
        ensures { option_map symbol_of result ≡ option_map (symbol_view self.now) (slice_get (all_found self.now) number) }
    {
        let count = self.kept.linked.definition_count();
        if number < count {
            let defined = match self.kept.linked.definition(number) {
                Some(defined) => defined,
                None => unreachable!(),
            };
            let member = match self.member(defined.member) {
                Some(member) => member,
                None => unreachable!(),
            };
            return Some(definition_of(defined, member.load_segment));
        }
        match self.kept.outside.get(number - count) {
            Some(far) => Some(definition_at(far)),
            None => None,
        }
    }

    /// How many load segments there are.
    pub fn load_count(&self) -> u32
        ensures { result ≡ length (load_headers self.now) }
    {
        self.kept.headers.len() as u32
    }

    /// The header of the load segment with a number, from 1.
    pub fn load_header(&self, segment: u32) -> Option<&Header>
        ensures { option_map (λ header. fields header.now) result ≡ header_at (load_headers self.now) segment }
    {
        if segment == 0 {
            return None;
        }
        match self.kept.headers.get(segment as usize - 1) {
            Some(header) => Some(header),
            None => None,
        }
    }
}

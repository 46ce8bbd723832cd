//! Which segments can be listed by their headers, and the lines before those of their records.

ghost use Rattle.std.specs.Prelude.{◌≡◌, ◌==◌, ◌&&◌, ◌||◌, ◌+◌, ◌≤◌, ℕ, not, false, true, nat_le, length, drop, bytes_eq, ◌∷◌, [], ◌++◌, ◌<◌, ◌^◌, OnOk, IsErrOf, MatchOption};
ghost use Rattle.std.specs.List.{list_all, position_or_len};
ghost use Rattle.omf_format.specs.Ascii as ascii;
ghost use Rattle.omf_format.specs.Reading.{records_of, IsBody};
ghost use Rattle.object_meaning.specs.Sizes.{size_at, place_after, body_size};
ghost use Rattle.omf_header.specs.View.{fields};
ghost use Rattle.omf_records.specs.View.{view};
ghost use Rattle.omf_records.specs.Segments.{IsSound, segment_of_view};
ghost use Rattle.asm_meaning.specs.declared.directives.Switch.TheVariants.{LongA, LongI};
ghost use Rattle.list_meaning.specs.Listed.{NextAlignIs, NextOrg, StartIs, KindIs, SwitchIs};
ghost use Rattle.list_meaning.specs.Listing.{is_lost, has_listable_header, without_padding, is_listable_load_name, unless_zero, front_of, is_short, is_listable};
ghost use Rattle.list_meaning.specs.laws.Steps.{greatest_length, has_lost_place};
ghost use Rattle.w65_list.specs.FrontView.{can_align, has_listable_fields, has_listable_length, HaveCells, AreOver};
ghost use Rattle.list_lines.specs.LineView.{WroteAll};
ghost use Rattle.list_lines.specs.OutputView.{open_line};

use asm_meaning::Switch;
use list_lines::{
    LineStop, ListingText, first_bytes, is_listable, put_kind, put_next_align, put_next_org,
    put_start, put_switch,
};
use omf_base::padding;
use omf_header::Header;
use omf_records::{Rec, Records, SegmentView};

/// How many bytes are before the first space, or all.
fn name_size(text: &[u8]) -> usize
    ensures { result ≡ position_or_len (λ byte. byte == ascii.space) text.now }
{
    match text.iter().position(|&byte| byte == b' ') {
        Some(at) => at,
        None => text.len(),
    }
}

/// LOADNAME without the spaces after it.
fn trim_padding(load_name: &[u8]) -> &[u8]
    ensures { result.now ≡ without_padding load_name.now }
{
    first_bytes(load_name, name_size(load_name))
}

/// What follows a name.
fn padding_of(load_name: &[u8]) -> &[u8]
    ensures { result.now ≡ drop (position_or_len (λ byte. byte == ascii.space) load_name.now) load_name.now }
{
    &load_name[name_size(load_name).min(load_name.len())..]
}

/// Whether all bytes are spaces.
fn are_spaces(text: &[u8]) -> bool
    ensures { result ≡ list_all (λ byte. byte == ascii.space) text.now }
{
    text.iter().all(|&byte| byte == b' ')
}

/// Whether there is no name, or one that can be listed.
fn is_none_or_listable(name: &[u8]) -> bool
    ensures { result ≡ (bytes_eq name.now [] || is_listable name.now) }
{
    match name {
        [] => true,
        [_, ..] => is_listable(name),
    }
}

/// Whether LOADNAME is spaces, or a name that can be listed with spaces after it.
fn is_listable_load_name(load_name: &[u8]) -> bool
    ensures { result ≡ is_listable_load_name load_name.now }
{
    are_spaces(padding_of(load_name)) && is_none_or_listable(trim_padding(load_name))
}

/// Whether an ALIGN of the header can be listed.
fn can_align(align: u32) -> bool
    ensures { result ≡ can_align align }
{
    align == 0 || align.is_power_of_two() && align <= 0x10000
}

/// The greatest LENGTH of a segment.
fn greatest_length(bank_size: u32) -> u32
    ensures { result ≡ greatest_length bank_size }
{
    if bank_size == 0 { 0xFF_FFFF } else { 0x1_0000 }
}

/// How many cells a record gives that is at a place of its segment.
fn size_at(rec: &Rec, place: u32) -> u64
    ensures value { result ≡ size_at place (view rec.now) }
    ensures few { result < 2 ^ 63 }
{
    match rec {
        Rec::Const { bytes } | Rec::LongConst { bytes } => bytes.len() as u64,
        Rec::Align { n } => u64::from(padding(*n, place)),
        Rec::Org { n } | Rec::Space { n } => u64::from(*n),
        Rec::Formula { count, .. } => u64::from(*count),
        Rec::End
        | Rec::Reloc { .. }
        | Rec::InterSeg { .. }
        | Rec::ShortReloc { .. }
        | Rec::ShortInterSeg { .. }
        | Rec::Super { .. }
        | Rec::Using { .. }
        | Rec::Strong { .. }
        | Rec::Label { .. }
        | Rec::Equate { .. }
        | Rec::Entry { .. } => 0,
    }
}

/// Whether a record is an ALIGN of 0 away from place 0: no number of zeros meets it.
fn is_lost(rec: &Rec, place: u32) -> bool
    ensures { result ≡ is_lost place (view rec.now) }
{
    match rec {
        Rec::Align { n } => *n == 0 && place != 0,
        Rec::End
        | Rec::Const { .. }
        | Rec::LongConst { .. }
        | Rec::Org { .. }
        | Rec::Space { .. }
        | Rec::Reloc { .. }
        | Rec::InterSeg { .. }
        | Rec::ShortReloc { .. }
        | Rec::ShortInterSeg { .. }
        | Rec::Super { .. }
        | Rec::Using { .. }
        | Rec::Strong { .. }
        | Rec::Label { .. }
        | Rec::Equate { .. }
        | Rec::Formula { .. }
        | Rec::Entry { .. } => false,
    }
}

/// How many cells records give, or None where there are more than `most`, or a place is lost.
fn cells(records: Records, most: u32) -> Option<u32>
    requires { IsBody records }
    ensures { MatchOption result (AreOver most (records_of records.entry)) (λ n. HaveCells n (records_of records.entry)) }
{
    let mut records = records;
    let mut place = 0;
    'records: loop {
        match records.next() {
            Ok(None) => return Some(place),
            Ok(Some((_, rec))) => {
                if is_lost(&rec, place) {
                    return None;
                }
                let following = u64::from(place) + size_at(&rec, place);
                if following > u64::from(most) {
                    return None;
                }
                place = following as u32;
            }
            Err(_) => unreachable!(),
        }
    }
}

/// Whether LENGTH is the number of cells, RESSPC among them, and isn't too great.
fn has_listable_length(view: &SegmentView) -> bool
    requires { IsSound view.now }
    ensures { result ≡ has_listable_length (segment_of_view view.now) }
{
    let header = &view.header;
    if header.length > greatest_length(header.bank_size) {
        return false;
    }
    if header.res_spc > header.length {
        return false;
    }
    let size = header.length - header.res_spc;
    match cells(view.records(), size) {
        Some(found) => found == size,
        None => false,
    }
}

/// Whether the type, the names, BANKSIZE, ALIGN and ENTRY can be listed.
fn has_listable_fields(header: &Header) -> bool
    ensures { result ≡ has_listable_fields (fields header.now) }
{
    matches!(header.kind.form(), 0x00 | 0x01 | 0x10 | 0x12)
        && is_listable(header.name.bytes())
        && is_listable_load_name(&header.load_name)
        && (header.bank_size == 0 || header.bank_size == 0x10000)
        && can_align(header.align)
        && header.entry == 0
}

/// The lines before START.
#[tactic(auto, using(list_lines::proofs::Written::wrote_one, list_lines::proofs::Written::wrote_none, list_lines::proofs::Written::wrote_both, list_lines::proofs::Written::long_one, list_lines::proofs::Written::long_first, list_lines::proofs::Written::long_second))]
fn put_align(out: &mut ListingText, align: u32) -> Result<(), LineStop>
    requires { open_line out.old ≡ [] }
    ensures wrote { OnOk result (WroteAll (unless_zero NextAlignIs align) out.old out.new) }
    ensures long { IsErrOf result LineStop.NotListable → list_all is_short (unless_zero NextAlignIs align) ≡ false }
{
    if align == 0 {
        return Ok(());
    }
    put_next_align(out, align)
}

/// The lines before START.
#[tactic(auto, using(list_lines::proofs::Written::wrote_one, list_lines::proofs::Written::wrote_none, list_lines::proofs::Written::wrote_both, list_lines::proofs::Written::long_one, list_lines::proofs::Written::long_first, list_lines::proofs::Written::long_second))]
fn put_org(out: &mut ListingText, org: u32) -> Result<(), LineStop>
    requires { open_line out.old ≡ [] }
    ensures wrote { OnOk result (WroteAll (unless_zero NextOrg org) out.old out.new) }
    ensures long { IsErrOf result LineStop.NotListable → list_all is_short (unless_zero NextOrg org) ≡ false }
{
    if org == 0 {
        return Ok(());
    }
    put_next_org(out, org)
}

/// START or DATA, and KIND.
#[tactic(auto, using(list_lines::proofs::Written::wrote_two, list_lines::proofs::Written::long_front, list_lines::proofs::Written::long_after))]
fn put_begin(out: &mut ListingText, header: &Header) -> Result<(), LineStop>
    requires { open_line out.old ≡ [] }
    ensures wrote { OnOk result (WroteAll (StartIs (header.now.bank_size == 0) header.now.name (without_padding header.now.load_name) ∷ KindIs header.now.kind.bits ∷ []) out.old out.new) }
    ensures long { IsErrOf result LineStop.NotListable → list_all is_short (StartIs (header.now.bank_size == 0) header.now.name (without_padding header.now.load_name) ∷ KindIs header.now.kind.bits ∷ []) ≡ false }
{
    put_start(
        out,
        header.bank_size == 0,
        header.name.bytes(),
        trim_padding(&header.load_name),
    )?;
    put_kind(out, header.kind.bits)
}

/// LONGA and LONGI, which are on.
#[tactic(auto, using(list_lines::proofs::Written::wrote_two, list_lines::proofs::Written::long_front, list_lines::proofs::Written::long_after))]
fn put_widths(out: &mut ListingText) -> Result<(), LineStop>
    requires { open_line out.old ≡ [] }
    ensures wrote { OnOk result (WroteAll (SwitchIs LongA true ∷ SwitchIs LongI true ∷ []) out.old out.new) }
    ensures long { IsErrOf result LineStop.NotListable → list_all is_short (SwitchIs LongA true ∷ SwitchIs LongI true ∷ []) ≡ false }
{
    put_switch(out, Switch::LongA, true)?;
    put_switch(out, Switch::LongI, true)
}

/// The lines from START or DATA on.
#[tactic(auto, using(list_lines::proofs::Written::wrote_both, list_lines::proofs::Written::long_first, list_lines::proofs::Written::long_second))]
fn put_open(out: &mut ListingText, header: &Header) -> Result<(), LineStop>
    requires { open_line out.old ≡ [] }
    ensures wrote { OnOk result (WroteAll ((StartIs (header.now.bank_size == 0) header.now.name (without_padding header.now.load_name) ∷ KindIs header.now.kind.bits ∷ []) ++ (SwitchIs LongA true ∷ SwitchIs LongI true ∷ [])) out.old out.new) }
    ensures long { IsErrOf result LineStop.NotListable → list_all is_short ((StartIs (header.now.bank_size == 0) header.now.name (without_padding header.now.load_name) ∷ KindIs header.now.kind.bits ∷ []) ++ (SwitchIs LongA true ∷ SwitchIs LongI true ∷ [])) ≡ false }
{
    put_begin(out, header)?;
    put_widths(out)
}

/// The lines from ORG on.
#[tactic(auto, using(list_lines::proofs::Written::wrote_both, list_lines::proofs::Written::long_first, list_lines::proofs::Written::long_second))]
fn put_from_org(out: &mut ListingText, header: &Header) -> Result<(), LineStop>
    requires { open_line out.old ≡ [] }
    ensures wrote { OnOk result (WroteAll (unless_zero NextOrg header.now.org ++ ((StartIs (header.now.bank_size == 0) header.now.name (without_padding header.now.load_name) ∷ KindIs header.now.kind.bits ∷ []) ++ (SwitchIs LongA true ∷ SwitchIs LongI true ∷ []))) out.old out.new) }
    ensures long { IsErrOf result LineStop.NotListable → list_all is_short (unless_zero NextOrg header.now.org ++ ((StartIs (header.now.bank_size == 0) header.now.name (without_padding header.now.load_name) ∷ KindIs header.now.kind.bits ∷ []) ++ (SwitchIs LongA true ∷ SwitchIs LongI true ∷ []))) ≡ false }
{
    put_org(out, header.org)?;
    put_open(out, header)
}

/// The lines before those of the records.
#[tactic(auto, using(list_lines::proofs::Written::wrote_both, list_lines::proofs::Written::long_first, list_lines::proofs::Written::long_second), unfolding(list_meaning::specs::Listing::front_of))]
fn put_lines(out: &mut ListingText, header: &Header) -> Result<(), LineStop>
    requires { open_line out.old ≡ [] }
    ensures wrote { OnOk result (WroteAll (front_of (fields header.now)) out.old out.new) }
    ensures long { IsErrOf result LineStop.NotListable → list_all is_short (front_of (fields header.now)) ≡ false }
{
    put_align(out, header.align)?;
    put_from_org(out, header)
}

/// The lines before those of the records, where the header can be listed.
pub(crate) fn put_front(out: &mut ListingText, view: &SegmentView) -> Result<(), LineStop>
    requires line { open_line out.old ≡ [] }
    requires sound { IsSound view.now }
    ensures listable { OnOk result ((has_listable_header (segment_of_view view.now) && list_all is_short (front_of (segment_of_view view.now).fields)) ≡ true) }
    ensures wrote { OnOk result (WroteAll (front_of (segment_of_view view.now).fields) out.old out.new) }
    ensures refused { IsErrOf result LineStop.NotListable → (has_listable_header (segment_of_view view.now) && list_all is_short (front_of (segment_of_view view.now).fields)) ≡ false }
{
    if !has_listable_fields(&view.header) {
        return Err(LineStop::NotListable);
    }
    if !has_listable_length(view) {
        return Err(LineStop::NotListable);
    }
    put_lines(out, &view.header)
}

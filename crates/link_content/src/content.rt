//! The content of a load segment, as it grows.

ghost use Rattle.std.specs.Prelude.{◌≡◌, ◌≢◌, ◌+◌, ◌<◌, ◌≤◌, ◌^◌, ◌++◌, ◌∷◌, [], List, IsTrue, OnOk, OnErr, length, map, replicate};
ghost use Rattle.omf_format.specs.Field.{is_count};
ghost use Rattle.load_meaning.specs.Cells.{Cell, Byte};
ghost use Rattle.link_meaning.specs.Fitting.{parts};
ghost use Rattle.link_meaning.specs.LinkedCells.{zeros};
ghost use Rattle.load_writer.specs.Joined.{joined};
ghost use Rattle.link_content.specs.Contents.{HoldsCells, IsPlaced};
ghost use Rattle.link_content.specs.Holding.{Holding, or_borrowed, or_before, last_of};

use load_writer::Patch;
use std::alloc::{AllocError, Global};
use std::marker::Model;

/// The bytes of a load segment so far, and the patches over them. As long as they are constants of inputs, one after another,
/// none is copied, and zeros at the end are only counted. Contracts see the bytes and the patches.
#[derive(Drop)]
pub struct LoadContent<'a> {
    /// Constants of inputs, which are all bytes as long as there are none in `own`.
    borrowed: Vec<&'a [u8]>,
    /// How many bytes those are.
    borrowed_size: usize,
    /// All bytes, if there are any here.
    own: Vec<u8>,
    /// How many zeros follow these, and aren't held.
    trailing_zeros: usize,
    patches: Vec<Patch>,
}

impl<'a> Model for LoadContent<'a> {
    ghost use Rattle.std.specs.Prelude.{◌≡◌, ◌++◌, ◌<◌, ◌^◌, [], length, replicate};
    ghost use Rattle.load_writer.specs.Joined.{joined};
    ghost use Rattle.link_content.specs.Holding.{Holding, AreInside, or_borrowed};

    ghost Value = { Holding };

    ghost view = { λ content. record { bytes = or_borrowed content.own.items (joined content.borrowed.items) ++ replicate content.trailing_zeros 0; patches = content.patches.items } };

    ghost invariant = { λ content. (content.borrowed_size ≡ length (joined content.borrowed.items)) × (content.own.items ≡ [] → content.patches.items ≡ [])
        × AreInside (length content.own.items) content.patches.items × (content.borrowed_size < 2 ^ 33) × (content.trailing_zeros < 2 ^ 33) };
}

/// Where the bytes of a content are.
pub enum ByteStorage<'h, 'a> {
    /// In inputs, piece by piece.
    Borrowed(&'h [&'a [u8]]),
    /// Side by side.
    Own(&'h [u8]),
}

/// Appends bytes.
fn append(out: &mut Vec<u8>, bytes: &[u8]) -> Result<(), AllocError>
    ensures ok { OnOk result (out.new.items ≡ out.old.items ++ bytes.now) }
    ensures err { OnErr result (out.new.items ≡ out.old.items) }
{
    out.extend_from_slice(bytes)
}

/// Appends pieces, one after another.
fn append_all(out: &mut Vec<u8>, pieces: &[&[u8]]) -> Result<(), AllocError>
    ensures { OnOk result (out.new.items ≡ out.old.items ++ joined pieces.now) }
{
    for piece in pieces {
        out.extend_from_slice(*piece)?;
    }
    Ok(())
}

/// Appends `count` zeros.
fn append_zeros(out: &mut Vec<u8>, count: usize) -> Result<(), AllocError>
    requires { count < 2 ^ 34 }
    ensures ok { OnOk result (out.new.items ≡ out.old.items ++ replicate count 0) }
    ensures err { OnErr result (out.new.items ≡ out.old.items) }
{
    let end = out.as_slice().len() + count;
    out.resize(end, 0)
}

/// Copies what is borrowed, unless there are bytes of one's own.
fn take_in(own: &mut Vec<u8>, borrowed: &[&[u8]]) -> Result<(), AllocError>
    ensures ok { OnOk result (own.new.items ≡ or_borrowed own.old.items (joined borrowed.now)) }
    ensures err { OnErr result (own.old.items ≡ []) }
{
    if own.is_empty() {
        return append_all(own, borrowed);
    }
    Ok(())
}

/// Copies what is borrowed, unless there are bytes of one's own, and appends a given number of zeros.
fn own_bytes(own: &mut Vec<u8>, borrowed: &[&[u8]], zeros: usize) -> Result<(), AllocError>
    requires { zeros < 2 ^ 34 }
    ensures ok { OnOk result (own.new.items ≡ or_borrowed own.old.items (joined borrowed.now) ++ replicate zeros 0) }
    ensures longer { own.old.items ≢ [] → length own.old.items ≤ length own.new.items }
{
    take_in(own, borrowed)?;
    append_zeros(own, zeros)
}

/// Appends a piece.
fn append_piece<'a>(pieces: &mut Vec<&'a [u8]>, piece: &'a [u8]) -> Result<(), AllocError>
    ensures ok { OnOk result (joined pieces.new.items ≡ joined pieces.old.items ++ piece.now) }
    ensures err { OnErr result (pieces.new.items ≡ pieces.old.items) }
{
    pieces.push(piece)?;
    Ok(())
}

/// Appends a patch.
fn append_patch(patches: &mut Vec<Patch>, patch: Patch) -> Result<(), AllocError>
    ensures ok { OnOk result (patches.new.items ≡ patches.old.items ++ patch ∷ []) }
    ensures err { OnErr result (patches.new.items ≡ patches.old.items) }
{
    patches.push(patch)?;
    Ok(())
}

/// The last byte, if there is one.
fn last_of(bytes: &[u8]) -> Option<u8>
    ensures { result ≡ last_of bytes.now }
{
    bytes.last().copied()
}

/// A byte, or else the one before it.
fn last_of_two(byte: Option<u8>, before: Option<u8>) -> Option<u8>
    ensures { result ≡ or_before byte before }
{
    match byte {
        Some(byte) => Some(byte),
        None => before,
    }
}

/// The last byte of pieces, if there is one.
fn last_in(pieces: &[&[u8]]) -> Option<u8>
    ensures { result ≡ last_of (joined pieces.now) }
{
    let mut found = None;
    for piece in pieces {
        found = last_of_two(last_of(*piece), found);
    }
    found
}

/// Room for `count` bytes, where there is enough memory; where there isn't, memory is taken as the bytes are added.
fn room_for(alloc: Global, count: usize) -> Vec<u8>
    ensures { result.items ≡ [] }
{
    match Vec::with_capacity(alloc, count) {
        Ok(room) => room,
        Err(_) => Vec::new(alloc),
    }
}

impl<'a> LoadContent<'a> {
    /// Without cells, with room for `count` of them.
    pub fn with_room(alloc: Global, count: usize) -> LoadContent<'a>
        ensures { HoldsCells [] result }
    {
        LoadContent {
            borrowed: Vec::new(alloc),
            borrowed_size: 0,
            own: room_for(alloc, count),
            trailing_zeros: 0,
            patches: Vec::new(alloc),
        }
    }

    /// A content without cells.
    pub fn new(alloc: Global) -> LoadContent<'a>
        ensures { HoldsCells [] result }
    {
        LoadContent {
            borrowed: Vec::new(alloc),
            borrowed_size: 0,
            own: Vec::new(alloc),
            trailing_zeros: 0,
            patches: Vec::new(alloc),
        }
    }

    /// How many bytes there are.
    fn size(&self) -> usize
        ensures { result ≡ length (self.now).bytes }
    {
        if self.own.is_empty() {
            return self.borrowed_size + self.trailing_zeros;
        }
        self.own.as_slice().len() + self.trailing_zeros
    }

    /// How many cells there are.
    pub fn len(&self) -> usize
        ensures { (cells : List Cell) → HoldsCells cells self.now → result ≡ length cells }
    {
        self.size()
    }

    /// The bytes but for zeros at their end, and how many zeros these are; under a patch they don't count. Where the bytes are in
    /// inputs, there is no patch.
    pub fn place(&self) -> (ByteStorage<'_, 'a>, usize)
        ensures { IsPlaced result.0 result.1 self.now }
    {
        if self.own.is_empty() {
            return (
                ByteStorage::Borrowed(self.borrowed.as_slice()),
                self.trailing_zeros,
            );
        }
        (ByteStorage::Own(self.own.as_slice()), self.trailing_zeros)
    }

    /// The last byte, if there is one.
    pub fn last(&self) -> Option<u8>
        ensures { result ≡ last_of (self.now).bytes }
    {
        if self.trailing_zeros > 0 {
            return Some(0);
        }
        if self.own.is_empty() {
            return last_in(self.borrowed.as_slice());
        }
        last_of(self.own.as_slice())
    }

    /// The patches, in the order in which they were put.
    pub fn patches(&self) -> &[Patch]
        ensures { result.now ≡ (self.now).patches }
    {
        self.patches.as_slice()
    }

    /// Appends bytes, which are copied.
    fn append(&mut self, bytes: &[u8]) -> Result<(), AllocError>
        ensures bytes { OnOk result ((self.new).bytes ≡ (self.old).bytes ++ bytes.now) }
        ensures patches { (self.new).patches ≡ (self.old).patches }
    {
        own_bytes(&mut self.own, self.borrowed.as_slice(), self.trailing_zeros)?;
        self.trailing_zeros = 0;
        append(&mut self.own, bytes)
    }

    /// Appends bytes of an input, which aren't copied as long as there are no others.
    fn append_borrowed(&mut self, bytes: &'a [u8]) -> Result<(), AllocError>
        requires { length (self.old).bytes + length bytes.now < 2 ^ 33 }
        ensures bytes { OnOk result ((self.new).bytes ≡ (self.old).bytes ++ bytes.now) }
        ensures patches { (self.new).patches ≡ (self.old).patches }
    {
        if self.own.is_empty() && self.trailing_zeros == 0 {
            append_piece(&mut self.borrowed, bytes)?;
            self.borrowed_size += bytes.len();
            return Ok(());
        }
        self.append(bytes)
    }

    /// Appends `count` zeros with a patch over them.
    fn append_patched(&mut self, patch: Patch, count: usize) -> Result<(), AllocError>
        requires some { 1 ≤ count }
        requires small { length (self.old).bytes + count < 2 ^ 33 }
        requires inside { patch.at + patch.count ≤ length (self.old).bytes + count }
        ensures bytes { OnOk result ((self.new).bytes ≡ (self.old).bytes ++ replicate count 0) }
        ensures patches { OnOk result ((self.new).patches ≡ (self.old).patches ++ patch ∷ []) }
    {
        own_bytes(
            &mut self.own,
            self.borrowed.as_slice(),
            self.trailing_zeros + count,
        )?;
        self.trailing_zeros = 0;
        append_patch(&mut self.patches, patch)
    }

    /// Appends bytes.
    pub fn put_bytes(&mut self, bytes: &[u8]) -> Result<(), AllocError>
        ensures { OnOk result ((cells : List Cell) → HoldsCells cells self.old → HoldsCells (cells ++ map Byte bytes.now) self.new) }
    {
        self.append(bytes)
    }

    /// Appends bytes that are a constant of an input.
    pub fn lend_bytes(&mut self, bytes: &'a [u8]) -> Result<(), AllocError>
        requires { length (self.old).bytes + length bytes.now < 2 ^ 32 }
        ensures { OnOk result ((cells : List Cell) → HoldsCells cells self.old → HoldsCells (cells ++ map Byte bytes.now) self.new) }
    {
        self.append_borrowed(bytes)
    }

    /// Appends `count` zeros, which take no memory.
    pub fn put_zeros(&mut self, count: usize)
        requires { length (self.old).bytes + count < 2 ^ 32 }
        ensures { (cells : List Cell) → HoldsCells cells self.old → HoldsCells (cells ++ zeros count) self.new }
    {
        self.trailing_zeros += count;
    }

    /// Appends `count` bytes of a place.
    pub fn put_place(
        &mut self,
        count: u8,
        segment: u16,
        offset: u32,
        shift: i8,
    ) -> Result<(), AllocError>
        requires counted { IsTrue (is_count count) }
        requires small { length (self.old).bytes + 4 < 2 ^ 32 }
        ensures { OnOk result ((cells : List Cell) → HoldsCells cells self.old → HoldsCells (cells ++ parts count segment offset shift) self.new) }
    {
        let patch = Patch {
            at: self.size() as u32,
            count,
            shift,
            segment,
            offset,
        };
        self.append_patched(patch, usize::from(count))
    }
}

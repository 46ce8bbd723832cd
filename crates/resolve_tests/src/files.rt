//! The files that are linked: samples, whole or cut or with bytes changed, and files that are made.
use crate::parts::{Part, equates, parts_of, uses, using};
use crate::samples::{
    AFTER, APART, ASKING, BARE, DATA, DYNAMIC, EQUATE_A, EQUATE_B, LIBRARY_B, LIBRARY_C, LIBRARY_D,
    LIBRARY_P, LIBRARY_Y, ONE, PLACED, RUNTIME, RUNTIME_PARTS, RUNTIME_TWICE, SKIPPED, TWO, USER,
    WEAK,
};
use std::alloc::{AllocError, Global};

/// A sample.
pub enum Sample {
    One,
    Two,
    User,
    Apart,
    EquateA,
    EquateB,
    LibraryB,
    LibraryC,
    Weak,
    Placed,
    After,
    LibraryY,
    LibraryP,
    Asking,
    Data,
    LibraryD,
    Runtime,
    RuntimeTwice,
    RuntimeParts,
    Dynamic,
    Skipped,
}

/// A file of a list.
pub enum File {
    Whole(Sample),
    /// The first bytes of a sample.
    Cut(Sample, usize),
    /// A sample with bytes changed at displacements.
    Changed(Sample, &'static [(usize, u8)]),
    /// An object file of a given number of empty members, each in a load segment of its own.
    Loads(u8),
    /// An object file of a segment that has these numbers of D in USING, and of parts after it.
    Using(&'static [u16], &'static [Part]),
    /// An object file of parts.
    Parts(&'static [Part]),
    /// An object file of a segment that names a number of data segments by USING and asks for as many names of a letter by STRONG, and of a
    /// number of the first of these data segments.
    Uses(u16, u8, u16),
    /// An object file of a number of equates, each of which is the next one; the last is the one with this number.
    Equates(u16, u16),
}

/// Files that are owned.
pub fn inputs_of(alloc: Global, files: &[File]) -> Result<Vec<Vec<u8>>, AllocError> {
    let mut inputs = Vec::new(alloc);
    for file in files {
        inputs.push(bytes_of(alloc, file)?)?;
    }
    Ok(inputs)
}

pub fn bytes_of(alloc: Global, file: &File) -> Result<Vec<u8>, AllocError> {
    match file {
        File::Whole(sample) => Vec::from_slice(alloc, sample_of(sample)),
        File::Cut(sample, count) => cut(alloc, sample_of(sample), *count),
        File::Changed(sample, changes) => changed(alloc, sample_of(sample), changes),
        File::Loads(count) => loads(alloc, *count),
        File::Using(usings, parts) => using(alloc, usings, parts),
        File::Parts(parts) => parts_of(alloc, parts),
        File::Uses(count, letter, defined) => uses(alloc, *count, *letter, *defined),
        File::Equates(count, last) => equates(alloc, *count, *last),
    }
}

fn sample_of(sample: &Sample) -> &'static [u8] {
    match sample {
        Sample::One => &ONE,
        Sample::Two => &TWO,
        Sample::User => &USER,
        Sample::Apart => &APART,
        Sample::EquateA => &EQUATE_A,
        Sample::EquateB => &EQUATE_B,
        Sample::LibraryB => &LIBRARY_B,
        Sample::LibraryC => &LIBRARY_C,
        Sample::Weak => &WEAK,
        Sample::Placed => &PLACED,
        Sample::After => &AFTER,
        Sample::LibraryY => &LIBRARY_Y,
        Sample::LibraryP => &LIBRARY_P,
        Sample::Asking => &ASKING,
        Sample::Data => &DATA,
        Sample::LibraryD => &LIBRARY_D,
        Sample::Runtime => &RUNTIME,
        Sample::RuntimeTwice => &RUNTIME_TWICE,
        Sample::RuntimeParts => &RUNTIME_PARTS,
        Sample::Dynamic => &DYNAMIC,
        Sample::Skipped => &SKIPPED,
    }
}

fn cut(alloc: Global, bytes: &[u8], count: usize) -> Result<Vec<u8>, AllocError> {
    match bytes.get(..count) {
        Some(first) => Vec::from_slice(alloc, first),
        None => Vec::from_slice(alloc, bytes),
    }
}

fn changed(alloc: Global, bytes: &[u8], changes: &[(usize, u8)]) -> Result<Vec<u8>, AllocError> {
    let mut file = Vec::from_slice(alloc, bytes)?;
    put(&mut file, changes);
    Ok(file)
}

fn put(bytes: &mut [u8], changes: &[(usize, u8)]) {
    for (at, value) in changes {
        if let Some(byte) = bytes.get_mut(*at) {
            *byte = *value;
        }
    }
}

/// `count` empty members, each in a load segment of its own.
fn loads(alloc: Global, count: u8) -> Result<Vec<u8>, AllocError> {
    let mut bytes = Vec::new(alloc);
    for number in 0..count {
        let mut segment = BARE;
        segment[0x2C] = number;
        bytes.extend_from_slice(&segment)?;
    }
    Ok(bytes)
}

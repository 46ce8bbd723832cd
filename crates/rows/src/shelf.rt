//! The files that rows are made of.

use crate::pieces::put_at;
use std::alloc::{AllocError, Global};

/// A file, and its path or the name that it has as a piece of others.
#[derive(Drop)]
pub struct ShelfFile {
    pub path: String,
    pub bytes: Vec<u8>,
}

/// The files that a row knows: those of all rows, and after them its own.
#[derive(Drop)]
pub struct Shelf {
    files: Vec<ShelfFile>,
    /// How many are those of all rows.
    common: usize,
    /// Where the segment begins that is changed, in the last file.
    start: usize,
}

impl Shelf {
    pub fn new(alloc: Global) -> Shelf {
        Shelf {
            files: Vec::new(alloc),
            common: 0,
            start: 0,
        }
    }

    /// Begins a row, which has no files of its own yet.
    pub fn begin(&mut self) {
        self.files.truncate(self.common);
    }

    /// Puts a file after the others, as the last of the row.
    pub fn put(&mut self, alloc: Global, path: &str, bytes: Vec<u8>) -> Result<(), AllocError> {
        let path = String::from_str(alloc, path)?;
        self.files.push(ShelfFile { path, bytes })?;
        self.start = 0;
        Ok(())
    }

    /// Begins an empty file of all rows, and with it a row.
    pub fn put_common(&mut self, alloc: Global, name: &str) -> Result<(), AllocError> {
        self.begin();
        self.put(alloc, name, Vec::new(alloc))?;
        self.common = self.files.len();
        Ok(())
    }

    /// The bytes of the last file with this path.
    pub fn find(&self, path: &str) -> Option<&[u8]> {
        let held = self
            .files
            .iter()
            .rev()
            .find(|held| held.path.as_str() == path)?;
        Some(held.bytes.as_slice())
    }

    /// A copy of these bytes, or of none where no file has this path.
    pub fn copy_of(&self, alloc: Global, path: &str) -> Result<Vec<u8>, AllocError> {
        match self.find(path) {
            Some(bytes) => Vec::from_slice(alloc, bytes),
            None => Ok(Vec::new(alloc)),
        }
    }

    /// The row's own files.
    pub fn row(&self) -> &[ShelfFile] {
        match self.files.get(self.common..) {
            Some(row) => row,
            None => &[],
        }
    }

    /// Begins a segment in the last file.
    pub fn begin_segment(&mut self) {
        if let Some(held) = self.files.last() {
            self.start = held.bytes.len();
        }
    }

    /// The bytes of the last file.
    pub fn last(&mut self) -> Option<&mut Vec<u8>> {
        let held = self.files.last_mut()?;
        Some(&mut held.bytes)
    }

    /// Puts bytes over those from a displacement of the segment on.
    pub fn change(&mut self, at: usize, bytes: &[u8]) {
        if let Some(held) = self.files.last_mut() {
            put_at(&mut held.bytes, self.start.saturating_add(at), bytes);
        }
    }

    /// How many bytes the segment has.
    pub fn size(&self) -> usize {
        match self.files.last() {
            Some(held) => held.bytes.len().saturating_sub(self.start),
            None => 0,
        }
    }
}

//! The rows of a library's dictionary.

ghost use Rattle.std.specs.Prelude.{◌≡◌, length, option_map, slice_get};
ghost use Rattle.lib_dict.specs.Rows.{seen_row};

use std::marker::Model;

/// A row of a dictionary: a name that a segment of the library defines for others.
#[derive(Clone, Copy, Debug, PartialEq, Eq)]
pub struct Row<'a> {
    /// The name, a slice of the library.
    pub name: &'a [u8],
    /// The number that the dictionary gives the segment's file.
    pub file: u16,
    /// The name is seen in that file alone.
    pub private: bool,
    /// The displacement in the library of the segment that defines the name.
    pub at: u32,
}

/// The dictionary of a library. Contracts see the list of its rows.
#[derive(Drop)]
pub struct Dictionary<'a> {
    pub(crate) rows: Vec<Row<'a>>,
}

impl<'a> Model for Dictionary<'a> {
    ghost use Rattle.std.specs.Prelude.{List, map, ◌<◌, ◌^◌, length};
    ghost use Rattle.lib_dict.specs.Library.{LibraryRow};
    ghost use Rattle.lib_dict.specs.Rows.{seen_row};

    ghost Value = { List LibraryRow };

    ghost view = { λ dictionary. map seen_row dictionary.rows.items };

    ghost invariant = { λ dictionary. length dictionary.rows.items < 2 ^ 32 };
}

impl<'a> Dictionary<'a> {
    /// How many rows there are.
    pub fn count(&self) -> u32
        ensures { result ≡ length self.now }
    {
        self.rows.len() as u32
    }

    /// The row at a place, from 0.
    pub fn row(&self, place: u32) -> Option<Row<'a>>
        ensures { option_map seen_row result ≡ slice_get self.now place }
    {
        self.rows.get(place as usize).copied()
    }
}

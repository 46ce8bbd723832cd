//! What the linker's second half asks of a program: what names find, by number, and the load segments' headers.

ghost use Rattle.std.specs.Prelude.{◌≡◌, map};
ghost use Rattle.omf_header.specs.View.{fields};
ghost use Rattle.link_meaning.specs.Layout.{load_headers};
ghost use Rattle.link_program.specs.Finding.{IsFirstOf, found_in};
ghost use Rattle.link_program.specs.OfFiles.{IsOfFiles};
ghost use Rattle.link_program.specs.Outside.{all_found};

use crate::program::Program;
use omf_header::Header;

impl<'a> Program<'a> {
    /// The number of the first definition that a name finds in the member at a place, from 1, used there or not. Numbers count from 0 over
    /// all definitions, and on over the names of the run-time library files. None where the place is no member's, or the name finds none.
    pub fn find(&self, place: u32, name: &[u8]) -> Option<usize>
        ensures { IsFirstOf (all_found self.now) (found_in self.now place name.now) result }
    {
        self.kept.linked.first(&self.kept.outside, place, name)
    }

    /// The list is that of resolved files.
    pub fn know_files(&self)
        ensures { IsOfFiles self.now }
    {
        let _kept = &self.kept;
    }

    /// The headers of the load segments, in order of number.
    pub fn load_headers(&self) -> &[Header]
        ensures { map fields result.now ≡ load_headers self.now }
    {
        self.kept.headers.as_slice()
    }
}

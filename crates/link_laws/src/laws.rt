//! Laws of linked files. These functions do nothing: each is there for its contract.

ghost use Rattle.link_laws.specs.ReadBack.{ExportsAreReadBack, PathsAreReadBack};
ghost use Rattle.link_laws.specs.Formulas.{FormulasAreSpelled, SpelledIsFound};
ghost use Rattle.link_laws.specs.Parts.{PartsAreOfTheFile, OutsideIsCalled};
ghost use Rattle.link_laws.specs.Pages.{PatchesAreByPages};

/// The linked file, read back, exports the public definitions of its list, of a run-time library file alone, and names the files with which
/// it was linked, in their order.
pub fn linked_names_are_read_back()
    ensures exports { ExportsAreReadBack }
    ensures paths { PathsAreReadBack }
{}

/// The tree that is found in the bytes of a formula is the one that they spell, and each formula of a linked list spells one.
pub fn formulas_are_spelled()
    ensures found { SpelledIsFound }
    ensures spelled { FormulasAreSpelled }
{}

/// No linked cell is part of a place in another file: a place in a run-time library file is reached by a call alone, through an entry.
pub fn parts_are_of_the_file()
    ensures parts { PartsAreOfTheFile }
    ensures called { OutsideIsCalled }
{}

/// The patches of a SUPER record are at the locations that its pages give: the low bytes of each page are above 256 times its number.
pub fn patches_are_by_pages()
    ensures { PatchesAreByPages }
{}

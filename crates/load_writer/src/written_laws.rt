//! Laws of written bodies. These functions do nothing: each is there for its contract.

ghost use Rattle.load_meaning.specs.WrittenPages.{PagesReadAgain};
ghost use Rattle.load_meaning.specs.WrittenBody.{BodyStandsFor};
ghost use Rattle.load_meaning.specs.WrittenFile.{FileStandsFor, TableStandsFor};

/// The subrecords of rising locations give those locations.
pub fn locations_are_read_again()
    ensures { PagesReadAgain }
{}

/// Read back as the body of a load segment, a written body represents the content with the patches over it.
pub fn bodies_stand_for_their_cells()
    ensures { BodyStandsFor }
{}

/// What is written for load segments, one after another, is a file of exactly these, and each represents its cells. A jump table can be
/// written so.
pub fn files_stand_for_their_cells()
    ensures files { FileStandsFor }
    ensures tables { TableStandsFor }
{}

//! What holds of assembling a source with macro files. These functions do nothing: each is there for its contract.

ghost use Rattle.source_meaning.specs.ObjectLaws.{OneObject, NoFaultBeside, OneFirstFault, NoneUnanswered, ObjectIsFile};

/// A source with macro files is assembled to one object, or has one first fault, and none has neither: its lines leave one thing
/// each.
pub fn sources_have_one_object()
    ensures object { OneObject }
    ensures beside { NoFaultBeside }
    ensures fault { OneFirstFault }
    ensures some { NoneUnanswered }
{}

/// What is written for a source is a file: its segments are read again with the headers and the records that the lines leave,
/// and LENGTH is the number of cells that the linker counts in them.
pub fn objects_are_files()
    ensures { ObjectIsFile }
{}

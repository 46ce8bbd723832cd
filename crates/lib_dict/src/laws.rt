//! Laws of dictionaries. The functions do nothing: they are there for their contracts.

ghost use Rattle.lib_dict.specs.DictionaryLayout.{RowsAreLaidOut, LaidOutIsRead};
ghost use Rattle.lib_dict.specs.Made.{MadeIsRefusedForMemoryAlone};
ghost use Rattle.lib_dict.specs.MadeReads.{MadeIsRead};

/// What is read of a library's dictionary is laid out there, and what is laid out is read: the first segment has three LCONST
/// records and END, the first with file numbers and names, the third with names, and the second with the rows, each of which
/// the library bears out.
pub fn rows_are_laid_out()
    ensures laid_out { RowsAreLaidOut }
    ensures read { LaidOutIsRead }
{}

/// What is made of files is read as a library, with exactly their rows, and in no other way; the files' bytes follow the dictionary
/// unchanged.
pub fn made_is_read()
    ensures { MadeIsRead }
{}

/// Files of which a library is made are refused only when out of memory.
pub fn made_is_refused_for_memory_alone()
    ensures { MadeIsRefusedForMemoryAlone }
{}

//! Laws that every input has an answer. These functions do nothing: each is there for its contract.

ghost use Rattle.answers.specs.Commands.{WantsAreAnswered, SlidesAreAnswered, CommandsAreAnswered};
ghost use Rattle.answers.specs.Files.{FilesAreAnswered, LoadFilesAreAnswered, RuntimeFilesAreAnswered};
ghost use Rattle.answers.specs.Inputs.{DumpsAreAnswered, DictionariesAreAnswered, LibrariesAreAnswered, LoadFilesAreCompacted, SourcesAreListed, LinksAreAnswered, ScriptsAreAnswered};

use lib_dict::rows_are_laid_out;

/// A file is a list of segments, or has a first fault, which isn't Memory.
pub fn files_are_answered()
    ensures { FilesAreAnswered }
{}

/// A file is a load file, or has a first fault as one, which isn't Memory; and so it is with run-time library files.
pub fn load_files_are_answered()
    ensures load { LoadFilesAreAnswered }
    ensures runtime { RuntimeFilesAreAnswered }
{}

/// A file has a listing, or a first fault, which isn't Memory.
pub fn dumps_are_answered()
    ensures { DumpsAreAnswered }
{}

/// Files have a library, or a first fault, which isn't Memory; and a file is a library with its rows, one whose dictionary is false, no
/// library, or no list of segments.
pub fn libraries_are_answered()
    ensures made { LibrariesAreAnswered }
    ensures read { DictionariesAreAnswered }
{}

/// A file has a canonical form, or a reason why it has none, which isn't Memory.
pub fn load_files_are_compacted()
    ensures { LoadFilesAreCompacted }
{}

/// Files have a load file, or a first fault of a phase, which isn't Memory.
pub fn links_are_answered()
    ensures { LinksAreAnswered }
{
    rows_are_laid_out();
}

/// A file has a source, or a reason why it has none, which isn't Memory.
pub fn sources_are_listed()
    ensures { SourcesAreListed }
{}

/// A text is a script of commands, or has a first bad line, whose cause isn't Memory.
pub fn scripts_are_answered()
    ensures { ScriptsAreAnswered }
{}

/// Among blocks that lie apart, each placed where its want fits, a want has room or has none, and a slide has an outcome.
pub fn wants_are_answered()
    ensures room { WantsAreAnswered }
    ensures slides { SlidesAreAnswered }
{}

/// In a state with which a loader agrees each command of a script has a reply, which isn't Memory, and leads to a state.
pub fn commands_are_answered()
    ensures { CommandsAreAnswered }
{}

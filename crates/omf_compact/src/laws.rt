//! Laws. These functions do nothing: each is there for its contract.

ghost use Rattle.omf_compact.specs.Kept.{AnswerIsLoaded, SameAnswer, AnswerIsItsOwn, OneAnswer, AnswerOrRefusal};
ghost use Rattle.omf_compact.specs.Replaced.{AnswerIsNotSeen};

/// The canonical form of a load file is a load file that holds the same, and its own canonical form.
pub fn canonical_files_are_load_files()
    ensures loaded { AnswerIsLoaded }
    ensures own { AnswerIsItsOwn }
{}

/// Load files that hold the same have the same canonical form; a file has one at most, and no other refusal beside it than want
/// of memory.
pub fn canonical_forms_are_one()
    ensures same { SameAnswer }
    ensures one { OneAnswer }
    ensures or_refused { AnswerOrRefusal }
{}

/// The canonical form in the place of a load file that a store holds changes no reply to a script.
pub fn canonical_files_are_not_seen()
    ensures { AnswerIsNotSeen }
{}

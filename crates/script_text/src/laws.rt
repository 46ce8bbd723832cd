//! Laws of scripts. These functions do nothing: each is there for its contract.

ghost use Rattle.script_text.specs.Laws.{LfEndsLine, CrLfEndsLine, CrEndsLine, LastNeedsNoEnd, WordsMakeLine, OneListOfCommands, OneFirstBadLine, BadLineIsNoScript, CommandsKeepBounds};

/// Lines end with LF, CR or CR LF, and the last one needs no end. A line is its words with spaces between them.
pub fn texts_are_lines()
    ensures lf { LfEndsLine }
    ensures cr_lf { CrLfEndsLine }
    ensures cr { CrEndsLine }
    ensures last { LastNeedsNoEnd }
    ensures words { WordsMakeLine }
{}

/// A text is read in one way, as a script or as one with a first bad line.
pub fn scripts_are_read_in_one_way()
    ensures one_list { OneListOfCommands }
    ensures one_bad_line { OneFirstBadLine }
    ensures no_script { BadLineIsNoScript }
    ensures bounds { CommandsKeepBounds }
{}

//! What holds of statements. This function does nothing: it is there for its contract.

ghost use Rattle.asm_meaning.specs.LabelLaws.{LengthsAdd, LocalStandsBefore, LinkerSeesPlace, PlaceIsSum};

/// A label's LOCAL is before the records of its statement, where the cells of the statements before it end, and each
/// statement moves that place by its length; ENTRY, EQU and GEQU have none. So a label's place is the sum of the lengths of the
/// statements before it in its segment. The linker finds a label at the place where the records before it end.
pub fn labels_stand_at_their_places()
    ensures lengths { LengthsAdd }
    ensures local { LocalStandsBefore }
    ensures linker { LinkerSeesPlace }
    ensures place { PlaceIsSum }
{}

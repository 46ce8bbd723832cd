//! What holds of the listing of an assembly. This function does nothing: it is there for its contract.

ghost use Rattle.listing_meaning.specs.ListingLaws.{AllAreShown, NoneElseIsShown, StepsAddRecords, CellsFollow, PlacesCountCells, EachObjectIsListed, RowsGiveObject, FaultIsFirst};

/// A listing has a row for each visited line, and for no other; a line adds its records to those before, and their cells to the
/// cells before, and its offset is the number of those; the records of the rows, one after another, are those of the object that
/// the source is assembled to, and each such source has its rows. Rows that end with a fault end with the first one.
pub fn listings_are_of_objects()
    ensures shown { AllAreShown }
    ensures others { NoneElseIsShown }
    ensures records { StepsAddRecords }
    ensures cells { CellsFollow }
    ensures places { PlacesCountCells }
    ensures listed { EachObjectIsListed }
    ensures object { RowsGiveObject }
    ensures fault { FaultIsFirst }
{}

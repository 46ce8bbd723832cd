//! What holds of listings. These functions do nothing: each is there for its contract.

ghost use Rattle.list_laws.specs.ListingLaws.{FaultIsOne, LineIsRead, ListingIsListedAgain, ListingIsOne, ListingIsReadAgain, NoFaultBeside};

/// Each line of a file's listing, read by the assembler with what the lines before it left, has no fault and leaves what it was written
/// for. And assembled without macros the whole gives an object whose segments represent the same, and which has the same listing, unless
/// that object would exceed 16,777,216 bytes.
pub fn listings_are_read_again()
    ensures line { LineIsRead }
    ensures whole { ListingIsReadAgain }
    ensures again { ListingIsListedAgain }
{}

/// A file has one listing at most, and no fault beside it but Memory; it has one first fault at most but Memory.
pub fn files_have_one_listing()
    ensures listing { ListingIsOne }
    ensures none { NoFaultBeside }
    ensures fault { FaultIsOne }
{}

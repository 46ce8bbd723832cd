//! What holds of the definitions of listings. This function does nothing: it is there for its contract.

ghost use Rattle.list_meaning.specs.Worked.{AreWorked};

/// The listings of three segments are those that were worked out by hand.
pub fn listings_are_worked()
    ensures { AreWorked }
{}

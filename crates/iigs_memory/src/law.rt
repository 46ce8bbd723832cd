//! The law of where wants go.

ghost use Rattle.iigs_meaning.specs.Placement.{GoesToOneAddress};
ghost use Rattle.iigs_meaning.specs.Puts.{Purges, IsOnce, LacksRoomWhereNoneFits};

/// A want goes to one address only, and one number of blocks is purged for it, so room is made by purges in one way at
/// most; and there is none exactly where the want fits nowhere, whatever is purged. The function does nothing; its
/// contract is the law.
pub fn wants_go_to_one_address()
    ensures address { GoesToOneAddress }
    ensures once { IsOnce Purges }
    ensures nowhere { LacksRoomWhereNoneFits }
{}

//! The law of released handles, over whole runs of calls.

ghost use Rattle.iigs_meaning.specs.Runs.{DeadStayDead, ReleasedReachesNothing};

/// A handle that was released is stale for ever, whichever calls of `take`, `look`, `change`, `release` and `left` occur in between and
/// whatever its slot holds by then. `copy_from` isn't one of them: it makes the table another one. The function does nothing; its contract
/// is the law.
pub fn dead_stay_dead<T>()
    ensures law { DeadStayDead T }
    ensures released { ReleasedReachesNothing T }
{}

//! A law of the machine. The function does nothing: it is there for its contract.

ghost use Rattle.loader_agrees.specs.StepsOnce.{StepsOnce};

/// In a state with which a loader agrees a command has one reply at most, and leads to one next state.
pub fn commands_have_one_reply()
    ensures { StepsOnce }
{}

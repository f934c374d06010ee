//! The law of codes as a function. Its function computes nothing.

ghost use Rattle.fr_canon.specs.Laws.{StatesHaveCodes};

/// Where no two of at most 1,024 states of an automaton act alike, the code of each is `state_code`.
pub fn states_have_codes()
    ensures { StatesHaveCodes }
{}

//! A law of stores that were fed, which no call needs.

ghost use Rattle.fr_session.specs.Held.{HandlesCountHeld};

/// A store that was new has as many handles as the steps that were made over it hold elements, up to acting alike, in
/// whatever order they were made.
pub fn handles_count_held()
    ensures { HandlesCountHeld }
{}

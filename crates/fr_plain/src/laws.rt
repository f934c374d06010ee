//! Laws of the plain evaluation, which no call needs.

ghost use Rattle.fr_plain.specs.LawsOfPlain.{OutcomesAreDetermined, HeldIsDetermined, PlainIsDetermined};

/// An item has at most one text, one charge and one end. It leaves one list of bindings, and makes one list of elements, up to
/// acting alike.
pub fn outcomes_are_determined()
    ensures { OutcomesAreDetermined }
{}

/// Steps hold one number of elements, up to acting alike, in whatever order they stand.
pub fn held_is_determined()
    ensures { HeldIsDetermined }
{}

/// A script has at most one text by plain evaluation, one charge and one census; where the charge is more than a limit,
/// first steps show it.
pub fn plain_is_determined()
    ensures { PlainIsDetermined }
{}

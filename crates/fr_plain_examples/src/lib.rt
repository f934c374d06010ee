//! Values of the plain evaluation on small scripts, each beside a wrong value that is refuted.
//!
//! Its functions compute nothing. The contract of each names the examples, which show that the
//! definitions of `fr_plain` mean what they say: they hold of what they should, and not of what lies
//! beside it. The scripts are those of the adding machine, t = <1,t>(1,2), and of Grigorchuk's group.
#![tactic(auto)]

ghost use Rattle.fr_plain_examples.specs.Powers.{FifthPowerBySquaring, ZerothPowerIsOne, ThirdPowerOfInverse};
ghost use Rattle.fr_plain_examples.specs.Conjugates.{ConjugateIsByTheSecond, CommutatorBeginsWithInverses};
ghost use Rattle.fr_plain_examples.specs.Questions.{ProductOfOnesIsCharged, OrderOfOne, UnknownNameAfterProduct, NucleusOfOne};
ghost use Rattle.fr_plain_examples.specs.Definitions.{BlockIsSystem, NameStandsTwice, NameIsBoundTwice};
ghost use Rattle.fr_plain_examples.specs.Held.{AddingMachineHoldsTwo, NoStepHoldsNone};

/// The steps, elements and charges of powers, with wrong ones refuted.
pub fn powers_are_expanded()
    ensures fifth { FifthPowerBySquaring }
    ensures zeroth { ZerothPowerIsOne }
    ensures of_inverse { ThirdPowerOfInverse }
{}

/// The steps and elements of a conjugate and of a commutator, with wrong ones refuted.
pub fn conjugates_are_expanded()
    ensures conjugate { ConjugateIsByTheSecond }
    ensures commutator { CommutatorBeginsWithInverses }
{}

/// The texts and charges of statements that ask, with wrong ones refuted.
pub fn questions_are_answered()
    ensures product { ProductOfOnesIsCharged }
    ensures order { OrderOfOne }
    ensures unknown { UnknownNameAfterProduct }
    ensures nucleus { NucleusOfOne }
{}

/// What blocks and names define, with wrong definitions refuted.
pub fn names_are_bound()
    ensures block { BlockIsSystem }
    ensures twice_in_block { NameStandsTwice }
    ensures bound_twice { NameIsBoundTwice }
{}

/// How many elements steps hold, up to acting alike, with wrong numbers refuted.
pub fn steps_hold_classes()
    ensures adding { AddingMachineHoldsTwo }
    ensures none { NoStepHoldsNone }
{}

// Computed values and small instances of the definitions of `fr_model`; of most relations a wrong value is refuted too.
// Its functions compute nothing. The contract of each names the instances, which show that a definition means what it
// says: it holds of what it should and, where a value is refuted, not of what lies beside it.
#![tactic(auto)]

ghost use Rattle.fr_model_examples.specs.ComputedPermutations.{PermutationsCompose, PermutationsRefused, RanksOfPermutations, SwapHasRankOne};
ghost use Rattle.fr_model_examples.specs.ComputedReadings.{TextsReadAsWords};
ghost use Rattle.fr_model_examples.specs.TermInstances.{TermsOverTwoLetters};
ghost use Rattle.fr_model_examples.specs.ComputedActions.{AddingMachineActs, GrigorchukActs, BasilicaActs, LinearGrowthActs, LamplighterActs, TernaryAddingMachineActs, CancellingActs, DoublingActs, GrigorchukWithProductActs, StrangersStay};
ghost use Rattle.fr_model_examples.specs.ComputedSectionWords.{GrigorchukSections, GrigorchukWithProductSections, CancellingSections, DoublingSections, TernaryProductSections, Reductions};
ghost use Rattle.fr_model_examples.specs.SizeInstances.{AddingMachineHasTwoSections, AddingMachineHasFourPairs};
ghost use Rattle.fr_model_examples.specs.SeparationInstances.{WordsAreOrdered, AddingMachineDiffersFromInverse, AddingAndBackIsIdentity};
ghost use Rattle.fr_model_examples.specs.NumberingInstances.{LeastWordsOfAddingMachine, AddingMachineIsNumbered, CodesAreWritten};
ghost use Rattle.fr_model_examples.specs.WalkInstances.{StatesAreReached, StatesAreLimits};
ghost use Rattle.fr_model_examples.specs.ConstructionInstances.{NamesHaveAutomata, ClosuresPass, InverseAutomata, ProductAutomata};
ghost use Rattle.fr_model_examples.specs.GrowthInstances.{SecondSwapIsActive, SwapIsFinitary, AddingMachineIsBounded, LinearGrowthIsLinear, LamplighterIsExponential, LettersBelongToTerms};
ghost use Rattle.fr_model_examples.specs.NucleusInstances.{LimitSections, SwapHasTrivialNucleus, ElementsAreProducts};
ghost use Rattle.fr_model_examples.specs.RayInstances.{AddingMachineMovesRays, RaysAreCanonical, RaysAreSame};

/// Permutations of letters, their products, inverses and ranks, computed by another program.
pub fn permutations_compute()
    ensures composition { PermutationsCompose }
    ensures refusals { PermutationsRefused }
    ensures ranks { RanksOfPermutations }
    ensures counts { SwapHasRankOne }
{}

/// Texts and the words that they are read as.
pub fn texts_read_as_words()
    ensures { TextsReadAsWords }
{}

/// Systems, terms and automata over two letters, with what is none refuted.
pub fn terms_are_over_letters()
    ensures { TermsOverTwoLetters }
{}

/// Images of words under elements of the adding machine's, Grigorchuk's, the basilica and the lamplighter group, and others.
pub fn elements_act()
    ensures adding_machine { AddingMachineActs }
    ensures grigorchuk { GrigorchukActs }
    ensures basilica { BasilicaActs }
    ensures linear_growth { LinearGrowthActs }
    ensures lamplighter { LamplighterActs }
    ensures ternary_adding_machine { TernaryAddingMachineActs }
    ensures cancelling { CancellingActs }
    ensures doubling { DoublingActs }
    ensures grigorchuk_with_product { GrigorchukWithProductActs }
    ensures strangers { StrangersStay }
{}

/// Section words of products of names, freely reduced.
pub fn section_words_reduce()
    ensures grigorchuk { GrigorchukSections }
    ensures grigorchuk_with_product { GrigorchukWithProductSections }
    ensures cancelling { CancellingSections }
    ensures doubling { DoublingSections }
    ensures ternary_products { TernaryProductSections }
    ensures reductions { Reductions }
{}

/// Sizes, counts of pairs and limits that are passed, with wrong numbers refuted.
pub fn sizes_are_counted()
    ensures sections { AddingMachineHasTwoSections }
    ensures pairs { AddingMachineHasFourPairs }
{}

/// Least separating words, and none where terms act alike, with wrong answers refuted.
pub fn least_words_separate()
    ensures differs { AddingMachineDiffersFromInverse }
    ensures alike { AddingAndBackIsIdentity }
    ensures order { WordsAreOrdered }
{}

/// Canonical numberings and codes, with wrong ones refuted.
pub fn elements_are_numbered()
    ensures numbering { AddingMachineIsNumbered }
    ensures codes { CodesAreWritten }
    ensures words { LeastWordsOfAddingMachine }
{}

/// States that words lead to, and states that cycles lead to, with others refuted.
pub fn words_lead_to_states()
    ensures reached { StatesAreReached }
    ensures limits { StatesAreLimits }
{}

/// Automata of names, inverses and products, with wrong ones refuted.
pub fn automata_are_constructed()
    ensures names { NamesHaveAutomata }
    ensures closures { ClosuresPass }
    ensures inverses { InverseAutomata }
    ensures products { ProductAutomata }
{}

/// Finitary, bounded, linear and exponential elements, with wrong depths, degrees and triples refuted.
pub fn growth_is_classified()
    ensures active { SecondSwapIsActive }
    ensures finitary { SwapIsFinitary }
    ensures bounded { AddingMachineIsBounded }
    ensures linear { LinearGrowthIsLinear }
    ensures exponential { LamplighterIsExponential }
    ensures letters { LettersBelongToTerms }
{}

/// Limit sections, a nucleus and its depth, with wrong ones refuted.
pub fn nuclei_are_found()
    ensures limits { LimitSections }
    ensures nucleus { SwapHasTrivialNucleus }
    ensures elements { ElementsAreProducts }
{}

/// Images and canonical forms of rays, with wrong ones refuted.
pub fn rays_are_moved()
    ensures images { AddingMachineMovesRays }
    ensures forms { RaysAreCanonical }
    ensures same { RaysAreSame }
{}

// The model: words, permutations, wreath recursions, terms and their action on words.
// Its functions compute nothing. The contract of each is a law that holds of the definitions.
#![tactic(auto)]

ghost use Rattle.fr_model.specs.Laws.{PermutationsMoveLetters, ActsByRecursion, ActsOnTree, AlikeIsCongruence, SectionsByRules, AlikeIsDecidedByWords};
ghost use Rattle.fr_model.specs.LawsOfSizes.{SizesAreDetermined, PairCountsAreDetermined};
ghost use Rattle.fr_model.specs.LawsOfCodes.{CodesDecideAlike, SeparationsAreDetermined};
ghost use Rattle.fr_model.specs.LawsOfRanks.{RanksArePlaces};
ghost use Rattle.fr_model.specs.LawsOfConstructions.{SectionWordsActAsSections, ConstructionsActAsTerms};
ghost use Rattle.fr_model.specs.LawsOfGrowth.{GrowthIsOneClass, AlikeGrowAlike};
ghost use Rattle.fr_model.specs.LawsOfLimits.{RaysAreDetermined, NucleiAreDetermined, LimitsAreStates};

/// The identity, composites and inverses of permutations are permutations, and move the letters as such.
pub fn permutations_move_letters()
    ensures { PermutationsMoveLetters }
{}

/// A name acts by its wreath recursion.
pub fn acts_by_recursion()
    ensures { ActsByRecursion }
{}

/// A term acts on words as an automorphism of the tree of words.
pub fn acts_on_tree()
    ensures { ActsOnTree }
{}

/// Acting alike is an equivalence that products, inverses and sections respect.
pub fn alike_is_congruence()
    ensures { AlikeIsCongruence }
{}

/// The rules for sections of sections, products and inverses.
pub fn sections_by_rules()
    ensures { SectionsByRules }
{}

/// Whether two terms act alike is decided by words, and by the sections at letters.
pub fn alike_is_decided_by_words()
    ensures { AlikeIsDecidedByWords }
{}

/// A term has one size, which is above each number that it has more states than, and terms that act alike have the same.
pub fn sizes_are_determined()
    ensures { SizesAreDetermined }
{}

/// Two terms have one number of pairs of sections, and terms that act alike have the same.
pub fn pair_counts_are_determined()
    ensures { PairCountsAreDetermined }
{}

/// The rank of a permutation is its place among the permutations of its letters.
pub fn ranks_are_places()
    ensures { RanksArePlaces }
{}

/// Two terms have equal codes exactly where they act alike, and the canonical automaton acts as its term.
pub fn codes_decide_alike()
    ensures { CodesDecideAlike }
{}

/// Two terms have one separation: the least word at which they differ, or none where they act alike.
pub fn separations_are_determined()
    ensures { SeparationsAreDetermined }
{}

/// A section word acts as the section that it stands for, and free reduction keeps the action.
pub fn section_words_act_as_sections()
    ensures { SectionWordsActAsSections }
{}

/// The states of the automata for section words, inverses and products act as the terms that they stand for.
pub fn constructions_act_as_terms()
    ensures { ConstructionsActAsTerms }
{}

/// A term is of one class of growth at most, and its depth, its degree or its least triple is unique.
pub fn growth_is_one_class()
    ensures { GrowthIsOneClass }
{}

/// Terms that act alike have the same activity, depth, degree and least triple.
pub fn alike_grow_alike()
    ensures { AlikeGrowAlike }
{}

/// A ray has one canonical form and one image under a term.
pub fn rays_are_determined()
    ensures { RaysAreDetermined }
{}

/// A nucleus is unique up to acting alike, and its depth is one number.
pub fn nuclei_are_determined()
    ensures { NucleiAreDetermined }
{}

/// The limit sections of a state are the states that it reaches through a cycle, up to acting alike.
pub fn limits_are_states()
    ensures { LimitsAreStates }
{}

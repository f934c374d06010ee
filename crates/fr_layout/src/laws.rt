//! The laws of the layout and of what rows mean.
ghost use Rattle.fr_layout.specs.Laws.{PlacesAreApart, PacksNameOneRow, BlocksAreAutomata, BlocksAreMachines, WrittenBlocksStay};

/// Different fields, links, cells and cache words are different words. The fields, links and cells
/// lie before the cache.
pub fn places_are_apart()
    ensures { PlacesAreApart }
{}

/// A pack names one row of one block, and a cache word three rows.
pub fn packs_name_one_row()
    ensures { PacksNameOneRow }
{}

/// A written block is an automaton, and its rows are read from its words alone.
pub fn blocks_are_automata()
    ensures { BlocksAreAutomata }
{}

/// A block whose words say the rows of a machine means that machine.
pub fn blocks_are_machines()
    ensures { BlocksAreMachines }
{}

/// Where words change from 0 alone, what stands written keeps its meaning.
pub fn written_blocks_stay()
    ensures { WrittenBlocksStay }
{}

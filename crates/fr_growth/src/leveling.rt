//! Levels of components.

ghost use Rattle.std.specs.Prelude.{◌≡◌, ℕ, ◌+◌, ◌<◌, ◌≤◌, IfOk, length, slice_index};
ghost use Rattle.fr_growth.specs.Components.{AreComponents, AreInOrder};
ghost use Rattle.fr_growth.specs.Levels.{IsLevelBelow, AreLevels, IsRaised};

use crate::knots::Components;
use fr_alphabet::NoMemory;
use fr_machine::Minimal;
use std::alloc::Global;

/// The levels of the components, by their numbers.
#[derive(Drop)]
pub struct Levels {
    /// The level of each component.
    pub values: Vec<u16>,
    /// For each component whose level is not 0 a row at which it is attained.
    pub heads: Vec<u16>,
}

impl Levels {
    /// The level of a component.
    pub fn value_of(&self, number: u16) -> u16
        requires { number < length self.now.values.items }
        ensures { result ≡ slice_index self.now.values.items number }
    {
        self.values[number as usize]
    }

    /// The head of a component.
    pub fn head_of(&self, number: u16) -> u16
        requires { number < length self.now.heads.items }
        ensures { result ≡ slice_index self.now.heads.items number }
    {
        self.heads[number as usize]
    }

    // Raises the level of a component to this one, which is attained at a row.
    fn raise(&mut self, number: u16, level: u16, row: u16)
        requires values { number < length self.old.values.items }
        requires heads { number < length self.old.heads.items }
        ensures { IsRaised self.old.values.items self.old.heads.items number level row self.new.values.items self.new.heads.items }
    {
        let place = number as usize;
        if level > self.values[place] {
            self.values[place] = level;
            self.heads[place] = row;
        }
    }
}

/// Levels of the components: that of each row is at least its gain, added to the level of each component to which it
/// leads by a letter out of its own. Where the gains are the returns, and these are at most 1, the levels count how many
/// cycles a way can meet. Where the rows that move have gain 1, and there is no cycle, they are the lengths of the longest
/// ways. The time is linear in the size of the machine. The only error is want of memory.
pub fn find_levels(
    alloc: Global,
    m: &Minimal,
    components: &Components,
    gains: &[u8],
) -> Result<Levels, NoMemory>
    requires numbers { AreComponents m.now.alphabet m.now.rows components.now.numbers.items }
    requires order { AreInOrder (length m.now.rows) components.now.numbers.items components.now.order.items }
    requires count { length gains.now ≡ length m.now.rows }
    requires few { (s : ℕ) → slice_index gains.now s ≤ 1 }
    ensures { IfOk result (λ l. AreLevels m.now.alphabet m.now.rows components.now.numbers.items gains.now l.values.items l.heads.items) }
{
    let _known = m.machine();
    let mut levels = Levels {
        values: vec![in alloc; 0u16; m.size() as usize]?,
        heads: vec![in alloc; 0u16; m.size() as usize]?,
    };
    for s in &components.order {
        let level = level_below(m, &components.numbers, &levels.values, *s)
            + gains[*s as usize] as u16;
        levels.raise(components.numbers[*s as usize], level, *s);
    }
    Ok(levels)
}

// The greatest level of a component to which a row leads by a letter out of its own.
fn level_below(m: &Minimal, numbers: &[u16], levels: &[u16], s: u16) -> u16
    requires row { s < length m.now.rows }
    requires numbers { AreComponents m.now.alphabet m.now.rows numbers.now }
    requires levels { length levels.now ≡ length m.now.rows }
    ensures { IsLevelBelow m.now.alphabet m.now.rows numbers.now levels.now s result }
{
    let machine = m.machine();
    let own = numbers[s as usize];
    let mut most = 0;
    for x in 0..machine.alphabet().letters() {
        let number = numbers[machine.next(s, x + 1) as usize];
        let level = if number == own {
            0
        } else {
            levels[number as usize]
        };
        most = most.max(level);
    }
    most
}

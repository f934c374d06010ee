//! The least words that lead from a row to others.

ghost use Rattle.std.specs.Prelude.{◌≡◌, ◌≢◌, ℕ, ◌+◌, ◌-◌, ◌<◌, ◌≤◌, MatchOption, IfOk, IfSome, OnOk, List, length};
ghost use Rattle.fr_growth.specs.Distances.{AreDistances};
ghost use Rattle.fr_growth.specs.Layers.{IsGoalWord, IsLeastWord, IsLeastPair, HasWord, HasPair, AreFound, AreSound, IsExact, IsLeastLetter, IsNoLetter, IsExtended, IsFirstWord, IsLastBranch, IsNearest, IsSecondWord};

use crate::bits::{BitRow, has};
use crate::distances::{Distances, find_distances, find_near_distances};
use crate::edges::find_edges;
use crate::layers::find_layers;
use fr_alphabet::NoMemory;
use fr_machine::Minimal;
use std::alloc::Global;

// The most letters of a word.
const LONGEST: u16 = 4096;

// The most letters of a word that is soon found. Where rows lead to others without order, 1,024 of them lie within about 20
// letters.
const SHORT: u16 = 32;

/// Two words.
#[derive(Drop)]
pub struct Pair {
    /// The first.
    pub first: Vec<u8>,
    /// The second.
    pub second: Vec<u8>,
}

impl Pair {
    // The pair of two words.
    fn of(first: Vec<u8>, second: Vec<u8>) -> Pair
        ensures first { result.first ≡ first }
        ensures second { result.second ≡ second }
    {
        Pair { first, second }
    }
}

/// The shortlex least word that leads from a row to a goal. The only error is want of memory.
pub fn least_word(
    alloc: Global,
    m: &Minimal,
    goals: &[bool],
    from: u16,
) -> Result<Vec<u8>, NoMemory>
    requires row { from < length m.now.rows }
    requires goals { length goals.now ≡ length m.now.rows }
    requires some { (w : List ℕ) × IsGoalWord m.now.alphabet m.now.rows goals.now from w × (length w ≤ 4096) }
    ensures word { IfOk result (λ w. IsLeastWord m.now.alphabet m.now.rows goals.now from w.items) }
    ensures most { IfOk result (λ w. length w.items ≤ 4096) }
{
    let _known = m.machine();
    if goals[from as usize] {
        return Ok(Vec::new(alloc));
    }
    let distances = find_distances(alloc, m, from)?;
    let edges = find_edges(alloc, m, &distances, from)?;
    let bound = nearest(m, from, goals, &distances);
    let sets = find_layers(alloc, m, from, goals, &distances, &edges, bound)?;
    let mut word = Vec::with_capacity(alloc, sets.len())?;
    extend(m, goals, &sets, from, sets.len() - 1, &mut word)?;
    Ok(word)
}

/// The first and the second of the words that lead from a row to a goal, of the least length that has two. The only error
/// is want of memory.
pub fn least_pair(alloc: Global, m: &Minimal, goals: &[bool], from: u16) -> Result<Pair, NoMemory>
    requires row { from < length m.now.rows }
    requires goals { length goals.now ≡ length m.now.rows }
    requires some { (x : List ℕ) × (y : List ℕ) × IsGoalWord m.now.alphabet m.now.rows goals.now from x × IsGoalWord m.now.alphabet m.now.rows goals.now from y × (x ≢ y) × (length x ≡ length y) × (length x ≤ 4096) }
    ensures pair { IfOk result (λ p. IsLeastPair m.now.alphabet m.now.rows goals.now from p.first.items p.second.items) }
    ensures most { IfOk result (λ p. length p.first.items ≤ 4096) }
{
    let _known = m.machine();
    let distances = find_distances(alloc, m, from)?;
    let edges = find_edges(alloc, m, &distances, from)?;
    let sets = find_layers(alloc, m, from, goals, &distances, &edges, LONGEST)?;
    read_pair(alloc, m, goals, &sets, from)
}

/// The same pair, where it is soon found: all rows are near, and the words are short. The answer `None` says only that the
/// search was given up. The only error is want of memory.
pub fn short_pair(
    alloc: Global,
    m: &Minimal,
    goals: &[bool],
    from: u16,
) -> Result<Option<Pair>, NoMemory>
    requires row { from < length m.now.rows }
    requires goals { length goals.now ≡ length m.now.rows }
    ensures pair { IfOk result (λ o. IfSome o (λ p. IsLeastPair m.now.alphabet m.now.rows goals.now from p.first.items p.second.items)) }
    ensures most { IfOk result (λ o. IfSome o (λ p. length p.first.items ≤ 4096)) }
{
    let _known = m.machine();
    let most = SHORT.min(2 * m.size());
    match find_near_distances(alloc, m, from, most)? {
        Some(distances) => {
            let edges = find_edges(alloc, m, &distances, from)?;
            let sets = find_layers(alloc, m, from, goals, &distances, &edges, most)?;
            if sets.len() > most as usize {
                return Ok(None);
            }
            Ok(Some(read_pair(alloc, m, goals, &sets, from)?))
        }
        None => Ok(None),
    }
}

// The pair of words of the last of these lengths, which is the least that has two.
fn read_pair(
    alloc: Global,
    m: &Minimal,
    goals: &[bool],
    sets: &[BitRow],
    from: u16,
) -> Result<Pair, NoMemory>
    requires row { from < length m.now.rows }
    requires found { (most : ℕ) × (most ≤ 4096) × AreFound m.now.alphabet m.now.rows goals.now from most sets.now }
    requires some { HasPair m.now.alphabet m.now.rows goals.now from (length sets.now - 1) }
    ensures pair { IfOk result (λ p. IsLeastPair m.now.alphabet m.now.rows goals.now from p.first.items p.second.items) }
    ensures most { IfOk result (λ p. length p.first.items ≤ 4096) }
{
    let mut first = Vec::with_capacity(alloc, sets.len())?;
    extend(m, goals, sets, from, sets.len() - 1, &mut first)?;
    let second = second_word(alloc, m, goals, sets, from, &first)?;
    Ok(Pair::of(first, second))
}

// The least distance of a goal.
fn nearest(m: &Minimal, from: u16, goals: &[bool], distances: &Distances) -> u16
    requires goals { length goals.now ≡ length m.now.rows }
    requires distances { AreDistances m.now.alphabet m.now.rows from distances.now.rows.items distances.now.values.items }
    requires some { (w : List ℕ) × IsGoalWord m.now.alphabet m.now.rows goals.now from w × (length w ≤ 4096) }
    ensures { IsNearest m.now.alphabet m.now.rows goals.now from result }
{
    let _known = m.machine();
    let _from = from;
    for row in &distances.rows {
        if goals[*row as usize] {
            return distances.values[*row as usize];
        }
    }
    unreachable!()
}

// The least letter from a letter on that leads from a row into a set.
fn letter_from(m: &Minimal, set: &BitRow, row: u16, least: u8) -> Option<u8>
    requires row { row < length m.now.rows }
    ensures { MatchOption result (IsNoLetter m.now.alphabet m.now.rows set.now row least) (λ x. IsLeastLetter m.now.alphabet m.now.rows set.now row least x) }
{
    let machine = m.machine();
    for x in 0..machine.alphabet().letters() {
        if x + 1 >= least && has(set, machine.next(row, x + 1)) {
            return Some(x + 1);
        }
    }
    None
}

// Appends the first of the words of this length that lead from a row to a goal.
fn extend(
    m: &Minimal,
    goals: &[bool],
    sets: &[BitRow],
    from: u16,
    long: usize,
    word: &mut Vec<u8>,
) -> Result<(), NoMemory>
    requires row { from < length m.now.rows }
    requires long { long < length sets.now }
    requires sound { AreSound m.now.alphabet m.now.rows goals.now sets.now }
    requires exact { IsExact m.now.alphabet m.now.rows goals.now sets.now from long }
    requires some { HasWord m.now.alphabet m.now.rows goals.now from long }
    ensures { OnOk result (IsExtended m.now.alphabet m.now.rows goals.now from long word.old.items word.new.items) }
{
    let _goals = goals;
    let machine = m.machine();
    let mut row = from;
    let mut left = long;
    while left > 0 {
        left -= 1;
        match letter_from(m, &sets[left], row, 1) {
            Some(letter) => {
                word.push(letter)?;
                row = machine.next(row, letter);
            }
            None => unreachable!(),
        }
    }
    Ok(())
}

// A place of a word at which a later letter leads on to a goal.
#[derive(Clone, Copy)]
struct Branch {
    place: usize,
    letter: u8,
    row: u16,
}

// The second of the words of a length that lead from a row to a goal.
fn second_word(
    alloc: Global,
    m: &Minimal,
    goals: &[bool],
    sets: &[BitRow],
    from: u16,
    first: &[u8],
) -> Result<Vec<u8>, NoMemory>
    requires row { from < length m.now.rows }
    requires long { length first.now + 1 ≡ length sets.now }
    requires sound { AreSound m.now.alphabet m.now.rows goals.now sets.now }
    requires exact { IsExact m.now.alphabet m.now.rows goals.now sets.now from (length first.now) }
    requires first { IsFirstWord m.now.alphabet m.now.rows goals.now from (length first.now) first.now }
    requires some { HasPair m.now.alphabet m.now.rows goals.now from (length first.now) }
    ensures { IfOk result (λ w. IsSecondWord m.now.alphabet m.now.rows goals.now from first.now w.items) }
{
    let machine = m.machine();
    match last_branch(m, goals, sets, from, first) {
        Some(branch) => {
            let mut word = Vec::with_capacity(alloc, sets.len())?;
            word.extend_from_slice(&first[..branch.place])?;
            word.push(branch.letter)?;
            let row = machine.next(branch.row, branch.letter);
            extend(
                m,
                goals,
                sets,
                row,
                first.len() - branch.place - 1,
                &mut word,
            )?;
            Ok(word)
        }
        None => unreachable!(),
    }
}

// The last place of the first word of its length at which a later letter leads on to a goal.
fn last_branch(
    m: &Minimal,
    goals: &[bool],
    sets: &[BitRow],
    from: u16,
    first: &[u8],
) -> Option<Branch>
    requires row { from < length m.now.rows }
    requires long { length first.now + 1 ≡ length sets.now }
    requires first { IsFirstWord m.now.alphabet m.now.rows goals.now from (length first.now) first.now }
    ensures { IsLastBranch m.now.alphabet m.now.rows sets.now from first.now (length first.now) result }
{
    let _goals = goals;
    let machine = m.machine();
    let mut branch = None;
    let mut row = from;
    for place in 0..first.len() {
        if let Some(letter) = letter_from(
            m,
            &sets[first.len() - place - 1],
            row,
            first[place] + 1,
        ) {
            branch = Some(Branch { place, letter, row });
        }
        row = machine.next(row, first[place]);
    }
    branch
}

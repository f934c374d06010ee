//! Rows that act alike, found by refining a partition of all rows.

ghost use Rattle.std.specs.Prelude.{◌≡◌, ◌≢◌, ℕ, ◌<◌, ◌≤◌, ◌⊎◌, Some, None, [], ◌∷◌, IfOk, OnOk, MatchOption, length, true, slice_index, slice_index_or, replicate};
ghost use Rattle.fr_model.specs.Permutations.{numbers_from};
ghost use Rattle.std.specs.List.{All, Contains};
ghost use Rattle.fr_machine.specs.Rows.{IsRow, IsMachine};
ghost use Rattle.fr_classes.specs.Members.{IsMembers};
ghost use Rattle.fr_classes.specs.Numberings.{IsNumbering};
ghost use Rattle.fr_classes.specs.Classes.{AreClasses, HasMoreClasses};
ghost use Rattle.fr_classes.specs.Guesses.{IsGuess, IsStable};
ghost use Rattle.fr_classes.specs.KeyTables.{IsKeyTable};
ghost use Rattle.fr_classes.specs.Refinement.{signed_rows, work_at, class_in, clean_at, known_at, IsElected, IsVoted, IsTarget, IsPlaced, IsMarked, IsWider, IsSeen, IsUsed, IsTallied, IsQueued, IsRefining, IsSettled, IsSpread, IsSpreadOver, Progress};
ghost use Rattle.fr_classes.specs.Predecessors.{AreLinks, ArePredecessors, lists_of};

use crate::hashes::hashes;
use crate::key_table::{Key, KeyTable};
use crate::members::Members;
use crate::numbering::{Numbering, by_first_keys, by_first_places};
use crate::predecessors::Predecessors;
use crate::signature::{Signature, Signed, signature, with_signatures};
use fr_alphabet::NoMemory;
use fr_machine::{Machine, Row};
use std::alloc::Global;
use std::mem;

/// The class of each row: rows have one class exactly where they send each word to the same word, and classes are
/// numbered from 0 in the order of their first rows. The only error is want of memory.
///
/// Where a hash of what rows put out on short words gives classes that are stable, these are they. Else
/// they are refined as Moore does it for automata, by what rows put out and the classes of their next rows. After
/// Hopcroft, a row comes to another class only if that has at most half the size of the one before. So of n rows at most
/// log n times as many come to another class, whatever the machine, and only rows before these are looked at again. The
/// bound on time is not proved; what the classes are is.
pub fn classes(alloc: Global, m: &Machine) -> Result<Vec<u16>, NoMemory>
    ensures { IfOk result (λ of. AreClasses m.now.rows of.items) }
{
    let rows = m.rows();
    let guess = guess(alloc, rows)?;
    if guess.is_stable(alloc, rows)? {
        return Ok(guess.numbering.of);
    }
    refined_classes(alloc, rows, guess.numbering)
}

/// The class of each row, as [`classes`], from a guess. The only error is want of memory.
pub fn refined_classes(alloc: Global, rows: &[Row], guess: Numbering) -> Result<Vec<u16>, NoMemory>
    requires machine { (d : ℕ) × IsMachine d rows.now }
    requires guess { IsGuess rows.now guess.of.items guess.count }
    ensures { IfOk result (λ of. AreClasses rows.now of.items) }
{
    let partition = refined(alloc, rows, guess, rows.len())?;
    by_first_places(alloc, partition.known.len(), &partition.of)
}

/// The class of each row, as [`classes`], if there are at most so many. The answer is `None` exactly where there are more,
/// that is more rows than the limit no two of which act alike; then the refinement ends as soon as this is known. The
/// only error is want of memory.
pub fn classes_within(
    alloc: Global,
    m: &Machine,
    limit: usize,
) -> Result<Option<Vec<u16>>, NoMemory>
    ensures { IfOk result (λ o. MatchOption o (HasMoreClasses m.now.rows limit) (λ of. AreClasses m.now.rows of.items × (¬ HasMoreClasses m.now.rows limit))) }
{
    let rows = m.rows();
    let guess = guess(alloc, rows)?;
    if guess.numbering.count > limit {
        return Ok(None);
    }
    if guess.is_stable(alloc, rows)? {
        return Ok(Some(guess.numbering.of));
    }
    let partition = refined(alloc, rows, guess.numbering, limit)?;
    if partition.known.len() > limit {
        return Ok(None);
    }
    Ok(Some(by_first_places(alloc, partition.known.len(), &partition.of)?))
}

// The most letters that are looked at for a guess.
const GUESS_DEPTH: usize = 16;

// The letters that tell the rows of most small machines.
const SHORT_DEPTH: usize = 6;

// The most rows of a machine that is small.
const SMALL_COUNT: usize = 64;

// Rows in classes, such that rows that act alike are in one class.
#[derive(Drop)]
struct Guessed {
    // The classes.
    numbering: Numbering,
    // If set, rows of one class are known to have one signature.
    known: bool,
}

impl Guessed {
    // Whether rows of one class have one signature. If so, they act alike.
    fn is_stable(&self, alloc: Global, rows: &[Row]) -> Result<bool, NoMemory>
        requires machine { (d : ℕ) × IsMachine d rows.now }
        requires guess { IsGuess rows.now self.now.numbering.of.items self.now.numbering.count }
        requires known { self.now.known ≡ true → IsStable rows.now self.now.numbering.of.items }
        ensures { IfOk result (λ b. b ≡ true → IsStable rows.now self.now.numbering.of.items) }
    {
        if self.known {
            return Ok(true);
        }
        is_stable(alloc, rows, &self.numbering)
    }
}

// The rows in classes by a hash of what they put out on short words. Mostly these are the classes already, and in small
// machines often those by fewer letters.
fn guess(alloc: Global, rows: &[Row]) -> Result<Guessed, NoMemory>
    requires { (d : ℕ) × IsMachine d rows.now }
    ensures guess { IfOk result (λ g. IsGuess rows.now g.numbering.of.items g.numbering.count) }
    ensures known { IfOk result (λ g. g.known ≡ true → IsStable rows.now g.numbering.of.items) }
{
    if rows.len() > SHORT_DEPTH && rows.len() <= SMALL_COUNT {
        let numbering = guess_by(alloc, rows, SHORT_DEPTH)?;
        if is_stable(alloc, rows, &numbering)? {
            return Ok(Guessed {
                numbering,
                known: true,
            });
        }
    }
    Ok(Guessed {
        numbering: guess_by(alloc, rows, rows.len().min(GUESS_DEPTH))?,
        known: false,
    })
}

// The rows in classes by a hash of what they put out on words of at most so many letters.
fn guess_by(alloc: Global, rows: &[Row], depth: usize) -> Result<Numbering, NoMemory>
    requires { (d : ℕ) × IsMachine d rows.now }
    ensures { IfOk result (λ g. IsGuess rows.now g.of.items g.count) }
{
    by_first_keys(alloc, &hashes(alloc, rows, depth)?)
}

// Whether rows of one class have one signature. If so, they act alike.
fn is_stable(alloc: Global, rows: &[Row], guess: &Numbering) -> Result<bool, NoMemory>
    requires machine { (d : ℕ) × IsMachine d rows.now }
    requires guess { IsGuess rows.now guess.now.of.items guess.now.count }
    ensures { IfOk result (λ b. b ≡ true → IsStable rows.now guess.now.of.items) }
{
    let known = signature_of_each(alloc, rows, guess)?;
    for (s, row) in rows.iter().enumerate() {
        if known[guess.of[s] as usize] != signature(row, &guess.of) {
            return Ok(false);
        }
    }
    Ok(true)
}

// For each class the signature of one of its rows.
fn signature_of_each(
    alloc: Global,
    rows: &[Row],
    guess: &Numbering,
) -> Result<Vec<Signature>, NoMemory>
    requires machine { (d : ℕ) × IsMachine d rows.now }
    requires guess { IsGuess rows.now guess.now.of.items guess.now.count }
    ensures { IfOk result (λ known. length known.items ≡ guess.now.count) }
{
    let mut known = vec![in alloc; [0; 16]; guess.count]?;
    for (s, row) in rows.iter().enumerate() {
        known[guess.of[s] as usize] = signature(row, &guess.of);
    }
    Ok(known)
}

// The classes of a guess refined, until no row is dirty or there are more classes than the limit. Rows of different classes do
// not act alike, however far the refinement has come.
fn refined(
    alloc: Global,
    rows: &[Row],
    guess: Numbering,
    limit: usize,
) -> Result<Partition, NoMemory>
    requires machine { (d : ℕ) × IsMachine d rows.now }
    requires guess { IsGuess rows.now guess.of.items guess.count }
    ensures refining { IfOk result (λ p. IsRefining rows.now p) }
    ensures ends { IfOk result (λ p. IsQueued p [] ⊎ (limit < length p.known.items)) }
{
    let before = Predecessors::new(alloc, rows)?;
    let mut partition = Partition::new(alloc, guess)?;
    let mut members = Members::new(alloc, rows.len())?;
    members.follow(&partition.of, &partition.todo);
    while !partition.todo.is_empty() && partition.known.len() <= limit {
        partition.refine(alloc, rows, &before, &mut members)?;
    }
    Ok(partition)
}

// The classes so far. A row is clean while none of its next rows has come to another class since its own was chosen.
#[derive(Drop)]
struct Partition {
    // The class of each row.
    of: Vec<u16>,
    // The signature of the clean rows of each class.
    known: Vec<Signature>,
    // How many rows of each class are clean.
    clean: Vec<u32>,
    // Whether a row is dirty.
    dirty: Vec<bool>,
    // The dirty rows.
    todo: Vec<u16>,
    // For each class how many more rows were for its signature in its latest vote than against it. Later classes may have no
    // entry yet.
    leads: Vec<u32>,
}

impl Partition {
    // The rows in the classes of a guess, and all dirty.
    fn new(alloc: Global, guess: Numbering) -> Result<Partition, NoMemory>
        requires { length guess.of.items ≤ 65536 }
        ensures of { IfOk result (λ p. p.of.items ≡ guess.of.items) }
        ensures dirty { IfOk result (λ p. p.dirty.items ≡ replicate (length guess.of.items) true) }
        ensures known { IfOk result (λ p. length p.known.items ≡ guess.count) }
        ensures clean { IfOk result (λ p. p.clean.items ≡ replicate guess.count 0) }
        ensures todo { IfOk result (λ p. p.todo.items ≡ numbers_from 0 (length guess.of.items)) }
    {
        let Numbering { of, count } = guess;
        let dirty = vec![in alloc; true; of.len()]?;
        let mut todo = Vec::with_capacity(alloc, of.len())?;
        for row in 0..of.len() {
            todo.push(row as u16)?;
        }
        Ok(Partition {
            of,
            known: vec![in alloc; [0; 16]; count]?,
            clean: vec![in alloc; 0u32; count]?,
            dirty,
            todo,
            leads: Vec::new(alloc),
        })
    }

    // Sends the dirty rows to their classes, which makes others dirty: one round of refinement. `members` has the rows of
    // each class, and `before` the rows before each row.
    fn refine(
        &mut self,
        alloc: Global,
        rows: &[Row],
        before: &Predecessors,
        members: &mut Members,
    ) -> Result<(), NoMemory>
        requires machine { (d : ℕ) × IsMachine d rows.now }
        requires before { ArePredecessors rows.now before.now }
        requires refining { IsRefining rows.now self.old }
        requires queued { IsQueued self.old self.old.todo.items }
        requires members { IsMembers members.old }
        requires member_count { length members.old.of.items ≡ length rows.now }
        ensures refining { OnOk result (IsRefining rows.now self.new) }
        ensures queued { OnOk result (IsQueued self.new self.new.todo.items) }
        ensures progress { OnOk result (Progress self.old self.new) }
        ensures members { OnOk result (IsMembers members.new) }
        ensures member_count { OnOk result (length members.new.of.items ≡ length rows.now) }
    {
        self.mark_most(members)?;
        let todo = mem::replace(&mut self.todo, Vec::new(alloc));
        let moved = self.settle(alloc, rows, &todo)?;
        members.follow(&self.of, &moved);
        self.mark_before_each(before, &moved)?;
        Ok(())
    }

    // Takes all rows of a class for dirty where most of them are. Clean rows keep the number of their class, so without
    // this most rows of a class might come to another one. Now no row comes to a class of more than half the size of
    // the one that it had.
    fn mark_most(&mut self, members: &Members) -> Result<(), NoMemory>
        requires members { IsMembers members.now }
        requires count { length members.now.of.items ≡ length self.old.of.items }
        requires tallied { IsTallied self.old }
        requires used { IsUsed self.old }
        requires queued { IsQueued self.old self.old.todo.items }
        ensures { OnOk result (IsWider self.old self.new) }
    {
        for i in 0..self.todo.len() {
            let row = self.todo[i];
            let class = self.of[row as usize];
            let clean = self.clean[class as usize];
            let count = members.size(class);
            if clean > 0 && 2 * clean < count {
                self.mark_class(members, row, count)?;
            }
        }
        Ok(())
    }

    // Takes all rows of a class, which are so many, for dirty.
    fn mark_class(&mut self, members: &Members, row: u16, count: u32) -> Result<(), NoMemory>
        requires members { IsMembers members.now }
        requires count { length members.now.of.items ≡ length self.old.of.items }
        requires row { row < length self.old.of.items }
        requires tallied { IsTallied self.old }
        requires queued { IsQueued self.old self.old.todo.items }
        ensures { OnOk result (IsWider self.old self.new) }
    {
        let mut member = row;
        for _ in 0..count {
            self.mark(member)?;
            member = members.next(member);
        }
        Ok(())
    }

    // Sends these rows, which are all that are dirty, to their classes, and gives those that came to another class. What
    // they put out and where they lead is read before the first of them goes.
    fn settle(&mut self, alloc: Global, rows: &[Row], todo: &[u16]) -> Result<Vec<u16>, NoMemory>
        requires rows { All (λ r. IsRow (length r.perm) (length self.old.of.items) r) rows.now }
        requires refining { IsRefining rows.now self.old }
        requires queued { IsQueued self.old todo.now }
        requires todo { self.old.todo.items ≡ [] }
        ensures { IfOk result (λ moved. IsSettled rows.now self.old.of.items (length self.old.known.items) self.new moved.items) }
    {
        let work = with_signatures(alloc, rows, &self.of, todo)?;
        self.elect(&work)?;
        let mut seen = KeyTable::new(alloc, work.len())?;
        let mut moved = Vec::new(alloc);
        for item in &work {
            if self.place(&mut seen, item)? {
                moved.push(item.row)?;
            }
        }
        Ok(moved)
    }

    // Takes for the signature of each class that has no clean row, and a row among these, that of one of them: the one that
    // more than half of them have, if there is one, by the majority vote of Boyer and Moore. So such a class leaves its
    // number to most of its rows; this is for speed alone. Only the classes of these rows are looked at, as there may be as
    // many rounds as classes.
    fn elect(&mut self, work: &[Signed]) -> Result<(), NoMemory>
        requires classes { All (λ w. w.class < length self.old.known.items) work.now }
        requires as_many { length self.old.clean.items ≡ length self.old.known.items }
        ensures { OnOk result (IsElected self.old self.new work.now) }
    {
        if self.have_clean(work) {
            return Ok(());
        }
        self.leads.resize(self.known.len(), 0)?;
        clear(&mut self.leads, work);
        for item in work {
            self.vote(item);
        }
        Ok(())
    }

    // Whether each class of these rows has a clean row.
    fn have_clean(&self, work: &[Signed]) -> bool
        requires classes { All (λ w. w.class < length self.now.known.items) work.now }
        requires as_many { length self.now.clean.items ≡ length self.now.known.items }
        ensures { result ≡ true → (k : ℕ) → k < length work.now → 0 < clean_at self.now (work_at work.now k).class }
    {
        for item in work {
            if self.clean[item.class as usize] == 0 {
                return false;
            }
        }
        true
    }

    // Counts a row for or against the signature of its class.
    fn vote(&mut self, item: &Signed)
        requires class { item.now.class < length self.old.known.items }
        requires as_many { length self.old.clean.items ≡ length self.old.known.items }
        requires leads { length self.old.leads.items ≡ length self.old.known.items }
        ensures { IsVoted self.old self.new item.now.class item.now.signature }
    {
        let class = item.class as usize;
        if self.clean[class] > 0 {
            return;
        }
        if self.known[class] == item.signature {
            self.leads[class] = self.leads[class].saturating_add(1);
        } else if self.leads[class] > 0 {
            self.leads[class] -= 1;
        } else {
            self.known[class] = item.signature;
            self.leads[class] = 1;
        }
    }

    // Sends a row to its class if it is dirty, and tells whether that is another one than before.
    fn place(&mut self, seen: &mut KeyTable, item: &Signed) -> Result<bool, NoMemory>
        requires row { item.now.row < length self.old.of.items }
        requires tallied { IsTallied self.old }
        requires other { known_at self.old (class_in self.old item.now.row) ≢ item.now.signature → length self.old.known.items < 65536 }
        requires seen { IsSeen self.old seen.old }
        ensures { IfOk result (λ moves. IsPlaced self.old self.new seen.old seen.new item.now.row item.now.signature moves) }
    {
        let row = item.row as usize;
        if !self.dirty[row] {
            return Ok(false);
        }
        let class = self.of[row];
        let target = self.target(seen, class, &item.signature)?;
        self.of[row] = target;
        self.dirty[row] = false;
        self.clean[target as usize] += 1;
        Ok(target != class)
    }

    // The class to which a row of this class with this signature goes: its own, if that is the signature of the class, else
    // another, which is the same for each row with both.
    fn target(
        &mut self,
        seen: &mut KeyTable,
        class: u16,
        signature: &Signature,
    ) -> Result<u16, NoMemory>
        requires class { class < length self.old.known.items }
        requires as_many { length self.old.clean.items ≡ length self.old.known.items }
        requires room { known_at self.old class ≢ signature.now → length self.old.known.items < 65536 }
        requires table { IsKeyTable seen.old }
        ensures { IfOk result (λ m. IsTarget self.old self.new seen.old seen.new class signature.now m) }
    {
        if self.known[class as usize] == *signature {
            return Ok(class);
        }
        let key = key_of(class, signature);
        if let Some(number) = seen.number_of(&key) {
            return Ok(number);
        }
        let number = self.known.len() as u16;
        seen.enter(&key, number)?;
        self.known.push(*signature)?;
        self.clean.push(0)?;
        Ok(number)
    }

    // Takes the rows before these for dirty.
    fn mark_before_each(&mut self, before: &Predecessors, moved: &[u16]) -> Result<(), NoMemory>
        requires links { AreLinks before.now }
        requires before { All (λ ps. All (λ p. p < length self.old.of.items) ps) (lists_of before.now) }
        requires moved { All (λ s. s < length before.now.latest.items) moved.now }
        requires tallied { IsTallied self.old }
        requires queued { IsQueued self.old self.old.todo.items }
        ensures { OnOk result (IsSpreadOver self.old self.new (lists_of before.now) moved.now) }
    {
        for row in moved {
            self.mark_before(before, *row)?;
        }
        Ok(())
    }

    // Takes the rows before a row for dirty.
    fn mark_before(&mut self, before: &Predecessors, row: u16) -> Result<(), NoMemory>
        requires links { AreLinks before.now }
        requires row { row < length before.now.latest.items }
        requires inside { All (λ s. s < length self.old.of.items) (slice_index_or (lists_of before.now) row []) }
        requires tallied { IsTallied self.old }
        requires queued { IsQueued self.old self.old.todo.items }
        ensures { OnOk result (IsSpread self.old self.new (slice_index_or (lists_of before.now) row [])) }
    {
        let mut number = before.latest(row);
        while number > 0 {
            let link = before.link(number);
            self.mark(link.row)?;
            number = link.earlier;
        }
        Ok(())
    }

    // Takes a row for dirty.
    fn mark(&mut self, row: u16) -> Result<(), NoMemory>
        requires row { row < length self.old.of.items }
        requires tallied { IsTallied self.old }
        requires queued { IsQueued self.old self.old.todo.items }
        ensures { OnOk result (IsMarked self.old self.new row) }
    {
        let s = row as usize;
        if self.dirty[s] {
            return Ok(());
        }
        self.dirty[s] = true;
        self.clean[self.of[s] as usize] -= 1;
        self.todo.push(row)?;
        Ok(())
    }
}

// Sets back the leads of the classes of these rows.
fn clear(leads: &mut Vec<u32>, work: &[Signed])
    requires { All (λ w. w.class < length leads.old.items) work.now }
    ensures count { length leads.new.items ≡ length leads.old.items }
    ensures none { (k : ℕ) → k < length work.now → slice_index leads.new.items (work_at work.now k).class ≡ 0 }
{
    for item in work {
        leads[item.class as usize] = 0;
    }
}

// The key of rows of one class with one signature.
fn key_of(class: u16, signature: &Signature) -> Key
    ensures { result ≡ class ∷ signature.now }
{
    let mut key = [0; 17];
    key[0] = class;
    key[1..].copy_from_slice(signature);
    key
}

//! The components of a machine.

ghost use Rattle.std.specs.Prelude.{◌≡◌, ℕ, ◌+◌, ◌-◌, ◌<◌, ◌≤◌, IfOk, OnOk, length, slice_index};
ghost use Rattle.fr_model.specs.Automata.{IsReached};
ghost use Rattle.fr_machine.specs.Rows.{states_of};
ghost use Rattle.fr_growth.specs.Components.{AreComponents, AreInOrder};
ghost use Rattle.fr_growth.specs.Knots.{IsPath, IsDescent, IsSettled, IsNumbering, last_of, work};

use fr_alphabet::NoMemory;
use fr_machine::Minimal;
use std::alloc::Global;

/// The components of the rows of a machine: two rows share one where each is reached from the other.
#[derive(Drop)]
pub struct Components {
    /// For each row the number of its component. No letter leads to a greater number.
    pub numbers: Vec<u16>,
    /// The rows, in rising order of these numbers.
    pub order: Vec<u16>,
}

impl Components {
    /// The number of the component of a row.
    pub fn number_of(&self, row: u16) -> u16
        requires { row < length self.now.numbers.items }
        ensures { result ≡ slice_index self.now.numbers.items row }
    {
        self.numbers[row as usize]
    }
}

// In place of a place or a number that a row has not.
const NOWHERE: u16 = u16::MAX;

// A descent along a path of rows. Pieces of the path, the knots, hold rows that are reached from each other.
#[derive(Drop)]
struct Descent {
    path: Vec<u16>,
    // The places on the path where its knots begin.
    bounds: Vec<u16>,
    // The places of the rows that were not left, of which the last is looked at.
    walk: Vec<u16>,
    // For each row its first letter that was not looked at; 0 until the row is met.
    letters: Vec<u8>,
    // For each row its place on the path.
    places: Vec<u16>,
    numbers: Vec<u16>,
    order: Vec<u16>,
    count: u16,
}

/// The components of a minimal machine, in time of its size. The only error is want of memory.
///
/// The descent goes along a path and draws a piece of it together where a letter leads back (Gabow, *Path-based
/// depth-first search for strong and biconnected components*).
pub fn find_components(alloc: Global, m: &Minimal) -> Result<Components, NoMemory>
    ensures numbers { IfOk result (λ c. AreComponents m.now.alphabet m.now.rows c.numbers.items) }
    ensures order { IfOk result (λ c. AreInOrder (length m.now.rows) c.numbers.items c.order.items) }
{
    let _known = m.machine();
    let mut descent = Descent::new(alloc, m)?;
    descent.enter(m, 0)?;
    while !descent.walk.is_empty() {
        descent.step(m)?;
    }
    Ok(Components {
        numbers: descent.numbers,
        order: descent.order,
    })
}

impl Descent {
    // A descent that has met no row.
    fn new(alloc: Global, m: &Minimal) -> Result<Descent, NoMemory>
        ensures descent { IfOk result (λ descent. IsDescent m.now.alphabet m.now.rows descent) }
        ensures empty { IfOk result (λ descent. length descent.path.items ≡ 0) }
        ensures fresh { IfOk result (λ descent. slice_index descent.letters.items 0 ≡ 0) }
    {
        let _known = m.machine();
        let size = m.size() as usize;
        Ok(Descent {
            path: Vec::with_capacity(alloc, size)?,
            bounds: Vec::with_capacity(alloc, size)?,
            walk: Vec::with_capacity(alloc, size)?,
            letters: vec![in alloc; 0u8; size]?,
            places: vec![in alloc; NOWHERE; size]?,
            numbers: vec![in alloc; NOWHERE; size]?,
            order: Vec::with_capacity(alloc, size)?,
            count: 0,
        })
    }

    // Puts a new row behind the path, as a knot by itself.
    fn enter(&mut self, m: &Minimal, row: u16) -> Result<(), NoMemory>
        requires descent { IsDescent m.now.alphabet m.now.rows self.old }
        requires row { row < length m.now.rows }
        requires fresh { slice_index self.old.letters.items row ≡ 0 }
        requires reached { (a : ℕ) → a < length self.old.path.items → IsReached m.now.alphabet (states_of m.now.rows) (slice_index self.old.path.items a) row }
        ensures descent { OnOk result (IsDescent m.now.alphabet m.now.rows self.new) }
        ensures work { OnOk result (work m.now.alphabet self.new ≤ work m.now.alphabet self.old) }
        ensures path { OnOk result (length self.new.path.items ≡ length self.old.path.items + 1) }
        ensures place { OnOk result (slice_index self.new.places.items row ≡ length self.old.path.items) }
        ensures kept { OnOk result ((a : ℕ) → a < length self.old.path.items → slice_index self.new.path.items a ≡ slice_index self.old.path.items a) }
        ensures letter { OnOk result (slice_index self.new.letters.items row ≡ 1) }
        ensures letters { OnOk result ((u : ℕ) → 1 ≤ slice_index self.old.letters.items u → slice_index self.new.letters.items u ≡ slice_index self.old.letters.items u) }
    {
        let _known = m.machine();
        let place = self.path.len() as u16;
        self.path.push(row)?;
        self.bounds.push(place)?;
        self.walk.push(place)?;
        self.letters[row as usize] = 1;
        self.places[row as usize] = place;
        Ok(())
    }

    // One step: the last row of the walk looks at its next letter, or is left.
    fn step(&mut self, m: &Minimal) -> Result<(), NoMemory>
        requires descent { IsDescent m.now.alphabet m.now.rows self.old }
        requires some { 0 < length self.old.walk.items }
        ensures descent { OnOk result (IsDescent m.now.alphabet m.now.rows self.new) }
        ensures less { OnOk result (work m.now.alphabet self.new < work m.now.alphabet self.old) }
        ensures letters { OnOk result ((u : ℕ) → 1 ≤ slice_index self.old.letters.items u → 1 ≤ slice_index self.new.letters.items u) }
    {
        let machine = m.machine();
        let place = self.walk[self.walk.len() - 1];
        let row = self.path[place as usize];
        let letter = self.letters[row as usize];
        if letter > machine.alphabet().letters() {
            return self.leave(m, place);
        }
        self.meet(m, place, machine.next(row, letter))?;
        self.letters[row as usize] = letter + 1;
        Ok(())
    }

    // The last row of the walk leads to a row: a new one is entered, and with one of the path the knots are drawn together.
    fn meet(&mut self, m: &Minimal, place: u16, target: u16) -> Result<(), NoMemory>
        requires descent { IsDescent m.now.alphabet m.now.rows self.old }
        requires some { 0 < length self.old.walk.items }
        requires place { place ≡ last_of self.old.walk.items }
        requires target { target < length m.now.rows }
        requires reached { IsReached m.now.alphabet (states_of m.now.rows) (slice_index self.old.path.items place) target }
        ensures descent { OnOk result (IsDescent m.now.alphabet m.now.rows self.new) }
        ensures work { OnOk result (work m.now.alphabet self.new ≤ work m.now.alphabet self.old) }
        ensures place { OnOk result (place < length self.new.path.items) }
        ensures row { OnOk result (slice_index self.new.path.items place ≡ slice_index self.old.path.items place) }
        ensures letters { OnOk result ((u : ℕ) → 1 ≤ slice_index self.old.letters.items u → slice_index self.new.letters.items u ≡ slice_index self.old.letters.items u) }
        ensures settled { OnOk result (IsSettled self.new.path.items self.new.bounds.items self.new.places.items self.new.numbers.items self.new.count place target) }
    {
        let _known = m.machine();
        if self.letters[target as usize] == 0 {
            return self.enter(m, target);
        }
        self.draw_together(m, place, target);
        Ok(())
    }

    // Makes one knot of all from that of a row on. A row that has its number is in none.
    fn draw_together(&mut self, m: &Minimal, place: u16, target: u16)
        requires descent { IsDescent m.now.alphabet m.now.rows self.old }
        requires some { 0 < length self.old.walk.items }
        requires place { place ≡ last_of self.old.walk.items }
        requires target { target < length m.now.rows }
        requires reached { IsReached m.now.alphabet (states_of m.now.rows) (slice_index self.old.path.items place) target }
        ensures descent { IsDescent m.now.alphabet m.now.rows self.new }
        ensures path { self.new.path ≡ self.old.path }
        ensures walk { self.new.walk ≡ self.old.walk }
        ensures letters { self.new.letters ≡ self.old.letters }
        ensures places { self.new.places ≡ self.old.places }
        ensures last { (i : ℕ) → i < length self.new.bounds.items → slice_index self.new.bounds.items i ≤ slice_index self.new.places.items target }
    {
        let _known = m.machine();
        let begin = self.places[target as usize];
        while self.bounds[self.bounds.len() - 1] > begin {
            self.bounds.pop();
        }
    }

    // Leaves the last row of the walk, and with it the knot that begins there.
    fn leave(&mut self, m: &Minimal, place: u16) -> Result<(), NoMemory>
        requires descent { IsDescent m.now.alphabet m.now.rows self.old }
        requires some { 0 < length self.old.walk.items }
        requires place { place ≡ last_of self.old.walk.items }
        requires whole { m.now.alphabet < slice_index self.old.letters.items (slice_index self.old.path.items place) }
        ensures descent { OnOk result (IsDescent m.now.alphabet m.now.rows self.new) }
        ensures less { OnOk result (work m.now.alphabet self.new < work m.now.alphabet self.old) }
        ensures letters { self.new.letters ≡ self.old.letters }
    {
        let _known = m.machine();
        if self.bounds[self.bounds.len() - 1] == place {
            return self.finish(m);
        }
        self.walk.pop();
        Ok(())
    }

    // The last knot leads nowhere else, so it is a component.
    fn finish(&mut self, m: &Minimal) -> Result<(), NoMemory>
        requires descent { IsDescent m.now.alphabet m.now.rows self.old }
        requires some { 0 < length self.old.walk.items }
        requires knots { 0 < length self.old.bounds.items }
        requires place { last_of self.old.bounds.items ≡ last_of self.old.walk.items }
        requires whole { m.now.alphabet < slice_index self.old.letters.items (slice_index self.old.path.items (last_of self.old.walk.items)) }
        ensures descent { OnOk result (IsDescent m.now.alphabet m.now.rows self.new) }
        ensures less { OnOk result (work m.now.alphabet self.new < work m.now.alphabet self.old) }
        ensures letters { self.new.letters ≡ self.old.letters }
    {
        let _known = m.machine();
        self.walk.pop();
        let begin = self.bounds.pop().unwrap() as usize;
        self.number(m, begin)?;
        self.path.truncate(begin);
        self.count += 1;
        Ok(())
    }

    // Gives the rows from a place on the next number.
    fn number(&mut self, m: &Minimal, begin: usize) -> Result<(), NoMemory>
        requires path { IsPath (length m.now.rows) self.old.path.items self.old.places.items }
        requires numbers { length self.old.numbers.items ≡ length m.now.rows }
        requires begin { begin ≤ length self.old.path.items }
        ensures path { self.new.path ≡ self.old.path }
        ensures bounds { self.new.bounds ≡ self.old.bounds }
        ensures walk { self.new.walk ≡ self.old.walk }
        ensures letters { self.new.letters ≡ self.old.letters }
        ensures count { self.new.count ≡ self.old.count }
        ensures numbering { OnOk result (IsNumbering (length m.now.rows) self.old.path.items begin (length self.old.path.items) self.old.count self.old.places.items self.old.numbers.items self.old.order.items self.new.places.items self.new.numbers.items self.new.order.items) }
    {
        let _known = m.machine();
        for place in begin..self.path.len() {
            let row = self.path[place];
            self.order.push(row)?;
            self.numbers[row as usize] = self.count;
            self.places[row as usize] = NOWHERE;
        }
        Ok(())
    }
}

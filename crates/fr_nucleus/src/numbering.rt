//! Which products are members, and in what order they were found.

ghost use Rattle.std.specs.Prelude.{◌≡◌, ◌≢◌, ℕ, ◌<◌, ◌≤◌, ◌*◌, ◌⊎◌, IfOk, IfErr, OnOk, length, slice_index};
ghost use Rattle.std.specs.List.{All, Contains};
ghost use Rattle.fr_model.specs.Terms.{IsAlike};
ghost use Rattle.fr_machine.specs.Rows.{IsRow, row_term, row_at};
ghost use Rattle.fr_classes.specs.Classes.{AreClasses};
ghost use Rattle.fr_machine.specs.Walks.{IsKeys};
ghost use Rattle.fr_minimal.specs.Smallest.{IsChoice};
ghost use Rattle.fr_nucleus.specs.Numberings.{AreOutside, IsMemberRow, IsNumberedClass, IsTooMany, AreKnown, AreNumbered, IsFull, IsNumberingOf, IsOverfull, AreGrown};
ghost use Rattle.fr_nucleus.specs.Surveys.{IsSurvey, classes_of};

use crate::fault::NucleusFault;
use crate::survey::Survey;
use fr_alphabet::NoMemory;
use fr_machine::{Machine, Row, Walk};
use std::alloc::Global;

/// Numbers the classes of so many members, and behind them those of all other products that are reached from cycles. A member
/// is its product with the identity, which stands in the first of `width` columns.
///
/// Errors: `Passes(most)` exactly where there are more than `most` of them, and want of memory.
pub fn number_classes(
    alloc: Global,
    products: &Machine,
    survey: &Survey,
    members: u16,
    width: u16,
    most: u16,
) -> Result<Walk, NucleusFault>
    requires survey { IsSurvey products.now.alphabet products.now.rows survey.now }
    requires classes { AreClasses products.now.rows (classes_of survey.now) }
    requires inside { (i : ℕ) → i < members → i * width < length products.now.rows }
    requires apart { (i j : ℕ) → i < j → j < members → ¬ IsAlike (row_term products.now.rows (i * width)) (row_term products.now.rows (j * width)) }
    requires few { members ≤ most }
    ensures numbers { IfOk result (λ w. IsNumberingOf products.now.alphabet products.now.rows members width most (classes_of survey.now) w.keys) }
    ensures bound { IfOk result (λ w. w.bound ≡ length (classes_of survey.now)) }
    ensures err { IfErr result (λ e. (e ≡ NucleusFault.NoMemory) ⊎ ((e ≡ NucleusFault.Passes most) × IsOverfull products.now.alphabet products.now.rows members width most)) }
{
    // For the proof: what is known of the rows, and below of the keys.
    let _products = products.rows();
    let of = survey.of(products);
    let limits = survey.limits.marks();
    let mut walk = number_members(alloc, of, members, width)?;
    number_limits(&mut walk, of, limits, most)?;
    let _keys = walk.keys();
    Ok(walk)
}

/// The members, of which these are known, with those that are new behind them. The only error is want of memory.
pub fn grown_members(
    alloc: Global,
    of: &[u16],
    walk: &Walk,
    products: &Machine,
    known: &Machine,
) -> Result<Machine, NoMemory>
    requires alphabets { known.now.alphabet ≡ products.now.alphabet }
    requires classes { AreClasses products.now.rows of.now }
    requires keys { IsKeys (length of.now) walk.now.keys }
    requires bound { walk.now.bound ≡ length of.now }
    requires few { length known.now.rows ≤ length walk.now.keys }
    requires used { (i : ℕ) → length known.now.rows ≤ i → i < length walk.now.keys → (r : ℕ) × (r < length products.now.rows) × (slice_index of.now r ≡ slice_index walk.now.keys i) }
    requires closed { (i r x : ℕ) → length known.now.rows ≤ i → i < length walk.now.keys → r < length products.now.rows → slice_index of.now r ≡ slice_index walk.now.keys i → x < products.now.alphabet → Contains walk.now.keys (slice_index of.now (slice_index (row_at products.now.rows r).next x)) }
    ensures alphabet { IfOk result (λ m. m.alphabet ≡ products.now.alphabet) }
    ensures rows { IfOk result (λ m. AreGrown of.now walk.now.keys products.now.rows known.now.rows m.rows) }
    ensures count { IfOk result (λ m. length m.rows ≡ length walk.now.keys) }
{
    // For the proof: what is known of the rows.
    let _products = products.rows();
    let firsts = first_rows(alloc, of)?;
    let classes = walk.keys();
    let mut rows = Vec::with_capacity(alloc, classes.len())?;
    rows.extend_from_slice(known.rows())?;
    while rows.len() < classes.len() {
        let first = firsts[classes[rows.len()] as usize];
        rows.push(member_row(&products.rows()[first as usize], of, walk))?;
    }
    Ok(Machine::from_rows(products.alphabet(), rows))
}

/// For each row whether its class has no number. The only error is want of memory.
pub fn outside_of(alloc: Global, of: &[u16], walk: &Walk) -> Result<Vec<bool>, NoMemory>
    requires below { All (λ c. c < walk.now.bound) of.now }
    ensures { IfOk result (λ marks. AreOutside of.now walk.now.keys marks.items (length of.now)) }
{
    let mut marks = Vec::with_capacity(alloc, of.len())?;
    for class in of {
        marks.push(walk.known(*class as u32).is_none())?;
    }
    Ok(marks)
}

// A row whose next rows are replaced by the members as which they act.
fn member_row(row: &Row, of: &[u16], walk: &Walk) -> Row
    requires row { IsRow (length row.now.perm) (length of.now) row.now }
    requires below { All (λ c. c < walk.now.bound) of.now }
    requires known { (x : ℕ) → x < length row.now.perm → Contains walk.now.keys (slice_index of.now (slice_index row.now.next x)) }
    ensures { IsMemberRow of.now walk.now.keys row.now result }
{
    let mut next = [0; 8];
    for x in 0..row.perm.letters() {
        next[x as usize] = known_number(walk, of[row.next[x as usize] as usize]);
    }
    Row {
        perm: row.perm,
        next,
    }
}

// The number of a class that has one.
fn known_number(walk: &Walk, class: u16) -> u16
    requires class { class < walk.now.bound }
    requires known { Contains walk.now.keys class }
    ensures below { result < length walk.now.keys }
    ensures is { slice_index walk.now.keys result ≡ class }
{
    match walk.known(class as u32) {
        Some(number) => number,
        None => unreachable!(),
    }
}

/// Refuses more than `most` limit rows as soon as the guessed classes tell, where these are not the classes themselves.
pub fn check_guess(
    alloc: Global,
    products: &Machine,
    survey: &Survey,
    most: u16,
) -> Result<(), NucleusFault>
    requires { IsSurvey products.now.alphabet products.now.rows survey.now }
    ensures { IfErr result (λ e. (e ≡ NucleusFault.NoMemory) ⊎ ((e ≡ NucleusFault.Passes most) × IsOverfull products.now.alphabet products.now.rows 0 1 most)) }
{
    if survey.classes.is_stable() {
        return Ok(());
    }
    let guess = survey.classes.guess(products);
    let mut walk = Walk::new(alloc, guess.len())?;
    number_limits(&mut walk, guess, survey.limits.marks(), most)
}

// Numbers the classes of so many members.
fn number_members(alloc: Global, of: &[u16], members: u16, width: u16) -> Result<Walk, NoMemory>
    requires few { length of.now ≤ 65536 }
    requires below { All (λ c. c < length of.now) of.now }
    requires inside { (i : ℕ) → i < members → i * width < length of.now }
    requires apart { (i j : ℕ) → i < j → j < members → slice_index of.now (i * width) ≢ slice_index of.now (j * width) }
    ensures bound { IfOk result (λ w. w.bound ≡ length of.now) }
    ensures known { IfOk result (λ w. AreKnown of.now w.keys members width members) }
{
    let mut walk = Walk::new(alloc, of.len())?;
    for member in 0..members {
        walk.number_of(of[(member * width) as usize] as u32)?;
    }
    Ok(walk)
}

// Numbers the classes of these rows, as long as they are no more than `most`.
fn number_limits(
    walk: &mut Walk,
    of: &[u16],
    limits: &[bool],
    most: u16,
) -> Result<(), NucleusFault>
    requires bound { walk.old.bound ≡ length of.now }
    requires below { All (λ c. c < length of.now) of.now }
    requires marks { length limits.now ≡ length of.now }
    requires room { length walk.old.keys ≤ most }
    ensures bound { OnOk result (walk.new.bound ≡ walk.old.bound) }
    ensures numbers { OnOk result (AreNumbered of.now limits.now walk.old.keys walk.new.keys most (length of.now)) }
    ensures err { IfErr result (λ e. (e ≡ NucleusFault.NoMemory) ⊎ ((e ≡ NucleusFault.Passes most) × IsFull of.now limits.now walk.old.keys most)) }
{
    for s in 0..of.len() {
        if limits[s] {
            number_class(walk, of[s], most)?;
        }
    }
    Ok(())
}

// Numbers a class, unless it would be one more than `most`.
fn number_class(walk: &mut Walk, class: u16, most: u16) -> Result<(), NucleusFault>
    requires class { class < walk.old.bound }
    requires room { length walk.old.keys ≤ most }
    ensures bound { OnOk result (walk.new.bound ≡ walk.old.bound) }
    ensures keys { OnOk result (IsNumberedClass walk.old.keys walk.new.keys class most) }
    ensures err { IfErr result (λ e. (e ≡ NucleusFault.NoMemory) ⊎ ((e ≡ NucleusFault.Passes most) × IsTooMany walk.old.bound walk.old.keys class most)) }
{
    let _keys = walk.keys();
    match walk.number(class as u32, most as usize)? {
        Some(_) => Ok(()),
        None => Err(NucleusFault::Passes(most)),
    }
}

// A row of each class, at the place of the class.
fn first_rows(alloc: Global, of: &[u16]) -> Result<Vec<u16>, NoMemory>
    requires below { All (λ c. c < length of.now) of.now }
    requires few { length of.now ≤ 65536 }
    ensures { IfOk result (λ firsts. IsChoice of.now firsts.items) }
{
    let mut firsts = vec![in alloc; 0u16; of.len()]?;
    for (s, class) in of.iter().enumerate() {
        firsts[*class as usize] = s as u16;
    }
    Ok(firsts)
}

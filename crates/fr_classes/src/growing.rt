//! Classes of the rows of a machine that grows by rows behind the others.

ghost use Rattle.std.specs.Prelude.{ℕ, ◌≡◌, ◌<◌, ◌≤◌, ◌+◌, List, [], IfOk, OnOk, MatchOption, length, true, false, slice_index, slice_index_or, replicate};
ghost use Rattle.std.specs.List.{All};
ghost use Rattle.fr_machine.specs.declared.row.Row.{Row};
ghost use Rattle.fr_machine.specs.Rows.{IsRow, IsMachine, IsLonger};
ghost use Rattle.fr_classes.specs.Classes.{AreClasses};
ghost use Rattle.fr_classes.specs.Hashes.{hash_of, AreInvariant};
ghost use Rattle.fr_classes.specs.Refinement.{signature_at};
ghost use Rattle.fr_classes.specs.Sparse.{IsSparse, AreMet};
ghost use Rattle.fr_classes.specs.Growing.{IsGrowing, IsHashed, AreLevels, AreListed, IsSigned, level};

use crate::hashes::mixed;
use crate::numbering::Numbering;
use crate::partition::refined_classes;
use crate::signature::{Signature, signature};
use crate::sparse::SparseWalk;
use fr_alphabet::NoMemory;
use fr_machine::{Machine, Row};
use std::alloc::Global;

// The letters that hashes look at first. Often so few tell the classes.
const FIRST_DEPTH: usize = 6;

// The most letters that hashes look at. As many tell the products of states on a long cycle well apart.
const DEPTH: usize = 24;

// About how many classes are to come at first.
const CLASS_COUNT: usize = 64;

// The hashes of a row for words of at most 0, 1, .. letters.
type Hashes = [u32; 25];

/// The classes of the rows of a machine that grows by rows behind the others. Only new rows are looked at, as long as a hash
/// of what rows put out on short words tells apart those that do not act alike. This project's own.
#[derive(Drop)]
pub struct GrowingClasses {
    // The hashes of each row.
    hashes: Vec<Hashes>,
    // How many letters these look at so far.
    depth: usize,
    // The hashes for so many letters that were met, which number the classes.
    walk: SparseWalk,
    // The class of each row by its hash, so that rows that act alike are in one class.
    of: Vec<u16>,
    // The signature of the first row of each class.
    known: Vec<Signature>,
    // If set, rows of one class have one signature.
    stable: bool,
}

impl GrowingClasses {
    /// The classes of no rows. The only error is want of memory.
    pub fn new(alloc: Global) -> Result<GrowingClasses, NoMemory>
        ensures { IfOk result (IsGrowing []) }
    {
        Ok(GrowingClasses {
            hashes: Vec::new(alloc),
            depth: FIRST_DEPTH,
            walk: SparseWalk::new(alloc, CLASS_COUNT)?,
            of: Vec::new(alloc),
            known: Vec::new(alloc),
            stable: true,
        })
    }

    /// Takes the rows of a machine whose first rows are those so far. The only error is want of memory. After want of memory the
    /// classes are of no further use.
    pub fn extend(&mut self, alloc: Global, m: &Machine) -> Result<(), NoMemory>
        requires { (old : List Row) × IsGrowing old self.old × IsLonger old m.now.rows }
        ensures { OnOk result (IsGrowing m.now.rows self.new) }
    {
        self.take(m)?;
        self.spread(alloc, m)?;
        while !self.stable && self.depth < DEPTH {
            self.renumber(alloc, m, DEPTH.min(2 * self.depth + 1))?;
        }
        Ok(())
    }

    // Takes rows, as `extend`, by as many letters as the rows before.
    fn take(&mut self, m: &Machine) -> Result<(), NoMemory>
        requires { (old : List Row) × IsGrowing old self.old × IsLonger old m.now.rows }
        ensures { OnOk result (IsGrowing m.now.rows self.new) }
    {
        let rows = m.rows();
        let first = self.of.len();
        extend_hashes(rows, self.depth, &mut self.hashes)?;
        number_rows(&self.hashes, self.depth, &mut self.walk, &mut self.of)?;
        if self.stable {
            self.stable = sign_rows(rows, &self.of, first, &mut self.known)?;
        }
        Ok(())
    }

    // Takes more buckets where there are too few.
    fn spread(&mut self, alloc: Global, m: &Machine) -> Result<(), NoMemory>
        requires { IsGrowing m.now.rows self.old }
        ensures { OnOk result (IsGrowing m.now.rows self.new) }
    {
        if !self.walk.is_crowded() {
            return Ok(());
        }
        self.renumber(alloc, m, self.depth)
    }

    // Numbers the rows anew, by hashes for so many letters, in buckets that serve as many classes as rows.
    fn renumber(&mut self, alloc: Global, m: &Machine, depth: usize) -> Result<(), NoMemory>
        requires growing { IsGrowing m.now.rows self.old }
        requires least { self.old.depth ≤ depth }
        requires most { depth ≤ 24 }
        ensures growing { OnOk result (IsGrowing m.now.rows self.new) }
        ensures depth { OnOk result (self.new.depth ≡ depth) }
    {
        let rows = m.rows();
        deepen_hashes(rows, self.depth, depth, &mut self.hashes);
        let mut walk = SparseWalk::new(alloc, CLASS_COUNT.max(rows.len()))?;
        let mut of = Vec::with_capacity(alloc, rows.len())?;
        let mut known = Vec::new(alloc);
        number_rows(&self.hashes, depth, &mut walk, &mut of)?;
        self.stable = sign_rows(rows, &of, 0, &mut known)?;
        self.depth = depth;
        self.walk = walk;
        self.of = of;
        self.known = known;
        Ok(())
    }

    /// Whether no more than these hashes is needed to tell the classes.
    pub fn is_stable(&self) -> bool
        ensures { result ≡ self.now.stable }
    {
        self.stable
    }

    /// For each row of the machine that was taken last a number below that of the rows, which rows that act alike share.
    pub fn guess(&self, m: &Machine) -> &[u16]
        requires { IsGrowing m.now.rows self.now }
        ensures count { length result.now ≡ length m.now.rows }
        ensures below { All (λ c. c < length m.now.rows) result.now }
        ensures alike { AreInvariant m.now.rows result.now }
    {
        // For the proof: what is known of the rows.
        let _rows = m.rows();
        &self.of
    }

    /// The classes of the rows of the machine that was taken last, as [`classes`](crate::classes) has them, where no more than
    /// these hashes is needed to tell them; else `None`.
    pub fn stable_classes(&self, m: &Machine) -> Option<&[u16]>
        requires { IsGrowing m.now.rows self.now }
        ensures { MatchOption result (self.now.stable ≡ false) (λ of. (self.now.stable ≡ true) × (of.now ≡ self.now.of.items) × AreClasses m.now.rows of.now) }
    {
        // For the proof: what is known of the rows.
        let _rows = m.rows();
        if !self.stable {
            return None;
        }
        Some(&self.of)
    }

    /// The classes of the rows of the machine that was taken last, as [`classes`](crate::classes) has them. The only error is
    /// want of memory.
    pub fn classes(&self, alloc: Global, m: &Machine) -> Result<Vec<u16>, NoMemory>
        requires { IsGrowing m.now.rows self.now }
        ensures { IfOk result (λ of. AreClasses m.now.rows of.items) }
    {
        let rows = m.rows();
        let of = Vec::from_slice(alloc, &self.of)?;
        if self.stable {
            return Ok(of);
        }
        let count = self.walk.count();
        refined_classes(alloc, rows, Numbering { of, count })
    }
}

// Finds the hashes of the rows that have none, for so many letters.
fn extend_hashes(rows: &[Row], depth: usize, hashes: &mut Vec<Hashes>) -> Result<(), NoMemory>
    requires machine { (d : ℕ) × IsMachine d rows.now }
    requires depth { depth ≤ 24 }
    requires levels { (old : List Row) × AreLevels old hashes.old.items depth × IsLonger old rows.now }
    ensures levels { OnOk result (AreLevels rows.now hashes.new.items depth) }
    ensures same { OnOk result ((s : ℕ) → s < length hashes.old.items → slice_index (level hashes.new.items depth) s ≡ slice_index (level hashes.old.items depth) s) }
{
    let first = hashes.len();
    add_zeros(hashes, rows.len())?;
    for k in 0..depth {
        hash_rows(rows, first, k, hashes);
    }
    Ok(())
}

// Finds the hashes for the letters behind the first `from` ones, up to so many.
fn deepen_hashes(rows: &[Row], from: usize, depth: usize, hashes: &mut Vec<Hashes>)
    requires machine { (d : ℕ) × IsMachine d rows.now }
    requires least { from ≤ depth }
    requires most { depth ≤ 24 }
    requires levels { AreLevels rows.now hashes.old.items from }
    ensures levels { AreLevels rows.now hashes.new.items depth }
{
    for k in from..depth {
        hash_rows(rows, 0, k, hashes);
    }
}

// Adds zeros for rows up to so many.
fn add_zeros(hashes: &mut Vec<Hashes>, count: usize) -> Result<(), NoMemory>
    requires { length hashes.old.items ≤ count }
    ensures count { OnOk result (length hashes.new.items ≡ count) }
    ensures kept { OnOk result (AreListed hashes.old.items hashes.new.items) }
    ensures zeros { OnOk result ((s : ℕ) → length hashes.old.items ≤ s → s < count → slice_index_or hashes.new.items s [] ≡ replicate 25 0) }
{
    hashes.reserve(count - hashes.len())?;
    for _ in hashes.len()..count {
        hashes.push([0; 25])?;
    }
    Ok(())
}

// Finds the hashes of the rows behind the first ones for one letter more than `k`.
fn hash_rows(rows: &[Row], first: usize, k: usize, hashes: &mut Vec<Hashes>)
    requires machine { (d : ℕ) × IsMachine d rows.now }
    requires first { first ≤ length rows.now }
    requires count { length hashes.old.items ≡ length rows.now }
    requires wide { All (λ h. length h ≡ 25) hashes.old.items }
    requires letters { k < 24 }
    ensures { IsHashed rows.now first k (length rows.now) hashes.old.items hashes.new.items }
{
    for s in first..rows.len() {
        let hash = hash_row(&rows[s], hashes, k);
        hashes[s][k + 1] = hash;
    }
}

// The hash of a row for one letter more than `k`.
fn hash_row(row: &Row, hashes: &[Hashes], k: usize) -> u32
    requires row { IsRow (length row.now.perm) (length hashes.now) row.now }
    requires letters { k < 24 }
    ensures { result ≡ hash_of row.now (level hashes.now k) (length row.now.perm) }
{
    let mut hash = 7u64;
    for x in 0..row.perm.letters() {
        let next = hashes[row.next[x as usize] as usize][k];
        hash = mixed(hash, next, row.perm.apply(x + 1));
    }
    hash as u32
}

// Numbers the rows that have no number by their hashes for `depth` letters.
fn number_rows(
    hashes: &[Hashes],
    depth: usize,
    walk: &mut SparseWalk,
    of: &mut Vec<u16>,
) -> Result<(), NoMemory>
    requires depth { depth ≤ 24 }
    requires sparse { IsSparse walk.old }
    requires met { AreMet (level hashes.now depth) of.old.items walk.old.keys.items (length of.old.items) }
    requires more { length of.old.items ≤ length hashes.now }
    requires few { length hashes.now ≤ 65536 }
    ensures sparse { OnOk result (IsSparse walk.new) }
    ensures met { OnOk result (AreMet (level hashes.now depth) of.new.items walk.new.keys.items (length hashes.now)) }
    ensures same { OnOk result ((s : ℕ) → s < length of.old.items → slice_index of.new.items s ≡ slice_index of.old.items s) }
{
    of.reserve(hashes.len() - of.len())?;
    for s in of.len()..hashes.len() {
        let number = walk.number(hashes[s][depth])?;
        of.push(number as u16)?;
    }
    Ok(())
}

// Whether each row behind the first ones has the signature that is known of its class. That of a new class becomes known.
fn sign_rows(
    rows: &[Row],
    of: &[u16],
    first: usize,
    known: &mut Vec<Signature>,
) -> Result<bool, NoMemory>
    requires machine { (d : ℕ) × IsMachine d rows.now }
    requires count { length of.now ≡ length rows.now }
    ensures signed { IfOk result (λ b. b ≡ true → (s : ℕ) → first ≤ s → s < length rows.now → IsSigned rows.now of.now known.new.items s) }
    ensures kept { OnOk result (AreListed known.old.items known.new.items) }
{
    for s in first..rows.len() {
        if !sign(known, of[s] as usize, &signature(&rows[s], of))? {
            return Ok(false);
        }
    }
    Ok(true)
}

// Whether this is the signature that is known of a class, as it is from now on if it is that of the next new class.
fn sign(known: &mut Vec<Signature>, class: usize, signature: &Signature) -> Result<bool, NoMemory>
    ensures signed { IfOk result (λ b. b ≡ true → (class < length known.new.items) × (slice_index_or known.new.items class [] ≡ signature.now)) }
    ensures kept { OnOk result (AreListed known.old.items known.new.items) }
{
    if class == known.len() {
        known.push(*signature)?;
        return Ok(true);
    }
    Ok(class < known.len() && known[class] == *signature)
}

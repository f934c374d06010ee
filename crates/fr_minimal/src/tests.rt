//! Small machines whose answers are known by hand.

use super::*;
use fr_alphabet::{Alphabet, NoMemory, Perm, Word};
use fr_classes::classes;
use fr_machine::{Machine, Row};
use std::alloc::Global;
use std::test::Fail;

// A row over two letters.
fn row(perm: Perm, first: u16, second: u16) -> Row {
    Row {
        perm,
        next: [first, second, 0, 0, 0, 0, 0, 0],
    }
}

// The adding machine t = <1,t>(1,2): t in row 0, the identity in row 1, and in row 2 once more t.
fn adding(alloc: Global, a: Alphabet, swap: Perm) -> Result<Vec<Row>, NoMemory> {
    let mut rows = Vec::new(alloc);
    rows.push(row(swap, 1, 0))?;
    rows.push(row(Perm::identity(a), 1, 1))?;
    rows.push(row(swap, 1, 2))?;
    Ok(rows)
}

#[test]
fn a_row_that_stands_twice_counts_once(rt: HostRuntime) -> Result<(), Fail> {
    let alloc = rt.alloc();
    let a = Alphabet::new(2).ok_or("letters")?;
    let swap = Perm::of_images(a, &[2, 1]).ok_or("images")?;
    let m = Machine::new(a, adding(alloc, a, swap)?).ok_or("rows")?;
    assert_eq!(rt; m.rows().len(), 3);
    let of = classes(alloc, &m)?;
    let t = minimize(alloc, &m, 2)?;
    let shared = minimize_with(alloc, &m, &of, 2)?;
    assert_eq!(rt; (t.size(), shared.size(), t.copy(alloc)?.size()), (2, 2, 2));
    assert_eq!(rt; minimize(alloc, &m, 1)?.size(), 1);
    Ok(())
}

#[test]
fn the_adding_machine_differs_from_its_inverse_at_the_word_11(rt: HostRuntime) -> Result<(), Fail> {
    let alloc = rt.alloc();
    let a = Alphabet::new(2).ok_or("letters")?;
    let swap = Perm::of_images(a, &[2, 1]).ok_or("images")?;
    let m = Machine::new(a, adding(alloc, a, swap)?).ok_or("rows")?;
    let n = m.inverse(alloc)?;
    assert_eq!(rt; (m.rows().len(), n.rows().len()), (3, 3));
    let t = minimize(alloc, &m, 0)?;
    let back = minimize(alloc, &n, 0)?;
    assert_eq!(rt; (t.size(), back.size()), (2, 2));
    let found = separate(alloc, &t, 0, &back, 0)?.ok_or("they differ")?;
    assert_eq!(rt; found.letters(), [1, 1].as_slice());
    assert!(rt; separate(alloc, &t, 0, &t, 0)?.is_none());
    Ok(())
}

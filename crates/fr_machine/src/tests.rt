//! Small machines whose answers are known by hand.

use crate::{FixedWalk, Machine, Minimal, Row, Walk};
use fr_alphabet::{Alphabet, NoMemory, Perm, Word};
use std::alloc::Global;
use std::test::Fail;

// A row over two letters.
fn row(perm: Perm, first: u16, second: u16) -> Row {
    Row {
        perm,
        next: [first, second, 0, 0, 0, 0, 0, 0],
    }
}

// The adding machine: row 0 is `<1,0>(1,2)`, and row 1 leaves each word. Row 0 may have another second next row.
fn adding(alloc: Global, a: Alphabet, swap: Perm, second: u16) -> Result<Vec<Row>, NoMemory> {
    let mut rows = Vec::new(alloc);
    rows.push(row(swap, 1, second))?;
    rows.push(row(Perm::identity(a), 1, 1))?;
    Ok(rows)
}

#[test]
fn next_rows_are_rows(rt: HostRuntime) -> Result<(), Fail> {
    let a = Alphabet::new(2).ok_or("letters")?;
    let swap = Perm::of_images(a, &[2, 1]).ok_or("images")?;
    for (second, accepted) in [(0, true), (1, true), (2, false)] {
        let rows = adding(rt.alloc(), a, swap, second)?;
        assert_eq!(rt; Machine::new(a, rows).is_some(), accepted);
    }
    Ok(())
}

#[test]
fn one_is_added_and_taken_away(rt: HostRuntime) -> Result<(), Fail> {
    let alloc = rt.alloc();
    let a = Alphabet::new(2).ok_or("letters")?;
    let swap = Perm::of_images(a, &[2, 1]).ok_or("images")?;
    let m = Machine::new(a, adding(alloc, a, swap, 0)?).ok_or("rows")?;
    let ones = Word::read(alloc, a, b"11")?;
    let twos = Word::read(alloc, a, b"22")?;
    assert_eq!(rt; m.act(alloc, 0, &twos)?.letters(), [1, 1].as_slice());
    assert_eq!(rt; m.act_back(alloc, 0, &ones)?.letters(), [2, 2].as_slice());
    assert_eq!(rt; m.section(0, &twos), 0);
    let n = m.inverse(alloc)?;
    assert_eq!(rt; n.act(alloc, 0, &ones)?.letters(), [2, 2].as_slice());
    Ok(())
}

#[test]
fn one_row_is_minimal(rt: HostRuntime) -> Result<(), Fail> {
    let alloc = rt.alloc();
    let a = Alphabet::new(2).ok_or("letters")?;
    let mut rows = Vec::new(alloc);
    rows.push(row(Perm::identity(a), 0, 0))?;
    let m = Minimal::of(Machine::new(a, rows).ok_or("rows")?);
    assert_eq!(rt; m.size(), 1);
    assert_eq!(rt; m.copy(alloc)?.size(), 1);
    Ok(())
}

#[test]
fn keys_are_numbered_as_they_come(rt: HostRuntime) -> Result<(), Fail> {
    let alloc = rt.alloc();
    let mut walk = Walk::new(alloc, 9)?;
    assert_eq!(rt; walk.number(5, 2)?, Some(0));
    assert_eq!(rt; walk.number(3, 2)?, Some(1));
    assert_eq!(rt; walk.number(5, 2)?, Some(0));
    assert_eq!(rt; walk.number(7, 2)?, None);
    assert_eq!(rt; walk.number_of(7)?, 2);
    let mut fixed = FixedWalk::new(alloc)?;
    assert_eq!(rt; fixed.number(1023), 0);
    assert_eq!(rt; fixed.number(3), 1);
    fixed.clear();
    assert_eq!(rt; fixed.number(3), 0);
    Ok(())
}

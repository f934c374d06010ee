//! Small machines whose classes are known by hand.

use crate::{GrowingClasses, classes, classes_within};
use fr_alphabet::{Alphabet, NoMemory, Perm};
use fr_machine::{Machine, Row};
use std::alloc::Global;
use std::test::Fail;

// A row over two letters.
fn row(perm: Perm, first: u16, second: u16) -> Row {
    Row {
        perm,
        next: [first, second, 0, 0, 0, 0, 0, 0],
    }
}

// The adding machine: row 0 is `<1,0>(1,2)`, and row 1 leaves each word. Row 0 may have another second next row.
fn adding(alloc: Global, a: Alphabet, swap: Perm, second: u16) -> Result<Vec<Row>, NoMemory> {
    let mut rows = Vec::new(alloc);
    rows.push(row(swap, 1, second))?;
    rows.push(row(Perm::identity(a), 1, 1))?;
    Ok(rows)
}

#[test]
fn like_rows_share_a_class(rt: HostRuntime) -> Result<(), Fail> {
    let alloc = rt.alloc();
    let a = Alphabet::new(2).ok_or("letters")?;
    let swap = Perm::of_images(a, &[2, 1]).ok_or("images")?;
    let mut rows = adding(alloc, a, swap, 0)?;
    rows.push(row(swap, 1, 2))?;
    let m = Machine::new(a, rows).ok_or("rows")?;
    assert_eq!(rt; classes(alloc, &m)?.as_slice(), [0, 1, 0].as_slice());
    assert_eq!(rt;
        classes(alloc, &m.copy(alloc)?)?.as_slice(),
        [0, 1, 0].as_slice()
    );
    assert!(rt; classes_within(alloc, &m, 1)?.is_none());
    assert!(rt; classes_within(alloc, &m, 2)?.is_some());
    Ok(())
}

#[test]
fn classes_grow(rt: HostRuntime) -> Result<(), Fail> {
    let alloc = rt.alloc();
    let a = Alphabet::new(2).ok_or("letters")?;
    let swap = Perm::of_images(a, &[2, 1]).ok_or("images")?;
    let mut rows = adding(alloc, a, swap, 0)?;
    rows.push(row(swap, 1, 2))?;
    let m = Machine::new(a, rows).ok_or("rows")?;
    let mut growing = GrowingClasses::new(alloc)?;
    growing.extend(alloc, &m)?;
    assert!(rt; growing.is_stable());
    assert_eq!(rt; growing.guess(&m), [0, 1, 0].as_slice());
    assert_eq!(rt;
        growing.classes(alloc, &m)?.as_slice(),
        [0, 1, 0].as_slice()
    );
    Ok(())
}

#[test]
fn long_words_tell_rows_of_a_cycle(rt: HostRuntime) -> Result<(), Fail> {
    let alloc = rt.alloc();
    let a = Alphabet::new(2).ok_or("letters")?;
    let swap = Perm::of_images(a, &[2, 1]).ok_or("images")?;
    let mut rows = Vec::new(alloc);
    for s in 1..12 {
        rows.push(row(Perm::identity(a), s, s))?;
    }
    rows.push(row(swap, 0, 0))?;
    let m = Machine::new(a, rows).ok_or("rows")?;
    let mut growing = GrowingClasses::new(alloc)?;
    growing.extend(alloc, &m)?;
    assert!(rt; growing.is_stable());
    assert_eq!(rt;
        growing.guess(&m),
        [0, 1, 2, 3, 4, 5, 6, 7, 8, 9, 10, 11].as_slice()
    );
    Ok(())
}

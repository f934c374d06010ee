//! The adding machine times itself.

ghost use Rattle.std.specs.Prelude.{◌≡◌, IfOk, length};
ghost use Rattle.fr_machine.specs.Rows.{IsLonger};

use super::*;
use fr_alphabet::{Alphabet, NoMemory, Perm};
use fr_machine::{Machine, Minimal, Row};
use std::alloc::Global;
use std::process::Abort;
use std::test::Fail;

// The adding machine t = <1,t>(1,2): t in row 0, and the identity in row 1.
fn adding(rt: &impl Abort, alloc: Global) -> Result<Minimal, NoMemory>
    ensures { IfOk result (λ t. (t.alphabet ≡ 2) × (length t.rows ≡ 2)) }
{
    let a = Alphabet::new(2).expect(rt, "two letters");
    let swap = Perm::of_images(a, &[2, 1]).expect(rt, "a permutation");
    let mut rows = Vec::new(alloc);
    rows.push(Row {
        perm: swap,
        next: [1, 0, 0, 0, 0, 0, 0, 0],
    })?;
    rows.push(Row {
        perm: Perm::identity(a),
        next: [1, 1, 0, 0, 0, 0, 0, 0],
    })?;
    let m = Machine::new(a, rows).expect(rt, "a machine");
    Ok(Minimal::of(m))
}

#[test]
fn the_square_of_the_adding_machine_has_four_pairs(rt: HostRuntime) -> Result<(), Fail> {
    let alloc = rt.alloc();
    let t = adding(&rt, alloc)?;
    let square = product(alloc, &t, 0, &t, 0)?;
    assert_eq!(rt; square.rows().len(), 4);
    assert_eq!(rt;
        limit_rows(alloc, &square)?.as_slice(),
        [false, true, true, true].as_slice()
    );
    Ok(())
}

// The machine with these rows and, behind them, rows that leave each letter and have these next rows.
fn grown(a: Alphabet, mut rows: Vec<Row>, nexts: &[[u16; 2]]) -> Result<Machine, Fail>
    ensures alphabet { IfOk result (λ m. m.alphabet ≡ a) }
    ensures longer { IfOk result (λ m. IsLonger rows.items m.rows) }
{
    for [first, second] in nexts {
        rows.push(Row {
            perm: Perm::identity(a),
            next: [*first, *second, 0, 0, 0, 0, 0, 0],
        })?;
    }
    Ok(Machine::new(a, rows).ok_or("rows")?)
}

#[test]
fn new_cycles_reach_old_rows(rt: HostRuntime) -> Result<(), Fail> {
    let alloc = rt.alloc();
    let a = Alphabet::new(2).ok_or("letters")?;
    let mut rows = Vec::new(alloc);
    let mut limits = GrowingLimits::new(alloc);
    let steps = [
        (
            [[1, 2], [2, 2], [2, 2], [0, 0]].as_slice(),
            [false, false, true, false].as_slice(),
        ),
        (
            [[0, 4], [4, 3]].as_slice(),
            [true, true, true, false, true, false].as_slice(),
        ),
        (
            [[5, 3]].as_slice(),
            [true, true, true, false, true, false, false].as_slice(),
        ),
        (
            [[8, 5], [7, 7]].as_slice(),
            [true, true, true, true, true, true, false, true, true].as_slice(),
        ),
    ];
    for (nexts, marks) in steps {
        let m = grown(a, rows, nexts)?;
        limits.extend(alloc, &m)?;
        assert_eq!(rt; limits.marks(), marks);
        rows = m.into_rows();
    }
    Ok(())
}

//! What no clause says: that an evaluation succeeds where there is memory, and charges and faults from outside.

ghost use Rattle.std.specs.Prelude.{ℕ, ◌≡◌, ◌+◌, IfOk};
ghost use Rattle.fr_syntax.specs.Fits.{FitsAtom, FitsExpr};
ghost use Rattle.fr_syntax.specs.Sizes.{atom_size, expr_size};

use super::*;
use crate::steps::{identity, invert};
use fr_alphabet::{Alphabet, NoMemory};
use fr_canon::read_machine;
use fr_script::LineFault;
use fr_store::{Counted, Store, VecStore};
use fr_syntax::{Atom, Expr, Factor, Name, Op};
use sqlite_items::Items;
use std::alloc::Global;
use std::test::Fail;

// A cycle of two states, neither of which is the identity.
const CYCLE: &[u8] = b"states 2\n1 = <2,1>(1,2)\n2 = <1,2>\n";

const ADDING: &[u8] = b"states 2\n1 = <2,1>(1,2)\n2 = <2,2>\n";

// The expression of a power of an atom, with the exponent -3.
fn cube_of_inverse(alloc: Global, atom: Atom) -> Result<Expr, NoMemory>
    ensures fits { IfOk result (λ e. (d : ℕ) → FitsAtom d atom → FitsExpr d e) }
    ensures size { IfOk result (λ e. expr_size e ≡ atom_size atom + 1) }
{
    let mut ops = Vec::new(alloc);
    ops.push(Op::Power {
        negative: true,
        k: 3,
    })?;
    let mut factors = Vec::new(alloc);
    factors.push(Factor {
        atom,
        ops: Items::from_vec(ops),
    })?;
    Ok(Expr {
        factors: Items::from_vec(factors),
    })
}

#[test]
fn a_power_of_the_identity_is_the_identity(rt: HostRuntime) -> Result<(), Fail> {
    let a = Alphabet::new(2).expect(&rt, "two letters");
    let e = cube_of_inverse(rt.alloc(), Atom::One)?;
    let mut store = VecStore::new(rt.alloc(), a, 4)?;
    let env = Env::new(rt.alloc());
    let mut charge = 0;
    let h = eval(rt.alloc(), &mut store, &env, 1, &e, &mut charge)
        .ok()
        .expect(&rt, "a value");
    assert_eq!(rt; store.states(h), 1);
    assert_eq!(rt; charge, 4);
    Ok(())
}

#[test]
fn a_name_that_is_not_bound_is_refused(rt: HostRuntime) -> Result<(), Fail> {
    let a = Alphabet::new(2).expect(&rt, "two letters");
    let name = Name::from_bytes(rt.alloc(), b"a")?;
    let e = cube_of_inverse(rt.alloc(), Atom::Named(name))?;
    let mut store = VecStore::new(rt.alloc(), a, 4)?;
    let env = Env::new(rt.alloc());
    let mut charge = 0;
    let value = eval(rt.alloc(), &mut store, &env, 1, &e, &mut charge);
    assert_eq!(rt; value, Err(EvalFault::Refused(LineFault::UnknownName)));
    assert_eq!(rt; charge, 0);
    Ok(())
}

#[test]
fn a_full_store_says_how_full(rt: HostRuntime) -> Result<(), Fail> {
    let a = Alphabet::new(2).expect(&rt, "two letters");
    let e = cube_of_inverse(rt.alloc(), Atom::One)?;
    let mut store = VecStore::new(rt.alloc(), a, 2)?;
    let cycle = read_machine(rt.alloc(), a, CYCLE)?;
    let _cycle = store.intern(&cycle);
    let env = Env::new(rt.alloc());
    let mut charge = 0;
    let value = eval(rt.alloc(), &mut store, &env, 1, &e, &mut charge);
    assert_eq!(rt;
        value,
        Err(EvalFault::Full {
            before: 2,
            asked: 1
        })
    );
    assert_eq!(rt; charge, 0);
    Ok(())
}

// The square and the fourth power of the adding machine have 3 and 4 states.
#[test]
fn a_product_is_made_once(rt: HostRuntime) -> Result<(), Fail> {
    let a = Alphabet::new(2).expect(&rt, "two letters");
    let adding = read_machine(rt.alloc(), a, ADDING)?;
    let mut store = Counted::new(VecStore::new(rt.alloc(), a, 16)?);
    let t = store.intern(&adding).ok().expect(&rt, "room");
    let mut charge = 0;
    let square = multiply(rt.alloc(), &mut store, t, t, &mut charge)
        .ok()
        .expect(&rt, "a square");
    let fourth = multiply(rt.alloc(), &mut store, square, square, &mut charge)
        .ok()
        .expect(&rt, "a fourth power");
    assert_eq!(rt; store.recall(t, t), Some(square));
    assert_eq!(rt; store.recall(square, square), Some(fourth));
    assert_eq!(rt; store.recall(square, t), None);
    let again = multiply(rt.alloc(), &mut store, t, t, &mut charge);
    assert_eq!(rt; again, Ok(square));
    assert_eq!(rt; store.built(), 4);
    assert_eq!(rt; charge, 10);
    Ok(())
}

#[test]
fn an_inverse_and_the_identity_are_made_once(rt: HostRuntime) -> Result<(), Fail> {
    let a = Alphabet::new(2).expect(&rt, "two letters");
    let adding = read_machine(rt.alloc(), a, ADDING)?;
    let mut store = Counted::new(VecStore::new(rt.alloc(), a, 16)?);
    let t = store.intern(&adding).ok().expect(&rt, "room");
    let mut charge = 0;
    let back = invert(rt.alloc(), &mut store, t, &mut charge)
        .ok()
        .expect(&rt, "an inverse");
    assert_eq!(rt; store.recall_inverse(t), Some(back));
    let again = invert(rt.alloc(), &mut store, t, &mut charge);
    assert_eq!(rt; again, Ok(back));
    assert_eq!(rt; store.built(), 1);
    assert_eq!(rt; charge, 4);
    let one = identity(rt.alloc(), &mut store, &mut charge)
        .ok()
        .expect(&rt, "the identity");
    assert_eq!(rt; store.recall_identity(), Some(one));
    assert_eq!(rt; identity(rt.alloc(), &mut store, &mut charge), Ok(one));
    assert_eq!(rt; charge, 6);
    Ok(())
}

//! What no clause says: values from outside, and that the calls succeed where there is memory.

ghost use Rattle.fr_store.specs.Store.{IsKnown, AreHandles, Keeps};

use super::*;
use fr_alphabet::Alphabet;
use fr_canon::read_machine;
use std::test::Fail;

// A cycle of two states, the adding machine, and the exchange of the letters.
const CYCLE: &[u8] = b"states 2\n1 = <2,1>(1,2)\n2 = <1,2>\n";

const ADDING: &[u8] = b"states 2\n1 = <2,1>(1,2)\n2 = <2,2>\n";

const EXCHANGE: &[u8] = b"states 2\n1 = <2,2>(1,2)\n2 = <2,2>\n";

#[test]
fn a_store_gives_one_handle_until_it_is_full(rt: HostRuntime) -> Result<(), Fail> {
    let a = Alphabet::new(2).expect(&rt, "two letters");
    let x = read_machine(rt.alloc(), a, CYCLE)?;
    let t = read_machine(rt.alloc(), a, ADDING)?;
    let mut store = VecStore::new(rt.alloc(), a, 3)?;
    assert_eq!(rt; store.capacity(), 3);
    let h = store.intern(&x).ok().expect(&rt, "room");
    assert_eq!(rt; store.intern(&x), Ok(h));
    assert_eq!(rt; store.claimed(), 2);
    assert_eq!(rt;
        store.intern(&t),
        Err(Full {
            before: 2,
            asked: 2
        })
    );
    assert_eq!(rt; store.claimed(), 2);
    assert_eq!(rt; store.census(), 2);
    assert_eq!(rt; store.machine(rt.alloc(), h)?.size(), 2);
    Ok(())
}

#[test]
fn sections_have_handles(rt: HostRuntime) -> Result<(), Fail> {
    let a = Alphabet::new(2).expect(&rt, "two letters");
    let t = read_machine(rt.alloc(), a, ADDING)?;
    let e = read_machine(rt.alloc(), a, EXCHANGE)?;
    let mut store = VecStore::new(rt.alloc(), a, 8)?;
    let h = store.intern(&t).ok().expect(&rt, "room");
    let one = store.section(h, 1);
    assert_eq!(rt; store.section(h, 2), h);
    assert_eq!(rt; store.output(h).apply(1), 2);
    let k = store.intern(&e).ok().expect(&rt, "room");
    assert_eq!(rt; store.section(k, 1), one);
    assert_eq!(rt; store.states(k), 2);
    assert_eq!(rt; store.states(one), 1);
    assert_eq!(rt; store.states(one), 1);
    assert_eq!(rt; store.census(), 3);
    Ok(())
}

#[test]
fn calls_of_machine_are_counted(rt: HostRuntime) -> Result<(), Fail> {
    let a = Alphabet::new(2).expect(&rt, "two letters");
    let t = read_machine(rt.alloc(), a, ADDING)?;
    let mut store = Counted::new(VecStore::new(rt.alloc(), a, 8)?);
    let h = store.intern(&t).ok().expect(&rt, "room");
    assert!(rt; store.equal(h, h));
    assert_eq!(rt; product_at_hand(&mut store, h), None);
    assert_eq!(rt; store.machine(rt.alloc(), h)?.size(), 2);
    assert_eq!(rt; store.built(), 1);
    assert_eq!(rt; store.into_inner().claimed(), 2);
    Ok(())
}

// The handle of the square, where it is at hand; it is offered again.
fn product_at_hand<S: Store>(store: &mut S, h: Handle) -> Option<Handle>
    requires known { IsKnown (S.view.known store.old) h }
    requires handles { AreHandles (S.view.alphabet store.old) (S.view.known store.old) }
    ensures { Keeps (S.view.known store.old) (S.view.known store.new) }
{
    let square = store.recall(h, h)?;
    store.remember(h, h, square);
    Some(square)
}

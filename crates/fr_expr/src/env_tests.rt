//! What no clause says: that names are bound where there is memory.

use super::*;
use fr_alphabet::{Alphabet, NoMemory, Perm};
use fr_store::Handle;
use fr_syntax::{Name, Recursion};
use sqlite_items::Items;
use std::alloc::Global;
use std::test::Fail;

#[test]
fn a_line_sees_the_last_binding_above_it(rt: HostRuntime) -> Result<(), Fail> {
    let mut env = Env::new(rt.alloc());
    env.bind(rt.alloc(), 1, b"a", Handle { node: 4 })?;
    env.bind(rt.alloc(), 3, b"a", Handle { node: 7 })?;
    assert_eq!(rt; env.bound(b"a", 1), None);
    assert_eq!(rt; env.bound(b"a", 3), Some(Handle { node: 4 }));
    assert_eq!(rt; env.bound(b"a", 4), Some(Handle { node: 7 }));
    assert_eq!(rt; env.bound(b"b", 4), None);
    Ok(())
}

// A line of a block, which has a name and no section.
fn recursion(alloc: Global, a: Alphabet, line: u32, name: &[u8]) -> Result<Recursion, NoMemory> {
    Ok(Recursion {
        line,
        name: Name::from_bytes(alloc, name)?,
        perm: Perm::identity(a),
        sections: Items::from_vec(Vec::new(alloc)),
    })
}

#[test]
fn a_block_binds_its_names_at_its_own_line(rt: HostRuntime) -> Result<(), Fail> {
    let a = Alphabet::new(2).expect(&rt, "two letters");
    let block = [
        recursion(rt.alloc(), a, 2, b"a")?,
        recursion(rt.alloc(), a, 3, b"b")?,
    ];
    let mut env = Env::new(rt.alloc());
    env.bind_block(
        rt.alloc(),
        1,
        &block,
        &[Handle { node: 4 }, Handle { node: 7 }],
    )?;
    assert_eq!(rt; env.bound(b"a", 2), Some(Handle { node: 4 }));
    assert_eq!(rt; env.bound(b"b", 2), Some(Handle { node: 7 }));
    assert_eq!(rt; env.bound(b"b", 1), None);
    Ok(())
}

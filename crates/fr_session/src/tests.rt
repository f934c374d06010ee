//! What no clause says: that items are answered where there is memory, with values from outside.

ghost use Rattle.fr_script.specs.Fits.{FitsScript};

use super::*;
use fr_script::{Script, read_script};
use fr_store::VecStore;
use std::alloc::Global;
use std::test::Fail;

// What a session over a store of eight rows replies to an item.
#[derive(Drop)]
struct Replied {
    reply: Reply,
    session: Session<VecStore>,
}

// Feeds the item of a script of one item to a new session.
fn reply_to_one(alloc: Global, script: &Script) -> Result<Option<Replied>, SessionFault>
    requires { FitsScript script.now }
{
    let [item] = script.items.as_slice() else {
        return Ok(None);
    };
    let store = VecStore::new(alloc, script.alphabet, 8)?;
    let mut session = Session::new(alloc, store)?;
    let reply = session.feed(item)?;
    Ok(Some(Replied { reply, session }))
}

// What a session over a store of eight rows replies to two items.
#[derive(Drop)]
struct Replies {
    first: Reply,
    second: Reply,
    session: Session<VecStore>,
}

// Feeds the items of a script of two items to a new session.
fn replies_to_two(alloc: Global, script: &Script) -> Result<Option<Replies>, SessionFault>
    requires { FitsScript script.now }
{
    let [first, second] = script.items.as_slice() else {
        return Ok(None);
    };
    let store = VecStore::new(alloc, script.alphabet, 8)?;
    let mut session = Session::new(alloc, store)?;
    let first = session.feed(first)?;
    let second = session.feed(second)?;
    Ok(Some(Replies {
        first,
        second,
        session,
    }))
}

#[test]
fn a_block_binds_names_that_a_question_sees(rt: HostRuntime) -> Result<(), Fail> {
    let script = read_script(rt.alloc(), b"group\nt = <1,t>(1,2)\nend\nact t 2221\n")?;
    let replies = replies_to_two(rt.alloc(), &script);
    let replies = replies.ok().expect(&rt, "memory").expect(&rt, "two items");
    assert_eq!(rt; replies.first.text.as_slice(), b"".as_slice());
    assert_eq!(rt; replies.first.charge, 2);
    assert!(rt; !replies.first.refused);
    assert_eq!(rt; replies.second.text.as_slice(), b"1112\n".as_slice());
    assert_eq!(rt; replies.second.charge, 0);
    assert!(rt; !replies.second.refused);
    assert!(rt; replies.session.env().bound(b"t", 4).is_some());
    assert!(rt; replies.session.env().bound(b"t", 1).is_none());
    assert_eq!(rt; replies.session.store().census(), 2);
    Ok(())
}

#[test]
fn a_refused_definition_binds_nothing(rt: HostRuntime) -> Result<(), Fail> {
    let script = read_script(rt.alloc(), b"let u = 1*v\n")?;
    let replied = reply_to_one(rt.alloc(), &script);
    let replied = replied.ok().expect(&rt, "memory").expect(&rt, "one item");
    assert_eq!(rt;
        replied.reply.text.as_slice(),
        b"line 1: unknown name\n".as_slice()
    );
    assert_eq!(rt; replied.reply.charge, 1);
    assert!(rt; replied.reply.refused);
    assert!(rt; replied.session.env().bound(b"u", 2).is_none());
    assert_eq!(rt; replied.session.store().census(), 1);
    Ok(())
}

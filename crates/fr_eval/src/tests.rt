//! What no clause says: that lines are answered where there is memory, with texts from outside.

ghost use Rattle.std.specs.Prelude.{◌+◌, ◌≤◌, ◌^◌};
ghost use Rattle.fr_syntax.specs.Fits.{FitsStatement};
ghost use Rattle.fr_syntax.specs.Sizes.{statement_size};
ghost use Rattle.fr_script.specs.Fits.{FitsItem, FitsScript};
ghost use Rattle.fr_store.specs.Store.{Continues};
ghost use Rattle.fr_expr.specs.Tables.{names_in};
ghost use Rattle.fr_eval.specs.Bindings.{AreAllKnown, AreAbove, AddsAt};

use super::*;
use fr_expr::Env;
use fr_script::{Body, Item, Script, print_fault, read_script};
use fr_store::{Store, VecStore};
use fr_syntax::Statement;
use std::alloc::Global;
use std::test::Fail;

// Evaluates a statement at a line below all that is bound.
fn tell_statement<S: Store>(
    alloc: Global,
    store: &mut S,
    env: &mut Env,
    line: u32,
    statement: &Statement,
    text: &mut Vec<u8>,
    charge: &mut u64,
) -> Result<LineEnd, Stop>
    requires fits { FitsStatement (S.view.alphabet store.old) line 4096 statement.now }
    requires size { statement_size statement.now ≤ 4096 }
    requires line { 1 ≤ line }
    requires above { AreAbove line (names_in env.old) }
    requires known { AreAllKnown (S.view.known store.old) (names_in env.old) }
    requires charge { charge.old ≤ 2 ^ 62 }
    ensures adds { AddsAt line (names_in env.old) (names_in env.new) }
    ensures known { AreAllKnown (S.view.known store.new) (names_in env.new) }
    ensures continues { Continues S.view store.old store.new }
    ensures most { charge.new ≤ charge.old + 2 ^ 57 }
{
    match statement {
        Statement::Alphabet(_) | Statement::Group(_) | Statement::Let(_, _) => {
            define(alloc, store, env, line, statement, text, charge)
        }
        _ => ask(alloc, store, env, line, statement, text, charge),
    }
}

// Appends the text of an item below all that is bound.
fn tell<S: Store>(
    alloc: Global,
    store: &mut S,
    env: &mut Env,
    item: &Item,
    text: &mut Vec<u8>,
    charge: &mut u64,
) -> Result<(), Stop>
    requires fits { FitsItem (S.view.alphabet store.old) 4096 item.now }
    requires line { 1 ≤ item.now.line }
    requires above { AreAbove item.now.line (names_in env.old) }
    requires known { AreAllKnown (S.view.known store.old) (names_in env.old) }
    requires charge { charge.old ≤ 2 ^ 62 }
    ensures adds { AddsAt item.now.line (names_in env.old) (names_in env.new) }
    ensures known { AreAllKnown (S.view.known store.new) (names_in env.new) }
    ensures continues { Continues S.view store.old store.new }
    ensures most { charge.new ≤ charge.old + 2 ^ 57 }
{
    let told = item.body.read(alloc)?;
    match told.body() {
        Body::Faulty(fault) => Ok(print_fault(fault, text)?),
        Body::Says(statement) => {
            let _end = tell_statement(alloc, store, env, item.line, statement, text, charge)?;
            Ok(())
        }
    }
}

// The texts of a script of two items, over a store of so many rows.
fn texts_of_two(alloc: Global, script: &Script, rows: u32) -> Result<Vec<u8>, Stop>
    requires fits { FitsScript script.now }
    requires least { 1 ≤ rows }
    requires most { rows ≤ 1048576 }
{
    let mut text = Vec::new(alloc);
    let [first, second] = script.items.as_slice() else {
        return Ok(text);
    };
    let mut store = VecStore::new(alloc, script.alphabet, rows)?;
    let mut env = Env::new(alloc);
    let mut charge = 0;
    tell(alloc, &mut store, &mut env, first, &mut text, &mut charge)?;
    tell(alloc, &mut store, &mut env, second, &mut text, &mut charge)?;
    Ok(text)
}

#[test]
fn a_line_is_answered(rt: HostRuntime) -> Result<(), Fail> {
    let script = read_script(rt.alloc(), b"group\nt = <1,t>(1,2)\nend\nact t 2221\n")?;
    let text = texts_of_two(rt.alloc(), &script, 8);
    assert_eq!(rt;
        text.ok().expect(&rt, "a text").as_slice(),
        b"1112\n".as_slice()
    );
    Ok(())
}

// By the handle, by a letter, by two letters, and by their machines.
#[test]
fn elements_are_told_apart(rt: HostRuntime) -> Result<(), Fail> {
    let cases: [(&[u8], &[u8]); 5] = [
        (
            b"group\na = <1,1>(1,2)\nb = <a,c>\nc = <a,d>\nd = <1,b>\nend\neq b*c*d 1\n",
            b"equal\n",
        ),
        (
            b"group\nt = <1,t>(1,2)\nend\neq 1 t\n",
            b"differ at 1: 1 / 2\n",
        ),
        (
            b"group\nt = <1,t>(1,2)\nend\neq t^-1 t\n",
            b"differ at 11: 22 / 21\n",
        ),
        (
            b"group\na = <1,1>(1,2)\nb = <a,c>\nc = <a,d>\nd = <1,b>\nend\neq a*b b*a\n",
            b"differ at 11: 21 / 22\n",
        ),
        (
            b"group\na = <1,1>(1,2)\nb = <a,c>\nc = <a,d>\nd = <1,b>\nend\neq b c\n",
            b"differ at 211: 212 / 211\n",
        ),
    ];
    for (script, expected) in cases {
        let script = read_script(rt.alloc(), script)?;
        let text = texts_of_two(rt.alloc(), &script, 64);
        assert_eq!(rt; text.ok().expect(&rt, "a text").as_slice(), expected);
    }
    Ok(())
}

#[test]
fn a_fault_is_told_at_its_line(rt: HostRuntime) -> Result<(), Fail> {
    let script = read_script(rt.alloc(), b"group\nt = <1,t>(1,2)\nend\nstates u\n")?;
    let text = texts_of_two(rt.alloc(), &script, 8);
    assert_eq!(rt;
        text.ok().expect(&rt, "a text").as_slice(),
        b"line 4: unknown name\n".as_slice()
    );
    Ok(())
}

// The square of t has three states, and t has two.
#[test]
fn a_full_store_stops_a_line(rt: HostRuntime) -> Result<(), Fail> {
    let script = read_script(rt.alloc(), b"group\nt = <1,t>(1,2)\nend\nstates t*t\n")?;
    let text = texts_of_two(rt.alloc(), &script, 2);
    assert_eq!(rt;
        text.err(),
        Some(Stop::Full {
            before: 2,
            asked: 3
        })
    );
    Ok(())
}

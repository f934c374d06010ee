//! The order of an element, by its powers one after the other.

ghost use Rattle.std.specs.Prelude.{ℕ, ◌≡◌, ◌+◌, ◌++◌, OnOk, ◌*◌, ◌<◌, ◌≤◌, ◌^◌, ◌↔◌, IsTrue};
ghost use Rattle.fr_model.specs.Terms.{Term, One, IsAlike};
ghost use Rattle.fr_store.specs.Store.{IsKnown, Stands, Keeps, Continues, Reads};
ghost use Rattle.fr_plain.specs.Answers.{AnswersOrder};
ghost use Rattle.fr_plain.specs.Beginnings.{AreFirstPowers};
ghost use Rattle.fr_eval.specs.Concluding.{Concludes};
ghost use Rattle.fr_eval.specs.Orders.{FindsOrder, order_text};

use crate::rows::push_number;
use fr_alphabet::NoMemory;
use fr_expr::{EvalFault, multiply};
use fr_store::{Handle, Store};
use std::alloc::Global;

/// Appends the order of an element, or that it passes a bound. Its powers are made one after the other, from the left, until
/// one is the identity, and at most as many as the bound says.
pub fn order<S: Store>(
    alloc: Global,
    store: &mut S,
    h: Handle,
    most: u32,
    out: &mut Vec<u8>,
    charge: &mut u64,
) -> Result<(), EvalFault>
    requires known { IsKnown (S.view.known store.old) h }
    requires room { charge.old + 1024 * most + 1024 < 2 ^ 64 }
    ensures concludes { (t : Term) → Stands S.view store.old h t
        → Concludes S.view (S.view.alphabet store.old) (AnswersOrder (S.view.alphabet store.old) t most) (AreFirstPowers (S.view.alphabet store.old) t most) store.old store.new charge.old charge.new out.old.items out.new.items result }
    ensures keeps { Keeps (S.view.known store.old) (S.view.known store.new) }
    ensures continues { Continues S.view store.old store.new }
    ensures most { charge.new ≤ charge.old + 1024 * most }
{
    let exponent = find_order(alloc, store, h, most, charge)?;
    push_order(exponent, most, out)?;
    Ok(())
}

// Appends the exponent, or that it passes the bound. Where memory runs out, a part of it may stand there.
fn push_order(exponent: Option<u32>, most: u32, out: &mut Vec<u8>) -> Result<(), NoMemory>
    ensures { OnOk result (out.new.items ≡ out.old.items ++ order_text exponent most) }
{
    match exponent {
        Some(exponent) => push_number(exponent as u64, out)?,
        None => {
            out.extend_from_slice(b"passes ")?;
            push_number(most as u64, out)?;
        }
    }
    out.push(b'\n')?;
    Ok(())
}

// The least exponent from 1 to the bound with which the power is the identity, if there is one.
fn find_order<S: Store>(
    alloc: Global,
    store: &mut S,
    h: Handle,
    most: u32,
    charge: &mut u64,
) -> Result<Option<u32>, EvalFault>
    requires known { IsKnown (S.view.known store.old) h }
    requires room { charge.old + 1024 * most + 1024 < 2 ^ 64 }
    ensures finds { (t : Term) → Stands S.view store.old h t → FindsOrder S.view (S.view.alphabet store.old) t most store.old store.new charge.old charge.new result }
    ensures keeps { Keeps (S.view.known store.old) (S.view.known store.new) }
    ensures continues { Continues S.view store.old store.new }
    ensures most { charge.new ≤ charge.old + 1024 * most }
{
    if most == 0 {
        return Ok(None);
    }
    let mut power = h;
    for k in 0..most - 1 {
        if is_identity(store, power) {
            return Ok(Some(k + 1));
        }
        power = multiply(alloc, store, power, h, charge)?;
    }
    if is_identity(store, power) {
        Ok(Some(most))
    } else {
        Ok(None)
    }
}

// Whether an element is the identity: it puts each letter out again, and its section at each is the element itself.
fn is_identity<S: Store>(store: &mut S, h: Handle) -> bool
    requires { IsKnown (S.view.known store.old) h }
    ensures identity { (t : Term) → Stands S.view store.old h t → IsTrue result ↔ IsAlike t One }
    ensures reads { Reads S.view store.old store.new }
{
    let perm = store.output(h);
    for x in 0..store.alphabet().letters() {
        let section = store.section(h, x + 1);
        if perm.apply(x + 1) != x + 1 || !store.equal(section, h) {
            return false;
        }
    }
    true
}

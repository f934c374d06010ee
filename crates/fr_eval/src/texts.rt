//! The answers of statements that make no element beside those of their expressions.

ghost use Rattle.std.specs.Prelude.{ℕ, ◌≡◌, [], OnOk};
ghost use Rattle.fr_model.specs.Words.{IsWord};
ghost use Rattle.fr_model.specs.Terms.{Term};
ghost use Rattle.fr_syntax.specs.Fits.{FitsRay};
ghost use Rattle.fr_store.specs.Store.{IsKnown, Stands, Reads};
ghost use Rattle.fr_plain.specs.Answers.{AnswersShow, AnswersStates, AnswersWreath, AnswersClass, AnswersAct, AnswersRay};
ghost use Rattle.fr_eval.specs.Concluding.{Prints, Concludes};

use crate::images::push_image;
use crate::rows::{push_machine, push_number, push_wreath};
use fr_alphabet::{NoMemory, Word};
use fr_expr::EvalFault;
use fr_growth::{class, print_class};
use fr_ray::{RayFault, act};
use fr_script::LineFault;
use fr_store::{Handle, Store};
use fr_syntax::Ray;
use std::alloc::Global;

/// Appends the smallest machine of an element, its rows in the order of the canonical numbering.
pub fn show<S: Store>(
    alloc: Global,
    store: &mut S,
    h: Handle,
    out: &mut Vec<u8>,
) -> Result<(), NoMemory>
    requires { IsKnown (S.view.known store.old) h }
    ensures text { OnOk result ((t : Term) → Stands S.view store.old h t → Prints (AnswersShow (S.view.alphabet store.old) t) out.old.items out.new.items) }
    ensures reads { Reads S.view store.old store.new }
{
    let m = store.machine(alloc, h)?;
    push_machine(&m, out)
}

/// Appends the number of states of the smallest machine of an element.
pub fn states<S: Store>(store: &mut S, h: Handle, out: &mut Vec<u8>) -> Result<(), NoMemory>
    requires { IsKnown (S.view.known store.old) h }
    ensures text { OnOk result ((t : Term) → Stands S.view store.old h t → Prints (AnswersStates (S.view.alphabet store.old) t) out.old.items out.new.items) }
    ensures reads { Reads S.view store.old store.new }
{
    let states = store.states(h);
    push_number(states as u64, out)?;
    out.push(b'\n')?;
    Ok(())
}

/// Appends the wreath recursion of an element: the first row of its smallest machine.
pub fn wreath<S: Store>(
    alloc: Global,
    store: &mut S,
    h: Handle,
    out: &mut Vec<u8>,
) -> Result<(), NoMemory>
    requires { IsKnown (S.view.known store.old) h }
    ensures text { OnOk result ((t : Term) → Stands S.view store.old h t → Prints (AnswersWreath (S.view.alphabet store.old) t) out.old.items out.new.items) }
    ensures reads { Reads S.view store.old store.new }
{
    let m = store.machine(alloc, h)?;
    push_wreath(&m.machine().wreath(0), out)?;
    out.push(b'\n')?;
    Ok(())
}

/// Appends how the activity of an element grows.
pub fn growth<S: Store>(
    alloc: Global,
    store: &mut S,
    h: Handle,
    out: &mut Vec<u8>,
) -> Result<(), NoMemory>
    requires { IsKnown (S.view.known store.old) h }
    ensures text { OnOk result ((t : Term) → Stands S.view store.old h t → Prints (AnswersClass (S.view.alphabet store.old) t) out.old.items out.new.items) }
    ensures reads { Reads S.view store.old store.new }
{
    let m = store.machine(alloc, h)?;
    print_class(&class(alloc, &m)?, out)?;
    out.push(b'\n')?;
    Ok(())
}

/// Appends the image of a word over the store's alphabet.
pub fn image<S: Store>(
    store: &mut S,
    h: Handle,
    w: &Word,
    out: &mut Vec<u8>,
) -> Result<(), NoMemory>
    requires known { IsKnown (S.view.known store.old) h }
    requires word { IsWord (S.view.alphabet store.old) w.now }
    ensures text { OnOk result ((t : Term) → Stands S.view store.old h t → Prints (AnswersAct t w.now) out.old.items out.new.items) }
    ensures reads { Reads S.view store.old store.new }
{
    let letters = w.letters();
    if letters.is_empty() {
        out.extend_from_slice(b"-\n")?;
        return Ok(());
    }
    push_image(store, h, letters, out)?;
    out.push(b'\n')?;
    Ok(())
}

/// Appends the image of a ray over the store's alphabet, or refuses an image of more than 4,096 letters.
pub fn ray_image<S: Store>(
    alloc: Global,
    store: &mut S,
    h: Handle,
    ray: &Ray,
    out: &mut Vec<u8>,
) -> Result<(), EvalFault>
    requires known { IsKnown (S.view.known store.old) h }
    requires fits { FitsRay (S.view.alphabet store.old) ray.now }
    ensures concludes { (t : Term) (n : ℕ) → Stands S.view store.old h t
        → Concludes S.view (S.view.alphabet store.old) (AnswersRay (S.view.alphabet store.old) t (record { before = ray.now.before; period = ray.now.period })) (λ steps. steps ≡ []) store.old store.new n n out.old.items out.new.items result }
    ensures reads { Reads S.view store.old store.new }
{
    let m = store.machine(alloc, h)?;
    let ray = fr_ray::Ray::of_words(alloc, ray.before.letters(), ray.period.letters())?;
    match act(alloc, &m, &ray) {
        Ok(image) => {
            image.print(out)?;
            out.push(b'\n')?;
            Ok(())
        }
        Err(RayFault::RayPassed) => Err(EvalFault::Refused(LineFault::RayPassed)),
        Err(RayFault::NoMemory) => Err(EvalFault::NoMemory),
    }
}

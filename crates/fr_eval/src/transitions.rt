//! What elements do at letters, and a table of what was looked up last.

ghost use Rattle.std.specs.Prelude.{◌≡◌};
ghost use Rattle.std.specs.List.{All};
ghost use Rattle.fr_model.specs.Words.{IsLetter};
ghost use Rattle.fr_store.specs.Store.{IsKnown, Reads};

use fr_store::{Handle, Store};

// How many transitions a table has.
const KEPT: usize = 128;

/// What an element does at a letter: it puts a letter out, and goes on as its section (Nekrashevych, *Self-Similar Groups*,
/// 1.3).
#[derive(Clone, Copy)]
pub struct Transition {
    pub from: Handle,
    pub input: u8,
    pub output: u8,
    pub to: Handle,
}

impl Transition {
    ghost use Rattle.fr_eval.specs.Transitions.{IsTransition};

    /// What the element of a known handle does at a letter of the store's alphabet.
    pub fn of<S: Store>(store: &mut S, from: Handle, input: u8) -> Transition
        requires known { IsKnown (S.view.known store.old) from }
        requires letter { IsLetter (S.view.alphabet store.old) input }
        ensures from { result.from ≡ from }
        ensures input { result.input ≡ input }
        ensures is_transition { IsTransition S.view store.new result }
        ensures reads { Reads S.view store.old store.new }
    {
        let output = store.output(from).apply(input);
        let to = store.section(from, input);
        Transition {
            from,
            input,
            output,
            to,
        }
    }
}

/// Transitions of a store, each at the place that its handle and its letter tell.
#[derive(Drop)]
pub struct Transitions {
    pub kept: [Transition; KEPT],
}

impl Transitions {
    ghost use Rattle.fr_eval.specs.Transitions.{IsTransition};

    /// A table of one transition.
    pub fn new(first: Transition) -> Transitions
        ensures { All (λ r. r ≡ first) result.kept }
    {
        Transitions {
            kept: [first; KEPT],
        }
    }

    /// What the element of a known handle does at a letter of the store's alphabet. What is not in the table is looked up
    /// in the store, and takes the place of another.
    pub fn get<S: Store>(&mut self, store: &mut S, from: Handle, input: u8) -> Transition
        requires known { IsKnown (S.view.known store.old) from }
        requires letter { IsLetter (S.view.alphabet store.old) input }
        requires kept { All (IsTransition S.view store.old) self.old.kept }
        ensures from { result.from ≡ from }
        ensures input { result.input ≡ input }
        ensures is_transition { IsTransition S.view store.new result }
        ensures kept { All (IsTransition S.view store.new) self.new.kept }
        ensures reads { Reads S.view store.old store.new }
    {
        let letters = store.alphabet().letters();
        let place = (from.node as usize * letters as usize + input as usize) % KEPT;
        let last = self.kept[place];
        if last.from == from && last.input == input {
            return last;
        }
        let next = Transition::of(store, from, input);
        self.kept[place] = next;
        next
    }
}

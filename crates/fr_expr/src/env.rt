//! The names that are bound, with the handles of their elements.

ghost use Rattle.std.specs.Prelude.{ℕ, List, ◌≡◌, ◌≤◌, IfOk, [], ◌∷◌, ◌++◌, OnOk, OnErr, length, take, if◌then◌else◌};
ghost use Rattle.std.specs.Str.{bytes_eq};
ghost use Rattle.fr_store.specs.declared.handle.Handle.{Handle};
ghost use Rattle.fr_plain.specs.Blocks.{names_of};
ghost use Rattle.fr_expr.specs.Names.{Names, above};
ghost use Rattle.fr_expr.specs.Tables.{names_in, bindings_of, without_last};

use fr_alphabet::NoMemory;
use fr_store::Handle;
use fr_syntax::Recursion;
use std::alloc::Global;
use std::collections::HashMap;

/// A name is bound at a line to the element of a handle.
#[derive(Clone, Copy, Debug)]
pub struct Binding {
    /// The line of the item that binds it, from 1.
    pub line: u32,
    /// The handle of its element.
    pub handle: Handle,
}

/// The names that are bound, each with its bindings in the order of lines. A line sees of each name the last binding above
/// it.
#[derive(Debug, Drop)]
pub struct Env {
    bindings: HashMap<Vec<u8>, Vec<Binding>>,
}

impl Env {
    /// No name is bound.
    pub fn new(alloc: Global) -> Env
        ensures { (name : List ℕ) → names_in result name ≡ [] }
    {
        Env {
            bindings: HashMap::new(alloc),
        }
    }

    /// The handle of the last binding of a name above a line, if there is one.
    pub fn bound(&self, name: &[u8], line: u32) -> Option<Handle>
        ensures { result ≡ above line (names_in self.now name.now) }
    {
        last_above(self.bindings.get(name)?, line)
    }

    /// Binds a name at a line to the element of a handle, behind its other bindings. The only error is want of memory; then
    /// all is as before.
    pub fn bind(
        &mut self,
        alloc: Global,
        line: u32,
        name: &[u8],
        handle: Handle,
    ) -> Result<(), NoMemory>
        ensures bound { OnOk result ((q : List ℕ) → names_in self.new q ≡ names_in self.old q ++ (if bytes_eq name.now q then record { line = line; handle = handle } ∷ [] else [])) }
        ensures kept { OnErr result ((q : List ℕ) → names_in self.new q ≡ names_in self.old q) }
    {
        if let Some(bindings) = self.bindings.get_mut(name) {
            bindings.push(Binding { line, handle })?;
            return Ok(());
        }
        let mut first = Vec::new(alloc);
        first.push(Binding { line, handle })?;
        self.bindings.insert(Vec::from_slice(alloc, name)?, first)?;
        Ok(())
    }

    /// Binds the names of a block at a line to the elements of handles, in order. The only error is want of memory; then
    /// all is as before.
    pub fn bind_block(
        &mut self,
        alloc: Global,
        line: u32,
        block: &[Recursion],
        handles: &[Handle],
    ) -> Result<(), NoMemory>
        requires { length handles.now ≡ length block.now }
        ensures bound { OnOk result ((q : List ℕ) → names_in self.new q ≡ names_in self.old q ++ bindings_of line (names_of block.now) handles.now q) }
        ensures kept { OnErr result ((q : List ℕ) → names_in self.new q ≡ names_in self.old q) }
    {
        for k in 0..block.len() {
            if let Err(failed) = self.bind(alloc, line, block[k].name.bytes(), handles[k]) {
                self.unbind_first(block, k);
                return Err(failed);
            }
        }
        Ok(())
    }

    // Takes back the last bindings of so many first names of a block.
    fn unbind_first(&mut self, block: &[Recursion], count: usize)
        requires { count ≤ length block.now }
        ensures { (before : Names) (line : ℕ) (handles : List Handle) → length handles ≡ length block.now
            → ((q : List ℕ) → names_in self.old q ≡ before q ++ bindings_of line (names_of (take count block.now)) handles q)
            → (q : List ℕ) → names_in self.new q ≡ before q }
    {
        let mut k = count;
        while k > 0 {
            k -= 1;
            self.unbind(block[k].name.bytes());
        }
    }

    // Takes back the last binding of a name.
    fn unbind(&mut self, name: &[u8])
        ensures { (q : List ℕ) → names_in self.new q ≡ (if bytes_eq name.now q then without_last (names_in self.old q) else names_in self.old q) }
    {
        if let Some(bindings) = self.bindings.get_mut(name) {
            bindings.pop();
        }
    }
}

// The handle of the last of these bindings above a line, if there is one.
fn last_above(bindings: &[Binding], line: u32) -> Option<Handle>
    ensures { result ≡ above line bindings.now }
{
    let mut k = bindings.len();
    while k > 0 {
        k -= 1;
        if bindings[k].line < line {
            return Some(bindings[k].handle);
        }
    }
    None
}

//! A store for one thread, on blocks of rows.

ghost use Rattle.std.specs.Prelude.{ℕ, ◌≡◌, ◌≤◌, ◌<◌, ◌+◌, ◌*◌, ◌^◌, IfOk, IfSome, length, vec_capacity};
ghost use Rattle.fr_model.specs.Terms.{Term};
ghost use Rattle.fr_store.specs.Coded.{codes_of};
ghost use Rattle.fr_store.specs.Index.{IsIndex, IsTable, known_in};
ghost use Rattle.fr_store.specs.Products.{AreProducts};
ghost use Rattle.fr_store.specs.Inverses.{AreInverses, IsIdentity};
ghost use Rattle.fr_store.specs.Store.{IsKnown, Stands, AreHandles, IsHandleCount, IsRecalled, Reads};

use crate::blocks::Blocks;
use crate::handle::{Full, Handle};
use crate::index::{Desk, Index};
use crate::inverses::Inverses;
use crate::products::Products;
use crate::store::Store;
use fr_alphabet::{Alphabet, NoMemory, Perm};
use fr_canon::canon;
use fr_machine::Minimal;
use std::alloc::Global;

/// A store for one thread. It keeps the rows of the elements that were claimed, and finds its handles by a hash of their
/// codes, which are compared with the rows themselves. It keeps how many states an element has, once it is known. It
/// remembers the identity, some 8,000 products and some 1,000 inverses, and forgets one of these where another needs its
/// place. All memory is taken when it is made. This project's own.
#[derive(Debug, Drop)]
pub struct VecStore {
    blocks: Blocks,
    index: Index,
    capacity: u32,
    desk: Desk,
    products: Products,
    inverses: Inverses,
    // The handle of the identity, where it was offered.
    identity: Option<Handle>,
    ghost is_index: { IsIndex (codes_of blocks) (length blocks.rows.items) index.handles.items index.links.items },
    ghost is_table: { IsTable (codes_of blocks) index.handles.items index.cells.items },
    ghost are_products: { AreProducts blocks.alphabet (known_in (codes_of blocks) index.handles.items) products.entries.items },
    ghost are_inverses: { AreInverses blocks.alphabet (known_in (codes_of blocks) index.handles.items) inverses.entries.items },
    ghost is_identity: { IsIdentity blocks.alphabet (known_in (codes_of blocks) index.handles.items) identity },
    ghost whole: { length index.links.items ≡ length blocks.rows.items },
    ghost fits: { length blocks.rows.items ≤ capacity },
    ghost some: { 1 ≤ capacity },
    ghost limit: { capacity ≤ 1048576 },
    ghost half: { 2 * length blocks.rows.items ≤ length index.cells.items },
    ghost cell_room: { 2 * capacity ≤ 2 ^ index.most_bits },
    ghost row_room: { capacity ≤ vec_capacity blocks.rows },
    ghost place_room: { capacity ≤ vec_capacity blocks.places },
    ghost size_room: { capacity ≤ vec_capacity blocks.sizes },
    ghost handle_room: { capacity ≤ vec_capacity index.handles },
    ghost link_room: { capacity ≤ vec_capacity index.links },
}

impl VecStore {
    ghost use Rattle.std.specs.Prelude.{None};
    ghost use Rattle.fr_store.specs.VecView.{vec_view};

    /// A store of elements over the alphabet that knows none, and may claim so many rows, 1 to 1,048,576. All memory is
    /// taken here. The only error is want of memory.
    pub fn new(alloc: Global, a: Alphabet, capacity: u32) -> Result<VecStore, NoMemory>
        requires least { 1 ≤ capacity }
        requires limit { capacity ≤ 1048576 }
        ensures alphabet { IfOk result (λ s. vec_view.alphabet s ≡ a) }
        ensures capacity { IfOk result (λ s. vec_view.capacity s ≡ capacity) }
        ensures own { IfOk result (λ s. vec_view.own s ≡ 0) }
        ensures known { IfOk result (λ s. (n : ℕ) → vec_view.known s n ≡ None) }
        ensures handles { IfOk result (λ s. AreHandles (vec_view.alphabet s) (vec_view.known s)) }
    {
        Ok(VecStore {
            blocks: Blocks::new(alloc, a, capacity as usize)?,
            index: Index::new(alloc, capacity)?,
            capacity,
            desk: Desk::new(alloc)?,
            products: Products::new(alloc)?,
            inverses: Inverses::new(alloc)?,
            identity: None,
        })
    }

    /// How many rows are claimed, which is the `before` of its `Full`.
    pub fn claimed(&self) -> u64
        ensures { result ≡ vec_view.own self.now }
    {
        self.blocks.rows.len() as u64
    }

    /// How many handles it has given, to elements and to their sections: as many as there are elements among these, up to
    /// acting alike.
    pub fn census(&self) -> u64
        ensures count { IsHandleCount (vec_view.known self.now) result }
        ensures handles { AreHandles (vec_view.alphabet self.now) (vec_view.known self.now) }
    {
        self.index.handles.len() as u64
    }
}

impl Store for VecStore {
    ghost use Rattle.fr_store.specs.VecView.{vec_view};

    ghost view = { vec_view };

    ghost use Rattle.std.specs.Prelude.{None};
    ghost use Rattle.std.proofs.Common.{refl, ◌∙◌};

    ghost kin_to_self = { λ s. (refl, refl) };

    ghost kin_onward = { λ s t u a b. (b.0 ∙ a.0, b.1 ∙ a.1) };

    fn alphabet(&self) -> Alphabet {
        self.blocks.alphabet
    }

    fn capacity(&self) -> u64 {
        self.capacity as u64
    }

    fn intern(&mut self, m: &Minimal) -> Result<Handle, Full> {
        let asked = m.machine().rows().len();
        canon(&mut self.desk.scratch, m, 0, &mut self.desk.wanted);
        if let Ok(node) = self.index.search(&self.blocks, &mut self.desk) {
            return Ok(Handle { node });
        }
        let before = self.blocks.rows.len();
        if before + asked > self.capacity as usize {
            return Err(Full {
                before: before as u64,
                asked: asked as u64,
            });
        }
        self.index
            .make_room(&self.blocks, &mut self.desk, (before + asked) as u32);
        let node = self.index.enter(&mut self.blocks, &mut self.desk, m);
        Ok(Handle { node })
    }

    fn equal(&self, a: Handle, b: Handle) -> bool {
        a.node == b.node
    }

    fn output(&mut self, h: Handle) -> Perm {
        self.blocks.perm(h.node)
    }

    fn section(&mut self, h: Handle, x: u8) -> Handle {
        let row = self.blocks.next(h.node, x);
        Handle {
            node: self.index.links[row as usize],
        }
    }

    fn states(&mut self, h: Handle) -> u16 {
        self.blocks.states(&mut self.desk.scratch, h.node)
    }

    fn machine(&mut self, alloc: Global, h: Handle) -> Result<Minimal, NoMemory> {
        self.blocks.machine(alloc, &mut self.desk.scratch, h.node)
    }

    /// The handle of the product, first `a` and then `b`, where it was offered and no other took its place. Nothing becomes
    /// known.
    fn recall(&mut self, a: Handle, b: Handle) -> Option<Handle>
        requires a_known { IsKnown (vec_view.known self.old) a }
        requires b_known { IsKnown (vec_view.known self.old) b }
        ensures product { IfSome result (λ h. (t u : Term) → Stands vec_view self.old a t → Stands vec_view self.old b u → IsRecalled (vec_view.alphabet self.old) t u (vec_view.known self.old) (vec_view.known self.new) h) }
        ensures handles { IfSome result (λ h. AreHandles (vec_view.alphabet self.old) (vec_view.known self.new)) }
        ensures known { IfSome result (λ h. IsKnown (vec_view.known self.new) h) }
        ensures reads { Reads vec_view self.old self.new }
    {
        let node = self.products.get(a.node, b.node)?;
        Some(Handle { node })
    }

    fn remember(&mut self, a: Handle, b: Handle, c: Handle) {
        self.products.put(a.node, b.node, c.node);
    }

    /// The handle of the inverse, where it was offered and no other took its place. Nothing becomes known.
    fn recall_inverse(&mut self, a: Handle) -> Option<Handle> {
        let node = self.inverses.get(a.node)?;
        Some(Handle { node })
    }

    fn remember_inverse(&mut self, a: Handle, b: Handle) {
        self.inverses.put(a.node, b.node);
    }

    /// The handle of the identity, where it was offered. Nothing becomes known.
    fn recall_identity(&mut self) -> Option<Handle> {
        self.identity
    }

    fn remember_identity(&mut self, h: Handle) {
        self.identity = Some(h);
    }
}

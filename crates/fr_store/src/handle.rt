//! Handles of elements, and the answer of a store that is full.

/// The handle of an element in one store, as a number. Two handles of a store are equal exactly where their elements act
/// alike. This project's own, after the handles of hash-consed terms.
#[derive(Clone, Copy, Debug, PartialEq, Eq)]
pub struct Handle {
    /// The number.
    pub node: u32,
}

/// A claim that would have passed the capacity of a store.
#[derive(Clone, Copy, Debug, PartialEq, Eq)]
pub struct Full {
    /// How many rows were claimed before.
    pub before: u64,
    /// How many rows the element needs, 1 to 1,024.
    pub asked: u64,
}

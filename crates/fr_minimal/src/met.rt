//! Pairs of rows that were met.

/// A pair of rows that was met: a row of the left machine and one of the right, the place of the pair before it, and the
/// letter that leads from there.
#[derive(Clone, Copy)]
pub struct Met {
    pub left: u16,
    pub right: u16,
    pub before: u16,
    pub letter: u8,
}

//! Byte sources and sinks that count their faults.
//!
//! A program that reads its whole input with [`get_all`] and writes its whole answer with
//! [`put_all`] can say in its contract what it took, what it gave, and that it reports a fault only
//! where one was counted. [`MemSource`], [`SureSource`] and [`MemSink`] hold their bytes in memory
//! and tell them, so a contract over them speaks of every byte; the first and the last also fail on
//! demand, for tests.
//!
//! [`StdSource`] and [`StdSink`] adapt readers and writers of the standard library. They are the
//! trusted edge: their counts of faults are proved, and that they pass on what the reader gives and
//! the writer takes, but not what a real standard input held or a real standard output received.
#![tactic(auto)]

mod memory;
mod sink;
mod source;
mod standard;
#[cfg(test)]
mod tests;

pub use memory::{MemSink, MemSource, SureSource};
pub use sink::{Sink, put_all};
pub use source::{Failed, READ_SIZE, ReadStop, Source, get_all};
pub use standard::{StdSink, StdSource};

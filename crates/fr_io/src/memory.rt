//! Sources and sinks in memory, which tell their bytes.
ghost use Rattle.std.specs.Prelude.{◌≡◌, ◌-◌, ◌<◌, ◌≤◌, ◌↔◌, ◌++◌, ◌⊎◌, ℕ, List, [], Some, take, drop, length, min, Contains, IsTrue, IsErr, IsOk, IfOk, OnOk, OnErr};
ghost use Rattle.std.specs.Io.{ReadsAtMost};
ghost use Rattle.std.specs.Io.KnownBytes.{ReadConsumes, WriteAppends};
ghost use Rattle.fr_io.specs.Causes.{HasCause, raised};

use crate::{Failed, Sink, Source};
use fr_alphabet::NoMemory;
use std::alloc::Global;
use std::marker::Model;

/// A source in memory that gives so many bytes at a call and fails at the calls that are listed.
///
/// Calls are counted from 1 up to 2^64 - 1, where the count stands still.
#[derive(Debug, Drop)]
pub struct MemSource {
    bytes: Vec<u8>,
    at: usize,
    piece: u32,
    fails: Vec<u32>,
    calls: u64,
    faults: u64,
}

impl Model for MemSource {
    ghost use Rattle.std.specs.Prelude.{◌<◌, ◌≤◌, drop, vec_len};
    ghost use Rattle.fr_io.specs.Memory.{SourceView};

    ghost Value = { SourceView };

    ghost view = { λ s. record { left = drop s.at s.bytes.items; piece = s.piece; fails = s.fails.items; calls = s.calls; faults = s.faults } };

    ghost invariant = { λ s. (s.at ≤ vec_len s.bytes) × (0 < s.piece) };
}

impl MemSource {
    /// A source of `bytes` that gives at most `piece` bytes at a call, at least 1, and fails at the
    /// calls whose numbers, from 1, stand in `fails`.
    pub fn new(bytes: Vec<u8>, piece: u32, fails: Vec<u32>) -> MemSource
        requires { 0 < piece }
        ensures { result ≡ record { left = bytes.items; piece = piece; fails = fails.items; calls = 0; faults = 0 } }
    {
        MemSource {
            bytes,
            at: 0,
            piece,
            fails,
            calls: 0,
            faults: 0,
        }
    }

    /// The bytes that are left.
    pub fn left(&self) -> &[u8]
        ensures { result.now ≡ self.now.left }
    {
        &self.bytes[self.at..]
    }
}

// Whether the call of this number is listed.
fn is_listed(fails: &[u32], number: u64) -> bool
    ensures { IsTrue result ↔ Contains fails.now number }
{
    fails.iter().any(|call| u64::from(*call) == number)
}

impl Source for MemSource {
    ghost left = { λ s. Some s.left };

    ghost faults = { λ s. s.faults };

    /// Gives as many bytes as the least of the piece, the length of `buf` and the number of bytes
    /// left.
    ///
    /// # Errors
    ///
    /// `Failed` exactly where the number of this call is listed. It then takes nothing.
    fn read(&mut self, buf: &mut [u8]) -> Result<usize, Failed>
        ensures bound { ReadsAtMost result buf.new }
        ensures bytes { ReadConsumes (Some self.old.left) (Some self.new.left) result buf.new }
        ensures cause { HasCause self.old.faults self.new.faults result }

        ensures fails { IsErr result ↔ Contains self.old.fails (raised self.old.calls) }
        ensures count { IfOk result (λ n. n ≡ min (length self.old.left) (min (length buf.old) self.old.piece)) }
        ensures gives { IfOk result (λ n. buf.new ≡ take n self.old.left ++ drop n buf.old) }
        ensures after { IfOk result (λ n. self.new ≡ record self.old { left = drop n self.old.left; calls = raised self.old.calls }) }
        ensures fault { OnErr result (self.new ≡ record self.old { calls = raised self.old.calls; faults = raised self.old.faults }) }
        ensures untouched { OnErr result (buf.new ≡ buf.old) }
    {
        self.calls = self.calls.saturating_add(1);
        if is_listed(&self.fails, self.calls) {
            return Err(Failed::counted(&mut self.faults));
        }
        let rest = &self.bytes[self.at..];
        let count = rest.len().min(buf.len()).min(self.piece as usize);
        buf[..count].copy_from_slice(&rest[..count]);
        self.at += count;
        Ok(count)
    }
}

/// A source in memory that never fails and gives as much as it is asked for.
#[derive(Debug, Drop)]
pub struct SureSource {
    bytes: Vec<u8>,
    at: usize,
}

// Clauses see the bytes that are left.
impl Model for SureSource {
    ghost use Rattle.std.specs.Prelude.{ℕ, ◌≤◌, List, drop, vec_len};

    ghost Value = { List ℕ };

    ghost view = { λ s. drop s.at s.bytes.items };

    ghost invariant = { λ s. s.at ≤ vec_len s.bytes };
}

impl SureSource {
    /// A source of `bytes`.
    pub fn new(bytes: Vec<u8>) -> SureSource
        ensures { result ≡ bytes.items }
    {
        SureSource { bytes, at: 0 }
    }
}

impl Source for SureSource {
    ghost left = { λ s. Some s };

    ghost faults = { λ _. 0 };

    /// Gives as many bytes as the lesser of the length of `buf` and the number of bytes left. It
    /// never fails, and its count of faults is 0.
    fn read(&mut self, buf: &mut [u8]) -> Result<usize, Failed>
        ensures bound { ReadsAtMost result buf.new }
        ensures bytes { ReadConsumes (Some self.old) (Some self.new) result buf.new }
        ensures cause { HasCause 0 0 result }

        ensures sure { IsOk result }
        ensures count { IfOk result (λ n. n ≡ min (length self.old) (length buf.old)) }
        ensures gives { IfOk result (λ n. buf.new ≡ take n self.old ++ drop n buf.old) }
        ensures after { IfOk result (λ n. self.new ≡ drop n self.old) }
    {
        let rest = &self.bytes[self.at..];
        let count = rest.len().min(buf.len());
        buf[..count].copy_from_slice(&rest[..count]);
        self.at += count;
        Ok(count)
    }
}

/// A sink in memory with so much room, which takes so many bytes at a call and fails at the calls
/// that are listed.
///
/// Calls are counted from 1 up to 2^64 - 1, where the count stands still.
#[derive(Debug, Drop)]
pub struct MemSink {
    written: Vec<u8>,
    room: usize,
    take: u32,
    fails: Vec<u32>,
    calls: u64,
    faults: u64,
}

// Clauses see the room that is left. The memory for it is there from the start.
impl Model for MemSink {
    ghost use Rattle.std.specs.Prelude.{◌+◌, ◌<◌, ◌≤◌, vec_len, vec_capacity};
    ghost use Rattle.fr_io.specs.Memory.{SinkView};

    ghost Value = { SinkView };

    ghost view = { λ s. record { written = s.written.items; room = s.room; take = s.take; fails = s.fails.items; calls = s.calls; faults = s.faults } };

    ghost invariant = { λ s. (vec_len s.written + s.room ≤ vec_capacity s.written) × (0 < s.take) };
}

impl MemSink {
    /// An empty sink with room for `room` bytes that takes at most `take` bytes at a call, at least
    /// 1, and fails at the calls whose numbers, from 1, stand in `fails`.
    ///
    /// # Errors
    ///
    /// `NoMemory` where there is no memory for `room` bytes. Later calls take none.
    pub fn new(alloc: Global, room: u32, take: u32, fails: Vec<u32>) -> Result<MemSink, NoMemory>
        requires { 0 < take }
        ensures { IfOk result (λ s. s ≡ record { written = []; room = room; take = take; fails = fails.items; calls = 0; faults = 0 }) }
    {
        Ok(MemSink {
            written: Vec::with_capacity(alloc, room as usize)?,
            room: room as usize,
            take,
            fails,
            calls: 0,
            faults: 0,
        })
    }

    /// The bytes that were written.
    pub fn written(&self) -> &[u8]
        ensures { result.now ≡ self.now.written }
    {
        &self.written
    }
}

impl Sink for MemSink {
    ghost written = { λ s. Some s.written };

    ghost faults = { λ s. s.faults };

    /// Takes as many bytes as the least of what a call takes, the length of the piece and the room
    /// that is left: none of an empty piece.
    ///
    /// # Errors
    ///
    /// `Failed` exactly where the number of this call is listed or the room is used up, also for an
    /// empty piece. It then takes nothing.
    fn write(&mut self, bytes: &[u8]) -> Result<usize, Failed>
        ensures bound { IfOk result (λ n. n ≤ length bytes.now) }
        ensures some { 0 < length bytes.now → IfOk result (λ n. 0 < n) }
        ensures bytes { WriteAppends (Some self.old.written) (Some self.new.written) result bytes.now }
        ensures cause { HasCause self.old.faults self.new.faults result }

        ensures fails { IsErr result ↔ (Contains self.old.fails (raised self.old.calls) ⊎ (self.old.room ≡ 0)) }
        ensures count { IfOk result (λ n. n ≡ min (length bytes.now) (min self.old.room self.old.take)) }
        ensures after { IfOk result (λ n. self.new ≡ record self.old { written = self.old.written ++ take n bytes.now; room = self.old.room - n; calls = raised self.old.calls }) }
        ensures fault { OnErr result (self.new ≡ record self.old { calls = raised self.old.calls; faults = raised self.old.faults }) }
    {
        self.calls = self.calls.saturating_add(1);
        if self.room == 0 || is_listed(&self.fails, self.calls) {
            return Err(Failed::counted(&mut self.faults));
        }
        let count = bytes.len().min(self.room).min(self.take as usize);
        // The room was taken when the sink was made.
        self.written.extend_from_slice(&bytes[..count]).unwrap();
        self.room -= count;
        Ok(count)
    }
}

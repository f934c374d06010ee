//! The program over sources and sinks.

ghost use Rattle.std.specs.Prelude.{◌≡◌, ◌+◌, ◌≤◌, ◌++◌, length, map};
ghost use Rattle.arrayvec.specs.ArrayVec.{array_vec_len};
ghost use Rattle.fr_options.specs.Options.{options_of};
ghost use Rattle.frcalc.specs.Program.{sides_of, Causes, Completes, Passes, Ends, Says, Writes, message_of, front_of, status_of};

use crate::evaluation::{Evaluation, EvaluationFault, evaluate};
use crate::taking::{TakeFault, take_script};
use crate::writing::due;
use arrayvec::ArrayVec;
use fr_io::{Failed, Sink, Source, put_all};
use fr_options::{Options, WordsFault, read_words};
use itoa::Buffer;
use std::alloc::Global;

/// How a run ends.
#[derive(Clone, Copy, Debug, PartialEq, Eq)]
pub enum Ending {
    /// Every line was evaluated: status 0.
    Fine,
    /// The text is whole, and some line is refused: status 1.
    Refused,
    /// The words are not accepted: status 2.
    Usage,
    /// A read failed: status 3.
    ReadFailed,
    /// A write failed: status 4.
    WriteFailed,
    /// The script has too many bytes or lines: status 5.
    TooLong,
    /// The charge of the script is more than this limit: status 6.
    StatesPassed(u32),
    /// There was no memory: status 7.
    NoMemory,
}

/// Reads a script from `input`, writes its text to `out`, and says on `err` why it did not.
///
/// `words` are those after the program's name, as `read_words` takes them. The number of states is the limit of the charge;
/// the numbers of workers and of questions at a time have no effect yet. With a census a last line tells how many classes
/// the sections of all evaluated elements fall into, up to acting alike. With a seed the script is the demonstration of the
/// seed, the source is not touched, and four lines are written: the number of its lines, how many of them are answered
/// `equal`, its charge, and its census.
///
/// Answers the status. Where several hold, the words are refused before a read fails or a script is too long, these before
/// the charge passes the limit, and this before a write fails.
pub fn run<S: Source, T: Sink, E: Sink>(
    alloc: Global,
    words: &[String],
    input: &mut S,
    out: &mut T,
    err: &mut E,
) -> u8
    ensures ends { Ends result (options_of (map (λ w. w.bytes.items) words.now)) (sides_of S.left S.faults T.written T.faults input.old out.old)
        (sides_of S.left S.faults T.written T.faults input.new out.new) (E.written err.old) (E.written err.new) (E.faults err.old) (E.faults err.new) }
    ensures completes { Completes result (options_of (map (λ w. w.bytes.items) words.now)) (sides_of S.left S.faults T.written T.faults input.old out.old)
        (sides_of S.left S.faults T.written T.faults input.new out.new) }
    ensures passes { Passes result (options_of (map (λ w. w.bytes.items) words.now)) (sides_of S.left S.faults T.written T.faults input.old out.old)
        (sides_of S.left S.faults T.written T.faults input.new out.new) }
{
    close(work(alloc, words, input, out), err)
}

/// Says an ending on `err`, and answers its status.
pub fn close<E: Sink>(ending: Ending, err: &mut E) -> u8
    ensures status { result ≡ status_of ending }
    ensures says { Says (message_of ending) (E.written err.old) (E.written err.new) (E.faults err.old) (E.faults err.new) }
{
    // A message that fails changes nothing.
    let _ = put_all(err, &message(ending));
    status(ending)
}

// What is said of an ending. It takes no memory, so that it can be said where there is none.
fn message(ending: Ending) -> ArrayVec<u8, 128>
    ensures { result.items ≡ message_of ending }
{
    let mut text = ArrayVec::new();
    append(&mut text, front(ending));
    if let Ending::StatesPassed(limit) = ending {
        append(&mut text, Buffer::new().format(limit).as_bytes());
        append(&mut text, b"\n");
    }
    text
}

// Appends bytes for which there is room.
fn append(text: &mut ArrayVec<u8, 128>, bytes: &[u8])
    requires { array_vec_len text.old + length bytes.now ≤ 128 }
    ensures items { text.new.items ≡ text.old.items ++ bytes.now }
    ensures len { array_vec_len text.new ≡ array_vec_len text.old + length bytes.now }
{
    let _fits = text.try_extend_from_slice(bytes);
}

// What is said of an ending, up to a number that is said.
fn front(ending: Ending) -> &'static [u8]
    ensures front { result.now ≡ front_of ending }
    ensures short { length result.now ≤ 90 }
{
    match ending {
        Ending::Fine | Ending::Refused => b"",
        Ending::Usage => {
            b"frcalc: usage: frcalc [--workers W] [--grain K] [--states N] [--census] [--demo SEED]\n"
        },
        Ending::ReadFailed => b"frcalc: read failed\n",
        Ending::WriteFailed => b"frcalc: write failed\n",
        Ending::TooLong => b"frcalc: script too long\n",
        Ending::StatesPassed(_) => b"frcalc: states pass ",
        Ending::NoMemory => b"frcalc: out of memory\n",
    }
}

// The status of an ending.
fn status(ending: Ending) -> u8
    ensures { result ≡ status_of ending }
{
    match ending {
        Ending::Fine => 0,
        Ending::Refused => 1,
        Ending::Usage => 2,
        Ending::ReadFailed => 3,
        Ending::WriteFailed => 4,
        Ending::TooLong => 5,
        Ending::StatesPassed(_) => 6,
        Ending::NoMemory => 7,
    }
}

// Reads, evaluates and writes.
fn work<S: Source, T: Sink>(alloc: Global, words: &[String], input: &mut S, out: &mut T) -> Ending
    ensures { Causes result (options_of (map (λ w. w.bytes.items) words.now)) (sides_of S.left S.faults T.written T.faults input.old out.old)
        (sides_of S.left S.faults T.written T.faults input.new out.new) }
{
    let options = match read_words(alloc, words) {
        Ok(options) => options,
        Err(WordsFault::Usage) => return Ending::Usage,
        Err(WordsFault::NoMemory) => return Ending::NoMemory,
    };
    let script = match take_script(alloc, options.demo, input) {
        Ok(script) => script,
        Err(TakeFault::ReadFailed) => return Ending::ReadFailed,
        Err(TakeFault::TooLong) => return Ending::TooLong,
        Err(TakeFault::NoMemory) => return Ending::NoMemory,
    };
    match evaluate(alloc, &script, options.states) {
        Ok(evaluation) => write(alloc, &options, evaluation, out),
        Err(EvaluationFault::StatesPassed) => Ending::StatesPassed(options.states),
        Err(EvaluationFault::NoMemory) => Ending::NoMemory,
    }
}

// Writes what is due of an evaluation.
fn write<T: Sink>(alloc: Global, options: &Options, evaluation: Evaluation, out: &mut T) -> Ending
    ensures { Writes options.now evaluation (T.written out.old) (T.written out.new) (T.faults out.old) (T.faults out.new) result }
{
    let refused = evaluation.refused && options.demo.is_none();
    let Ok(text) = due(alloc, options, evaluation) else {
        return Ending::NoMemory;
    };
    match put_all(out, &text) {
        Err(Failed) => Ending::WriteFailed,
        Ok(()) if refused => Ending::Refused,
        Ok(()) => Ending::Fine,
    }
}

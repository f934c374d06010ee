//! What a case answers.

use fr_alphabet::NoMemory;
use fr_minimal::MinFault;
use std::alloc::{AllocError, AllocFailed};
use std::fmt;

/// What a case counted.
#[derive(Clone, Copy, Debug)]
pub enum Answer {
    /// The classes of rows that act alike.
    Classes(u32),
    /// A product has more than 65,536 pairs.
    PairsPassed,
    /// A product has so many pairs, and more than 1,024 states.
    StatesPassed(usize),
    /// A product has so many pairs and so many states.
    Product(usize, u16),
    /// The numbers of a code.
    Code(usize),
    /// The letters of the least word that tells two elements apart.
    Word(usize),
    /// Two elements act alike.
    Alike,
    /// The letters of a ray before its period, and in it.
    Ray(usize, usize),
    /// A ray has more than 4,096 letters.
    RayPassed,
    /// The activity ends at this length.
    Finitary(u16),
    /// The activity is polynomial of this degree.
    Polynomial(u16),
    /// The activity is exponential; the letters on the way to a section, and on each of two ways back to it.
    Exponential(usize, usize),
    /// The handles of a store.
    Handles(u64),
}

impl fmt::Display for Answer {
    fn fmt<W: fmt::Write>(&self, f: &mut fmt::Formatter<W>) -> fmt::Result {
        match self {
            Answer::Classes(count) => write!(f, "{count} classes"),
            Answer::PairsPassed => write!(f, "pairs pass"),
            Answer::StatesPassed(pairs) => write!(f, "{pairs} pairs, states pass"),
            Answer::Product(pairs, states) => write!(f, "{pairs} pairs, {states} states"),
            Answer::Code(length) => write!(f, "{length} numbers"),
            Answer::Word(length) => write!(f, "{length} letters"),
            Answer::Alike => write!(f, "alike"),
            Answer::Ray(before, period) => write!(f, "{before} letters and {period} that repeat"),
            Answer::RayPassed => write!(f, "ray passes"),
            Answer::Finitary(depth) => write!(f, "finitary {depth}"),
            Answer::Polynomial(degree) => write!(f, "polynomial {degree}"),
            Answer::Exponential(at, back) => write!(f, "exponential at {at} letters by {back}"),
            Answer::Handles(count) => write!(f, "{count} handles"),
        }
    }
}

/// Why a case has no answer.
#[derive(Clone, Copy, Debug)]
pub enum Stop {
    /// It is not one of the cases, or a number is out of its range.
    Usage,
    /// Memory ran out.
    NoMemory,
}

impl fmt::Display for Stop {
    fn fmt<W: fmt::Write>(&self, f: &mut fmt::Formatter<W>) -> fmt::Result {
        match self {
            Stop::Usage => write!(f, "no such case"),
            Stop::NoMemory => write!(f, "out of memory"),
        }
    }
}

impl From<NoMemory> for Stop {
    fn from(_failed: NoMemory) -> Stop {
        Stop::NoMemory
    }
}

impl From<AllocError> for Stop {
    fn from(_failed: AllocError) -> Stop {
        Stop::NoMemory
    }
}

impl<T: Drop> From<AllocFailed<T>> for Stop {
    fn from(_failed: AllocFailed<T>) -> Stop {
        Stop::NoMemory
    }
}

// A factor of more than 1,024 states is out of the range of a case.
impl From<MinFault> for Stop {
    fn from(fault: MinFault) -> Stop {
        match fault {
            MinFault::StatesPassed => Stop::Usage,
            MinFault::NoMemory => Stop::NoMemory,
        }
    }
}

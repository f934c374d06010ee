//! Cases, as they are written.

ghost use Rattle.std.specs.Prelude.{ℕ, ◌≤◌, IfOk};

use crate::answer::{Answer, Stop};
use crate::codes::{list, scattered};
use crate::cycles::{cycle, half_cycle};
use crate::growths::{Kind, classify, growing};
use crate::partitions::{chain, count_classes, drawn, halves, reversed, watched};
use crate::products::multiply;
use crate::rays::find_image;
use crate::separations::tell_apart;
use crate::stores::{drawn_elements, find, growing_elements, intern_all};
use fr_machine::{Machine, Minimal};
use std::alloc::Global;
use std::str::SplitWhitespace;

/// Runs a case. It is a name, its parts, and how often the call is made, where that is not once; numbers are 1 to 65,536.
///
/// - `classes chain N`, `classes reversed N`, `classes drawn N`, `classes halves N`, `classes watched N`: the classes of N
///   rows.
/// - `product P Q`: of cycles of P and Q states that both letters go along, at most 1,024.
/// - `grid P Q`: of cycles of P and Q states, at most 1,024, of which one letter goes along the one and the other along the
///   other, so that there are P Q pairs.
/// - `canon D N`: the code of an element of N states, at most 1,024, over D letters, 2 to 8.
/// - `separate N`: cycles of N and N - 1 states, at most 1,024, that agree on all words of less than 2 N - 2 letters.
/// - `wide N`: the factors of `grid N N`, of which about half the pairs are met.
/// - `ray P N`: the image of the ray that repeats N letters, at most 4,096, under a cycle of P states, at most 1,024.
/// - `growth ends N`, `growth loops N`, `growth loop-first N`, `growth loop-last N`, `growth back N`, `growth cycle N`,
///   `growth scattered N`: the class of growth of an element of N states, 2 to 1,024, over 8 letters.
/// - `intern N`: N drawn elements of at most 2 to 10 states, in an empty store for one thread.
/// - `grow N`: elements of 1 to N states, at most 1,024, each with the one before it as its section, in such a store.
/// - `enter D N`: an element of N states, at most 1,024, over D letters, 2 to 8, in an empty store for one thread.
/// - `find D N`: the same element in a store that knows it from the first call on.
///
/// `Usage` is the answer to any other words.
pub fn measure(alloc: Global, case: &str) -> Result<Answer, Stop> {
    let mut parts = case.split_whitespace();
    let name = parts.next().ok_or(Stop::Usage)?;
    if name == "classes" {
        measure_classes(alloc, parts)
    } else if name == "product" {
        measure_product(alloc, parts)
    } else if name == "grid" {
        measure_grid(alloc, parts)
    } else if name == "canon" {
        measure_canon(alloc, parts)
    } else if name == "separate" {
        measure_separate(alloc, parts)
    } else if name == "wide" {
        measure_wide(alloc, parts)
    } else if name == "ray" {
        measure_ray(alloc, parts)
    } else if name == "growth" {
        measure_growth(alloc, parts)
    } else if name == "intern" {
        measure_intern(alloc, parts)
    } else if name == "grow" {
        measure_grow(alloc, parts)
    } else if name == "enter" {
        measure_enter(alloc, parts)
    } else if name == "find" {
        measure_find(alloc, parts)
    } else {
        Err(Stop::Usage)
    }
}

fn measure_classes(alloc: Global, mut parts: SplitWhitespace<'_>) -> Result<Answer, Stop> {
    let kind = parts.next().ok_or(Stop::Usage)?;
    let count = number(&mut parts)?;
    let machine = machine(alloc, kind, count)?;
    count_classes(alloc, &machine, times(&mut parts)?)
}

// The machine of a kind.
fn machine(alloc: Global, kind: &str, count: u32) -> Result<Machine, Stop>
    requires { count ≤ 65536 }
{
    if kind == "chain" {
        chain(alloc, count)
    } else if kind == "reversed" {
        reversed(alloc, count)
    } else if kind == "drawn" {
        drawn(alloc, count)
    } else if kind == "halves" {
        halves(alloc, count)
    } else if kind == "watched" {
        watched(alloc, count)
    } else {
        Err(Stop::Usage)
    }
}

fn measure_product(alloc: Global, mut parts: SplitWhitespace<'_>) -> Result<Answer, Stop> {
    let left = number(&mut parts)?;
    let right = number(&mut parts)?;
    let a = cycle(alloc, left, left - 1)?;
    let b = cycle(alloc, right, right - 1)?;
    multiply(alloc, &a, &b, times(&mut parts)?)
}

fn measure_grid(alloc: Global, mut parts: SplitWhitespace<'_>) -> Result<Answer, Stop> {
    let left = number(&mut parts)?;
    let right = number(&mut parts)?;
    let a = half_cycle(alloc, left, true)?;
    let b = half_cycle(alloc, right, false)?;
    multiply(alloc, &a, &b, times(&mut parts)?)
}

fn measure_canon(alloc: Global, mut parts: SplitWhitespace<'_>) -> Result<Answer, Stop> {
    let element = numbered(alloc, &mut parts)?;
    list(alloc, &element, times(&mut parts)?)
}

fn measure_separate(alloc: Global, mut parts: SplitWhitespace<'_>) -> Result<Answer, Stop> {
    let count = number(&mut parts)?;
    if count < 2 {
        return Err(Stop::Usage);
    }
    let a = cycle(alloc, count, count - 2)?;
    let b = cycle(alloc, count - 1, count - 2)?;
    tell_apart(alloc, &a, &b, times(&mut parts)?)
}

fn measure_wide(alloc: Global, mut parts: SplitWhitespace<'_>) -> Result<Answer, Stop> {
    let count = number(&mut parts)?;
    let a = half_cycle(alloc, count, true)?;
    let b = half_cycle(alloc, count, false)?;
    tell_apart(alloc, &a, &b, times(&mut parts)?)
}

fn measure_ray(alloc: Global, mut parts: SplitWhitespace<'_>) -> Result<Answer, Stop> {
    let states = number(&mut parts)?;
    let letters = number(&mut parts)?;
    let element = cycle(alloc, states, states - 1)?;
    find_image(alloc, &element, letters, times(&mut parts)?)
}

fn measure_growth(alloc: Global, mut parts: SplitWhitespace<'_>) -> Result<Answer, Stop> {
    let kind = growth_kind(parts.next().ok_or(Stop::Usage)?)?;
    let count = number(&mut parts)?;
    let element = growing(alloc, kind, count)?;
    classify(alloc, &element, times(&mut parts)?)
}

// The kind of a name.
fn growth_kind(name: &str) -> Result<Kind, Stop> {
    if name == "ends" {
        Ok(Kind::Ends)
    } else if name == "loops" {
        Ok(Kind::Loops)
    } else if name == "loop-first" {
        Ok(Kind::LoopFirst)
    } else if name == "loop-last" {
        Ok(Kind::LoopLast)
    } else if name == "back" {
        Ok(Kind::Back)
    } else if name == "cycle" {
        Ok(Kind::Cycle)
    } else if name == "scattered" {
        Ok(Kind::Scattered)
    } else {
        Err(Stop::Usage)
    }
}

fn measure_intern(alloc: Global, mut parts: SplitWhitespace<'_>) -> Result<Answer, Stop> {
    let elements = drawn_elements(alloc, number(&mut parts)?)?;
    intern_all(alloc, &elements, 1048576, times(&mut parts)?)
}

fn measure_grow(alloc: Global, mut parts: SplitWhitespace<'_>) -> Result<Answer, Stop> {
    let elements = growing_elements(alloc, number(&mut parts)?)?;
    intern_all(alloc, &elements, 1048576, times(&mut parts)?)
}

fn measure_enter(alloc: Global, mut parts: SplitWhitespace<'_>) -> Result<Answer, Stop> {
    let element = numbered(alloc, &mut parts)?;
    intern_all(alloc, &[element], 1024, times(&mut parts)?)
}

fn measure_find(alloc: Global, mut parts: SplitWhitespace<'_>) -> Result<Answer, Stop> {
    let element = numbered(alloc, &mut parts)?;
    find(alloc, &element, times(&mut parts)?)
}

// An element over so many letters and of so many states.
fn numbered(alloc: Global, parts: &mut SplitWhitespace<'_>) -> Result<Minimal, Stop> {
    let letters = number(parts)?;
    let count = number(parts)?;
    scattered(alloc, letters.min(9) as u8, count)
}

// The next part as a number.
fn number(parts: &mut SplitWhitespace<'_>) -> Result<u32, Stop>
    ensures least { IfOk result (λ n. 1 ≤ n) }
    ensures most { IfOk result (λ n. n ≤ 65536) }
{
    match parts.next() {
        Some(part) => in_range(part),
        None => Err(Stop::Usage),
    }
}

// How often, which is once where nothing is said.
fn times(parts: &mut SplitWhitespace<'_>) -> Result<u32, Stop> {
    match parts.next() {
        Some(part) => in_range(part),
        None => Ok(1),
    }
}

// A part as a number.
fn in_range(part: &str) -> Result<u32, Stop>
    ensures least { IfOk result (λ n. 1 ≤ n) }
    ensures most { IfOk result (λ n. n ≤ 65536) }
{
    match part.parse::<u32>() {
        Ok(number) if 1 <= number && number <= 65536 => Ok(number),
        _ => Err(Stop::Usage),
    }
}

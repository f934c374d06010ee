//! What a line does: it is blank, it is an item, or it begins a block, goes on in one or ends one.

ghost use Rattle.std.specs.Prelude.{◌≡◌, ◌==◌, ◌∷◌, List, length, IfOk};
ghost use Rattle.std.specs.Str.{bytes_eq};
ghost use Rattle.fr_syntax.specs.Tokens.{Lexeme, seen};
ghost use Rattle.fr_script.specs.Items as spec;

use crate::fault::{Fault, LineFault};
use crate::inner::{InnerOutcome, read_inner};
use crate::kept::{Kept, may_wait};
use crate::outcome::{LINE_LIMIT, LineOutcome, read_line};
use fr_alphabet::{Alphabet, NoMemory};
use fr_syntax::{LineFront, Recursion, Statement, Token, code, line_front};
use sqlite_items::Items;
use std::alloc::Global;

/// What an item is: what it says, or the fault for which it is refused.
#[derive(Drop)]
pub enum Body {
    Says(Statement),
    Faulty(Fault),
}

/// An item of a script: a block, or another line that is not blank. Its line is the first.
#[derive(Drop)]
pub struct Item {
    pub line: u32,
    pub body: Kept,
}

/// A block that has no end yet: what its lines say, and its first fault.
#[derive(Drop)]
pub struct Block {
    pub line: u32,
    pub recursions: Items<Recursion>,
    pub fault: Option<Fault>,
}

/// What a line outside a block does.
#[derive(Drop)]
pub enum Outside {
    /// It is blank.
    Blank,
    /// It begins a block.
    Begins(Block),
    /// It is an item.
    Is(Item),
}

/// What a line inside a block does.
#[derive(Drop)]
pub enum Inside {
    /// The block goes on.
    Goes(Block),
    /// It ends, as this item.
    Ends(Item),
}

/// What a line is by its tokens alone.
#[derive(Clone, Copy, Debug)]
pub enum LineKind {
    /// It has none.
    Empty,
    /// The first is `group`.
    Group,
    /// The only one is `end`.
    End,
    Other,
}

fn is(text: &[u8], word: &[u8]) -> bool
    ensures { result ≡ bytes_eq text.now word.now }
{
    text == word
}

fn is_word(token: Token<'_>, word: &[u8]) -> bool
    ensures { result ≡ spec.is_word word.now (seen token.entry) }
{
    match token {
        Token::Name(text) => is(text, word),
        _ => false,
    }
}

fn kind_of(front: LineFront<'_>) -> LineKind
    ensures { (rest : List Lexeme) → front.entry.is_only ≡ (length rest == 0) → result ≡ spec.kind_of (seen front.entry.token ∷ rest) }
{
    if is_word(front.token, b"group") {
        LineKind::Group
    } else if front.is_only && is_word(front.token, b"end") {
        LineKind::End
    } else {
        LineKind::Other
    }
}

// A line may be too long to list its tokens, so only the first is looked at.
fn line_kind(line: &[u8]) -> LineKind
    ensures { result ≡ spec.line_kind line.now }
{
    match line_front(code(line)) {
        Some(front) => kind_of(front),
        None => LineKind::Empty,
    }
}

fn begin(alloc: Global, line: u32, fault: Option<Fault>) -> Block
    ensures { result ≡ spec.begin line fault }
{
    Block {
        line,
        recursions: Items::new(alloc),
        fault,
    }
}

fn outside_of(alloc: Global, n: u32, is_group: bool, outcome: LineOutcome) -> Outside
    ensures { result ≡ spec.outside_of n is_group outcome }
{
    match outcome {
        LineOutcome::Group => Outside::Begins(begin(alloc, n, None)),
        LineOutcome::Says(statement) => Outside::Is(Item {
            line: n,
            body: Kept::whole(Body::Says(statement)),
        }),
        LineOutcome::Faulty(kind) => {
            let fault = Fault { line: n, kind };
            if is_group {
                Outside::Begins(begin(alloc, n, Some(fault)))
            } else {
                Outside::Is(Item {
                    line: n,
                    body: Kept::whole(Body::Faulty(fault)),
                })
            }
        }
    }
}

/// Reads the line n, which stands outside a block.
pub fn read_outside(
    alloc: Global,
    a: Alphabet,
    is_first: bool,
    n: u32,
    line: &[u8],
) -> Result<Outside, NoMemory>
    ensures { IfOk result (λ r. spec.ReadsOutside a is_first n line.now r) }
{
    let kind = line_kind(line);
    if is_blank(kind, line) {
        return Ok(Outside::Blank);
    }
    if may_wait(line) {
        let body = Kept::line(alloc, a, is_first, n, line)?;
        return Ok(Outside::Is(Item { line: n, body }));
    }
    let outcome = read_line(alloc, a, is_first, line)?;
    Ok(outside_of(alloc, n, is_group(kind), outcome))
}

fn is_blank(kind: LineKind, line: &[u8]) -> bool
    ensures { result ≡ spec.is_blank kind line.now }
{
    match kind {
        LineKind::Empty => line.len() <= LINE_LIMIT,
        _ => false,
    }
}

fn is_group(kind: LineKind) -> bool
    ensures { result ≡ spec.is_group kind }
{
    match kind {
        LineKind::Group => true,
        _ => false,
    }
}

fn is_end(kind: LineKind) -> bool
    ensures { result ≡ spec.is_end kind }
{
    match kind {
        LineKind::End => true,
        _ => false,
    }
}

fn grown(block: Block, n: u32, outcome: InnerOutcome) -> Result<Block, NoMemory>
    ensures { IfOk result (λ r. r ≡ spec.grown block n outcome) }
{
    let Block {
        line,
        mut recursions,
        fault,
    } = block;
    match outcome {
        InnerOutcome::Says(recursion) => {
            recursions.push(recursion)?;
            Ok(Block {
                line,
                recursions,
                fault,
            })
        }
        InnerOutcome::Faulty(kind) => Ok(Block {
            line,
            recursions,
            fault: fault.or(Some(Fault { line: n, kind })),
        }),
    }
}

fn ended(block: Block, n: u32, is_long: bool) -> Item
    ensures { result ≡ spec.ended block n is_long }
{
    let Block {
        line,
        recursions,
        fault,
    } = block;
    let long = Fault {
        line: n,
        kind: LineFault::LineTooLong,
    };
    let body = match fault {
        Some(fault) => Body::Faulty(fault),
        None if is_long => Body::Faulty(long),
        None => Body::Says(Statement::Group(recursions)),
    };
    Item {
        line,
        body: Kept::whole(body),
    }
}

/// Reads the line n, which stands inside a block.
pub fn read_inside(
    alloc: Global,
    a: Alphabet,
    block: Block,
    n: u32,
    line: &[u8],
) -> Result<Inside, NoMemory>
    ensures { IfOk result (λ r. spec.ReadsInside a block n line.now r) }
{
    let kind = line_kind(line);
    if is_end(kind) {
        return Ok(Inside::Ends(ended(block, n, line.len() > LINE_LIMIT)));
    }
    if is_blank(kind, line) {
        return Ok(Inside::Goes(block));
    }
    let outcome = read_inner(alloc, a, n, line)?;
    Ok(Inside::Goes(grown(block, n, outcome)?))
}

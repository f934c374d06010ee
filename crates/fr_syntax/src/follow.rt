//! What stands after an expression in a line.

ghost use Rattle.std.specs.Prelude.{◌≡◌, IfOk};
ghost use Rattle.fr_syntax.specs.Tokens.{seen};
ghost use Rattle.fr_syntax.specs.Steps.{step, begun};
ghost use Rattle.fr_syntax.specs.LineSteps as spec;

use crate::line::{Goal, Spot, says};
use crate::lists::push;
use crate::notes::Notes;
use crate::numbers::{empty_word, exponent, word};
use crate::reader::{Reader, Step, note_digits, note_power};
use crate::statement::Statement;
use crate::token::{Mark, Token};
use crate::tree::Expr;
use fr_alphabet::{Alphabet, NoMemory};
use sqlite_items::Items;
use std::alloc::Global;

/// What a token after an expression does.
#[derive(Drop)]
pub enum After {
    /// A further expression has begun.
    Expr,
    /// The line goes on here.
    Moves(Spot),
    /// No line goes on so.
    Stuck,
}

fn moves(next: Option<Spot>) -> After
    ensures { (goal : Goal) (reader : Reader) → spec.followed result goal reader ≡ next }
{
    match next {
        Some(next) => After::Moves(next),
        None => After::Stuck,
    }
}

fn second_step(
    alloc: Global,
    a: Alphabet,
    goal: &mut Goal,
    reader: &mut Reader,
    left: Expr,
    token: Token<'_>,
) -> Result<After, NoMemory>
    ensures { IfOk result (λ s. spec.followed s goal.new reader.new ≡ spec.on_fresh (Goal.Second left) (step a (begun reader.old.notes) (seen token.entry))) }
{
    *goal = Goal::Second(left);
    reader.restart(alloc);
    match reader.step(alloc, a, token)? {
        Step::Next => Ok(After::Expr),
        _ => Ok(After::Stuck),
    }
}

fn act_step(
    alloc: Global,
    a: Alphabet,
    expr: Expr,
    notes: Notes,
    token: Token<'_>,
) -> Result<Option<Spot>, NoMemory>
    ensures { IfOk result (λ s. s ≡ spec.act_step a expr notes (seen token.entry)) }
{
    match token {
        Token::Number(digits) => {
            let read = word(alloc, a, digits)?;
            let notes = note_digits(notes, read.refused);
            Ok(says(Statement::Act(expr, read.word), notes))
        }
        Token::Mark(Mark::Minus) => Ok(says(Statement::Act(expr, empty_word(alloc)), notes)),
        _ => Ok(None),
    }
}

fn ray_step(
    alloc: Global,
    a: Alphabet,
    expr: Expr,
    notes: Notes,
    token: Token<'_>,
) -> Result<Option<Spot>, NoMemory>
    ensures { IfOk result (λ s. s ≡ spec.ray_step a expr notes (seen token.entry)) }
{
    match token {
        Token::Number(digits) => {
            let read = word(alloc, a, digits)?;
            let notes = note_digits(notes, read.refused);
            Ok(Some(Spot::RayOpen(expr, read.word, notes)))
        }
        Token::Mark(Mark::LeftParen) => Ok(Some(Spot::RayPeriod(expr, empty_word(alloc), notes))),
        _ => Ok(None),
    }
}

fn order_step(expr: Expr, notes: Notes, token: Token<'_>) -> Option<Spot>
    ensures { result ≡ spec.order_step expr notes (seen token.entry) }
{
    match token {
        Token::Number(digits) => {
            let notes = note_power(notes, digits);
            says(Statement::Order(expr, exponent(digits)), notes)
        }
        _ => None,
    }
}

fn nucleus_step(
    alloc: Global,
    exprs: &mut Items<Expr>,
    reader: &mut Reader,
    expr: Expr,
    token: Token<'_>,
) -> Result<After, NoMemory>
    ensures { IfOk result (λ s. spec.followed s (Goal.Nucleus exprs.new) reader.new ≡ spec.nucleus_step exprs.old expr reader.old.notes (seen token.entry)) }
{
    match token {
        Token::Mark(Mark::Comma) => {
            push(alloc, exprs, expr)?;
            reader.restart(alloc);
            Ok(After::Expr)
        }
        _ => Ok(After::Stuck),
    }
}

/// What a token does after an expression that was read for this goal. A further expression is read in
/// place, since a list may have many.
pub fn follow(
    alloc: Global,
    a: Alphabet,
    goal: &mut Goal,
    reader: &mut Reader,
    expr: Expr,
    token: Token<'_>,
) -> Result<After, NoMemory>
    ensures { IfOk result (λ s. spec.followed s goal.new reader.new ≡ spec.follow a goal.old expr reader.old.notes (seen token.entry)) }
{
    match goal {
        Goal::First => second_step(alloc, a, goal, reader, expr, token),
        Goal::Act => Ok(moves(act_step(alloc, a, expr, reader.notes, token)?)),
        Goal::Ray => Ok(moves(ray_step(alloc, a, expr, reader.notes, token)?)),
        Goal::Order => Ok(moves(order_step(expr, reader.notes, token))),
        Goal::Nucleus(exprs) => nucleus_step(alloc, exprs, reader, expr, token),
        _ => Ok(After::Stuck),
    }
}

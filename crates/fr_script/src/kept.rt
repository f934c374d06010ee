//! What items say, kept as their lines until it is asked for.
//!
//! What a line says takes many times the memory of the line, and the time to read it. So a script
//! keeps its lines as they are, and each is read where it is evaluated.

ghost use Rattle.std.specs.Prelude.{◌≡◌, ◌≢◌, ◌∷◌, List, IfOk, true};
ghost use Rattle.fr_syntax.specs.Tokens.{Lexeme, seen};
ghost use Rattle.fr_script.specs.Items.{alphabet_after};
ghost use Rattle.fr_script.specs.Keeping as spec;

use crate::fault::Fault;
use crate::item::Body;
use crate::outcome::{LineOutcome, read_line};
use fr_alphabet::{Alphabet, NoMemory};
use fr_syntax::{Keyword, Statement, Token, code, line_front};
use std::alloc::Global;
use std::marker::Model;

/// What an item says, or its fault. A line takes little more memory here than its bytes, and is
/// read where it is asked for.
#[derive(Drop)]
pub struct Kept {
    form: Form,
}

// A block has several lines, and the reader looks at what an `alphabet` line says, so these are read at once.
#[derive(Drop)]
enum Form {
    Line {
        text: Vec<u8>,
        alphabet: Alphabet,
        is_first: bool,
        number: u32,
    },
    Whole(Body),
}

/// What a kept item says, while its reader needs it.
#[derive(Drop)]
pub struct Told<'a> {
    telling: Telling<'a>,
}

#[derive(Drop)]
enum Telling<'a> {
    Held(&'a Body),
    Read(Body),
}

// Clauses see what the item says, or its fault.
impl Model for Kept {
    ghost use Rattle.fr_script.specs.declared.item.Body.{Body};
    ghost use Rattle.fr_script.specs.contracts.item.Body as of_body;

    ghost Value = { Body };

    ghost coded = { of_body.the_row.coded };

    ghost use Rattle.fr_script.specs.Keeping.{form_body, IsForm};

    ghost view = { λ k. form_body k.form };

    ghost invariant = { λ k. IsForm k.form };
}

// Clauses see what is told.
impl<'a> Model for Told<'a> {
    ghost use Rattle.fr_script.specs.declared.item.Body.{Body};
    ghost use Rattle.fr_script.specs.contracts.item.Body as of_body;

    ghost Value = { Body };

    ghost coded = { of_body.the_row.coded };

    ghost use Rattle.fr_script.specs.Keeping.{told_body};

    ghost view = { λ t. told_body t.telling };
}

fn word_of(token: Token<'_>) -> Option<Keyword>
    ensures { (rest : List Lexeme) → result ≡ spec.word_of (seen token.entry ∷ rest) }
{
    match token {
        Token::Name(text) => Keyword::of(text),
        _ => None,
    }
}

fn line_word(line: &[u8]) -> Option<Keyword>
    ensures { result ≡ spec.line_word line.now }
{
    match line_front(code(line)) {
        Some(front) => word_of(front.token),
        None => None,
    }
}

fn word_waits(word: Option<Keyword>) -> bool
    ensures { result ≡ spec.word_waits word }
{
    !matches!(word, Some(Keyword::Alphabet | Keyword::Group))
}

fn word_asks(word: Option<Keyword>) -> bool
    ensures { result ≡ spec.word_asks word }
{
    !matches!(
        word,
        Some(Keyword::Alphabet | Keyword::Group | Keyword::Let)
    )
}

fn is_question(statement: &Statement) -> bool
    ensures { result ≡ spec.is_question statement.now }
{
    !matches!(
        statement,
        Statement::Alphabet(_) | Statement::Group(_) | Statement::Let(_, _)
    )
}

fn alphabet_after(a: Alphabet, body: &Body) -> Alphabet
    ensures { result ≡ alphabet_after a body.now }
{
    match body {
        Body::Says(Statement::Alphabet(new)) => *new,
        _ => a,
    }
}

fn body_of(number: u32, outcome: LineOutcome) -> Body
    requires { outcome ≢ LineOutcome.Group }
    ensures { result ≡ spec.body_of number outcome }
{
    match outcome {
        LineOutcome::Says(statement) => Body::Says(statement),
        LineOutcome::Faulty(kind) => Body::Faulty(Fault { line: number, kind }),
        LineOutcome::Group => unreachable!(),
    }
}

/// Whether a line outside a block may be kept unread: its first token is neither `alphabet` nor `group`.
pub fn may_wait(line: &[u8]) -> bool
    ensures { result ≡ spec.word_waits (spec.line_word line.now) }
{
    word_waits(line_word(line))
}

impl Kept {
    /// Keeps a line outside a block unread. The alphabet is that of the lines above it, `is_first`
    /// says that no item stands above it, and its number counts from 1.
    pub fn line(
        alloc: Global,
        alphabet: Alphabet,
        is_first: bool,
        number: u32,
        line: &[u8],
    ) -> Result<Kept, NoMemory>
        requires { spec.word_waits (spec.line_word line.now) ≡ true }
        ensures { IfOk result (spec.IsBodyOf alphabet is_first number line.now) }
    {
        let text = Vec::from_slice(alloc, line)?;
        let form = Form::Line {
            text,
            alphabet,
            is_first,
            number,
        };
        Ok(Kept { form })
    }

    /// Keeps what an item says, or its fault, as it is.
    pub fn whole(body: Body) -> Kept
        ensures { result ≡ body }
    {
        let form = Form::Whole(body);
        Kept { form }
    }

    /// What the item says, or its fault. A line that was kept unread is read in each call.
    pub fn read(&self, alloc: Global) -> Result<Told<'_>, NoMemory>
        ensures { IfOk result (λ told. told ≡ self.now) }
    {
        match &self.form {
            Form::Whole(body) => Ok(Told {
                telling: Telling::Held(body),
            }),
            Form::Line {
                text,
                alphabet,
                is_first,
                number,
            } => {
                let outcome = read_line(alloc, *alphabet, *is_first, text)?;
                Ok(Told {
                    telling: Telling::Read(body_of(*number, outcome)),
                })
            }
        }
    }

    /// Whether the item asks, without reading it: yes for a question, no for a definition, and one
    /// of both for a faulty item.
    pub fn asks(&self) -> bool
        ensures { spec.TellsQuestion self.now result }
    {
        match &self.form {
            Form::Whole(Body::Says(statement)) => is_question(statement),
            Form::Whole(Body::Faulty(_)) => false,
            Form::Line { text, .. } => word_asks(line_word(text)),
        }
    }

    /// The alphabet below the item, where it was `a` above.
    pub fn alphabet_after(&self, a: Alphabet) -> Alphabet
        ensures { result ≡ alphabet_after a self.now }
    {
        match &self.form {
            Form::Whole(body) => alphabet_after(a, body),
            Form::Line { .. } => a,
        }
    }
}

impl Told<'_> {
    /// What the item says, or its fault.
    pub fn body(&self) -> &Body
        ensures { result.now ≡ self.now }
    {
        match &self.telling {
            Telling::Held(body) => body,
            Telling::Read(body) => body,
        }
    }
}

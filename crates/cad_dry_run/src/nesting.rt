//! Where a text stops being JSON.

ghost use Rattle.std.specs.Prelude.{◌≤◌, length, IfOk};

use json::{Reader, Scratch, Token};
use serde_json::Value;
use std::alloc::{AllocError, Global};
use std::mem;

/// The most arrays and objects inside one another.
const DEEPEST: usize = 127;

/// What was opened and not closed.
#[derive(Clone, Copy, Debug, PartialEq, Eq)]
enum Bracket {
    Array,
    Object,
}

/// Where a text is between two tokens.
#[derive(Drop)]
struct Nesting {
    open: Vec<Bracket>,
    is_begun: bool,
    is_named: bool,
}

impl Nesting {
    fn new(alloc: Global) -> Nesting {
        Nesting {
            open: Vec::new(alloc),
            is_begun: false,
            is_named: false,
        }
    }

    /// Takes the token, if it can be here.
    fn take(&mut self, alloc: Global, token: Token<'_>) -> Result<bool, AllocError> {
        match token {
            Token::Bad => Ok(false),
            Token::Key(_) => Ok(self.takes_name()),
            Token::String(_) | Token::Bool(_) | Token::Null => Ok(self.takes_value()),
            Token::Number(text) => Ok(self.takes_value() && is_in_range(alloc, text)?),
            Token::BeginArray => self.takes_opening(Bracket::Array),
            Token::BeginObject => self.takes_opening(Bracket::Object),
            Token::EndArray => Ok(matches!(self.open.pop(), Some(Bracket::Array))),
            Token::EndObject => Ok(
                !self.is_named && matches!(self.open.pop(), Some(Bracket::Object)),
            ),
        }
    }

    fn takes_name(&mut self) -> bool {
        let is_member = matches!(self.open.last(), Some(Bracket::Object));
        is_member && !mem::replace(&mut self.is_named, true)
    }

    fn takes_value(&mut self) -> bool {
        match self.open.last() {
            None => !mem::replace(&mut self.is_begun, true),
            Some(Bracket::Array) => true,
            Some(Bracket::Object) => mem::replace(&mut self.is_named, false),
        }
    }

    fn takes_opening(&mut self, bracket: Bracket) -> Result<bool, AllocError> {
        if self.open.len() >= DEEPEST || !self.takes_value() {
            return Ok(false);
        }
        self.open.push(bracket)?;
        Ok(true)
    }
}

/// Whether the number is one of serde_json: an integer of 64 bits, or a finite float.
fn is_in_range(alloc: Global, number: &str) -> Result<bool, AllocError> {
    match Value::from_str(alloc, number) {
        Ok(_) => Ok(true),
        Err(error) => if error.is_memory() {
            Err(AllocError)
        } else {
            Ok(false)
        },
    }
}

/// The place of the first token that cannot be where it is, or the length of the text if there is none.
pub(crate) fn broken_place(alloc: Global, text: &str) -> Result<usize, AllocError>
    ensures { IfOk result (λ place. place ≤ length text.now) }
{
    let mut scratch = Scratch::new(alloc);
    let mut reader = Reader::new(text, &mut scratch)?;
    let mut nesting = Nesting::new(alloc);
    for _ in 0..text.len() {
        let place = reader.offset();
        let Some(token) = reader.next() else {
            return Ok(text.len());
        };
        let stands = nesting.take(alloc, token)?;
        if !stands {
            return Ok(place.min(text.len()));
        }
    }
    Ok(text.len())
}

//! From tokens to a tree, or the first fault.

ghost use Rattle.std.specs.Prelude.{◌≡◌, Err, IsOk};
ghost use Rattle.cql_lexer.specs.Mark.{marks};
ghost use Rattle.cql_parser.specs.Answer.{Answers, IsParsed, OrMemory, fault_of};
ghost use Rattle.cql_parser.specs.Faults.{deep_at, HasFault};
ghost use Rattle.cql_tree.specs.Syntax.{Syntax};
ghost use Rattle.cql_parser.specs.declared.fault.GrammarFault.{GrammarFault};
ghost use Rattle.cql_parser.specs.declared.fault.ParseFault.TheVariants.{At};

use crate::descent::parse_filter;
use crate::fault::{GrammarFault, ParseFault};
use crate::stop::Stop;
use cql_lexer::{Kind, Token, Tokens};
use cql_tree::Tree;
use std::alloc::Global;

// How many parentheses may be open at one time
const MOST_OPEN: usize = 64;

/// The tree that the tokens spell, or their first fault: the 65th parenthesis open at one time,
/// else the first token after which no filter can come, else the end.
pub fn parse(alloc: Global, tokens: &Tokens) -> Result<Tree, ParseFault>
    ensures answer { Answers (marks tokens.now.list.items) tokens.now.end result }
    ensures accepted { (tree : Syntax) → IsParsed (marks tokens.now.list.items) tree → OrMemory result (IsOk result) }
    ensures refused { (fault : GrammarFault) → HasFault (marks tokens.now.list.items) tokens.now.end fault
        → OrMemory result (result ≡ Err (At fault)) }
{
    first_answer(alloc, tokens)
}

fn first_answer(alloc: Global, tokens: &Tokens) -> Result<Tree, ParseFault>
    ensures { Answers (marks tokens.now.list.items) tokens.now.end result }
{
    let list = tokens.list.as_slice();
    if let Some(place) = too_deep(list) {
        return Err(ParseFault::At(GrammarFault::TooDeep { place }));
    }
    match parse_filter(alloc, list) {
        Ok(root) => Ok(Tree {
            root: Box::into_inner(root),
        }),
        Err(Stop::Memory) => Err(ParseFault::Memory),
        Err(Stop::At(rest)) => Err(ParseFault::At(fault_at(rest, tokens.end))),
    }
}

// The fault of a filter that stops before these tokens.
fn fault_at(rest: &[Token], end: usize) -> GrammarFault
    ensures { result ≡ fault_of (marks rest.now) end }
{
    match rest.split_first() {
        None => GrammarFault::EndOfFilter { place: end },
        Some((first, _)) => GrammarFault::NotExpected { place: first.place },
    }
}

// The place of the first parenthesis that is one too many.
fn too_deep(tokens: &[Token]) -> Option<usize>
    ensures { result ≡ deep_at 0 (marks tokens.now) }
{
    let mut open: usize = 0;
    for token in tokens {
        match token.kind {
            Kind::Open if open == MOST_OPEN => return Some(token.place),
            Kind::Open => open += 1,
            Kind::Close => open = open.saturating_sub(1),
            _ => {}
        }
    }
    None
}

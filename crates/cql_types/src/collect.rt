//! Judged parts as terms of one kind.

ghost use Rattle.std.specs.Prelude.{◌≡◌, Bool, false, Option, Some, is_some, List, ◌++◌, ◌∷◌, IfOk, IfErr};
ghost use Rattle.cql_types.specs.Kinds.{Kind, is_whole, is_text, is_day, is_flag, is_time, is_shape, is_value, is_condition, first_not, wrong_kind};
ghost use Rattle.cql_types.specs.Means.{kind_of, marks_of, whole_of, text_of, day_of, flag_of, span_of, shape_of, any_of, condition_of, Are, AreSteps};
ghost use Rattle.cql_types.specs.Fits.{whole_fits, text_fits, day_fits, flag_fits, span_fits, shape_fits, any_fits, condition_fits};
ghost use Rattle.cql_types.specs.Contract.{ForFault, parts_judged, operations_judged};
ghost use Rattle.cql_types.specs.declared.judged.Node.{Node};
ghost use Rattle.cql_types.specs.declared.judged.Judged.{Judged};
ghost use Rattle.cql_types.specs.declared.fault.TypeFault.TheVariants.{At};

use crate::fault::{Fault, Misuse, TypeFault};
use crate::filter::{
    AnyTerm, DayTerm, Filter, FlagTerm, ShapeTerm, SpanTerm, Step, TextTerm, WholeTerm,
};
use crate::judged::{Judged, JudgedStep, Node};
use std::alloc::Global;

/// The terms of one kind.
pub trait Term: Sized + Drop {
    ghost as_term: { Node → Option Self };

    ghost has_kind: { Kind → Bool };

    fn of(node: Node) -> Option<Self>
        ensures { result ≡ as_term node };

    ghost fits: { (x : Node) → is_some (as_term x) ≡ has_kind (kind_of x) };
}

// A part of another kind is dropped by one call, and not left to its scope, where it would be taken apart.
impl Term for WholeTerm {
    ghost as_term = { whole_of };

    ghost has_kind = { is_whole };

    ghost fits = { whole_fits };

    fn of(node: Node) -> Option<Self> {
        match node {
            Node::Whole(term) => Some(term),
            other => {
                drop(other);
                None
            }
        }
    }
}

impl Term for TextTerm {
    ghost as_term = { text_of };

    ghost has_kind = { is_text };

    ghost fits = { text_fits };

    fn of(node: Node) -> Option<Self> {
        match node {
            Node::Text(term) | Node::Pattern(term) => Some(term),
            other => {
                drop(other);
                None
            }
        }
    }
}

impl Term for DayTerm {
    ghost as_term = { day_of };

    ghost has_kind = { is_day };

    ghost fits = { day_fits };

    fn of(node: Node) -> Option<Self> {
        match node {
            Node::Day(term) => Some(term),
            other => {
                drop(other);
                None
            }
        }
    }
}

impl Term for FlagTerm {
    ghost as_term = { flag_of };

    ghost has_kind = { is_flag };

    ghost fits = { flag_fits };

    fn of(node: Node) -> Option<Self> {
        match node {
            Node::Flag(term) => Some(term),
            Node::Truth(value) => Some(FlagTerm::Constant(value)),
            other => {
                drop(other);
                None
            }
        }
    }
}

impl Term for SpanTerm {
    ghost as_term = { span_of };

    ghost has_kind = { is_time };

    ghost fits = { span_fits };

    fn of(node: Node) -> Option<Self> {
        match node {
            Node::Span(term) => Some(term),
            Node::Day(term) => Some(SpanTerm::Day(term)),
            other => {
                drop(other);
                None
            }
        }
    }
}

impl Term for ShapeTerm {
    ghost as_term = { shape_of };

    ghost has_kind = { is_shape };

    ghost fits = { shape_fits };

    fn of(node: Node) -> Option<Self> {
        match node {
            Node::Spot(term) | Node::Area(term) | Node::Frame(term) => Some(term),
            other => {
                drop(other);
                None
            }
        }
    }
}

impl Term for AnyTerm {
    ghost as_term = { any_of };

    ghost has_kind = { is_value };

    ghost fits = { any_fits };

    fn of(node: Node) -> Option<Self> {
        match node {
            Node::Whole(term) => Some(AnyTerm::Whole(term)),
            Node::Text(term) | Node::Pattern(term) => Some(AnyTerm::Text(term)),
            Node::Day(term) => Some(AnyTerm::Day(term)),
            Node::Flag(term) => Some(AnyTerm::Flag(term)),
            Node::Truth(value) => Some(AnyTerm::Flag(FlagTerm::Constant(value))),
            Node::Span(term) => Some(AnyTerm::Span(term)),
            Node::Spot(term) | Node::Area(term) | Node::Frame(term) => Some(AnyTerm::Shape(term)),
            other => {
                drop(other);
                None
            }
        }
    }
}

impl Term for Filter {
    ghost as_term = { condition_of };

    ghost has_kind = { is_condition };

    ghost fits = { condition_fits };

    fn of(node: Node) -> Option<Self> {
        match node {
            Node::Condition(filter) => Some(filter),
            Node::Truth(value) => Some(Filter::Truth(value)),
            other => {
                drop(other);
                None
            }
        }
    }
}

/// The part at the place is of another kind than its node needs.
pub(crate) fn wrong_kind(place: usize) -> TypeFault
    ensures { result ≡ At (wrong_kind place) }
{
    TypeFault::At(Fault {
        place,
        cause: Misuse::WrongKind,
    })
}

/// The part as a term.
pub(crate) fn one<T: Term>(part: Judged) -> Result<T, TypeFault>
    ensures ok { IfOk result (λ x. T.as_term part.node ≡ Some x) }
    ensures err { IfErr result (λ e. (e ≡ At (wrong_kind part.place)) × (T.has_kind (kind_of part.node) ≡ false)) }
{
    let place = part.place;
    T::of(part.node).ok_or(wrong_kind(place))
}

/// The terms, and after them those of the parts.
pub(crate) fn extend<T: Term>(mut terms: Vec<T>, parts: Vec<Judged>) -> Result<Vec<T>, TypeFault>
    ensures ok { IfOk result (λ xs. (js : List Judged) → Are T.as_term js terms.items → Are T.as_term (js ++ parts.items) xs.items) }
    ensures err { IfErr result (ForFault (λ f. first_not T.has_kind (marks_of parts.items) ≡ Some f)) }
{
    for part in parts {
        terms.push(one(part)?)?;
    }
    Ok(terms)
}

/// The first part and the others as terms.
pub(crate) fn gather<T: Term>(
    alloc: Global,
    first: Judged,
    others: Vec<Judged>,
) -> Result<Vec<T>, TypeFault>
    ensures ok { IfOk result (λ xs. Are T.as_term (first ∷ others.items) xs.items) }
    ensures err { IfErr result (ForFault (λ f. first_not T.has_kind (marks_of (first ∷ others.items)) ≡ Some f)) }
{
    let mut terms = Vec::new(alloc);
    terms.push(one(first)?)?;
    extend(terms, others)
}

/// The parts of a sum or a product behind the first as terms.
pub(crate) fn collect_steps(alloc: Global, steps: Vec<JudgedStep>) -> Result<Vec<Step>, TypeFault>
    ensures ok { IfOk result (λ xs. AreSteps (operations_judged steps.items) (parts_judged steps.items) xs.items) }
    ensures err { IfErr result (ForFault (λ f. first_not is_whole (marks_of (parts_judged steps.items)) ≡ Some f)) }
{
    let mut terms = Vec::new(alloc);
    for step in steps {
        let by = step.by;
        let term = one(step.part)?;
        terms.push(Step { by, term })?;
    }
    Ok(terms)
}

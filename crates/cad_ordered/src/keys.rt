//! Keys in their order.

ghost use Rattle.std.specs.Prelude.{◌≡◌, ◌↔◌, ◌<◌, length, get_or, IsTrue, Some};
ghost use Rattle.cad_feature.specs.Values.{null};
ghost use Rattle.cad_range.specs.Ranges.{compared};
ghost use Rattle.cad_feature.specs.Limits.{scalar_datum};
ghost use Rattle.cad_ordered.specs.Edges.{IsEdgeOf, scalar_kind};
ghost use Rattle.cad_ordered.specs.TwoFronts.{AreFrontsOfScalar};
ghost use Rattle.cad_ordered.specs.Columns.{data_of, kind_of, is_before, IsAscending, IsSplit, IsLowRank, IsHighRank};

use crate::text_key::Fronts;
use crate::texts::{Texts, place_between};
use cad_day::Day;
use cad_feature::{Edge, Scalar};
use cad_schema::PropertyKind;
use std::cmp::Ordering;

#[derive(Drop)]
pub(crate) enum Keys {
    Texts(Texts),
    Wholes(Vec<i64>),
    Days(Vec<Day>),
}

// Whether the result of a comparison says before: below, or also equal if `upto` is true.
fn says_before(answer: Ordering, upto: bool) -> bool
    ensures { result ≡ is_before upto (Some answer) }
{
    match answer {
        Ordering::Less => true,
        Ordering::Equal => upto,
        Ordering::Greater => false,
    }
}

fn kind_of_scalar(scalar: &Scalar) -> PropertyKind
    ensures { result ≡ scalar_kind scalar.now }
{
    match scalar {
        Scalar::Text(_) => PropertyKind::Text,
        Scalar::Whole(_) => PropertyKind::Whole,
        Scalar::Day(_) => PropertyKind::Day,
    }
}

// The numbers of the value if it is a text, and else any.
fn fronts_of(scalar: &Scalar) -> Fronts
    ensures { AreFrontsOfScalar result scalar.now }
{
    match scalar {
        Scalar::Text(text) => Fronts::of(text.as_str().as_bytes()),
        _ => Fronts::of(&[]),
    }
}

impl Keys {
    pub(crate) fn kind(&self) -> PropertyKind
        ensures { result ≡ kind_of self.now }
    {
        match self {
            Keys::Texts(_) => PropertyKind::Text,
            Keys::Wholes(_) => PropertyKind::Whole,
            Keys::Days(_) => PropertyKind::Day,
        }
    }

    fn is_before(&self, rank: usize, scalar: &Scalar, fronts: Fronts, upto: bool) -> bool
        requires within { rank < length (data_of self.now) }
        requires fronts { AreFrontsOfScalar fronts scalar.now }
        ensures { result ≡ is_before upto (compared (get_or (data_of self.now) rank null) (scalar_datum scalar.now)) }
    {
        match (self, scalar) {
            (Keys::Texts(keys), Scalar::Text(text)) => says_before(
                keys.against(rank, text.as_str(), fronts),
                upto,
            ),
            (Keys::Wholes(keys), Scalar::Whole(number)) => says_before(
                keys[rank].cmp(number),
                upto,
            ),
            (Keys::Days(keys), Scalar::Day(day)) => says_before(keys[rank].cmp(day), upto),
            _ => false,
        }
    }

    // Whether the edge is free, or a value of the keys' kind.
    pub(crate) fn takes(&self, edge: &Edge) -> bool
        ensures { IsTrue result ↔ IsEdgeOf (kind_of self.now) edge.now }
    {
        match edge {
            Edge::Free => true,
            Edge::With(scalar) => kind_of_scalar(scalar) == self.kind(),
            Edge::Without(scalar) => kind_of_scalar(scalar) == self.kind(),
        }
    }

    // How many keys come before the value, or up to it.
    pub(crate) fn rank(&self, count: u32, scalar: &Scalar, upto: bool) -> u32
        requires ascends { IsAscending (data_of self.now) }
        requires counted { count ≡ length (data_of self.now) }
        ensures { IsSplit upto (data_of self.now) (scalar_datum scalar.now) result }
    {
        let fronts = fronts_of(scalar);
        let mut low = 0;
        let mut high = count;
        while low < high {
            let middle = place_between(low, high);
            if self.is_before(middle as usize, scalar, fronts, upto) {
                low = middle + 1;
            } else {
                high = middle;
            }
        }
        low
    }

    // How many keys lie below the lower edge.
    pub(crate) fn low_rank(&self, count: u32, edge: &Edge) -> u32
        requires ascends { IsAscending (data_of self.now) }
        requires counted { count ≡ length (data_of self.now) }
        requires alike { IsEdgeOf (kind_of self.now) edge.now }
        ensures { IsLowRank (data_of self.now) edge.now result }
    {
        match edge {
            Edge::Free => 0,
            Edge::With(scalar) => self.rank(count, scalar, false),
            Edge::Without(scalar) => self.rank(count, scalar, true),
        }
    }

    // How many keys lie below the upper edge, or at it if it is included.
    pub(crate) fn high_rank(&self, count: u32, edge: &Edge) -> u32
        requires ascends { IsAscending (data_of self.now) }
        requires counted { count ≡ length (data_of self.now) }
        ensures { IsHighRank (data_of self.now) edge.now result }
    {
        match edge {
            Edge::Free => count,
            Edge::With(scalar) => self.rank(count, scalar, true),
            Edge::Without(scalar) => self.rank(count, scalar, false),
        }
    }
}

//! Leaves.

ghost use Rattle.std.specs.Prelude.{◌≡◌, string_bytes};
ghost use Rattle.cad_schema.specs.Schema.{schema_of};
ghost use Rattle.cql_tree.specs.Syntax.{leaf, name_leaf, text_leaf, truth_leaf, day_leaf};
ghost use Rattle.cql_tree.specs.Views.{number_of};
ghost use Rattle.cql_types.specs.Means as means;
ghost use Rattle.cql_types.specs.Contract.{Judges, IsJudged};
ghost use Rattle.cql_types.specs.declared.fault.TypeFault.TheVariants.{At};

use crate::fault::{Fault, Misuse, TypeFault};
use crate::filter::{DayTerm, FlagTerm, ShapeTerm, SpanTerm, TextTerm, WholeTerm};
use crate::judged::{Judged, Node};
use crate::number::whole_number;
use cad_day::Day;
use cad_schema::{Collection, PropertyKind, find_property};
use cql_tree::Number;

/// The part at the place is misused.
pub(crate) fn at(place: usize, cause: Misuse) -> TypeFault
    ensures { result ≡ At (record { place = place; cause = cause }) }
{
    TypeFault::At(Fault { place, cause })
}

fn judged(place: usize, node: Node) -> Judged
    ensures { result ≡ record { place = place; node = node } }
{
    Judged { place, node }
}

/// A property's name.
pub(crate) fn name(place: usize, name: &str, collection: Collection) -> Result<Judged, TypeFault>
    ensures { Judges (schema_of collection) (leaf place (name_leaf name.now)) result }
{
    match find_property(collection, name) {
        None => Err(at(place, Misuse::UnknownProperty)),
        Some((property, kind)) => Ok(judged(place, property_node(property, kind))),
    }
}

fn property_node(property: usize, kind: PropertyKind) -> Node
    ensures { result ≡ means.property_node property kind }
{
    match kind {
        PropertyKind::Text => Node::Text(TextTerm::Property(property)),
        PropertyKind::Whole => Node::Whole(WholeTerm::Property(property)),
        PropertyKind::Flag => Node::Flag(FlagTerm::Property(property)),
        PropertyKind::Day => Node::Day(DayTerm::Property(property)),
        PropertyKind::Span => Node::Span(SpanTerm::Property(property)),
        PropertyKind::Spot => Node::Spot(ShapeTerm::Property(property)),
        PropertyKind::Area => Node::Area(ShapeTerm::Property(property)),
    }
}

/// A number with its sign.
pub(crate) fn number(number: &Number, collection: Collection) -> Result<Judged, TypeFault>
    ensures { Judges (schema_of collection) (number_of number.now) result }
{
    let place = number.place;
    match whole_number(number) {
        Ok(value) => Ok(judged(place, Node::Whole(WholeTerm::Constant(value)))),
        Err(cause) => Err(at(place, cause)),
    }
}

/// A text.
pub(crate) fn text(
    place: usize,
    content: &String,
    collection: Collection,
) -> Result<Judged, TypeFault>
    ensures { Judges (schema_of collection) (leaf place (text_leaf (string_bytes content.now))) result }
{
    let node = Node::Pattern(TextTerm::Constant(content.clone()?));
    Ok(Judged { place, node })
}

/// TRUE or FALSE.
pub(crate) fn truth(place: usize, value: bool, collection: Collection) -> Judged
    ensures { IsJudged (schema_of collection) (leaf place (truth_leaf value)) result }
{
    judged(place, Node::Truth(value))
}

/// The text of a DATE.
pub(crate) fn day(place: usize, text: &str, collection: Collection) -> Result<Judged, TypeFault>
    ensures { Judges (schema_of collection) (leaf place (day_leaf text.now)) result }
{
    match Day::read(text) {
        None => Err(at(place, Misuse::NotADate)),
        Some(day) => Ok(judged(place, Node::Day(DayTerm::Constant(day)))),
    }
}

//! Causes in words.

ghost use Rattle.std.specs.Prelude.{◌≡◌, ◌++◌, codes, IfOk, OnOk, string_bytes};
ghost use Rattle.cad_dry_run.specs.Words.{
  cause_text,
  explanation_text,
  fault_text,
  member_text,
  object_text,
  outline_text,
  region_text,
  ring_text,
  unknown_text,
};

use crate::cause::{Cause, Explanation, MemberCause, ObjectCause, RingCause, ValueFault};
use cad_shape::{RegionFault, RingFault};
use serde_json::Value;
use std::alloc::{AllocError, Global};

/// The line of an explanation, with its LF.
pub(crate) fn explanation_line(
    alloc: Global,
    explanation: &Explanation,
) -> Result<String, AllocError>
    ensures { IfOk result (λ text. string_bytes text ≡ explanation_text explanation.now) }
{
    let place = explanation.place;
    let mut text = String::new(alloc);
    write!(text, "no command at {place}: ")?;
    put_cause(alloc, &mut text, &explanation.cause)?;
    text.push_str("\n")?;
    Ok(text)
}

fn put_cause(alloc: Global, text: &mut String, cause: &Cause) -> Result<(), AllocError>
    ensures { OnOk result (string_bytes text.new ≡ string_bytes text.old ++ cause_text cause.now) }
{
    match cause {
        Cause::LongLine => text.push_str("more than 65536 bytes"),
        Cause::NotUtf8 => text.push_str("not UTF-8"),
        Cause::JsonEnds => text.push_str("the JSON ends here"),
        Cause::NotJson => text.push_str("not JSON"),
        Cause::NotAnObject => text.push_str("not an object"),
        Cause::Object(cause) => put_object(alloc, text, cause),
        Cause::Unexplained => text.push_str("no cause found"),
    }
}

fn put_object(alloc: Global, text: &mut String, cause: &ObjectCause) -> Result<(), AllocError>
    ensures { OnOk result (string_bytes text.new ≡ string_bytes text.old ++ object_text cause.now) }
{
    match cause {
        ObjectCause::Member(cause) => put_member(text, *cause),
        ObjectCause::UnknownAtEnd(name) => put_unknown(alloc, text, name),
        ObjectCause::UnknownBeside(name) => put_unknown(alloc, text, name),
        ObjectCause::NoBody => text.push_str("no body"),
        ObjectCause::TwoBodies(one, other) => put_names(text, one.name(), other.name()),
        ObjectCause::BodyNotAnObject(class) => put_two_texts(text, class.name(), ": not an object"),
        ObjectCause::InBody(class, cause) => {
            put_two_texts(text, class.name(), ".")?;
            put_member(text, *cause)
        }
        ObjectCause::UnknownInBody(class, name) => {
            put_two_texts(text, class.name(), ".")?;
            put_unknown(alloc, text, name)
        }
    }
}

fn put_two_texts(text: &mut String, one: &str, other: &str) -> Result<(), AllocError>
    ensures { OnOk result (string_bytes text.new ≡ string_bytes text.old ++ (one.now ++ other.now)) }
{
    text.push_str(one)?;
    text.push_str(other)
}

fn put_names(text: &mut String, one: &str, other: &str) -> Result<(), AllocError>
    ensures { OnOk result (string_bytes text.new ≡ string_bytes text.old
        ++ (one.now ++ (codes " and " ++ (other.now ++ codes ": two bodies")))) }
{
    write!(text, "{one} and {other}: two bodies")
}

/// The name as JSON spells it, so that it is printable and in one line.
fn put_unknown(alloc: Global, text: &mut String, name: &String) -> Result<(), AllocError>
    ensures { OnOk result (string_bytes text.new ≡ string_bytes text.old ++ unknown_text (string_bytes name.now)) }
{
    let name = Value::String(String::from_str(alloc, name.as_str())?);
    let quoted = name.to_string(alloc)?;
    text.push_str(quoted.as_str())?;
    text.push_str(": unknown")
}

fn put_member(text: &mut String, cause: MemberCause) -> Result<(), AllocError>
    ensures { OnOk result (string_bytes text.new ≡ string_bytes text.old ++ member_text cause) }
{
    match cause {
        MemberCause::Missing(name) => {
            text.push_str(name.text())?;
            text.push_str(": missing")
        }
        MemberCause::Wrong(name, fault) => {
            text.push_str(name.text())?;
            text.push_str(": ")?;
            text.push_str(words_of(fault))
        }
        MemberCause::Outline(cause) => {
            text.push_str("shape")?;
            put_outline(text, cause)
        }
        MemberCause::Hole(k, cause) => {
            write!(text, "holes[{k}]")?;
            put_outline(text, cause)
        }
        MemberCause::Region(fault) => put_region(text, fault),
        MemberCause::HolesWithoutShape => text.push_str("holes: no shape"),
    }
}

fn put_outline(text: &mut String, cause: RingCause) -> Result<(), AllocError>
    ensures { OnOk result (string_bytes text.new ≡ string_bytes text.old ++ outline_text cause) }
{
    match cause {
        RingCause::NotAList => text.push_str(": not a list"),
        RingCause::Corner(i, fault) => {
            write!(text, "[{i}]: ")?;
            text.push_str(words_of(fault))
        }
        RingCause::Fault(fault) => put_ring(text, fault),
    }
}

fn put_ring(text: &mut String, fault: RingFault) -> Result<(), AllocError>
    ensures { OnOk result (string_bytes text.new ≡ string_bytes text.old ++ ring_text fault) }
{
    match fault {
        RingFault::TooFew => text.push_str(": TooFew"),
        RingFault::TooMany => text.push_str(": TooMany"),
        RingFault::Flat => text.push_str(": Flat"),
        RingFault::Crosses { first, second } => write!(text, ": Crosses {first} {second}"),
    }
}

fn put_region(text: &mut String, fault: RegionFault) -> Result<(), AllocError>
    ensures { OnOk result (string_bytes text.new ≡ string_bytes text.old ++ region_text fault) }
{
    match fault {
        RegionFault::Outside { ring } => {
            let hole = ring.saturating_sub(1);
            write!(text, "holes[{hole}]: Outside")
        }
        RegionFault::TooMany => text.push_str("holes: TooMany"),
        RegionFault::NoRing => text.push_str("holes: NoRing"),
    }
}

/// What is wrong with a value, in words.
fn words_of(fault: ValueFault) -> &'static str
    ensures { result.now ≡ fault_text fault }
{
    match fault {
        ValueFault::NotAnOperation => "not enter, amend or retire",
        ValueFault::NotANumber => "not a whole number from 0 on",
        ValueFault::NotAnObjectNumber => "not from 1 to 2147483647",
        ValueFault::TooLarge => "above 4294967295",
        ValueFault::NotADay => "not a day YYYY-MM-DD",
        ValueFault::NotAText => "not a text",
        ValueFault::Empty => "an empty text",
        ValueFault::TooLong => "a text of more than 200 bytes",
        ValueFault::HasNul => "a text with U+0000",
        ValueFault::NotAFlag => "not true or false",
        ValueFault::NotAPair => "not two whole numbers from 0 on",
        ValueFault::NotAShare => "not 1 <= num <= den <= 1000000000",
        ValueFault::NotAPoint => "not two whole numbers",
        ValueFault::TooFar => "farther than 100000000000",
        ValueFault::NotAList => "not a list",
    }
}

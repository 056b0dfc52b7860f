//! What is wrong with the object of a line.

ghost use Rattle.std.specs.Prelude.{◌≡◌, Some, IfErr};
ghost use Rattle.serde_json.specs.Data.{Data, Members as MembersOf};
ghost use Rattle.serde_json.specs.Find.{as_object};
ghost use Rattle.serde_json.specs.View.{members_view, view};
ghost use Rattle.cad_dry_run.specs.Causes.{HasBody, IsOfRetirement};
ghost use Rattle.cad_dry_run.specs.inner.Stops.{StopsObject};

use crate::body::check_members;
use crate::cause::ObjectCause;
use crate::member_name::MemberName;
use crate::members::{Members, check_required, object, retires, without};
use crate::stop::{MemberStop, ObjectStop};
use cad_versions::Class;
use serde_json::Value;
use std::alloc::Global;

/// Checks the object of a line, in the order of docs/OFFICE.md.
pub(crate) fn check_object(alloc: Global, members: Members) -> Result<(), ObjectStop>
    ensures { IfErr result (StopsObject (members_view members.entries)) }
{
    check_required(&members, MemberName::Do)?;
    check_required(&members, MemberName::Object)?;
    if retires(&members) {
        check_required(&members, MemberName::Last)?;
        return check_end(members);
    }
    check_required(&members, MemberName::First)?;
    check_bodies(alloc, members)
}

/// Checks that a command which retires an object has no other members.
fn check_end(members: Members) -> Result<(), ObjectStop>
    ensures { IsOfRetirement (members_view members.entries) → IfErr result (StopsObject (members_view members.entries)) }
{
    let mut others = without(members, &["do", "object", "last"]);
    match others.pop_first() {
        Some((name, _)) => Err(ObjectStop::Cause(ObjectCause::UnknownAtEnd(name))),
        None => Ok(()),
    }
}

/// Checks that there is one body, and checks it.
fn check_bodies(alloc: Global, members: Members) -> Result<(), ObjectStop>
    ensures { IfErr result (StopsObject (members_view members.entries)) }
{
    let mut others = without(members, &["do", "object", "first"]);
    let Some((name, value)) = others.pop_first() else {
        return Err(ObjectStop::Cause(ObjectCause::NoBody));
    };
    let Some(class) = Class::named(name.as_str()) else {
        return Err(ObjectStop::Cause(ObjectCause::UnknownBeside(name)));
    };
    match others.pop_first() {
        None => check_body(alloc, class, value),
        Some((other, _)) => match Class::named(other.as_str()) {
            Some(second) => Err(ObjectStop::Cause(ObjectCause::TwoBodies(class, second))),
            None => Err(ObjectStop::Cause(ObjectCause::UnknownBeside(other))),
        },
    }
}

/// Checks the value of the body of the class.
fn check_body(alloc: Global, class: Class, value: Value) -> Result<(), ObjectStop>
    ensures { (outer : MembersOf) → HasBody outer class (view value) → IfErr result (StopsObject outer) }
{
    let Some(members) = object(value) else {
        return Err(ObjectStop::Cause(ObjectCause::BodyNotAnObject(class)));
    };
    match check_members(alloc, class, &members) {
        Ok(()) => check_known(class, members),
        Err(MemberStop::Cause(cause)) => {
            Err(ObjectStop::Cause(ObjectCause::InBody(class, cause)))
        }
        Err(MemberStop::Memory) => Err(ObjectStop::Memory),
    }
}

/// Checks that the body of the class has no members other than those of its class.
fn check_known(class: Class, members: Members) -> Result<(), ObjectStop>
    ensures { (outer : MembersOf) (d : Data) → HasBody outer class d → as_object d ≡ Some (members_view members.entries) →
        IfErr result (StopsObject outer) }
{
    let mut others = without(members, class.attributes());
    match others.pop_first() {
        Some((name, _)) => Err(ObjectStop::Cause(ObjectCause::UnknownInBody(class, name))),
        None => Ok(()),
    }
}

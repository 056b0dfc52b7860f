//! Members of a JSON object, by their names.

ghost use Rattle.std.specs.Prelude.{◌≡◌, map, option_map, IfErr, IsTrue};
ghost use Rattle.serde_json.specs.Find.{as_object};
ghost use Rattle.serde_json.specs.View.{members_view, view};
ghost use Rattle.cad_commands.specs.declared.operation.Operation.TheVariants.{Retire};
ghost use Rattle.cad_commands.specs.Commands.{IsOperationOf};
ghost use Rattle.cad_commands.specs.Members.{member_in, without_all};
ghost use Rattle.cad_dry_run.specs.Causes.{IsOfRetirement, IsWrongIn};

use crate::cause::MemberCause;
use crate::member_name::MemberName;
use crate::values::check_value;
use serde_json::{Map, Value};

/// The members of an object.
pub(crate) type Members = Map<String, Value>;

/// The members of the value, if it is an object.
pub(crate) fn object(value: Value) -> Option<Members>
    ensures { option_map (λ members. members_view members.entries) result ≡ as_object (view value) }
{
    match value {
        Value::Object(members) => Some(members),
        _ => None,
    }
}

/// The member, if it is there and not null.
pub(crate) fn find_member<'a>(members: &'a Members, name: &str) -> Option<&'a Value>
    ensures { option_map (λ value. view value.now) result ≡ member_in name.now (members_view members.now.entries) }
{
    let value = members.get(name)?;
    if value.is_null() { None } else { Some(value) }
}

/// Checks a member that may be missing, apart from `shape` and `holes`.
pub(crate) fn check_optional(members: &Members, name: MemberName) -> Result<(), MemberCause>
    ensures { IfErr result (IsWrongIn (members_view members.now.entries)) }
{
    let Some(value) = find_member(members, name.text()) else {
        return Ok(());
    };
    match check_value(name, value) {
        Ok(()) => Ok(()),
        Err(fault) => Err(MemberCause::Wrong(name, fault)),
    }
}

/// Checks a member that must be there.
pub(crate) fn check_required(members: &Members, name: MemberName) -> Result<(), MemberCause>
    ensures { IfErr result (IsWrongIn (members_view members.now.entries)) }
{
    match find_member(members, name.text()) {
        Some(_) => check_optional(members, name),
        None => Err(MemberCause::Missing(name)),
    }
}

/// Whether the members are those of a command that retires an object.
pub(crate) fn retires(members: &Members) -> bool
    ensures { IsTrue result → IsOfRetirement (members_view members.now.entries) }
{
    match find_member(members, MemberName::Do.text()) {
        Some(value) => is_retire(value),
        None => false,
    }
}

fn is_retire(value: &Value) -> bool
    ensures { IsTrue result → IsOperationOf (view value.now) Retire }
{
    match value.as_str() {
        Some("retire") => true,
        _ => false,
    }
}

/// The members of other names than these.
pub(crate) fn without(members: Members, names: &[&str]) -> Members
    ensures { members_view result.entries ≡ without_all (map (λ name. name.now) names.now) (members_view members.entries) }
{
    let mut others = members;
    for name in names {
        let _ = others.remove(*name);
    }
    others
}

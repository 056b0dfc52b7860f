//! What is wrong with the body of a version.

ghost use Rattle.std.specs.Prelude.{IfErr};
ghost use Rattle.serde_json.specs.View.{members_view};
ghost use Rattle.cad_dry_run.specs.inner.Stops.{StopsMembers};

use crate::member_name::MemberName;
use crate::members::{Members, check_optional, check_required};
use crate::outline::check_shape;
use crate::stop::MemberStop;
use cad_versions::Class;
use std::alloc::Global;

/// Checks the member of that name. `holes` are checked with `shape`.
fn check_member(alloc: Global, members: &Members, name: &str) -> Result<(), MemberStop>
    ensures { IfErr result (StopsMembers (members_view members.now.entries)) }
{
    match name {
        "unit" => check_required(members, MemberName::Unit)?,
        "label" => check_required(members, MemberName::Label)?,
        "code" => check_required(members, MemberName::Code)?,
        "shape" => check_shape(alloc, members)?,
        "area" => check_optional(members, MemberName::Area)?,
        "name" => check_optional(members, MemberName::Name)?,
        "party" => check_optional(members, MemberName::Party)?,
        "required" => check_optional(members, MemberName::Required)?,
        "share" => check_optional(members, MemberName::Share)?,
        "spot" => check_optional(members, MemberName::Spot)?,
        _ => {}
    }
    Ok(())
}

/// Checks the members that a body of the class may have, in the order of docs/OFFICE.md.
pub(crate) fn check_members(
    alloc: Global,
    class: Class,
    members: &Members,
) -> Result<(), MemberStop>
    ensures { IfErr result (StopsMembers (members_view members.now.entries)) }
{
    for name in class.attributes() {
        check_member(alloc, members, name)?;
    }
    Ok(())
}

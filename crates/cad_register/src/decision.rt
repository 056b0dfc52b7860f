//! Whether a command is accepted, by the rows of the objects that it names.

ghost use Rattle.std.specs.Prelude.{◌≡◌, ◌<◌, true, length, Some, None, IfOk, IfErr};
ghost use Rattle.sqlite.specs.Held.{state};
ghost use Rattle.sqlite.specs.State.{HasCleanDisk};
ghost use Rattle.cad_tables.specs.Opening.{IsSettled};
ghost use Rattle.cad_versions.specs.Keeping.{IsAnswered};
ghost use Rattle.cad_versions.specs.Command.{object_named};
ghost use Rattle.cad_versions.specs.Versions.{history, versions};
ghost use Rattle.cad_versions.specs.Refusals.{is_entered as entered, are_entered as all_entered, is_full as filled, refuses_body, refusal};
ghost use Rattle.cad_register.specs.Stands.{IsStoreFault, IsRefusal};
ghost use Rattle.cad_register.specs.Refusing.{IsForNamed, IsForBody, IsForRoom, IsForAddition, IsForCommand};
ghost use Rattle.cad_register.specs.Refusing.{history_questions, body_questions, room_questions, addition_questions, command_questions};
ghost use Rattle.cad_register.specs.Naming.{TellAll, NamesFirst};
ghost use Rattle.cad_register.specs.inner.Inquiring.{Inquires};

use crate::asking::{standing_of, versions_of};
use cad_versions::{Body, Class, Command, MOST_VERSIONS, ObjectId, RegisterFault};
use sqlite::{Alter, Connection};
use std::alloc::Global;

/// Whether the object that is named, if one is, was entered with this class.
fn is_entered<S: Alter>(
    connection: &mut Connection<S>,
    class: Class,
    object: Option<ObjectId>,
) -> Result<bool, RegisterFault>
    ensures inquires { Inquires S.Store connection.old connection.new (IsForNamed object)
        (λ commands known. known ≡ entered (versions commands) class object)
        (λ commands fault. IsStoreFault fault) result }
    ensures shown { IfOk result (λ _. TellAll S.Store connection.new (history_questions object) connection.old connection.new) }
    ensures damaged { IfErr result (NamesFirst S.Store connection.old connection.new (history_questions object)) }
{
    match object {
        None => Ok(true),
        Some(object) => {
            let standing = standing_of(connection, object)?;
            match standing.class {
                Some(found) => Ok(class == found),
                None => Ok(false),
            }
        }
    }
}

/// Whether all that the body names was entered.
fn are_entered<S: Alter>(connection: &mut Connection<S>, body: &Body) -> Result<bool, RegisterFault>
    ensures damaged { IfErr result (NamesFirst S.Store connection.old connection.new (body_questions body.now)) }
    ensures inquires { Inquires S.Store connection.old connection.new (IsForBody body.now)
        (λ commands known. known ≡ all_entered (versions commands) body.now)
        (λ commands fault. IsStoreFault fault) result }
    ensures shown { IfOk result (λ known. known ≡ true →
        TellAll S.Store connection.new (body_questions body.now) connection.old connection.new) }
{
    if is_entered(connection, Class::Unit, body.unit())? {
        let known = is_entered(connection, Class::Party, body.party())?;
        Ok(known)
    } else {
        Ok(false)
    }
}

/// Whether there is no room for one more version. Each version came with a command, so rows are counted only if at least `MOST_VERSIONS`
/// commands were accepted.
fn is_full<S: Alter>(
    alloc: Global,
    connection: &mut Connection<S>,
    revision: u32,
) -> Result<bool, RegisterFault>
    ensures inquires { Inquires S.Store connection.old connection.new (IsForRoom revision)
        (λ commands full. revision ≡ length commands → full ≡ filled (versions commands))
        (λ commands fault. revision ≡ length commands → IsStoreFault fault) result }
    ensures damaged { IfErr result (NamesFirst S.Store connection.old connection.new (room_questions revision)) }
{
    if revision < MOST_VERSIONS {
        return Ok(false);
    }
    let standing = versions_of(alloc, connection, revision, revision)?;
    Ok(MOST_VERSIONS as usize <= standing.as_slice().len())
}

/// Checks whether anything forbids adding a version with this body.
fn check_addition<S: Alter>(
    alloc: Global,
    connection: &mut Connection<S>,
    revision: u32,
    body: &Body,
) -> Result<(), RegisterFault>
    ensures damaged { IfErr result
        (NamesFirst S.Store connection.old connection.new (addition_questions (Some body.now) revision)) }
    ensures inquires { Inquires S.Store connection.old connection.new (IsForAddition (Some body.now) revision)
        (λ commands _. revision ≡ length commands →
        refuses_body (versions commands) (Some body.now) ≡ None)
        (λ commands fault. revision ≡ length commands →
        IsRefusal (refuses_body (versions commands) (Some body.now)) fault) result }
{
    if !are_entered(connection, body)? {
        return Err(RegisterFault::UnknownReference);
    }
    if is_full(alloc, connection, revision)? {
        return Err(RegisterFault::Full);
    }
    Ok(())
}

/// Checks whether anything refuses the command, and returns how many versions its object has.
pub(crate) fn decide<S: Alter>(
    alloc: Global,
    connection: &mut Connection<S>,
    revision: u32,
    command: &Command,
) -> Result<usize, RegisterFault>
    ensures damaged { IfErr result
        (NamesFirst S.Store connection.old connection.new (command_questions command.now revision)) }
    ensures still { HasCleanDisk (state S.Store connection.new) →
        IsAnswered result → IsSettled S.Store connection.old connection.new }
    ensures inquires { Inquires S.Store connection.old connection.new (IsForCommand command.now revision)
        (λ commands count. revision ≡ length commands →
        (refusal (versions commands) command.now ≡ None) ×
        (count ≡ length (history (object_named command.now) (versions commands))))
        (λ commands fault. revision ≡ length commands →
        IsRefusal (refusal (versions commands) command.now) fault) result }
{
    let standing = standing_of(connection, command.object())?;
    if let Some(fault) = command.refused_by_object(standing.class, standing.open_since) {
        return Err(fault);
    }
    if let Some(body) = command.body() {
        check_addition(alloc, connection, revision, body)?;
    }
    Ok(standing.count)
}

//! What holds of every text and of every command, no matter who reads it. Each contract is a law; the functions do nothing.

ghost use Rattle.std.specs.Prelude.{◌<◌, ◌^◌};
ghost use Rattle.std.specs.Option.{ForSome};
ghost use Rattle.cad_versions.specs.BodyParts.{area_in};
ghost use Rattle.cad_versions.specs.declared.command.Command.TheVariants.{Enter, Amend, Retire};
ghost use Rattle.cad_commands.specs.Laws.{IsSaid, MembersInAnyOrder, TextSaysOneCommand};

use cad_day::Day;
use cad_day::laws::written_days_are_read_back;
use cad_versions::{Body, Command, ObjectId};

/// A text says at most one command.
pub fn text_says_one_command()
    ensures { TextSaysOneCommand }
{}

/// A text whose members are in another order says the same command.
pub fn members_in_any_order()
    ensures { MembersInAnyOrder }
{}

/// An area is a number of 32 bits.
fn area_fits(body: Body)
    ensures { ForSome (area_in body) (λ n. n < 2 ^ 32) }
{}

fn entry_is_said(object: ObjectId, first: Day, body: Body)
    ensures { IsSaid (Enter object first body) }
{
    written_days_are_read_back(first);
    area_fits(body);
}

fn amendment_is_said(object: ObjectId, first: Day, body: Body)
    ensures { IsSaid (Amend object first body) }
{
    written_days_are_read_back(first);
    area_fits(body);
}

fn retirement_is_said(object: ObjectId, last: Day)
    ensures { IsSaid (Retire object last) }
{
    written_days_are_read_back(last);
}

/// Each command is said by an object, the one that specs/Writing makes of it, and by that object's compact text.
pub fn each_command_is_said(command: Command)
    ensures { IsSaid command }
{
    match command {
        Command::Enter {
            object,
            first,
            body,
        } => entry_is_said(object, first, body),
        Command::Amend {
            object,
            first,
            body,
        } => amendment_is_said(object, first, body),
        Command::Retire { object, last } => retirement_is_said(object, last),
    }
}

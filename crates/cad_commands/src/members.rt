//! Members of a JSON object: each is read by its name, and then it is checked that there are no others.

ghost use Rattle.std.specs.Prelude.{◌≡◌, ℕ, List, MatchResult, Some, map, option_map, string_bytes};
ghost use Rattle.serde_json.specs.Data.{Data};
ghost use Rattle.serde_json.specs.Find.{as_object};
ghost use Rattle.serde_json.specs.View.{members_view, view};
ghost use Rattle.cad_commands.specs.Members.{AreOnly, Has, HasOneOther, MayHave, member_in, without_all};
ghost use Rattle.cad_commands.specs.Reading.{IsRead, IsReadAs};

use crate::command_error::CommandError;
use crate::values::FromValue;
use serde_json::{Map, Value};
use std::alloc::Global;

/// The members of an object.
#[derive(Drop)]
pub struct Members {
    map: Map<String, Value>,
}

impl Members {
    /// The members of the value, which must be an object.
    pub(crate) fn of(value: Value) -> Result<Members, CommandError>
        ensures { IsReadAs (λ members. members_view members.map.entries) (λ ms. as_object (view value) ≡ Some ms) result }
    {
        match value {
            Value::Object(map) => Ok(Members { map }),
            _ => Err(CommandError::NotACommand),
        }
    }

    /// The member, if it is there and not null.
    fn get(&self, name: &str) -> Option<&Value>
        ensures { option_map (λ v. view v.now) result ≡ member_in name.now (members_view self.now.map.entries) }
    {
        let value = self.map.get(name)?;
        if value.is_null() { None } else { Some(value) }
    }

    /// What the member says, if it is there and not null.
    pub(crate) fn optional<T: FromValue>(
        &self,
        alloc: Global,
        name: &str,
    ) -> Result<Option<T>, CommandError>
        ensures { IsRead (MayHave T.said_by name.now (members_view self.now.map.entries)) result }
    {
        match self.get(name) {
            Some(value) => Ok(Some(T::from_value(alloc, value)?)),
            None => Ok(None),
        }
    }

    /// What the member says, which must be there and not null.
    pub(crate) fn required<T: FromValue>(
        &self,
        alloc: Global,
        name: &str,
    ) -> Result<T, CommandError>
        ensures { IsRead (Has T.said_by name.now (members_view self.now.map.entries)) result }
    {
        match self.get(name) {
            Some(value) => T::from_value(alloc, value),
            None => Err(CommandError::NotACommand),
        }
    }

    /// Checks that there are members of these names only.
    pub(crate) fn only(self, names: &[&str]) -> Result<(), CommandError>
        ensures { MatchResult result
            (λ _. AreOnly (map (λ name. name.now) names.now) (members_view self.map.entries))
            (λ e. (e ≡ CommandError.NotACommand) × ¬ AreOnly (map (λ name. name.now) names.now) (members_view self.map.entries)) }
    {
        if self.without(names).map.is_empty() {
            Ok(())
        } else {
            Err(CommandError::NotACommand)
        }
    }

    /// The one member that has none of these names.
    pub(crate) fn one_other(self, names: &[&str]) -> Result<(String, Value), CommandError>
        ensures { IsReadAs {X = List ℕ × Data} (λ other. (string_bytes other.0, view other.1))
            (λ other. HasOneOther (map (λ name. name.now) names.now) (members_view self.map.entries) other.0 other.1) result }
    {
        let mut others = self.without(names);
        let Some(other) = others.map.pop_first() else {
            return Err(CommandError::NotACommand);
        };
        if others.map.is_empty() {
            Ok(other)
        } else {
            Err(CommandError::NotACommand)
        }
    }

    fn without(self, names: &[&str]) -> Members
        ensures { members_view result.map.entries ≡ without_all (map (λ name. name.now) names.now) (members_view self.map.entries) }
    {
        let mut map = self.map;
        for name in names {
            let _ = map.remove(*name);
        }
        Members { map }
    }
}

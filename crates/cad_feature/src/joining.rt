//! Names of the objects that a version names.

ghost use Rattle.std.specs.Prelude.{◌≡◌, take_while};
ghost use Rattle.std.specs.Option.{option_copied};
ghost use Rattle.cad_versions.specs.Versions.{is_of, history};
ghost use Rattle.cad_feature.specs.Lifespans.{holds_on, is_up_to as up_to};
ghost use Rattle.cad_feature.specs.Flatten.{version_on as version_holding, joined_name as name_joined};

use crate::objects::Objects;
use cad_day::Day;
use cad_versions::{ObjectId, Version, Words};

/// The versions from the first version of the object on, by a binary search among those near it.
fn from_object<'a>(objects: &Objects<'a>, object: ObjectId) -> &'a [Version]
    ensures { take_while (is_of object) result.now ≡ history object objects.now.versions.now }
{
    let number = object.number();
    let near = objects.near(object);
    let first = near.partition_point(|version| version.object.number() < number);
    &near[first..]
}

/// Whether the day is not after the last one.
pub(crate) fn is_up_to(last: Option<Day>, day: Day) -> bool
    ensures { result ≡ up_to last day }
{
    match last {
        None => true,
        Some(last) => day.number() <= last.number(),
    }
}

fn holds(version: &Version, day: Day) -> bool
    ensures { result ≡ holds_on day version.now }
{
    version.first.number() <= day.number() && is_up_to(version.last, day)
}

/// The first version of the object that holds the day.
fn version_on<'a>(objects: &Objects<'a>, day: Day, object: ObjectId) -> Option<&'a Version>
    ensures { option_copied result ≡ version_holding objects.now.versions.now day object }
{
    from_object(objects, object)
        .iter()
        .take_while(|version| version.object.number() == object.number())
        .find(|version| holds(version, day))
}

/// The name that the object had on the day.
pub(crate) fn joined_name<'a>(
    objects: &Objects<'a>,
    day: Day,
    object: Option<ObjectId>,
) -> Option<&'a Words>
    ensures { option_copied result ≡ name_joined objects.now.versions.now day object }
{
    let version = version_on(objects, day, object?)?;
    version.body.name()
}

//! Copies of what versions say.

ghost use Rattle.std.specs.Prelude.{◌≡◌, IfOk};
ghost use Rattle.std.specs.Option.{option_copied};
ghost use Rattle.cad_versions.specs.BodyParts.{lent};

use crate::body::Body;
use crate::body_parts::{BodyParts, LentParts};
use crate::command::Command;
use crate::words::Words;
use cad_shape::Region;
use std::alloc::AllocError;

fn copy_words(words: Option<&Words>) -> Result<Option<Words>, AllocError>
    ensures { IfOk result (λ copy. copy ≡ option_copied words.entry) }
{
    match words {
        None => Ok(None),
        Some(words) => {
            let copy = words.copy()?;
            Ok(Some(copy))
        }
    }
}

fn copy_shape(shape: Option<&Region>) -> Result<Option<Region>, AllocError>
    ensures { IfOk result (λ copy. copy ≡ option_copied shape.entry) }
{
    match shape {
        None => Ok(None),
        Some(region) => {
            let copy = region.copy()?;
            Ok(Some(copy))
        }
    }
}

fn copy_parts(parts: LentParts<'_>) -> Result<BodyParts, AllocError>
    ensures { IfOk result (λ copy. copy ≡ lent parts.entry) }
{
    let name = copy_words(parts.name)?;
    let code = copy_words(parts.code)?;
    let label = copy_words(parts.label)?;
    let shape = copy_shape(parts.shape)?;
    Ok(BodyParts {
        name,
        code,
        label,
        area: parts.area,
        unit: parts.unit,
        party: parts.party,
        share: parts.share,
        required: parts.required,
        spot: parts.spot,
        shape,
    })
}

impl Body {
    /// A copy of the body.
    pub fn copy(&self) -> Result<Body, AllocError>
        ensures { IfOk result (λ copy. copy ≡ self.now) }
    {
        let parts = copy_parts(self.parts())?;
        match Body::from_parts(self.class(), parts) {
            Some(copy) => Ok(copy),
            None => unreachable!(),
        }
    }
}

impl Command {
    /// A copy of the command.
    pub fn copy(&self) -> Result<Command, AllocError>
        ensures { IfOk result (λ copy. copy ≡ self.now) }
    {
        match self {
            Command::Enter {
                object,
                first,
                body,
            } => Ok(Command::Enter {
                object: *object,
                first: *first,
                body: body.copy()?,
            }),
            Command::Amend {
                object,
                first,
                body,
            } => Ok(Command::Amend {
                object: *object,
                first: *first,
                body: body.copy()?,
            }),
            Command::Retire { object, last } => Ok(Command::Retire {
                object: *object,
                last: *last,
            }),
        }
    }
}

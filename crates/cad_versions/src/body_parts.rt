//! A body by its ten parts: taken apart in one place, and put together again by its class in another.

ghost use Rattle.std.specs.Prelude.{◌≡◌, ◌↔◌, IsTrue, MatchOption, Some};
ghost use Rattle.std.specs.Option.{option_copied};
ghost use Rattle.cad_versions.specs.declared.body.Body.{Body as BodyOfVersion};
ghost use Rattle.cad_versions.specs.BodyParts.{IsMadeOf, IsNoParcel, IsNoRight, lent, no_parts, parts_of};
ghost use Rattle.cad_versions.specs.BodyParts.{name_in, code_in, label_in, area_in, unit_named, party_named, share_in, required_in, spot_in, shape_in};

use crate::body::{Body, Class};
use crate::object_id::ObjectId;
use crate::share::Share;
use crate::words::Words;
use cad_shape::{Point, Region};

/// The parts of a body. Each is there only if its class has it.
#[derive(Debug, Drop)]
pub struct BodyParts {
    /// The name of a party or a unit.
    pub name: Option<Words>,
    /// The kind of a party, a right, a restriction or a responsibility.
    pub code: Option<Words>,
    /// The label of a parcel.
    pub label: Option<Words>,
    /// The area of a parcel, in square metres.
    pub area: Option<u32>,
    /// The unit that a parcel, a right, a restriction or a responsibility is of.
    pub unit: Option<ObjectId>,
    /// The party that a right, a restriction or a responsibility is of.
    pub party: Option<ObjectId>,
    /// The share of a right, a restriction or a responsibility.
    pub share: Option<Share>,
    /// Whether a restriction says that a party is required.
    pub required: Option<bool>,
    /// The reference point of a parcel.
    pub spot: Option<Point>,
    /// The region of a parcel.
    pub shape: Option<Region>,
}

/// The same parts, borrowed from a body.
#[derive(Clone, Copy, Debug)]
pub struct LentParts<'a> {
    /// The name of a party or a unit.
    pub name: Option<&'a Words>,
    /// The kind of a party, a right, a restriction or a responsibility.
    pub code: Option<&'a Words>,
    /// The label of a parcel.
    pub label: Option<&'a Words>,
    /// The area of a parcel, in square metres.
    pub area: Option<u32>,
    /// The unit that a parcel, a right, a restriction or a responsibility is of.
    pub unit: Option<ObjectId>,
    /// The party that a right, a restriction or a responsibility is of.
    pub party: Option<ObjectId>,
    /// The share of a right, a restriction or a responsibility.
    pub share: Option<Share>,
    /// Whether a restriction says that a party is required.
    pub required: Option<bool>,
    /// The reference point of a parcel.
    pub spot: Option<Point>,
    /// The region of a parcel.
    pub shape: Option<&'a Region>,
}

/// A body without any parts.
const NO_PARTS: LentParts<'static> = LentParts {
    name: None,
    code: None,
    label: None,
    area: None,
    unit: None,
    party: None,
    share: None,
    required: None,
    spot: None,
    shape: None,
};

/// The parts that a right has, and that a restriction and a responsibility have too.
fn right_parts(
    unit: ObjectId,
    party: Option<ObjectId>,
    code: &Words,
    share: Option<Share>,
) -> LentParts<'_>
    ensures { lent result ≡ record no_parts { unit = Some unit; party = party; code = Some code.now; share = share } }
{
    LentParts {
        unit: Some(unit),
        party,
        code: Some(code),
        share,
        ..NO_PARTS
    }
}

impl Body {
    /// The parts of the body.
    pub fn parts(&self) -> LentParts<'_>
        ensures { lent result ≡ parts_of self.now }
    {
        match self {
            Body::Party { name, code } => LentParts {
                name: name.as_ref(),
                code: Some(code),
                ..NO_PARTS
            },
            Body::Unit { name } => LentParts {
                name: name.as_ref(),
                ..NO_PARTS
            },
            Body::Parcel {
                unit,
                label,
                area,
                shape,
                spot,
            } => LentParts {
                unit: Some(*unit),
                label: Some(label),
                area: *area,
                shape: shape.as_ref(),
                spot: *spot,
                ..NO_PARTS
            },
            Body::Right {
                unit,
                party,
                code,
                share,
            } => right_parts(*unit, *party, code, *share),
            Body::Restriction {
                unit,
                party,
                code,
                share,
                required,
            } => LentParts {
                required: *required,
                ..right_parts(*unit, *party, code, *share)
            },
            Body::Responsibility {
                unit,
                party,
                code,
                share,
            } => right_parts(*unit, *party, code, *share),
        }
    }

    /// The body of this class that has these parts and no others.
    pub fn from_parts(class: Class, parts: BodyParts) -> Option<Body>
        ensures { MatchOption result ((b : BodyOfVersion) → ¬ IsMadeOf class parts b) (IsMadeOf class parts) }
    {
        match class {
            Class::Party => parts.into_party(),
            Class::Unit => parts.into_unit(),
            Class::Parcel => parts.into_parcel(),
            Class::Right => parts.into_right(),
            Class::Restriction => parts.into_restriction(),
            Class::Responsibility => parts.into_responsibility(),
        }
    }

    /// The unit that a parcel, a right, a restriction or a responsibility is of.
    pub fn unit(&self) -> Option<ObjectId>
        ensures { result ≡ unit_named self.now }
    {
        self.parts().unit
    }

    /// The party that a right, a restriction or a responsibility is of.
    pub fn party(&self) -> Option<ObjectId>
        ensures { result ≡ party_named self.now }
    {
        self.parts().party
    }

    /// The name of a party or a unit.
    pub fn name(&self) -> Option<&Words>
        ensures { option_copied result ≡ name_in self.now }
    {
        self.parts().name
    }

    /// The kind of a party, a right, a restriction or a responsibility.
    pub fn code(&self) -> Option<&Words>
        ensures { option_copied result ≡ code_in self.now }
    {
        self.parts().code
    }

    /// The label of a parcel.
    pub fn label(&self) -> Option<&Words>
        ensures { option_copied result ≡ label_in self.now }
    {
        self.parts().label
    }

    /// The area of a parcel, in square metres.
    pub fn area(&self) -> Option<u32>
        ensures { result ≡ area_in self.now }
    {
        self.parts().area
    }

    /// The share of a right, a restriction or a responsibility.
    pub fn share(&self) -> Option<Share>
        ensures { result ≡ share_in self.now }
    {
        self.parts().share
    }

    /// Whether a restriction says that a party is required.
    pub fn required(&self) -> Option<bool>
        ensures { result ≡ required_in self.now }
    {
        self.parts().required
    }

    /// The reference point of a parcel.
    pub fn spot(&self) -> Option<Point>
        ensures { result ≡ spot_in self.now }
    {
        self.parts().spot
    }

    /// The region of a parcel.
    pub fn shape(&self) -> Option<&Region>
        ensures { option_copied result ≡ shape_in self.now }
    {
        self.parts().shape
    }
}

impl BodyParts {
    /// Whether the parts that only parcels have are all missing.
    fn is_no_parcel(&self) -> bool
        ensures { IsTrue result ↔ IsNoParcel self.now }
    {
        self.label.is_none() && self.area.is_none() && self.spot.is_none() && self.shape.is_none()
    }

    /// Whether the parts that only rights, restrictions and responsibilities have are all missing.
    fn is_no_right(&self) -> bool
        ensures { IsTrue result ↔ IsNoRight self.now }
    {
        self.party.is_none() && self.share.is_none() && self.required.is_none()
    }

    fn into_party(self) -> Option<Body>
        ensures { MatchOption result ((b : BodyOfVersion) → ¬ IsMadeOf Class.Party self b) (IsMadeOf Class.Party self) }
    {
        if !(self.is_no_parcel() && self.is_no_right() && self.unit.is_none()) {
            return None;
        }
        party(self.name, self.code)
    }

    fn into_unit(self) -> Option<Body>
        ensures { MatchOption result ((b : BodyOfVersion) → ¬ IsMadeOf Class.Unit self b) (IsMadeOf Class.Unit self) }
    {
        if !(self.is_no_parcel()
            && self.is_no_right()
            && self.unit.is_none()
            && self.code.is_none())
        {
            return None;
        }
        Some(Body::Unit { name: self.name })
    }

    fn into_parcel(self) -> Option<Body>
        ensures { MatchOption result ((b : BodyOfVersion) → ¬ IsMadeOf Class.Parcel self b) (IsMadeOf Class.Parcel self) }
    {
        if !(self.is_no_right() && self.name.is_none() && self.code.is_none()) {
            return None;
        }
        parcel(self.unit, self.label, self.area, self.shape, self.spot)
    }

    fn into_right(self) -> Option<Body>
        ensures { MatchOption result ((b : BodyOfVersion) → ¬ IsMadeOf Class.Right self b) (IsMadeOf Class.Right self) }
    {
        if !(self.is_no_parcel() && self.name.is_none() && self.required.is_none()) {
            return None;
        }
        right(self.unit, self.party, self.code, self.share)
    }

    fn into_restriction(self) -> Option<Body>
        ensures { MatchOption result ((b : BodyOfVersion) → ¬ IsMadeOf Class.Restriction self b) (IsMadeOf Class.Restriction self) }
    {
        if !(self.is_no_parcel() && self.name.is_none()) {
            return None;
        }
        restriction(self.unit, self.party, self.code, self.share, self.required)
    }

    fn into_responsibility(self) -> Option<Body>
        ensures { MatchOption result ((b : BodyOfVersion) → ¬ IsMadeOf Class.Responsibility self b) (IsMadeOf Class.Responsibility self) }
    {
        if !(self.is_no_parcel() && self.name.is_none() && self.required.is_none()) {
            return None;
        }
        responsibility(self.unit, self.party, self.code, self.share)
    }
}

/// A party of these parts, if those that it must have are there.
fn party(name: Option<Words>, code: Option<Words>) -> Option<Body>
    ensures { MatchOption result ((b : BodyOfVersion) → ¬ IsMadeOf Class.Party (record no_parts { name = name; code = code }) b) (IsMadeOf Class.Party (record no_parts { name = name; code = code })) }
{
    let code = code?;
    Some(Body::Party { name, code })
}

/// A parcel of these parts, if those that it must have are there.
fn parcel(
    unit: Option<ObjectId>,
    label: Option<Words>,
    area: Option<u32>,
    shape: Option<Region>,
    spot: Option<Point>,
) -> Option<Body>
    ensures { MatchOption result ((b : BodyOfVersion) → ¬ IsMadeOf Class.Parcel (record no_parts { unit = unit; label = label; area = area; shape = shape; spot = spot }) b) (IsMadeOf Class.Parcel (record no_parts { unit = unit; label = label; area = area; shape = shape; spot = spot })) }
{
    let unit = unit?;
    let label = label?;
    Some(Body::Parcel {
        unit,
        label,
        area,
        shape,
        spot,
    })
}

/// A right of these parts, if those that it must have are there.
fn right(
    unit: Option<ObjectId>,
    party: Option<ObjectId>,
    code: Option<Words>,
    share: Option<Share>,
) -> Option<Body>
    ensures { MatchOption result ((b : BodyOfVersion) → ¬ IsMadeOf Class.Right (record no_parts { unit = unit; party = party; code = code; share = share }) b) (IsMadeOf Class.Right (record no_parts { unit = unit; party = party; code = code; share = share })) }
{
    let unit = unit?;
    let code = code?;
    Some(Body::Right {
        unit,
        party,
        code,
        share,
    })
}

/// A restriction of these parts, if those that it must have are there.
fn restriction(
    unit: Option<ObjectId>,
    party: Option<ObjectId>,
    code: Option<Words>,
    share: Option<Share>,
    required: Option<bool>,
) -> Option<Body>
    ensures { MatchOption result ((b : BodyOfVersion) → ¬ IsMadeOf Class.Restriction (record no_parts { unit = unit; party = party; code = code; share = share; required = required }) b) (IsMadeOf Class.Restriction (record no_parts { unit = unit; party = party; code = code; share = share; required = required })) }
{
    let unit = unit?;
    let code = code?;
    Some(Body::Restriction {
        unit,
        party,
        code,
        share,
        required,
    })
}

/// A responsibility of these parts, if those that it must have are there.
fn responsibility(
    unit: Option<ObjectId>,
    party: Option<ObjectId>,
    code: Option<Words>,
    share: Option<Share>,
) -> Option<Body>
    ensures { MatchOption result ((b : BodyOfVersion) → ¬ IsMadeOf Class.Responsibility (record no_parts { unit = unit; party = party; code = code; share = share }) b) (IsMadeOf Class.Responsibility (record no_parts { unit = unit; party = party; code = code; share = share })) }
{
    let unit = unit?;
    let code = code?;
    Some(Body::Responsibility {
        unit,
        party,
        code,
        share,
    })
}

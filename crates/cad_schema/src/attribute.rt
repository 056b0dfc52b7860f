//! What properties say of versions.

/// What a property says of a version: its own number or days, or an attribute of its body (ISO 19152).
#[derive(Clone, Copy, Debug)]
pub enum Attribute {
    /// The number of the object.
    Object,
    /// The number of the version.
    Number,
    /// The first day.
    Begin,
    /// The last day.
    End,
    /// The days from the first to the last.
    Lifespan,
    /// The name of a party or a unit.
    Name,
    /// The code that says of what type an object of its class is.
    Type,
    /// The name of a parcel in the register's maps.
    Label,
    /// In square metres.
    Area,
    /// The outline of a parcel.
    Geometry,
    /// The point by which a parcel is marked.
    ReferencePoint,
    /// The number of the unit.
    Unit,
    /// The unit's name on the first day.
    UnitName,
    /// The number of the party.
    Party,
    /// The party's name on the first day.
    PartyName,
    /// The parts that a share has.
    ShareNum,
    /// The parts of the whole.
    ShareDen,
    /// Whether a restriction asks for a party.
    PartyRequired,
}

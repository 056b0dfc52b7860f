//! Why a line is no command.

use crate::member_name::MemberName;
use cad_shape::{RegionFault, RingFault};
use cad_versions::Class;

/// What is wrong with a value.
#[derive(Clone, Copy, Debug, PartialEq, Eq)]
pub enum ValueFault {
    /// It is not `enter`, `amend` or `retire`.
    NotAnOperation,
    /// It is not a number from 0 on, written without a fraction or an exponent.
    NotANumber,
    /// It is a number, and not one from 1 to 2,147,483,647.
    NotAnObjectNumber,
    /// It is a number above 4,294,967,295.
    TooLarge,
    /// It is not a text that names a day as `YYYY-MM-DD`.
    NotADay,
    /// It is not a text.
    NotAText,
    /// It is the empty text.
    Empty,
    /// It is a text of more than 200 bytes.
    TooLong,
    /// It is a text that has U+0000.
    HasNul,
    /// It is not `true` or `false`.
    NotAFlag,
    /// It is not a list of two numbers from 0 on.
    NotAPair,
    /// It is `[num,den]`, and not 1 <= num <= den <= 1,000,000,000.
    NotAShare,
    /// It is not a list of two whole numbers.
    NotAPoint,
    /// It is `[x,y]` with a coordinate of more than 100,000,000,000 millimetres.
    TooFar,
    /// It is not a list.
    NotAList,
}

/// Why a value is not a ring.
#[derive(Clone, Copy, Debug, PartialEq, Eq)]
pub enum RingCause {
    /// It is not a list.
    NotAList,
    /// The corner at this place of the list, counted from 0, is not a point.
    Corner(usize, ValueFault),
    /// The corners are not those of a ring.
    Fault(RingFault),
}

/// What is wrong with the members of an object, apart from unknown ones.
#[derive(Clone, Copy, Debug, PartialEq, Eq)]
pub enum MemberCause {
    /// The member is missing or null.
    Missing(MemberName),
    /// The value of the member is wrong.
    Wrong(MemberName, ValueFault),
    /// The value of `shape` is not a ring.
    Outline(RingCause),
    /// The value at this place of `holes`, counted from 0, is not a ring.
    Hole(usize, RingCause),
    /// The rings of `shape` and `holes` are not those of a region. Ring 0 is `shape`.
    Region(RegionFault),
    /// There are `holes`, and no `shape`.
    HolesWithoutShape,
}

/// Why a JSON object is no command.
#[derive(Debug, Drop)]
pub enum ObjectCause {
    /// A member of the command is missing or wrong.
    Member(MemberCause),
    /// The command retires an object, and has a member other than `do`, `object` and `last`, of this name.
    UnknownAtEnd(String),
    /// The command begins a version, and has a member other than `do`, `object`, `first` and bodies, of this name.
    UnknownBeside(String),
    /// The command begins a version, and has no body.
    NoBody,
    /// The command begins a version, and has bodies of these classes.
    TwoBodies(Class, Class),
    /// The value of the body of this class is not an object.
    BodyNotAnObject(Class),
    /// A member of the body of this class is missing or wrong.
    InBody(Class, MemberCause),
    /// The body of this class has a member that its class does not have, of this name.
    UnknownInBody(Class, String),
}

/// Why a line is no command.
#[derive(Debug, Drop)]
pub enum Cause {
    /// It has more than 65,536 bytes.
    LongLine,
    /// Its bytes are not UTF-8.
    NotUtf8,
    /// It ends before its JSON does.
    JsonEnds,
    /// It is not JSON.
    NotJson,
    /// It is JSON, and not an object.
    NotAnObject,
    /// It is an object that says no command.
    Object(ObjectCause),
    /// No cause was found.
    Unexplained,
}

/// Why a line is no command, and where.
#[derive(Debug, Drop)]
pub struct Explanation {
    /// The byte of the line at which the fault is, counted from 0. If something is missing at the end, it is the length of the line.
    pub place: usize,
    /// The cause.
    pub cause: Cause,
}

//! Where in a line a cause is.

ghost use Rattle.std.specs.Prelude.{◌≤◌, length, IfOk};

use crate::cause::{Cause, MemberCause, ObjectCause, RingCause};
use crate::place::{Step, find, find_from};
use cad_shape::RegionFault;
use cad_versions::Class;
use std::alloc::{AllocError, Global};

/// The place of the value or of the name that the cause is about. If something is missing, it is that of the object which lacks it.
pub(crate) fn place_of(alloc: Global, line: &[u8], cause: &Cause) -> Result<usize, AllocError>
    ensures { IfOk result (λ place. place ≤ length line.now) }
{
    match cause {
        Cause::Object(cause) => object_place(alloc, line, cause),
        _ => find(alloc, line, &[]),
    }
}

fn object_place(alloc: Global, line: &[u8], cause: &ObjectCause) -> Result<usize, AllocError>
    ensures { IfOk result (λ place. place ≤ length line.now) }
{
    match cause {
        ObjectCause::Member(cause) => {
            let object = find(alloc, line, &[])?;
            member_place(alloc, line, object, *cause)
        }
        ObjectCause::UnknownAtEnd(name) => find(alloc, line, &[Step::Name(name.as_bytes())]),
        ObjectCause::UnknownBeside(name) => find(alloc, line, &[Step::Name(name.as_bytes())]),
        ObjectCause::NoBody => find(alloc, line, &[]),
        ObjectCause::TwoBodies(one, other) => second_place(alloc, line, *one, *other),
        ObjectCause::BodyNotAnObject(class) => body_place(alloc, line, *class),
        ObjectCause::InBody(class, cause) => {
            let body = body_place(alloc, line, *class)?;
            member_place(alloc, line, body, *cause)
        }
        ObjectCause::UnknownInBody(class, name) => {
            let body = body_place(alloc, line, *class)?;
            find_from(alloc, line, body, &[Step::Name(name.as_bytes())])
        }
    }
}

/// The place of the later of two bodies' names.
fn second_place(alloc: Global, line: &[u8], one: Class, other: Class) -> Result<usize, AllocError>
    ensures { IfOk result (λ place. place ≤ length line.now) }
{
    let left = find(alloc, line, &[Step::Name(one.name().as_bytes())])?;
    let right = find(alloc, line, &[Step::Name(other.name().as_bytes())])?;
    if left < right { Ok(right) } else { Ok(left) }
}

/// The place in the members of the object at a place.
fn member_place(
    alloc: Global,
    line: &[u8],
    object: usize,
    cause: MemberCause,
) -> Result<usize, AllocError>
    requires { object ≤ length line.now }
    ensures { IfOk result (λ place. place ≤ length line.now) }
{
    match cause {
        MemberCause::Missing(_) => Ok(object),
        MemberCause::Wrong(name, _) => {
            find_from(alloc, line, object, &[Step::Member(name.text().as_bytes())])
        }
        MemberCause::Outline(cause) => {
            let shape = find_from(alloc, line, object, &[Step::Member(b"shape")])?;
            corner_place(alloc, line, shape, cause)
        }
        MemberCause::Hole(k, cause) => {
            let hole = find_from(
                alloc,
                line,
                object,
                &[Step::Member(b"holes"), Step::Item(k)],
            )?;
            corner_place(alloc, line, hole, cause)
        }
        MemberCause::Region(fault) => {
            let holes = find_from(alloc, line, object, &[Step::Member(b"holes")])?;
            ring_place(alloc, line, holes, fault)
        }
        MemberCause::HolesWithoutShape => find_from(alloc, line, object, &[Step::Member(b"holes")]),
    }
}

/// The place in the ring at a place.
fn corner_place(
    alloc: Global,
    line: &[u8],
    ring: usize,
    cause: RingCause,
) -> Result<usize, AllocError>
    requires { ring ≤ length line.now }
    ensures { IfOk result (λ place. place ≤ length line.now) }
{
    match cause {
        RingCause::Corner(i, _) => find_from(alloc, line, ring, &[Step::Item(i)]),
        _ => Ok(ring),
    }
}

/// The place in the holes at a place.
fn ring_place(
    alloc: Global,
    line: &[u8],
    holes: usize,
    fault: RegionFault,
) -> Result<usize, AllocError>
    requires { holes ≤ length line.now }
    ensures { IfOk result (λ place. place ≤ length line.now) }
{
    match fault {
        RegionFault::Outside { ring } => {
            let hole = ring.saturating_sub(1) as usize;
            find_from(alloc, line, holes, &[Step::Item(hole)])
        }
        _ => Ok(holes),
    }
}

/// The place of the body of the class.
fn body_place(alloc: Global, line: &[u8], class: Class) -> Result<usize, AllocError>
    ensures { IfOk result (λ place. place ≤ length line.now) }
{
    find(alloc, line, &[Step::Member(class.name().as_bytes())])
}

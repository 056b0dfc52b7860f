//! The register over them.

use cad_day::Day;
use cad_register::{Body, Command, ObjectId, Register, RegisterFault, Revision, Share, Words};
use cad_shape::{Point, Region, Ring};
use cad_versions::{read_shape, write_shape};
use sqlite::{Alter, Connection};
use std::alloc::Global;
use std::rc::Rc;
use std::test::Fail;

// Days by their numbers: 1970-01-01 is 0.
const Y2000: i32 = 10957;

const Y2001: i32 = 11323;

const Y2003: i32 = 12053;

const Y2005: i32 = 12784;

const JUNE_2005: i32 = 12935;

const Y2006: i32 = 13149;

const Y2010: i32 = 14610;

fn object(number: u32) -> Result<ObjectId, Fail> {
    Ok(ObjectId::new(number).ok_or("object")?)
}

fn day(number: i32) -> Result<Day, Fail> {
    Ok(Day::new(number).ok_or("day")?)
}

fn words(alloc: Global, text: &str) -> Result<Words, Fail> {
    let text = Rc::new(alloc, String::from_str(alloc, text)?)?;
    Ok(Words::new(text).ok().ok_or("words")?)
}

pub(crate) fn enter(number: u32, first: i32, body: Body) -> Result<Command, Fail> {
    Ok(Command::Enter {
        object: object(number)?,
        first: day(first)?,
        body,
    })
}

pub(crate) fn amend(number: u32, first: i32, body: Body) -> Result<Command, Fail> {
    Ok(Command::Amend {
        object: object(number)?,
        first: day(first)?,
        body,
    })
}

fn retire(number: u32, last: i32) -> Result<Command, Fail> {
    Ok(Command::Retire {
        object: object(number)?,
        last: day(last)?,
    })
}

fn ring(alloc: Global, corners: &[(i64, i64)]) -> Result<Ring, Fail> {
    let mut points = Vec::new(alloc);
    for corner in corners {
        points.push(Point::new(corner.0, corner.1).ok_or("point")?)?;
    }
    Ok(Ring::new(points).ok().ok_or("ring")?)
}

/// The region of these rings, the outer one first.
fn region(alloc: Global, outlines: &[&[(i64, i64)]]) -> Result<Region, Fail> {
    let mut rings = Vec::new(alloc);
    for corners in outlines {
        rings.push(ring(alloc, corners)?)?;
    }
    let rings = Rc::new(alloc, rings)?;
    Ok(Region::new(rings).ok().ok_or("region")?)
}

fn parcel(
    alloc: Global,
    unit: u32,
    label: &str,
    area: Option<u32>,
    shape: Option<Region>,
) -> Result<Body, Fail> {
    Ok(Body::Parcel {
        unit: object(unit)?,
        label: words(alloc, label)?,
        area,
        shape,
        spot: None,
    })
}

pub(crate) fn in_memory(alloc: Global) -> Option<Connection<sqlite::MemStore>> {
    Connection::open_in_memory(alloc).ok()
}

pub(crate) fn created<S: Alter + Drop>(
    alloc: Global,
    connection: Connection<S>,
) -> Option<Register<S>> {
    Register::create(alloc, connection).ok()
}

/// The revision, or the number of the fault.
fn applied<S: Alter>(register: &mut Register<S>, command: Command) -> Result<u64, u8> {
    match register.apply(command) {
        Ok(revision) => Ok(revision),
        Err(fault) => Err(fault.number()),
    }
}

/// Object, number, first and last day of each version at a revision, or the number of the fault.
fn listed<S: Alter>(
    alloc: Global,
    register: &mut Register<S>,
    revision: Revision,
) -> Result<Result<Vec<(u32, u32, i32, Option<i32>)>, u8>, Fail> {
    let versions = match register.as_of(revision) {
        Ok(versions) => versions,
        Err(fault) => return Ok(Err(fault.number())),
    };
    let mut listed = Vec::new(alloc);
    for version in &versions {
        listed.push((
            version.object.number(),
            version.number,
            version.first.number(),
            version.last.map(|last| last.number()),
        ))?;
    }
    Ok(Ok(listed))
}

/// The listings of the four revisions of the short run.
fn revisions<S: Alter>(alloc: Global, register: &mut Register<S>) -> Result<String, Fail> {
    let mut text = String::new(alloc);
    for revision in 0..4u64 {
        let found = listed(alloc, register, revision)?;
        text.push_str(format!(in alloc; "{found:?};")?.as_str())?;
    }
    Ok(text)
}

fn unit() -> Body {
    Body::Unit { name: None }
}

/// The six commands of a short run, and the answer to each.
fn short_run<S: Alter>(alloc: Global, register: &mut Register<S>) -> Result<String, Fail> {
    let mut text = String::new(alloc);
    let commands = [
        enter(11, Y2000, unit())?,
        enter(3, Y2003, parcel(alloc, 12, "b-7", None, None)?)?,
        amend(
            11,
            Y2001,
            Body::Party {
                name: None,
                code: words(alloc, "x")?,
            },
        )?,
        retire(99, Y2000)?,
        retire(11, Y2000)?,
        amend(11, Y2001, unit())?,
    ];
    for command in commands {
        let answer = applied(register, command);
        text.push_str(format!(in alloc; "{answer:?};")?.as_str())?;
    }
    Ok(text)
}

const SHORT_RUN: &str = "Ok(1);Err(6);Err(3);Err(2);Ok(2);Err(5);";

const SHORT_REVISIONS: &str =
    "Ok([]);Ok([(11, 1, 10957, None)]);Ok([(11, 1, 10957, Some(10957))]);Err(12);";

#[test]
fn refuses_and_lists(rt: HostRuntime) -> Result<(), Fail> {
    let alloc = rt.alloc();
    let connection = in_memory(alloc).ok_or("in memory")?;
    let mut register = created(alloc, connection).ok_or("created")?;
    let answers = short_run(alloc, &mut register)?;
    assert_eq!(rt; answers.as_str(), SHORT_RUN);
    let before = revisions(alloc, &mut register)?;
    assert_eq!(rt; before.as_str(), SHORT_REVISIONS);
    let connection = register.release();
    let mut again = Register::open(alloc, connection).ok().ok_or("opened")?;
    let after = revisions(alloc, &mut again)?;
    assert_eq!(rt; after.as_str(), SHORT_REVISIONS);
    assert_eq!(rt; again.revision(), 2);
    Ok(())
}

fn first_square(alloc: Global) -> Result<Region, Fail> {
    region(alloc, &[&[(0, 0), (20000, 0), (20000, 20000), (0, 20000)]])
}

fn second_square(alloc: Global) -> Result<Region, Fail> {
    region(
        alloc,
        &[&[(20000, 0), (40000, 0), (40000, 20000), (20000, 20000)]],
    )
}

fn triangle(alloc: Global) -> Result<Region, Fail> {
    region(alloc, &[&[(0, 30000), (30000, 30000), (0, 60000)]])
}

fn mill(alloc: Global) -> Result<Body, Fail> {
    Ok(Body::Unit {
        name: Some(words(alloc, "Mill")?),
    })
}

fn ana(alloc: Global) -> Result<Body, Fail> {
    Ok(Body::Party {
        name: Some(words(alloc, "Ana Straße")?),
        code: words(alloc, "naturalPerson")?,
    })
}

pub(crate) fn ownership(alloc: Global) -> Result<Body, Fail> {
    Ok(Body::Right {
        unit: object(10)?,
        party: Some(object(20)?),
        code: words(alloc, "ownership")?,
        share: Share::new(1, 2),
    })
}

fn no_building(alloc: Global) -> Result<Body, Fail> {
    Ok(Body::Restriction {
        unit: object(11)?,
        party: None,
        code: words(alloc, "noBuilding")?,
        share: None,
        required: Some(false),
    })
}

/// The command at this place of the sample, from 0 on. The sample has commands of each class, and an amendment.
fn sample(alloc: Global, at: u32) -> Result<Command, Fail> {
    match at {
        0 => enter(10, Y2000, mill(alloc)?),
        1 => enter(11, Y2000, unit()),
        2 => enter(20, Y2000, ana(alloc)?),
        3 => enter(
            1,
            Y2001,
            parcel(alloc, 10, "A-1", Some(400), Some(first_square(alloc)?))?,
        ),
        4 => amend(
            1,
            Y2010,
            parcel(alloc, 10, "A-1", Some(380), Some(first_square(alloc)?))?,
        ),
        5 => enter(
            2,
            JUNE_2005,
            parcel(alloc, 10, "A-2", None, Some(second_square(alloc)?))?,
        ),
        6 => enter(
            3,
            Y2003,
            parcel(alloc, 11, "b-7", Some(900), Some(triangle(alloc)?))?,
        ),
        7 => enter(4, Y2003, parcel(alloc, 11, "C%1", Some(0), None)?),
        8 => enter(30, Y2005, ownership(alloc)?),
        _ => enter(31, Y2006, no_building(alloc)?),
    }
}

/// How many corners the rings have together.
fn corners_of(region: &Region) -> usize {
    let mut count = 0usize;
    for ring in region.rings() {
        count = count.saturating_add(ring.corners().len());
    }
    count
}

/// What a body says, in words.
fn said(alloc: Global, body: &Body) -> Result<String, Fail> {
    let name = body.name().map_or("-", |name| name.as_str());
    let code = body.code().map_or("-", |code| code.as_str());
    let label = body.label().map_or("-", |label| label.as_str());
    let unit = body.unit().map_or(0, |unit| unit.number());
    let party = body.party().map_or(0, |party| party.number());
    let parts = body.share().map_or(0, |share| share.den());
    let corners = body.shape().map_or(0, |region| corners_of(region));
    let area = body.area();
    let required = body.required();
    Ok(format!(in alloc;
        "{name} {code} {label} {unit} {party} {parts} {corners} {area:?} {required:?}"
    )?)
}

const SAMPLE: &str =
    "1.1 - - A-1 10 0 0 4 Some(400) None;1.2 - - A-1 10 0 0 4 Some(380) None;2.1 - - A-2 10 0 0 4 None None;3.1 - - b-7 11 0 0 3 Some(900) None;4.1 - - C%1 11 0 0 0 Some(0) None;10.1 Mill - - 0 0 0 0 None None;11.1 - - - 0 0 0 0 None None;20.1 Ana Straße naturalPerson - 0 0 0 0 None None;30.1 - ownership - 10 20 2 0 None None;31.1 - noBuilding - 11 0 0 0 None Some(false);";

fn sampled<S: Alter>(alloc: Global, register: &mut Register<S>) -> Result<String, Fail> {
    let Ok(versions) = register.as_of(10) else {
        return Err("listed")?;
    };
    let mut text = String::new(alloc);
    for version in &versions {
        let object = version.object.number();
        let number = version.number;
        let said = said(alloc, &version.body)?;
        text.push_str(format!(in alloc; "{object}.{number} {said};")?.as_str())?;
    }
    Ok(text)
}

pub(crate) fn fill<S: Alter>(alloc: Global, register: &mut Register<S>) -> Result<u64, Fail> {
    for at in 0..10u32 {
        let revision = applied(register, sample(alloc, at)?);
        if revision != Ok(u64::from(at) + 1) {
            return Err("applied")?;
        }
    }
    Ok(register.revision())
}

#[test]
fn keeps_what_is_entered(rt: HostRuntime) -> Result<(), Fail> {
    let alloc = rt.alloc();
    let connection = in_memory(alloc).ok_or("in memory")?;
    let mut register = created(alloc, connection).ok_or("created")?;
    let revision = fill(alloc, &mut register)?;
    assert_eq!(rt; revision, 10);
    let listed = sampled(alloc, &mut register)?;
    assert_eq!(rt; listed.as_str(), SAMPLE);
    let known = applied(&mut register, enter(3, Y2003, unit())?);
    assert_eq!(rt; known, Err(1));
    let early = register.apply(amend(3, Y2003, parcel(alloc, 11, "b-7", None, None)?)?);
    assert_eq!(rt; early, Err(RegisterFault::DayNotAfter(day(Y2003)?)));
    assert_eq!(rt; register.revision(), 10);
    Ok(())
}

/// The revision of what `open_or_create` gives, or the number of the fault, and the connection.
fn found_in<S: Alter + Drop>(
    alloc: Global,
    connection: Connection<S>,
) -> (Result<u64, u8>, Connection<S>) {
    match Register::open_or_create(alloc, connection) {
        Ok(register) => (Ok(register.revision()), register.release()),
        Err((fault, connection)) => (Err(fault.number()), connection),
    }
}

#[test]
fn is_made_where_none_stands(rt: HostRuntime) -> Result<(), Fail> {
    let alloc = rt.alloc();
    let connection = in_memory(alloc).ok_or("in memory")?;
    let (made, connection) = found_in(alloc, connection);
    assert_eq!(rt; made, Ok(0));
    let mut register = Register::open(alloc, connection).ok().ok_or("opened")?;
    assert_eq!(rt; applied(&mut register, enter(11, Y2000, unit())?), Ok(1));
    let (found, connection) = found_in(alloc, register.release());
    assert_eq!(rt; found, Ok(1));
    drop(connection);
    let mut other = in_memory(alloc).ok_or("in memory")?;
    assert!(rt; other.execute_batch("CREATE TABLE state (one)").is_ok());
    let (refused, other) = found_in(alloc, other);
    assert_eq!(rt; refused, Err(9));
    drop(other);
    Ok(())
}

/// The square of object 5, and the hole in it.
fn holed(alloc: Global) -> Result<Region, Fail> {
    region(
        alloc,
        &[
            &[(50000, 0), (80000, 0), (80000, 30000), (50000, 30000)],
            &[
                (60000, 10000),
                (70000, 10000),
                (70000, 20000),
                (60000, 20000),
            ],
        ],
    )
}

#[test]
fn a_hole_is_stored_behind_the_outer_ring(rt: HostRuntime) -> Result<(), Fail> {
    let alloc = rt.alloc();
    let bytes = write_shape(alloc, &holed(alloc)?)?;
    assert_eq!(rt; bytes.len(), 135);
    assert!(rt; bytes.as_slice().starts_with(&[2, 0, 2, 0, 4]));
    let read = read_shape(alloc, bytes.as_slice())?.ok_or("read")?;
    assert_eq!(rt; read.rings().len(), 2);
    assert_eq!(rt; corners_of(&read), 8);
    Ok(())
}

#[test]
fn holes_and_responsibilities_are_kept(rt: HostRuntime) -> Result<(), Fail> {
    let alloc = rt.alloc();
    let connection = in_memory(alloc).ok_or("in memory")?;
    let mut register = created(alloc, connection).ok_or("created")?;
    fill(alloc, &mut register)?;
    let parcel = parcel(alloc, 10, "H", None, Some(holed(alloc)?))?;
    assert_eq!(rt; applied(&mut register, enter(5, Y2010, parcel)?), Ok(11));
    let maintenance = Body::Responsibility {
        unit: object(11)?,
        party: None,
        code: words(alloc, "maintenance")?,
        share: None,
    };
    assert_eq!(rt;
        applied(&mut register, enter(32, Y2006, maintenance)?),
        Ok(12)
    );
    let mut again = Register::open(alloc, register.release())
        .ok()
        .ok_or("opened")?;
    let Ok(versions) = again.as_of(12) else {
        return Err("listed")?;
    };
    let mut text = String::new(alloc);
    for version in &versions {
        if version.object.number() == 5 || version.object.number() == 32 {
            text.push_str(said(alloc, &version.body)?.as_str())?;
            text.push_str(";")?;
        }
    }
    assert_eq!(rt;
        text.as_str(),
        "- - H 10 0 0 8 None None;- maintenance - 11 0 0 0 None None;"
    );
    Ok(())
}

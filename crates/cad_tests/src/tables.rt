//! The two tables.

use cad_tables::{
    Change, Closing, Creation, MOST_REVISION, Reader, Stored, TableFault, create, history, listing,
    open, revision, write,
};
use sqlite::types::ValueRef;
use sqlite::{Alter, Connection, Error, ErrorCode, Row};
use std::alloc::{AllocError, Global};
use std::test::Fail;

/// A version of a unit without a name, as commands of the office enter it.
#[derive(Drop)]
struct Unit {
    object: u32,
    number: u32,
    first: i32,
    entered: u32,
}

impl Stored for Unit {
    ghost use Rattle.std.specs.Prelude.{None};

    ghost line = { λ u. record {
      object = u.object;
      number = u.number;
      class = 2;
      first = u.first;
      last = None;
      entered = u.entered;
      closed = None;
      name = None;
      code = None;
      label = None;
      area = None;
      unit = None;
      party = None;
      share_num = None;
      share_den = None;
      required = None;
      spot_x = None;
      spot_y = None;
      shape = None;
    } };

    fn cells(&self) -> [ValueRef<'_>; 19] {
        [
            ValueRef::Int(i64::from(self.object)),
            ValueRef::Int(i64::from(self.number)),
            ValueRef::Int(2),
            ValueRef::Int(i64::from(self.first)),
            ValueRef::Null,
            ValueRef::Int(i64::from(self.entered)),
            ValueRef::Null,
            ValueRef::Null,
            ValueRef::Null,
            ValueRef::Null,
            ValueRef::Null,
            ValueRef::Null,
            ValueRef::Null,
            ValueRef::Null,
            ValueRef::Null,
            ValueRef::Null,
            ValueRef::Null,
            ValueRef::Null,
            ValueRef::Null,
        ]
    }
}

// 2000-01-01, and the day before 2001-01-01
const FIRST: i32 = 10957;

const LAST: i32 = 11322;

fn made<S: Alter>(conn: &mut Connection<S>) -> Option<Creation> {
    create(conn).ok()
}

fn opened<S: Alter>(conn: &mut Connection<S>) -> Option<Option<u32>> {
    open(conn).ok()
}

fn told<S: Alter>(conn: &mut Connection<S>) -> Option<Option<u32>> {
    revision(conn).ok()
}

fn run<S: Alter>(conn: &mut Connection<S>, sql: &str) -> bool {
    conn.execute_batch(sql).is_ok()
}

fn entered<S: Alter>(conn: &mut Connection<S>, object: u32, revision: u32) -> bool {
    let unit = Unit {
        object,
        number: 1,
        first: FIRST,
        entered: revision,
    };
    write(conn, &Change::Enter(unit), revision).is_ok()
}

fn amended<S: Alter>(conn: &mut Connection<S>, object: u32, revision: u32) -> bool {
    let unit = Unit {
        object,
        number: 2,
        first: LAST + 1,
        entered: revision,
    };
    let closing = Closing { object, last: LAST };
    write(
        conn,
        &Change::Amend {
            closing,
            line: unit,
        },
        revision,
    )
    .is_ok()
}

fn retired<S: Alter>(conn: &mut Connection<S>, object: u32, last: i32, revision: u32) -> bool {
    let closing = Closing { object, last };
    write::<S, Unit>(conn, &Change::Retire(closing), revision).is_ok()
}

/// The whole numbers in a row, with none for null.
fn numbers(row: &Row) -> Option<(u32, u32, i32, Option<i32>)> {
    Some((
        row.get(0).ok()?,
        row.get(1).ok()?,
        row.get(2).ok()?,
        row.get(3).ok()?,
    ))
}

/// Object, number and last day of a row with all columns.
fn outline(row: &Row) -> Option<(u32, u32, Option<i32>)> {
    Some((row.get(0).ok()?, row.get(1).ok()?, row.get(4).ok()?))
}

/// These of a row, if it has them.
#[derive(Clone, Copy, Debug, PartialEq, Eq, Drop)]
struct RowOutline(Option<(u32, u32, Option<i32>)>);

impl RowOutline {
    fn of(object: u32, number: u32, last: Option<i32>) -> RowOutline {
        RowOutline(Some((object, number, last)))
    }
}

impl Reader for RowOutline {
    ghost reads = { λ _ _. Unit {0} };

    fn read(_alloc: Global, row: &Row) -> Result<RowOutline, AllocError> {
        Ok(RowOutline(outline(row)))
    }
}

fn known<S: Alter>(conn: &mut Connection<S>, object: u32) -> Option<Vec<Row>> {
    history(conn, object).ok()
}

fn listed<S: Alter>(
    alloc: Global,
    conn: &mut Connection<S>,
    revision: u32,
) -> Option<Vec<RowOutline>> {
    listing(alloc, conn, revision).ok()
}

#[test]
fn tables_are_made_once(rt: HostRuntime) -> Result<(), Fail> {
    let mut conn = Connection::open_in_memory(rt.alloc())?;
    assert_eq!(rt; opened(&mut conn), Some(None));
    assert_eq!(rt; made(&mut conn), Some(Creation::Made));
    assert_eq!(rt; opened(&mut conn), Some(Some(0)));
    assert_eq!(rt; made(&mut conn), Some(Creation::AlreadyExists));
    assert_eq!(rt; told(&mut conn), Some(Some(0)));
    Ok(())
}

/// A register with versions of two units, at revision 4.
fn filled<S: Alter>(conn: &mut Connection<S>) -> bool {
    made(conn).is_some()
        && entered(conn, 11, 1)
        && amended(conn, 11, 2)
        && entered(conn, 3, 3)
        && retired(conn, 3, 12053, 4)
}

#[test]
fn changes_are_read_back(rt: HostRuntime) -> Result<(), Fail> {
    let mut conn = Connection::open_in_memory(rt.alloc())?;
    assert!(rt; filled(&mut conn));
    assert_eq!(rt; told(&mut conn), Some(Some(4)));
    let rows = known(&mut conn, 11).ok_or("history")?;
    assert_eq!(rt; rows.len(), 2);
    assert_eq!(rt; numbers(&rows[0]), Some((1, 2, FIRST, Some(LAST))));
    assert_eq!(rt; numbers(&rows[1]), Some((2, 2, LAST + 1, None)));
    Ok(())
}

#[test]
fn rows_of_a_revision_are_listed(rt: HostRuntime) -> Result<(), Fail> {
    let alloc = rt.alloc();
    let mut conn = Connection::open_in_memory(alloc)?;
    assert!(rt; filled(&mut conn));
    let rows = listed(alloc, &mut conn, 2).ok_or("listing")?;
    assert_eq!(rt; rows.len(), 2);
    assert!(rt; rows.contains(&RowOutline::of(11, 1, Some(LAST))));
    assert!(rt; rows.contains(&RowOutline::of(11, 2, None)));
    let rows = listed(alloc, &mut conn, 4).ok_or("listing")?;
    assert_eq!(rt; rows.len(), 3);
    assert!(rt; rows.contains(&RowOutline::of(3, 1, Some(12053))));
    Ok(())
}

/// What `open` returns for tables with this row of `state`, if it is one.
fn found_with(alloc: Global, row: &str) -> Option<Option<u32>> {
    let mut conn = Connection::open_in_memory(alloc).ok()?;
    let columns = "CREATE TABLE state (one INTEGER PRIMARY KEY, format INTEGER, revision INTEGER)";
    let version =
        "CREATE TABLE version (object, number, class, first, last, entered, closed, name, code, label, \
        area, unit, party, share_num, share_den, required, spot_x, spot_y, shape)";
    if run(&mut conn, columns) && run(&mut conn, version) && run(&mut conn, row) {
        opened(&mut conn)
    } else {
        None
    }
}

#[test]
fn only_a_register_is_opened(rt: HostRuntime) -> Result<(), Fail> {
    let alloc = rt.alloc();
    assert_eq!(rt; found_with(alloc, ""), Some(None));
    assert_eq!(rt;
        found_with(alloc, "INSERT INTO state VALUES (1, 1, 10)"),
        Some(Some(10))
    );
    assert_eq!(rt;
        found_with(alloc, "INSERT INTO state VALUES (1, 2, 10)"),
        Some(None)
    );
    assert_eq!(rt;
        found_with(alloc, "INSERT INTO state VALUES (2, 1, 10)"),
        Some(None)
    );
    assert_eq!(rt;
        found_with(alloc, "INSERT INTO state VALUES (1, 1, -1)"),
        Some(None)
    );
    Ok(())
}

#[test]
fn the_greatest_revision_is_opened(rt: HostRuntime) -> Result<(), Fail> {
    let alloc = rt.alloc();
    let most = found_with(alloc, "INSERT INTO state VALUES (1, 1, 4294967294)");
    assert_eq!(rt; most, Some(Some(MOST_REVISION)));
    let more = found_with(alloc, "INSERT INTO state VALUES (1, 1, 4294967295)");
    assert_eq!(rt; more, Some(None));
    Ok(())
}

/// A database with a part of the columns.
fn found_in(alloc: Global, sql: &str) -> Option<Option<u32>> {
    let mut conn = Connection::open_in_memory(alloc).ok()?;
    if run(&mut conn, sql) {
        opened(&mut conn)
    } else {
        None
    }
}

#[test]
fn a_missing_column_is_seen(rt: HostRuntime) -> Result<(), Fail> {
    let alloc = rt.alloc();
    assert_eq!(rt;
        found_in(alloc, "CREATE TABLE version (object, number)"),
        Some(None)
    );
    assert_eq!(rt;
        found_in(alloc, "CREATE TABLE state (one, format)"),
        Some(None)
    );
    Ok(())
}

#[test]
fn want_of_memory_has_its_own_fault(rt: HostRuntime) {
    let memory = TableFault::from(Error::SqliteFailure(ErrorCode::OutOfMemory));
    assert_eq!(rt; memory, TableFault::Memory);
    let full = TableFault::from(Error::SqliteFailure(ErrorCode::DiskFull));
    assert_eq!(rt;
        full,
        TableFault::Store(Error::SqliteFailure(ErrorCode::DiskFull))
    );
}

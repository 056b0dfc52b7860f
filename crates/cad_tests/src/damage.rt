//! A row of the table that breaks a rule.

use crate::register::{amend, created, enter, fill, in_memory, ownership};
use cad_register::{Command, Register, RegisterFault, Version};
use sqlite::MemStore;
use std::alloc::{AllocError, Global};
use std::test::Fail;

/// A line for each change of the table: the revision that is listed then, the row that is reported as damaged (`-`: none), and the change,
/// which is made without the register's knowledge.
const CHANGES: &str =
    r"# Objects and numbers within their ranges. The last row of the table is the last one that is listed.
10 - UPDATE version SET object = 2147483647 WHERE object = 3
10 2147483648.1 UPDATE version SET object = 2147483648 WHERE object = 3
10 0.1 UPDATE version SET object = 0 WHERE object = 3
10 -1.1 UPDATE version SET object = -1 WHERE object = 3
10 3.0 UPDATE version SET number = 0 WHERE object = 3
10 3.-1 UPDATE version SET number = -1 WHERE object = 3
10 3.2147483648 UPDATE version SET number = 2147483648 WHERE object = 3
# Classes.
10 10.1 UPDATE version SET class = 0 WHERE object = 10
10 10.1 UPDATE version SET class = -1 WHERE object = 10
10 10.1 UPDATE version SET class = 7 WHERE object = 10
10 10.1 UPDATE version SET class = 9 WHERE object = 10
10 10.1 UPDATE version SET class = 1099511627776 WHERE object = 10
# Days, and the order of the two.
10 - UPDATE version SET first = -719528 WHERE object = 3
10 3.1 UPDATE version SET first = -719529 WHERE object = 3
10 - UPDATE version SET first = 2932896 WHERE object = 3
10 3.1 UPDATE version SET first = 2932897 WHERE object = 3
10 3.1 UPDATE version SET first = 4294967296 WHERE object = 3
10 - UPDATE version SET last = 12053, closed = 10 WHERE object = 3
10 3.1 UPDATE version SET last = 12052, closed = 10 WHERE object = 3
10 - UPDATE version SET last = 2932896, closed = 10 WHERE object = 3
10 3.1 UPDATE version SET last = 2932897, closed = 10 WHERE object = 3
10 1.1 UPDATE version SET last = 0 WHERE object = 1 AND number = 1
# Revisions.
10 3.1 UPDATE version SET entered = -1 WHERE object = 3
10 1.1 UPDATE version SET closed = -1 WHERE object = 1 AND number = 1
10 1.1 UPDATE version SET closed = 4294967296 WHERE object = 1 AND number = 1
# Texts: of 1 to 200 bytes, without U+0000, and of UTF-8.
10 - UPDATE version SET name = 'aaaaaaaaaaaaaaaaaaaaaaaaaaaaaaaaaaaaaaaaaaaaaaaaaaaaaaaaaaaaaaaaaaaaaaaaaaaaaaaaaaaaaaaaaaaaaaaaaaaaaaaaaaaaaaaaaaaaaaaaaaaaaaaaaaaaaaaaaaaaaaaaaaaaaaaaaaaaaaaaaaaaaaaaaaaaaaaaaaaaaaaaaaaaaaaaaaaaaaaa' WHERE object = 10
10 10.1 UPDATE version SET name = 'aaaaaaaaaaaaaaaaaaaaaaaaaaaaaaaaaaaaaaaaaaaaaaaaaaaaaaaaaaaaaaaaaaaaaaaaaaaaaaaaaaaaaaaaaaaaaaaaaaaaaaaaaaaaaaaaaaaaaaaaaaaaaaaaaaaaaaaaaaaaaaaaaaaaaaaaaaaaaaaaaaaaaaaaaaaaaaaaaaaaaaaaaaaaaaaaaaaaaaaaa' WHERE object = 10
10 10.1 UPDATE version SET name = '' WHERE object = 10
10 - UPDATE version SET name = NULL WHERE object = 10
10 10.1 UPDATE version SET name = CAST(X'6100' AS TEXT) WHERE object = 10
10 10.1 UPDATE version SET name = CAST(X'61FF' AS TEXT) WHERE object = 10
10 - UPDATE version SET name = CAST(X'61C3BC' AS TEXT) WHERE object = 10
10 20.1 UPDATE version SET code = '' WHERE object = 20
10 20.1 UPDATE version SET code = NULL WHERE object = 20
10 30.1 UPDATE version SET code = NULL WHERE object = 30
10 31.1 UPDATE version SET code = NULL WHERE object = 31
10 2.1 UPDATE version SET label = '' WHERE object = 2
10 2.1 UPDATE version SET label = NULL WHERE object = 2
# Areas.
10 - UPDATE version SET area = NULL WHERE object = 3
10 - UPDATE version SET area = 4294967295 WHERE object = 3
10 3.1 UPDATE version SET area = 4294967296 WHERE object = 3
10 3.1 UPDATE version SET area = -1 WHERE object = 3
# References: to whatever object, of whatever class, if it is one.
10 - UPDATE version SET unit = 99 WHERE object = 3
10 - UPDATE version SET unit = 20 WHERE object = 3
10 3.1 UPDATE version SET unit = NULL WHERE object = 3
10 3.1 UPDATE version SET unit = 0 WHERE object = 3
10 3.1 UPDATE version SET unit = 2147483648 WHERE object = 3
10 3.1 UPDATE version SET unit = -10 WHERE object = 3
10 30.1 UPDATE version SET unit = NULL WHERE object = 30
10 31.1 UPDATE version SET unit = NULL WHERE object = 31
10 - UPDATE version SET party = NULL WHERE object = 30
10 30.1 UPDATE version SET party = 0 WHERE object = 30
10 30.1 UPDATE version SET party = 2147483648 WHERE object = 30
# Shares.
10 - UPDATE version SET share_num = NULL, share_den = NULL WHERE object = 30
10 30.1 UPDATE version SET share_num = NULL WHERE object = 30
10 30.1 UPDATE version SET share_den = NULL WHERE object = 30
10 - UPDATE version SET share_num = 2 WHERE object = 30
10 30.1 UPDATE version SET share_num = 3 WHERE object = 30
10 30.1 UPDATE version SET share_num = 0 WHERE object = 30
10 - UPDATE version SET share_den = 1000000000 WHERE object = 30
10 30.1 UPDATE version SET share_den = 1000000001 WHERE object = 30
10 30.1 UPDATE version SET share_num = -1 WHERE object = 30
# Flags.
10 - UPDATE version SET required = NULL WHERE object = 31
10 - UPDATE version SET required = 1 WHERE object = 31
10 31.1 UPDATE version SET required = 2 WHERE object = 31
10 31.1 UPDATE version SET required = -1 WHERE object = 31
# Spots.
10 - UPDATE version SET spot_x = 100000000000, spot_y = -100000000000 WHERE object = 4
10 4.1 UPDATE version SET spot_x = 5 WHERE object = 4
10 4.1 UPDATE version SET spot_y = 5 WHERE object = 4
10 4.1 UPDATE version SET spot_x = 100000000001, spot_y = 5 WHERE object = 4
10 4.1 UPDATE version SET spot_x = 5, spot_y = -100000000001 WHERE object = 4
# Columns that a body of the class has not.
10 10.1 UPDATE version SET code = 'x' WHERE object = 10
10 10.1 UPDATE version SET label = 'x' WHERE object = 10
10 10.1 UPDATE version SET area = 1 WHERE object = 10
10 10.1 UPDATE version SET unit = 11 WHERE object = 10
10 10.1 UPDATE version SET party = 20 WHERE object = 10
10 10.1 UPDATE version SET share_num = 1, share_den = 2 WHERE object = 10
10 10.1 UPDATE version SET required = 0 WHERE object = 10
10 10.1 UPDATE version SET spot_x = 1, spot_y = 1 WHERE object = 10
10 10.1 UPDATE version SET shape = X'01000300000000000000000000000000007530000000000000753000000000000075300000000000000000000000000000EA60' WHERE object = 10
10 20.1 UPDATE version SET label = 'x' WHERE object = 20
10 20.1 UPDATE version SET area = 0 WHERE object = 20
10 20.1 UPDATE version SET unit = 10 WHERE object = 20
10 20.1 UPDATE version SET party = 20 WHERE object = 20
10 20.1 UPDATE version SET share_num = 1, share_den = 1 WHERE object = 20
10 20.1 UPDATE version SET required = 1 WHERE object = 20
10 20.1 UPDATE version SET spot_x = 0, spot_y = 0 WHERE object = 20
10 20.1 UPDATE version SET shape = X'020001000300000000000000000000000000007530000000000000753000000000000075300000000000000000000000000000EA60' WHERE object = 20
10 4.1 UPDATE version SET name = 'x' WHERE object = 4
10 4.1 UPDATE version SET code = 'x' WHERE object = 4
10 4.1 UPDATE version SET party = 20 WHERE object = 4
10 4.1 UPDATE version SET share_num = 1, share_den = 2 WHERE object = 4
10 4.1 UPDATE version SET required = 0 WHERE object = 4
10 30.1 UPDATE version SET name = 'x' WHERE object = 30
10 30.1 UPDATE version SET label = 'x' WHERE object = 30
10 30.1 UPDATE version SET area = 1 WHERE object = 30
10 30.1 UPDATE version SET required = 0 WHERE object = 30
10 30.1 UPDATE version SET spot_x = 1, spot_y = 1 WHERE object = 30
10 30.1 UPDATE version SET shape = X'01000300000000000000000000000000007530000000000000753000000000000075300000000000000000000000000000EA60' WHERE object = 30
10 31.1 UPDATE version SET name = 'x' WHERE object = 31
10 31.1 UPDATE version SET label = 'x' WHERE object = 31
10 31.1 UPDATE version SET area = 1 WHERE object = 31
10 31.1 UPDATE version SET spot_x = 1, spot_y = 1 WHERE object = 31
10 31.1 UPDATE version SET shape = X'01000300000000000000000000000000007530000000000000753000000000000075300000000000000000000000000000EA60' WHERE object = 31
# A right is stored as a responsibility is; a restriction is not, where it says whether a party is required.
10 - UPDATE version SET class = 6 WHERE object = 30
10 31.1 UPDATE version SET class = 6 WHERE object = 31
10 - UPDATE version SET class = 6, required = NULL WHERE object = 31
10 - UPDATE version SET class = 5 WHERE object = 30
# Shapes as bytes: their form, then the number of corners and each corner's x and y. The first is the triangle of object 3, in the form of one ring.
10 - UPDATE version SET shape = X'01000300000000000000000000000000007530000000000000753000000000000075300000000000000000000000000000EA60' WHERE object = 3
10 - UPDATE version SET shape = NULL WHERE object = 3
# No byte, a form that is none, a byte less and a byte more, a corner less than is told, two corners, and one too far out.
10 3.1 UPDATE version SET shape = X'' WHERE object = 3
10 3.1 UPDATE version SET shape = X'00000300000000000000000000000000007530000000000000753000000000000075300000000000000000000000000000EA60' WHERE object = 3
10 3.1 UPDATE version SET shape = X'030001000300000000000000000000000000007530000000000000753000000000000075300000000000000000000000000000EA60' WHERE object = 3
10 3.1 UPDATE version SET shape = X'01' WHERE object = 3
10 3.1 UPDATE version SET shape = X'01000300000000000000000000000000007530000000000000753000000000000075300000000000000000000000000000EA' WHERE object = 3
10 3.1 UPDATE version SET shape = X'01000300000000000000000000000000007530000000000000753000000000000075300000000000000000000000000000EA6000' WHERE object = 3
10 3.1 UPDATE version SET shape = X'01000400000000000000000000000000007530000000000000753000000000000075300000000000000000000000000000EA60' WHERE object = 3
10 3.1 UPDATE version SET shape = X'0100020000000000000000000000000000753000000000000075300000000000007530' WHERE object = 3
10 3.1 UPDATE version SET shape = X'010000' WHERE object = 3
10 3.1 UPDATE version SET shape = X'01000300000000000000000000000000007530000000000000753000000000000075300000000000000000000000174876E801' WHERE object = 3
10 - UPDATE version SET shape = X'01000300000000000000000000000000007530000000000000753000000000000075300000000000000000000000174876E800' WHERE object = 3
# Edges that cross, no area, a corner twice, and two rings in the form of one.
10 3.1 UPDATE version SET shape = X'01000400000000000000000000000000000000000000000000000A000000000000000A000000000000000A000000000000000000000000000000000000000000000014' WHERE object = 3
10 3.1 UPDATE version SET shape = X'01000300000000000000000000000000000000000000000000000A000000000000000A00000000000000140000000000000014' WHERE object = 3
10 3.1 UPDATE version SET shape = X'01000400000000000000000000000000000000000000000000000A0000000000000000000000000000000A00000000000000000000000000000000000000000000000A' WHERE object = 3
10 3.1 UPDATE version SET shape = X'01000300000000000000000000000000007530000000000000753000000000000075300000000000000000000000000000EA600003000000000000138800000000000088B8000000000000177000000000000088B800000000000013880000000000008CA0' WHERE object = 3
# The form of an outer ring and holes: without holes, with one, with one outside, with a ring more or less than is told, with a byte behind, and with no ring.
10 - UPDATE version SET shape = X'020001000300000000000000000000000000007530000000000000753000000000000075300000000000000000000000000000EA60' WHERE object = 3
10 - UPDATE version SET shape = X'020002000300000000000000000000000000007530000000000000753000000000000075300000000000000000000000000000EA600003000000000000138800000000000088B8000000000000177000000000000088B800000000000013880000000000008CA0' WHERE object = 3
10 3.1 UPDATE version SET shape = X'020002000300000000000000000000000000007530000000000000753000000000000075300000000000000000000000000000EA600003000000000000C35000000000000088B8000000000000EA6000000000000088B8000000000000C3500000000000008CA0' WHERE object = 3
10 3.1 UPDATE version SET shape = X'020003000300000000000000000000000000007530000000000000753000000000000075300000000000000000000000000000EA600003000000000000138800000000000088B8000000000000177000000000000088B800000000000013880000000000008CA0' WHERE object = 3
10 3.1 UPDATE version SET shape = X'020001000300000000000000000000000000007530000000000000753000000000000075300000000000000000000000000000EA600003000000000000138800000000000088B8000000000000177000000000000088B800000000000013880000000000008CA0' WHERE object = 3
10 3.1 UPDATE version SET shape = X'020002000300000000000000000000000000007530000000000000753000000000000075300000000000000000000000000000EA600003000000000000138800000000000088B8000000000000177000000000000088B800000000000013880000000000008CA000' WHERE object = 3
10 3.1 UPDATE version SET shape = X'020000' WHERE object = 3
# Numbers of an object one after the other from 1.
10 3.2 UPDATE version SET number = 2 WHERE object = 3
10 1.3 UPDATE version SET number = 3 WHERE object = 1 AND number = 2
10 1.11 UPDATE version SET number = number + 10 WHERE object = 1
# One class an object.
10 1.2 UPDATE version SET class = 2, label = NULL, area = NULL, unit = NULL, shape = NULL WHERE object = 1 AND number = 2
# Entered from 1 on.
10 3.1 UPDATE version SET entered = 0 WHERE object = 3
# Closed exactly where there is a last day, from where it was entered to the register's revision.
10 1.1 UPDATE version SET closed = NULL WHERE object = 1 AND number = 1
10 3.1 UPDATE version SET closed = 7 WHERE object = 3
10 1.1 UPDATE version SET closed = 3 WHERE object = 1 AND number = 1
10 - UPDATE version SET closed = 4 WHERE object = 1 AND number = 1
10 - UPDATE version SET closed = 10 WHERE object = 1 AND number = 1
10 1.1 UPDATE version SET closed = 11 WHERE object = 1 AND number = 1
4 1.1 UPDATE version SET closed = 11 WHERE object = 1 AND number = 1
10 3.1 UPDATE version SET last = 12053 WHERE object = 3
# The first of several in the order of objects.
10 10.1 UPDATE version SET name = '' WHERE object >= 10
10 2.1 UPDATE version SET unit = 0 WHERE object = 3 OR object = 2
10 1.2 UPDATE version SET unit = 0 WHERE object = 3 OR object = 1 AND number = 2
# What is entered later than the revision is not looked at.
5 - UPDATE version SET label = NULL WHERE object = 2
6 2.1 UPDATE version SET label = NULL WHERE object = 2
4 - UPDATE version SET unit = 0 WHERE object = 1 AND number = 2
5 1.2 UPDATE version SET unit = 0 WHERE object = 1 AND number = 2
0 - UPDATE version SET class = 0 WHERE object > 0
# A version that was entered before the one before it is damaged where it is shown without that one.
4 - UPDATE version SET entered = 7, closed = 7 WHERE object = 1 AND number = 1
5 1.2 UPDATE version SET entered = 7, closed = 7 WHERE object = 1 AND number = 1
6 1.2 UPDATE version SET entered = 7, closed = 7 WHERE object = 1 AND number = 1
7 - UPDATE version SET entered = 7, closed = 7 WHERE object = 1 AND number = 1
10 - UPDATE version SET entered = 7, closed = 7 WHERE object = 1 AND number = 1
# Two rows of one key, in a table that has none.
10 3.1 CREATE TABLE kept (object, number, class, first, last, entered, closed, name, code, label, area, unit, party, share_num, share_den, required, spot_x, spot_y, shape); INSERT INTO kept SELECT * FROM version; DROP TABLE version; CREATE TABLE version (object, number, class, first, last, entered, closed, name, code, label, area, unit, party, share_num, share_den, required, spot_x, spot_y, shape); INSERT INTO version SELECT * FROM kept; INSERT INTO version SELECT * FROM kept WHERE object = 3
10 - CREATE TABLE kept (object, number, class, first, last, entered, closed, name, code, label, area, unit, party, share_num, share_den, required, spot_x, spot_y, shape); INSERT INTO kept SELECT * FROM version; DROP TABLE version; CREATE TABLE version (object, number, class, first, last, entered, closed, name, code, label, area, unit, party, share_num, share_den, required, spot_x, spot_y, shape); INSERT INTO version SELECT * FROM kept
# Columns of other types, in such a table.
10 0.1 CREATE TABLE kept (object, number, class, first, last, entered, closed, name, code, label, area, unit, party, share_num, share_den, required, spot_x, spot_y, shape); INSERT INTO kept SELECT * FROM version; DROP TABLE version; CREATE TABLE version (object, number, class, first, last, entered, closed, name, code, label, area, unit, party, share_num, share_den, required, spot_x, spot_y, shape); INSERT INTO version SELECT * FROM kept; UPDATE version SET object = 'x' WHERE object = 3
10 3.0 CREATE TABLE kept (object, number, class, first, last, entered, closed, name, code, label, area, unit, party, share_num, share_den, required, spot_x, spot_y, shape); INSERT INTO kept SELECT * FROM version; DROP TABLE version; CREATE TABLE version (object, number, class, first, last, entered, closed, name, code, label, area, unit, party, share_num, share_den, required, spot_x, spot_y, shape); INSERT INTO version SELECT * FROM kept; UPDATE version SET number = NULL WHERE object = 3
10 3.1 CREATE TABLE kept (object, number, class, first, last, entered, closed, name, code, label, area, unit, party, share_num, share_den, required, spot_x, spot_y, shape); INSERT INTO kept SELECT * FROM version; DROP TABLE version; CREATE TABLE version (object, number, class, first, last, entered, closed, name, code, label, area, unit, party, share_num, share_den, required, spot_x, spot_y, shape); INSERT INTO version SELECT * FROM kept; UPDATE version SET area = '900' WHERE object = 3
10 3.1 CREATE TABLE kept (object, number, class, first, last, entered, closed, name, code, label, area, unit, party, share_num, share_den, required, spot_x, spot_y, shape); INSERT INTO kept SELECT * FROM version; DROP TABLE version; CREATE TABLE version (object, number, class, first, last, entered, closed, name, code, label, area, unit, party, share_num, share_den, required, spot_x, spot_y, shape); INSERT INTO version SELECT * FROM kept; UPDATE version SET label = X'61' WHERE object = 3
10 3.1 CREATE TABLE kept (object, number, class, first, last, entered, closed, name, code, label, area, unit, party, share_num, share_den, required, spot_x, spot_y, shape); INSERT INTO kept SELECT * FROM version; DROP TABLE version; CREATE TABLE version (object, number, class, first, last, entered, closed, name, code, label, area, unit, party, share_num, share_den, required, spot_x, spot_y, shape); INSERT INTO version SELECT * FROM kept; UPDATE version SET first = 12053.5 WHERE object = 3
10 3.1 CREATE TABLE kept (object, number, class, first, last, entered, closed, name, code, label, area, unit, party, share_num, share_den, required, spot_x, spot_y, shape); INSERT INTO kept SELECT * FROM version; DROP TABLE version; CREATE TABLE version (object, number, class, first, last, entered, closed, name, code, label, area, unit, party, share_num, share_den, required, spot_x, spot_y, shape); INSERT INTO version SELECT * FROM kept; UPDATE version SET shape = 'x' WHERE object = 3
10 30.1 CREATE TABLE kept (object, number, class, first, last, entered, closed, name, code, label, area, unit, party, share_num, share_den, required, spot_x, spot_y, shape); INSERT INTO kept SELECT * FROM version; DROP TABLE version; CREATE TABLE version (object, number, class, first, last, entered, closed, name, code, label, area, unit, party, share_num, share_den, required, spot_x, spot_y, shape); INSERT INTO version SELECT * FROM kept; UPDATE version SET share_num = '1' WHERE object = 30
10 31.1 CREATE TABLE kept (object, number, class, first, last, entered, closed, name, code, label, area, unit, party, share_num, share_den, required, spot_x, spot_y, shape); INSERT INTO kept SELECT * FROM version; DROP TABLE version; CREATE TABLE version (object, number, class, first, last, entered, closed, name, code, label, area, unit, party, share_num, share_den, required, spot_x, spot_y, shape); INSERT INTO version SELECT * FROM kept; UPDATE version SET required = 'x' WHERE object = 31";

/// A line for each change of the table: the object of a command that says a right on unit 10 of party 20, which is 40 if it enters one, the
/// row that is reported to the command as damaged or how else it ends, and the change.
const COMMANDS: &str = r"# The object itself, then the unit, then the party.
30 30.1 UPDATE version SET class = 9 WHERE object = 30 OR object = 10 OR object = 20
40 10.1 UPDATE version SET class = 9 WHERE object = 10 OR object = 20
40 20.1 UPDATE version SET class = 9 WHERE object = 20
# Of an object the first row for its class, then the last for its first day.
1 1.1 UPDATE version SET class = 9 WHERE object = 1
1 1.1 UPDATE version SET class = 9 WHERE object = 1 AND number = 1; UPDATE version SET first = -719529 WHERE object = 1 AND number = 2
1 1.2 UPDATE version SET first = -719529 WHERE object = 1
# A command asks for nothing else.
1 OtherClass UPDATE version SET first = -719529 WHERE object = 1 AND number = 1
1 OtherClass UPDATE version SET class = 9 WHERE object = 1 AND number = 2
40 11 UPDATE version SET name = '' WHERE object = 10";

/// The row that is reported, or how else the listing ended.
fn named(alloc: Global, listed: Result<Vec<Version>, RegisterFault>) -> Result<String, AllocError> {
    match listed {
        Ok(_) => String::from_str(alloc, "-"),
        Err(RegisterFault::Damaged { object, number }) => format!(in alloc; "{object}.{number}"),
        Err(fault) => format!(in alloc; "{fault:?}"),
    }
}

/// The register of the sample after the change.
pub(crate) fn changed(alloc: Global, change: &str) -> Result<Register<MemStore>, Fail> {
    let connection = in_memory(alloc).ok_or("in memory")?;
    let mut register = created(alloc, connection).ok_or("created")?;
    fill(alloc, &mut register)?;
    let mut connection = register.release();
    connection.execute_batch(change)?;
    Ok(Register::open(alloc, connection).ok().ok_or("opened")?)
}

/// What a listing of the sample at the revision reports after the change.
fn told_after(alloc: Global, revision: u64, change: &str) -> Result<String, Fail> {
    let mut register = changed(alloc, change)?;
    Ok(named(alloc, register.as_of(revision))?)
}

/// The command that says the right of the object.
fn right_of(alloc: Global, object: u32) -> Result<Command, Fail> {
    if object == 40 {
        enter(object, 14610, ownership(alloc)?)
    } else {
        amend(object, 18262, ownership(alloc)?)
    }
}

/// The row that is reported to the command after the change, or how else it ended.
fn applied_after(alloc: Global, command: Command, change: &str) -> Result<String, Fail> {
    let mut register = changed(alloc, change)?;
    match register.apply(command) {
        Ok(revision) => Ok(format!(in alloc; "{revision}")?),
        Err(RegisterFault::Damaged { object, number }) => {
            Ok(format!(in alloc; "{object}.{number}")?)
        }
        Err(fault) => Ok(format!(in alloc; "{fault:?}")?),
    }
}

#[test]
fn the_first_damaged_row_is_named(rt: HostRuntime) -> Result<(), Fail> {
    let alloc = rt.alloc();
    for line in CHANGES.lines() {
        if !line.starts_with('#') {
            let (revision, rest) = line.split_once(' ').ok_or("a revision")?;
            let (wanted, change) = rest.split_once(' ').ok_or("a row")?;
            let told = told_after(alloc, revision.parse()?, change)?;
            assert_eq!(rt; told.as_str(), wanted, "{change}");
        }
    }
    Ok(())
}

#[test]
fn the_first_damaged_row_that_a_command_asks_for_is_named(rt: HostRuntime) -> Result<(), Fail> {
    let alloc = rt.alloc();
    for line in COMMANDS.lines() {
        if !line.starts_with('#') {
            let (object, rest) = line.split_once(' ').ok_or("an object")?;
            let (wanted, change) = rest.split_once(' ').ok_or("a row")?;
            let told = applied_after(alloc, right_of(alloc, object.parse()?)?, change)?;
            assert_eq!(rt; told.as_str(), wanted, "{change}");
        }
    }
    Ok(())
}

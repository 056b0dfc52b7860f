//! Reading lines back.

ghost use Rattle.std.specs.Prelude.{◌≡◌, false, ℕ, pos, List, [], ◌∷◌, IfOk, IfErr, map};
ghost use Rattle.sqlite_value.specs.declared.value.Value.TheVariants.{Int};
ghost use Rattle.sqlite.specs.State.{HasCleanDisk, Survives, Shown, FailsToQuery};
ghost use Rattle.sqlite.specs.Held.{state};
ghost use Rattle.sqlite.specs.declared.error.Error.{Error};
ghost use Rattle.cad_tables.specs.Faults.{fault_of};
ghost use Rattle.cad_tables.specs.VersionRow.{VersionRow};
ghost use Rattle.cad_tables.specs.Holding.{Holds};
ghost use Rattle.cad_tables.specs.Texts.{history_text, listing_text, range_text};
ghost use Rattle.sqlite_resolve.specs.Compile.{first};
ghost use Rattle.cad_tables.specs.Asking.{IsQuery, OnlyReads};
ghost use Rattle.cad_tables.specs.Listing.{HaveNoTies, number_order, lines_of_object, history as known, outline_of};
ghost use Rattle.cad_tables.specs.Reading.{AreRead, AreGiven, AreShown, AreListed, AreListedBetween, RefusesRest, RefusesRows};
ghost use Rattle.sqlite.specs.Values.{bound};
ghost use Rattle.sqlite_value.specs.Order.{Row as SqlRow};

use crate::cells::{one_cell, two_cells};
use crate::faults::TableFault;
use sqlite::types::ValueRef;
use sqlite::{Alter, Connection, Row, Rows};
use std::alloc::{AllocError, Global};

/// The rows of a query with one parameter.
fn selected<S: Alter>(
    conn: &mut Connection<S>,
    sql: &str,
    parameter: u32,
) -> Result<Vec<Row>, TableFault>
    requires { IsQuery (first sql.now) }
    ensures shown { HasCleanDisk (state S.Store conn.new) → IfOk result (λ rows.
        Shown sql.now (Int (pos parameter) ∷ []) (state S.Store conn.old) (state S.Store conn.new) rows.items) }
    ensures refused { HasCleanDisk (state S.Store conn.new) → IfErr result (λ fault. (e : Error) × (fault ≡ fault_of e)
        × FailsToQuery sql.now (Int (pos parameter) ∷ []) (state S.Store conn.old) (state S.Store conn.new) e) }
    ensures reads { OnlyReads (state S.Store conn.old) (state S.Store conn.new) result }
{
    let rows = conn.query_all(sql, &one_cell(parameter))?;
    Ok(rows)
}

/// Number, class, first day and last day of each version of an object, by number.
///
/// The database finds them by the table's key.
pub fn history<S: Alter>(conn: &mut Connection<S>, object: u32) -> Result<Vec<Row>, TableFault>
    ensures rows { HasCleanDisk (state S.Store conn.new) → IfOk result (λ rows. (n : ℕ) (lines : List VersionRow)
        → Holds n lines (state S.Store conn.old).now → HaveNoTies number_order (lines_of_object object lines)
        → rows.items ≡ map outline_of (known object lines)) }
    ensures shown { HasCleanDisk (state S.Store conn.new) → IfOk result (λ rows.
        Shown history_text (Int (pos object) ∷ []) (state S.Store conn.old) (state S.Store conn.new) rows.items) }
    ensures refused { HasCleanDisk (state S.Store conn.new) → IfErr result (λ fault. (e : Error) × (fault ≡ fault_of e)
        × FailsToQuery history_text (Int (pos object) ∷ []) (state S.Store conn.old) (state S.Store conn.new) e) }
    ensures reads { OnlyReads (state S.Store conn.old) (state S.Store conn.new) result }
{
    selected(
        conn,
        "SELECT number, class, first, last FROM version WHERE object = ?1 ORDER BY number",
        object,
    )
}

/// What is read of a row, as soon as the database comes to it.
pub trait Reader: Sized {
    ghost reads: { SqlRow → Self → Type 0 };

    /// An error means out of memory.
    fn read(alloc: Global, row: &Row) -> Result<Self, AllocError>
        ensures { IfOk result (reads row.now) };
}

/// What is read of each row that the current query still gives. No row is kept.
fn read_rest<S: Alter, R: Reader + Drop>(
    alloc: Global,
    rows: &mut Rows<'_, S>,
) -> Result<Vec<R>, TableFault>
    ensures same_reference { rows.new.conn.ghost_name ≡ rows.old.conn.ghost_name }
    ensures shown { IfOk result (λ found. AreRead R.reads (AreGiven S.Store rows.old.conn.now rows.new.conn.now) found.items) }
    ensures refused { HasCleanDisk (state S.Store rows.new.conn.now) → IfErr result
        (RefusesRest S.Store rows.old.conn.now rows.new.conn.now) }
    ensures mode { rows.old.conn.now.in_transaction ≡ false → rows.new.conn.now.in_transaction ≡ false }
    ensures survives { Survives (state S.Store rows.old.conn.now) (state S.Store rows.new.conn.now) (λ _. ⊥) }
{
    let mut found = Vec::new(alloc);
    for _ in 0..u64::MAX {
        rows.advance()?;
        let Some(row) = rows.get() else {
            return Ok(found);
        };
        found.push(R::read(alloc, row)?)?;
    }
    // a list has no room for more
    Err(TableFault::Memory)
}

/// What is read of each row of a query with these parameters.
fn read_each<S: Alter, R: Reader + Drop>(
    alloc: Global,
    conn: &mut Connection<S>,
    sql: &str,
    params: &[ValueRef<'_>],
) -> Result<Vec<R>, TableFault>
    requires { IsQuery (first sql.now) }
    ensures shown { IfOk result (λ found. AreRead R.reads (AreShown sql.now (bound params.now)
        (state S.Store conn.old) (state S.Store conn.new)) found.items) }
    ensures refused { HasCleanDisk (state S.Store conn.new) → IfErr result (RefusesRows sql.now (bound params.now)
        (state S.Store conn.old) (state S.Store conn.new)) }
    ensures reads { OnlyReads (state S.Store conn.old) (state S.Store conn.new) result }
{
    let mut rows = conn.query(sql, params)?;
    read_rest(alloc, &mut rows)
}

/// What is read of each row of a query with one parameter.
fn read_for<S: Alter, R: Reader + Drop>(
    alloc: Global,
    conn: &mut Connection<S>,
    sql: &str,
    parameter: u32,
) -> Result<Vec<R>, TableFault>
    requires { IsQuery (first sql.now) }
    ensures shown { IfOk result (λ found. AreRead R.reads (AreShown sql.now (Int (pos parameter) ∷ [])
        (state S.Store conn.old) (state S.Store conn.new)) found.items) }
    ensures refused { HasCleanDisk (state S.Store conn.new) → IfErr result (RefusesRows sql.now (Int (pos parameter) ∷ [])
        (state S.Store conn.old) (state S.Store conn.new)) }
    ensures reads { OnlyReads (state S.Store conn.old) (state S.Store conn.new) result }
{
    read_each(alloc, conn, sql, &one_cell(parameter))
}

/// What is read of each row of a query with two parameters.
fn read_between<S: Alter, R: Reader + Drop>(
    alloc: Global,
    conn: &mut Connection<S>,
    sql: &str,
    behind: u32,
    up_to: u32,
) -> Result<Vec<R>, TableFault>
    requires { IsQuery (first sql.now) }
    ensures shown { IfOk result (λ found. AreRead R.reads (AreShown sql.now (Int (pos behind) ∷ Int (pos up_to) ∷ [])
        (state S.Store conn.old) (state S.Store conn.new)) found.items) }
    ensures refused { HasCleanDisk (state S.Store conn.new) → IfErr result (RefusesRows sql.now (Int (pos behind) ∷ Int (pos up_to) ∷ [])
        (state S.Store conn.old) (state S.Store conn.new)) }
    ensures reads { OnlyReads (state S.Store conn.old) (state S.Store conn.new) result }
{
    read_each(alloc, conn, sql, &two_cells(behind, up_to))
}

/// What is read of each row that was entered up to a revision, with all nineteen columns, in the order in which the database comes to them.
///
/// The query asks for no order, so the database holds back no row to sort it.
pub fn listing<S: Alter, R: Reader + Drop>(
    alloc: Global,
    conn: &mut Connection<S>,
    revision: u32,
) -> Result<Vec<R>, TableFault>
    ensures rows { IfOk result (λ found. AreRead R.reads
        (AreListed (state S.Store conn.old) (state S.Store conn.new) revision) found.items) }
    ensures refused { HasCleanDisk (state S.Store conn.new) → IfErr result (RefusesRows listing_text (Int (pos revision) ∷ [])
        (state S.Store conn.old) (state S.Store conn.new)) }
    ensures reads { OnlyReads (state S.Store conn.old) (state S.Store conn.new) result }
{
    read_for(
        alloc,
        conn,
        "SELECT object, number, class, first, last, entered, closed, name, code, label, area, unit, party, \
            share_num, share_den, required, spot_x, spot_y, shape \
            FROM version WHERE entered <= ?1",
        revision,
    )
}

/// What is read of each row at a place behind one, up to another, with all nineteen columns, the oldest first.
///
/// The places count the rows from 1, in the order in which they were entered. The database finds these rows by their rowids, and comes to no others.
pub fn listing_between<S: Alter, R: Reader + Drop>(
    alloc: Global,
    conn: &mut Connection<S>,
    behind: u32,
    up_to: u32,
) -> Result<Vec<R>, TableFault>
    ensures rows { IfOk result (λ found. AreRead R.reads
        (AreListedBetween (state S.Store conn.old) (state S.Store conn.new) behind up_to) found.items) }
    ensures refused { HasCleanDisk (state S.Store conn.new) → IfErr result (RefusesRows range_text (Int (pos behind) ∷ Int (pos up_to) ∷ [])
        (state S.Store conn.old) (state S.Store conn.new)) }
    ensures reads { OnlyReads (state S.Store conn.old) (state S.Store conn.new) result }
{
    read_between(
        alloc,
        conn,
        "SELECT object, number, class, first, last, entered, closed, name, code, label, area, unit, party, \
            share_num, share_den, required, spot_x, spot_y, shape \
            FROM version WHERE rowid > ?1 AND rowid <= ?2 ORDER BY rowid",
        behind,
        up_to,
    )
}

//! Whether a database is a register's, and at which revision.

ghost use Rattle.std.specs.Prelude.{◌≡◌, ◌≤◌, ℕ, false, true, List, IfOk, IfErr};
ghost use Rattle.sqlite_value.specs.Order.{column};
ghost use Rattle.sqlite.specs.State.{HasCleanDisk};
ghost use Rattle.sqlite.specs.Held.{state};
ghost use Rattle.cad_tables.specs.VersionRow.{VersionRow};
ghost use Rattle.cad_tables.specs.Holding.{Holds};
ghost use Rattle.cad_tables.specs.Asking.{OnlyReads};
ghost use Rattle.cad_tables.specs.Opening.{most_revision, count_in, revision_in, is_lacking as lacks};
ghost use Rattle.cad_tables.specs.Opening.{TellsRevision, TellsRegister, LacksColumns};
ghost use Rattle.cad_tables.specs.Opening.{RefusesToTell, RefusesColumns, RefusesRegister};

use crate::faults::TableFault;
use sqlite::{Alter, Connection, Error, ErrorCode, Row};
use sqlite_resolve::CompileError;

/// The greatest revision that a register may store.
pub const MOST_REVISION: u32 = 4_294_967_294;

/// Whether a statement was refused because a table, a column or the row that it asks for is missing.
fn is_lacking(error: Error) -> bool
    ensures { result ≡ lacks error }
{
    matches!(
        error,
        Error::SqlInputError(CompileError::NoSuchTable | CompileError::NoSuchColumn)
            | Error::QueryReturnedNoRows
    )
}

/// The whole number in a column, if one is there.
fn count_at(row: &Row, at: usize) -> Result<Option<u32>, TableFault>
    ensures exact { IfOk result (λ n. n ≡ count_in (column row.now at)) }
    ensures memory { IfErr result (λ fault. fault ≡ TableFault.Memory) }
{
    match row.get::<u32>(at) {
        Ok(n) => Ok(Some(n)),
        Err(Error::SqliteFailure(ErrorCode::OutOfMemory)) => Err(TableFault::Memory),
        Err(_) => Ok(None),
    }
}

/// The revision in a row of format and revision.
fn stored_revision(row: &Row) -> Result<Option<u32>, TableFault>
    ensures exact { IfOk result (λ found. found ≡ revision_in row.now) }
    ensures memory { IfErr result (λ fault. fault ≡ TableFault.Memory) }
{
    let format = count_at(row, 0)?;
    let revision = count_at(row, 1)?;
    match (format, revision) {
        (Some(1), Some(n)) if n <= MOST_REVISION => Ok(Some(n)),
        _ => Ok(None),
    }
}

/// The revision in the table `state`; none if the table is not a register's.
pub fn revision<S: Alter>(conn: &mut Connection<S>) -> Result<Option<u32>, TableFault>
    ensures stands { HasCleanDisk (state S.Store conn.new) → IfOk result (λ found. (n : ℕ) (lines : List VersionRow)
        → Holds n lines (state S.Store conn.old).now → n ≤ most_revision → found ≡ Some n) }
    ensures found { HasCleanDisk (state S.Store conn.new)
        → IfOk result (TellsRevision (state S.Store conn.old) (state S.Store conn.new)) }
    ensures refused { HasCleanDisk (state S.Store conn.new)
        → IfErr result (RefusesToTell (state S.Store conn.old) (state S.Store conn.new)) }
    ensures reads { OnlyReads (state S.Store conn.old) (state S.Store conn.new) result }
{
    match conn.query_row("SELECT format, revision FROM state WHERE one = 1", &[]) {
        Ok(row) => stored_revision(&row),
        Err(error) => {
            if is_lacking(error) {
                Ok(None)
            } else {
                Err(TableFault::from(error))
            }
        }
    }
}

/// Whether the table `version` has all its columns.
fn has_columns<S: Alter>(conn: &mut Connection<S>) -> Result<bool, TableFault>
    ensures known { HasCleanDisk (state S.Store conn.new)
        → IfOk result (λ known. known ≡ true → ¬ LacksColumns (state S.Store conn.old).now.schema) }
    ensures lacks { HasCleanDisk (state S.Store conn.new)
        → IfOk result (λ known. known ≡ false → LacksColumns (state S.Store conn.old).now.schema) }
    ensures refused { HasCleanDisk (state S.Store conn.new)
        → IfErr result (RefusesColumns (state S.Store conn.old) (state S.Store conn.new)) }
    ensures reads { OnlyReads (state S.Store conn.old) (state S.Store conn.new) result }
{
    let Err(error) = conn.prepare(
        "SELECT object, number, class, first, last, entered, closed, name, code, label, area, unit, party, \
            share_num, share_den, required, spot_x, spot_y, shape \
            FROM version WHERE entered <= ?1",
    ) else {
        return Ok(true);
    };
    if is_lacking(error) {
        Ok(false)
    } else {
        Err(TableFault::from(error))
    }
}

/// The revision of the register that the database holds; none if it lacks one of the tables, a column or the row of `state`, or if that row
/// has another format or a revision that is never stored.
pub fn open<S: Alter>(conn: &mut Connection<S>) -> Result<Option<u32>, TableFault>
    ensures stands { HasCleanDisk (state S.Store conn.new) → IfOk result (λ found. (n : ℕ) (lines : List VersionRow)
        → Holds n lines (state S.Store conn.old).now → n ≤ most_revision → found ≡ Some n) }
    ensures found { HasCleanDisk (state S.Store conn.new) → IfOk result (TellsRegister S.Store conn.old conn.new) }
    ensures refused { HasCleanDisk (state S.Store conn.new) → IfErr result (RefusesRegister S.Store conn.old conn.new) }
    ensures reads { OnlyReads (state S.Store conn.old) (state S.Store conn.new) result }
{
    if has_columns(conn)? {
        revision(conn)
    } else {
        Ok(None)
    }
}

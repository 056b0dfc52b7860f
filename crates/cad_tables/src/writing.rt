//! One command's change, in one transaction.

ghost use Rattle.std.specs.Prelude.{◌≡◌, [], ◌∷◌, OnOk};
ghost use Rattle.sqlite.specs.State.{HasCleanDisk};
ghost use Rattle.sqlite.specs.Held.{state};
ghost use Rattle.cad_tables.specs.Refusals.{entering, closing as the_closing, counting, statements_of, all_statements_of};
ghost use Rattle.cad_tables.specs.Refusals.{RefusesTransaction};
ghost use Rattle.cad_tables.specs.Transactions.{TakesStep, CommitsOrKeeps};
ghost use Rattle.cad_tables.specs.Steps.{Adds, Counts, Closes, Changes, Commands, Commits, CommitsTo};

use crate::cells::{Stored, closing_cells, one_cell};
use crate::changes::{Change, Closing};
use crate::faults::TableFault;
use sqlite::{Alter, Connection, Error, ErrorCode, Transaction};

/// Adds a row to `version`.
fn add_line<S: Alter, L: Stored>(tx: &mut Transaction<'_, S>, line: &L) -> Result<(), Error>
    ensures same_reference { tx.new.conn.ghost_name ≡ tx.old.conn.ghost_name }
    ensures step { TakesStep S.Store (Adds (L.line line.now)) (entering (L.line line.now) ∷ []) tx.old.conn.now tx.new.conn.now result }
{
    tx.execute(
        "INSERT INTO version VALUES (?1, ?2, ?3, ?4, ?5, ?6, ?7, ?8, ?9, ?10, \
            ?11, ?12, ?13, ?14, ?15, ?16, ?17, ?18, ?19)",
        &line.cells(),
    )?;
    Ok(())
}

/// Sets the revision in `state`.
fn set_revision<S: Alter>(tx: &mut Transaction<'_, S>, revision: u32) -> Result<(), Error>
    ensures same_reference { tx.new.conn.ghost_name ≡ tx.old.conn.ghost_name }
    ensures step { TakesStep S.Store (Counts revision) (counting revision ∷ []) tx.old.conn.now tx.new.conn.now result }
{
    tx.execute(
        "UPDATE state SET revision = ?1 WHERE one = 1",
        &one_cell(revision),
    )?;
    Ok(())
}

/// Closes the open row of an object.
fn close_line<S: Alter>(
    tx: &mut Transaction<'_, S>,
    closing: Closing,
    revision: u32,
) -> Result<(), Error>
    ensures same_reference { tx.new.conn.ghost_name ≡ tx.old.conn.ghost_name }
    ensures step { TakesStep S.Store (Closes closing revision) (the_closing closing revision ∷ []) tx.old.conn.now tx.new.conn.now result }
{
    tx.execute(
        "UPDATE version SET last = ?2, closed = ?3 WHERE object = ?1 AND last IS NULL",
        &closing_cells(closing, revision),
    )?;
    Ok(())
}

/// Writes a change of the rows of `version`.
fn change_lines<S: Alter, L: Stored>(
    tx: &mut Transaction<'_, S>,
    change: &Change<L>,
    revision: u32,
) -> Result<(), Error>
    ensures same_reference { tx.new.conn.ghost_name ≡ tx.old.conn.ghost_name }
    ensures step { TakesStep S.Store (Changes L.line change.now revision) (statements_of L.line change.now revision) tx.old.conn.now tx.new.conn.now result }
{
    match change {
        Change::Enter(line) => add_line(tx, line),
        Change::Amend { closing, line } => {
            close_line(tx, *closing, revision)?;
            add_line(tx, line)
        }
        Change::Retire(closing) => close_line(tx, *closing, revision),
    }
}

/// Writes a change and the revision that it makes.
fn change_all<S: Alter, L: Stored>(
    tx: &mut Transaction<'_, S>,
    change: &Change<L>,
    revision: u32,
) -> Result<(), Error>
    ensures same_reference { tx.new.conn.ghost_name ≡ tx.old.conn.ghost_name }
    ensures step { TakesStep S.Store (Commands L.line change.now revision) (all_statements_of L.line change.now revision) tx.old.conn.now tx.new.conn.now result }
{
    change_lines(tx, change, revision)?;
    set_revision(tx, revision)
}

/// Writes the change of the command that makes this revision, or nothing.
pub fn write<S: Alter, L: Stored>(
    conn: &mut Connection<S>,
    change: &Change<L>,
    revision: u32,
) -> Result<(), TableFault>
    ensures wrote { HasCleanDisk (state S.Store conn.new)
        → OnOk result (Commits L.line change.now revision (state S.Store conn.old) (state S.Store conn.new)) }
    ensures keeps { CommitsOrKeeps S.Store (RefusesTransaction S.Store (all_statements_of L.line change.now revision))
        (CommitsTo L.line change.now revision) conn.old conn.new result }
{
    if !conn.is_autocommit() {
        return Err(TableFault::Store(Error::SqliteFailure(ErrorCode::TransactionState)));
    }
    let mut tx = conn.transaction();
    change_all(&mut tx, change, revision)?;
    tx.commit()?;
    Ok(())
}

//! Making the tables of an empty register.

ghost use Rattle.std.specs.Prelude.{◌≡◌, [], true, false, IsTrue, Ok, IfErr, IfOk, OnOk};
ghost use Rattle.sqlite.specs.State.{HasCleanDisk, IsNotRun, IsUnchanged};
ghost use Rattle.sqlite.specs.Listing.{understood};
ghost use Rattle.sqlite.specs.Held.{state};
ghost use Rattle.cad_tables.specs.Asking.{OnlyReads};
ghost use Rattle.cad_tables.specs.Faults.{is_name_taken as is_taken};
ghost use Rattle.cad_tables.specs.Opening.{Finds, RefusesNames, RefusesTables};
ghost use Rattle.cad_tables.specs.Refusals.{creating, RefusesTransaction};
ghost use Rattle.cad_tables.specs.Transactions.{TakesStep, CommitsOrKeeps};
ghost use Rattle.cad_tables.specs.Tables.{is_standing as stands};
ghost use Rattle.cad_tables.specs.Texts.{state_text, version_text};
ghost use Rattle.cad_tables.specs.Steps.{MakesTables, Creates, CreatesTo};

use crate::faults::TableFault;
use crate::taken::is_name_taken;
use sqlite::{Alter, Connection, Error, ErrorCode, Transaction};

/// The result of a call to make the tables.
#[derive(Clone, Copy, Debug, PartialEq, Eq)]
pub enum Creation {
    /// The tables were made, and are empty.
    Made,
    /// The name of one of the tables is in use.
    AlreadyExists,
}

/// The text that makes the table `state`.
fn state_table() -> &'static str
    ensures { result.now ≡ state_text }
{
    "CREATE TABLE state (one INTEGER PRIMARY KEY CHECK (one = 1), \
        format INTEGER NOT NULL, revision INTEGER NOT NULL) STRICT"
}

/// The text that makes the table `version`.
fn version_table() -> &'static str
    ensures { result.now ≡ version_text }
{
    "CREATE TABLE version (object INTEGER NOT NULL, number INTEGER NOT NULL, class INTEGER NOT NULL, \
        first INTEGER NOT NULL, last INTEGER, entered INTEGER NOT NULL, closed INTEGER, \
        name TEXT, code TEXT, label TEXT, area INTEGER, unit INTEGER, party INTEGER, \
        share_num INTEGER, share_den INTEGER, required INTEGER, \
        spot_x INTEGER, spot_y INTEGER, shape BLOB, PRIMARY KEY (object, number)) STRICT"
}

/// Whether the name of the table that a text makes is in use, as the database says when it compiles the text.
fn is_in_use<S: Alter>(conn: &mut Connection<S>, sql: &str) -> Result<bool, Error>
    ensures known { HasCleanDisk (state S.Store conn.new)
        → IfOk result (Finds (understood (state S.Store conn.old).now.schema sql.now)) }
    ensures refused { HasCleanDisk (state S.Store conn.new) → IfErr result (λ e. (is_taken e ≡ false)
        × IsNotRun (state S.Store conn.old) (state S.Store conn.new) sql.now [] e) }
    ensures reads { OnlyReads (state S.Store conn.old) (state S.Store conn.new) result }
{
    let Err(error) = conn.prepare(sql) else {
        return Ok(false);
    };
    if is_name_taken(error) {
        Ok(true)
    } else {
        Err(error)
    }
}

/// Whether one of the tables exists, or an index or a view of its name.
fn is_standing<S: Alter>(conn: &mut Connection<S>) -> Result<bool, Error>
    ensures known { HasCleanDisk (state S.Store conn.new)
        → IfOk result (λ standing. standing ≡ stands (state S.Store conn.old).now.schema) }
    ensures refused { HasCleanDisk (state S.Store conn.new) → IfErr result (RefusesNames S.Store conn.old conn.new) }
    ensures reads { OnlyReads (state S.Store conn.old) (state S.Store conn.new) result }
{
    if is_in_use(conn, state_table())? {
        return Ok(true);
    }
    let used = is_in_use(conn, version_table())?;
    Ok(used)
}

/// Makes both tables and the row of `state`.
fn make_tables<S: Alter>(tx: &mut Transaction<'_, S>) -> Result<(), Error>
    ensures same_reference { tx.new.conn.ghost_name ≡ tx.old.conn.ghost_name }
    ensures step { TakesStep S.Store MakesTables creating tx.old.conn.now tx.new.conn.now result }
{
    tx.execute(state_table(), &[])?;
    tx.execute(version_table(), &[])?;
    tx.execute("INSERT INTO state VALUES (1, 1, 0)", &[])?;
    Ok(())
}

/// Makes the tables in one transaction, or changes nothing.
fn make<S: Alter>(conn: &mut Connection<S>) -> Result<(), TableFault>
    requires begins { (state S.Store conn.old).in_transaction ≡ false }
    requires settled { HasCleanDisk (state S.Store conn.old) → IsTrue (state S.Store conn.old).is_open
        → (state S.Store conn.old).now ≡ (state S.Store conn.old).committed }
    ensures made { HasCleanDisk (state S.Store conn.new)
        → OnOk result (Creates (state S.Store conn.old) (state S.Store conn.new)) }
    ensures keeps { CommitsOrKeeps S.Store (RefusesTransaction S.Store creating) CreatesTo conn.old conn.new result }
{
    let mut tx = conn.transaction();
    make_tables(&mut tx)?;
    tx.commit()?;
    Ok(())
}

/// Makes the tables of a register of no commands, in one transaction, or changes nothing.
pub fn create<S: Alter>(conn: &mut Connection<S>) -> Result<Creation, TableFault>
    ensures made { HasCleanDisk (state S.Store conn.new) → result ≡ Ok Creation.Made
        → Creates (state S.Store conn.old) (state S.Store conn.new) }
    ensures standing { HasCleanDisk (state S.Store conn.new) → result ≡ Ok Creation.AlreadyExists
        → (stands (state S.Store conn.old).now.schema ≡ true)
        × IsUnchanged (state S.Store conn.old) (state S.Store conn.new) }
    ensures keeps { CommitsOrKeeps S.Store (RefusesTables S.Store) CreatesTo conn.old conn.new result }
{
    if !conn.is_autocommit() {
        return Err(TableFault::Store(Error::SqliteFailure(ErrorCode::TransactionState)));
    }
    if is_standing(conn)? {
        return Ok(Creation::AlreadyExists);
    }
    make(conn)?;
    Ok(Creation::Made)
}

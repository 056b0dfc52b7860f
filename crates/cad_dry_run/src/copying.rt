//! A copy of a ledger, into which a journal is entered.

ghost use Rattle.cad_dry_run.specs.Copying.{Enters};

use cad_versions::{Command, Ledger, RegisterFault};

/// Enters the commands of a journal into a ledger, one after the other, up to the first that is refused.
///
/// An empty ledger into which a whole journal was entered is a copy of the one that gave the journal.
pub fn enter_all<L: Ledger>(ledger: &mut L, commands: Vec<Command>) -> Result<(), RegisterFault>
    ensures { Enters L.Ledger ledger.old commands.items result ledger.new }
{
    for command in commands {
        match ledger.apply(command) {
            Ok(_) => {}
            Err(fault) => return Err(fault),
        }
    }
    Ok(())
}

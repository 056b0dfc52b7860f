//! A ledger accepts commands, and gives the versions at a revision.

use crate::command::Command;
use crate::fault::RegisterFault;
use crate::version::Version;

/// A ledger of commands that were accepted one after the other.
pub trait Ledger {
    ghost use Rattle.std.specs.Prelude.{◌≡◌, ℕ, ℤ, List, [], length};
    ghost use Rattle.cad_versions.specs.declared.command.Command.{Command as CommandOf};
    ghost use Rattle.cad_versions.specs.declared.fault.RegisterFault.{RegisterFault as Fault};
    ghost use Rattle.cad_versions.specs.Keeping.{IsOfKeeping};
    ghost use Rattle.cad_versions.specs.Ledgers.{Applied, Checked, Listed};
    ghost use Rattle.cad_versions.specs.Refusals.{AreAccepted};

    // It holds these commands.
    ghost stands_for: { Self → List CommandOf → Type 0 };

    // Its answers count, as those of a database whose disk is clean.
    ghost counts: { Self → Type 0 };

    // It can be asked again, as a database that is open.
    ghost lives: { Self → Type 0 };

    // The store of the ledger failed in between, as the disk of a database can.
    ghost fails: { Self → Self → Type 0 };

    // The revision that it reports, no matter which commands it holds.
    ghost newest: { Self → ℕ };

    // Why a command is refused although the commands before it allow it.
    ghost fails_to_apply: { List CommandOf → CommandOf → Fault → Type 0 };

    // Why a revision is not listed although it was made.
    ghost fails_to_list: { ℕ → List CommandOf → Fault → Type 0 };

    // The ledger's store itself refuses the command, when asked at this revision.
    ghost refuses_command: { Self → Self → CommandOf → ℕ → Type 0 };

    // The ledger's store itself refuses to list the revision.
    ghost refuses_listing: { Self → Self → ℕ → Type 0 };

    // When asked for the command, the store shows a damaged row with this object and this number, as they are stored.
    ghost damaged_for_command: { Self → Self → CommandOf → ℤ → ℤ → Type 0 };

    // When asked for the revision, the store shows such a row.
    ghost damaged_for_listing: { Self → Self → ℕ → ℤ → ℤ → Type 0 };

    // If the ledger was the first one before revisions were listed, it is the second one afterwards: it shows the same, and what decides
    // whether it refuses a call is the same.
    ghost remains: { Self → Self → Type 0 };

    /// How many commands were accepted.
    fn revision(&self) -> u64
        ensures counted { (commands : List CommandOf) → stands_for self.now commands →
            result ≡ length commands }
        ensures told { result ≡ newest self.now };

    /// Applies the command and returns the revision that it made, or refuses it and stays as it was.
    fn apply(&mut self, command: Command) -> Result<u64, RegisterFault>
        ensures { Applied stands_for counts lives fails fails_to_apply refuses_command damaged_for_command self.old command result self.new };

    /// What `apply` would answer to the command. The command is not entered.
    fn check(&mut self, command: &Command) -> Result<u64, RegisterFault>
        ensures { Checked stands_for counts lives fails fails_to_apply refuses_command damaged_for_command remains self.old command.now result self.new };

    /// The versions at a revision, by object and number. A closing of a later revision is not seen.
    fn as_of(&mut self, revision: u64) -> Result<Vec<Version>, RegisterFault>
        ensures { Listed stands_for counts lives fails fails_to_list refuses_listing damaged_for_listing remains self.old revision result self.new };

    // A fault other than one of the commands is a fault of the ledger's store.
    ghost apply_keeps: { (commands : List CommandOf) (command : CommandOf) (fault : Fault) →
        fails_to_apply commands command fault → IsOfKeeping fault };

    ghost list_keeps: { (revision : ℕ) (commands : List CommandOf) (fault : Fault) →
        fails_to_list revision commands fault → IsOfKeeping fault };

    // The commands that it holds were accepted one after the other.
    ghost were_accepted: { (ledger : Self) (commands : List CommandOf) →
        stands_for ledger commands → AreAccepted [] commands };

    // It remains what it was if nothing was listed, and over one listing after the other.
    ghost remains_here: { (ledger : Self) → remains ledger ledger };

    ghost remains_then: { (old mid new : Self) → remains old mid → remains mid new → remains old new };

    // If it remained what it was and failed afterwards, then it failed since the earlier moment.
    ghost fails_before: { (old mid new : Self) → remains old mid → fails mid new → fails old new };
}

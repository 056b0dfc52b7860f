//! Entering the commands of the sample into a ledger.

ghost use Rattle.std.specs.Prelude.{map};
ghost use Rattle.cad_versions.specs.LedgerCalls.{Applies};
ghost use Rattle.cad_sample.specs.Filling.{Enters, IsFilled};
ghost use Rattle.cad_sample.specs.Instructions.{instruction_of};
ghost use Rattle.cad_sample.specs.Sample.{sample_commands};

use crate::commands::sample;
use cad_versions::{Command, Ledger, RegisterFault};
use std::alloc::Global;

/// Enters the ten commands of the sample register, in their order, and returns the last revision.
///
/// It stops at the first refusal, and the commands before it stay. An empty ledger that accepts all of them holds the ten commands
/// afterwards.
pub fn fill<L: Ledger>(alloc: Global, ledger: &mut L) -> Result<u64, RegisterFault>
    ensures enters { Enters (Applies L.Ledger) sample_commands ledger.old result ledger.new }
    ensures filled { IsFilled L.Ledger ledger.old result ledger.new }
{
    match sample(alloc) {
        Ok(commands) => enter_all(ledger, commands),
        Err(_) => Err(RegisterFault::Memory),
    }
}

/// Enters the commands one after the other, up to the first that is refused, and returns the last revision.
fn enter_all<L: Ledger>(ledger: &mut L, commands: Vec<Command>) -> Result<u64, RegisterFault>
    ensures { Enters (Applies L.Ledger) (map instruction_of commands.items) ledger.old result ledger.new }
{
    let mut revision = 0;
    for command in commands {
        match ledger.apply(command) {
            Ok(next) => revision = next,
            Err(fault) => return Err(fault),
        }
    }
    Ok(revision)
}

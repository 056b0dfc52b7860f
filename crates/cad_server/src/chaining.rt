//! The chain of all commands of a ledger.

ghost use Rattle.std.specs.Prelude.{◌≡◌};
ghost use Rattle.cad_commands.specs.Chains.{chain_of as chain_of_all, digest_of};
ghost use Rattle.cad_server.specs.Chaining.{ReadsAll};

use cad_commands::{Chain, chain_of};
use cad_versions::{Command, JournalLedger, RegisterFault};
use std::alloc::Global;

/// All commands of the ledger, in their order. It needs memory for all of them at once.
fn all_commands<L: JournalLedger>(
    alloc: Global,
    ledger: &mut L,
) -> Result<Vec<Command>, RegisterFault>
    ensures { ReadsAll L.Ledger L.JournalLedger.own (λ commands journal. journal.items ≡ commands) ledger.old result ledger.new }
{
    let mut reading = ledger.begin_journal(0)?;
    if ledger.read_on(&mut reading, u32::MAX)? {
        L::commands(reading, alloc)
    } else {
        // So many rows are more than memory can have.
        Err(RegisterFault::Memory)
    }
}

/// The chain of all commands of the ledger.
pub(crate) fn ledger_chain<L: JournalLedger>(
    alloc: Global,
    ledger: &mut L,
) -> Result<Chain, RegisterFault>
    ensures { ReadsAll L.Ledger L.JournalLedger.own (λ commands chain. digest_of chain ≡ chain_of_all commands) ledger.old result ledger.new }
{
    let commands = all_commands(alloc, ledger)?;
    Ok(chain_of(alloc, &commands)?)
}

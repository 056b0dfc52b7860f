//! A land register as a ledger.

ghost use Rattle.cad_register.specs.Ledgers.{register_as_ledger, cut_keeps, store_keeps};
ghost use Rattle.cad_register.specs.lemmas.RemainingLemmas.{remains_here, remains_then, fails_before};

use crate::register::Register;
use cad_versions::{Command, Ledger, RegisterFault, Version};
use sqlite::Alter;

impl<S: Alter> Ledger for Register<S> {
    ghost stands_for = { (register_as_ledger S.Store).stands_for };

    ghost counts = { (register_as_ledger S.Store).counts };

    ghost lives = { (register_as_ledger S.Store).lives };

    ghost fails = { (register_as_ledger S.Store).fails };

    ghost newest = { (register_as_ledger S.Store).newest };

    ghost fails_to_apply = { (register_as_ledger S.Store).fails_to_apply };

    ghost fails_to_list = { (register_as_ledger S.Store).fails_to_list };

    ghost refuses_command = { (register_as_ledger S.Store).refuses_command };

    ghost refuses_listing = { (register_as_ledger S.Store).refuses_listing };

    ghost damaged_for_command = { (register_as_ledger S.Store).damaged_for_command };

    ghost damaged_for_listing = { (register_as_ledger S.Store).damaged_for_listing };

    ghost remains = { (register_as_ledger S.Store).remains };

    ghost apply_keeps = { cut_keeps };

    ghost list_keeps = { λ _ _. store_keeps };

    ghost were_accepted = { λ _ _ of. of.stands.accepted };

    ghost remains_here = { remains_here _ };

    ghost remains_then = { remains_then _ };

    ghost fails_before = { fails_before _ };

    fn revision(&self) -> u64 {
        Register::revision(self)
    }

    fn apply(&mut self, command: Command) -> Result<u64, RegisterFault> {
        Register::apply(self, command)
    }

    fn check(&mut self, command: &Command) -> Result<u64, RegisterFault> {
        Register::check(self, command)
    }

    fn as_of(&mut self, revision: u64) -> Result<Vec<Version>, RegisterFault> {
        Register::as_of(self, revision)
    }
}

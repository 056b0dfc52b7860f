//! A land register as a ledger that gives its commands back.

ghost use Rattle.cad_register.specs.JournalReading.{HasRead, behind_of as reading_behind, newest_of as reading_newest, rows_left as reading_left};
ghost use Rattle.cad_register.specs.Ledgers.{RefusesReading, DamagedForReading, store_keeps};
ghost use Rattle.cad_register.specs.Stands.{IsStoreFault};

use crate::journal_reading::JournalReading;
use crate::laws;
use crate::register::Register;
use cad_versions::{Command, JournalLedger, RegisterFault};
use sqlite::Alter;
use std::alloc::Global;

impl<S: Alter> JournalLedger for Register<S> {
    type Reading = JournalReading;

    ghost has_read = { HasRead };

    ghost behind_of = { reading_behind };

    ghost newest_of = { reading_newest };

    ghost rows_left = { reading_left };

    ghost fails_to_read = { λ _. IsStoreFault };

    ghost refuses_reading = { RefusesReading S.Store };

    ghost damaged_for_reading = { DamagedForReading S.Store };

    ghost read_keeps = { λ _. store_keeps };

    ghost readings_are_within = { λ _ _ has. (has.behind, has.newest) };

    fn begin_journal(&self, behind: u64) -> Result<JournalReading, RegisterFault> {
        Register::begin_journal(self, behind)
    }

    fn read_on(&mut self, reading: &mut JournalReading, most: u32) -> Result<bool, RegisterFault> {
        Register::read_on(self, reading, most)
    }

    fn commands(reading: JournalReading, _alloc: Global) -> Result<Vec<Command>, RegisterFault> {
        reading.commands()
    }

    fn readings_stay() {
        laws::readings_stay();
    }
}

//! The register of a list of commands.

use crate::asking::{commands_behind, entries_of, store_fault, versions_between, versions_of};
use crate::changing::{enact, next_number};
use crate::decision::decide;
use crate::journal_reading::JournalReading;
use cad_tables::{Creation, MOST_REVISION};
use cad_versions::{Command, RegisterFault, StoredVersion, Version};
use sqlite::{Alter, Connection};
use std::alloc::Global;

/// How many commands were accepted.
pub type Revision = u64;

/// The register, over any store of `sqlite`.
pub struct Register<S: Alter> {
    connection: Connection<S>,
    revision: u32,
    alloc: Global,
}

impl<S: Alter + Drop> Drop for Register<S> {
    fn drop(self) {
        let Register {
            connection: _,
            revision: _,
            alloc: _,
        } = self;
    }
}

impl<S: Alter> Register<S> {
    ghost use Rattle.std.specs.Prelude.{◌≡◌, ◌≢◌, ◌≤◌, ◌<◌, ◌+◌, ◌++◌, Err, None, ◌∷◌, [], List, length, map, drop, pos, IfOk, IfErr, OnOk, OnErr};
    ghost use Rattle.sqlite.specs.State.{HasCleanDisk, FailsToQuery};
    ghost use Rattle.sqlite.specs.declared.error.Error.{Error};
    ghost use Rattle.sqlite_value.specs.declared.value.Value.TheVariants.{Int};
    ghost use Rattle.cad_tables.specs.Texts.{listing_text, range_text};
    ghost use Rattle.cad_versions.specs.declared.command.Command.{Command as CommandOf};
    ghost use Rattle.cad_versions.specs.Keeping.{IsAnswered, IsOfTheRegister};
    ghost use Rattle.cad_versions.specs.Versions.{versions};
    ghost use Rattle.cad_versions.specs.Refusals.{refusal};
    ghost use Rattle.cad_versions.specs.AsOf.{all_entries, as_of as register_as_of};
    ghost use Rattle.cad_versions.specs.Entries.{version_in};
    ghost use Rattle.cad_versions.specs.Listing.{IsListing};
    ghost use Rattle.cad_register.specs.Damage.{ReadsRows, ReadsStored};
    ghost use Rattle.cad_register.specs.JournalRows.{GivesJournal, IsJournalFault};
    ghost use Rattle.cad_register.specs.JournalReading.{HasRead, HasReadOn, ReadsOn, Begins, rows_read, next_place, is_whole};
    ghost use Rattle.cad_register.specs.Keeping.{Keeps};
    ghost use Rattle.cad_register.specs.Leaving.{IsLater};
    ghost use Rattle.cad_register.specs.Opening.{Created, Opened, OpenedOrCreated};
    ghost use Rattle.cad_register.specs.Stands.{IsStoreFault, IsReadingFault};
    ghost use Rattle.cad_register.specs.Naming.{NamesFirst};
    ghost use Rattle.cad_register.specs.Refusing.{IsForCommand, IsNotForMemory, RefusesQuestion, RefusesToApply, command_questions};
    ghost use Rattle.cad_register.specs.Surviving.{Leaves, LeavesEither};
    ghost use Rattle.cad_register.specs.Registers.{connection_of, state_of, revision_of, IsRegisterOf, Remains, IsRefused};

    /// Gives the connection back.
    pub fn release(self) -> Connection<S>
        ensures { result ≡ connection_of self }
    {
        let Register {
            connection,
            revision: _,
            alloc: _,
        } = self;
        connection
    }

    /// How many commands were accepted.
    pub fn revision(&self) -> Revision
        ensures { result ≡ revision_of self.now }
    {
        u64::from(self.revision)
    }

    /// The register of no commands, in a database that has neither a table `state` nor a table `version`. A refusal, such as `NotARegister`
    /// if it has one of them, gives the connection back.
    pub fn create(
        alloc: Global,
        connection: Connection<S>,
    ) -> Result<Register<S>, (RegisterFault, Connection<S>)>
        ensures { Created S.Store connection result }
    {
        let mut connection = connection;
        match cad_tables::create(&mut connection) {
            Ok(Creation::Made) => Ok(Register {
                connection,
                revision: 0,
                alloc,
            }),
            Ok(Creation::AlreadyExists) => Err((RegisterFault::NotARegister, connection)),
            Err(fault) => Err((store_fault(fault), connection)),
        }
    }

    /// The register that the database holds. A refusal gives the connection back. It is `NotARegister` if a table, a column or the row of
    /// `state` is missing, or if that row has another format or a revision that is never stored.
    pub fn open(
        alloc: Global,
        connection: Connection<S>,
    ) -> Result<Register<S>, (RegisterFault, Connection<S>)>
        ensures { Opened S.Store connection result }
    {
        let mut connection = connection;
        match cad_tables::open(&mut connection) {
            Ok(Some(revision)) => Ok(Register {
                connection,
                revision,
                alloc,
            }),
            Ok(None) => Err((RegisterFault::NotARegister, connection)),
            Err(fault) => Err((store_fault(fault), connection)),
        }
    }

    /// The register of a database, which is made if the database has neither a table `state` nor a table `version`. A refusal gives the
    /// connection back.
    pub fn open_or_create(
        alloc: Global,
        connection: Connection<S>,
    ) -> Result<Register<S>, (RegisterFault, Connection<S>)>
        ensures { OpenedOrCreated S.Store connection result }
    {
        match Register::create(alloc, connection) {
            Ok(register) => Ok(register),
            Err((fault, connection)) => match fault {
                RegisterFault::NotARegister => Register::open(alloc, connection),
                fault => Err((fault, connection)),
            },
        }
    }

    /// The versions at a revision, by object and number. A closing of a later revision is not seen.
    pub fn as_of(&mut self, revision: Revision) -> Result<Vec<Version>, RegisterFault>
        ensures shown { HasCleanDisk (state_of S.Store self.new) → IfOk result (λ versions.
            (commands : List CommandOf) → IsRegisterOf S.Store self.old commands →
            versions.items ≡ register_as_of revision commands) }
        // No matter what the disk returns.
        ensures ascending { IfOk result (λ versions. IsListing versions.items) }
        ensures beyond { revision_of self.old < revision →
            result ≡ Err RegisterFault.UnknownRevision }
        ensures within { revision ≤ revision_of self.old →
            result ≢ Err RegisterFault.UnknownRevision }
        ensures cause { HasCleanDisk (state_of S.Store self.new) → IfErr result (λ fault.
            (commands : List CommandOf) → IsRegisterOf S.Store self.old commands →
            revision ≤ length commands → IsStoreFault fault) }
        // No matter what the disk returns.
        ensures named { IfErr result (λ fault. fault ≢ RegisterFault.UnknownRevision →
            IsReadingFault fault) }
        // No matter what the disk returns, only sound rows are listed, and the damaged row is the first that breaks a rule.
        ensures read { ReadsRows (state_of S.Store self.old) (state_of S.Store self.new) revision (revision_of self.old) result }
        // Unless the database or memory is the cause of a refusal, it shows the same as before, with the same limit of steps, and no fault
        // of the disk is forgotten.
        ensures still { HasCleanDisk (state_of S.Store self.new) →
            IsAnswered result → Remains S.Store self.old self.new }
        ensures store { HasCleanDisk (state_of S.Store self.new) →
            result ≡ Err RegisterFault.Store → (e : Error) × IsNotForMemory e ×
            FailsToQuery listing_text (Int (pos revision) ∷ []) (state_of S.Store self.old) (state_of S.Store self.new) e }
        ensures kept { HasCleanDisk (state_of S.Store self.new) →
            OnOk result ((commands : List CommandOf) → IsRegisterOf S.Store self.old commands →
            IsRegisterOf S.Store self.new commands) }
        ensures keeps { Keeps S.Store Leaves self.old self.new result }
        // For any result, the limit of steps is the same, and no fault of the disk is forgotten.
        ensures later { IsLater (state_of S.Store self.old) (state_of S.Store self.new) }
    {
        if u64::from(self.revision) < revision {
            return Err(RegisterFault::UnknownRevision);
        }
        let newest = self.revision;
        versions_of(self.alloc, &mut self.connection, revision as u32, newest)
    }

    /// All versions as they are stored, by object and number. A damaged row is found as it is in the versions at the newest revision.
    pub fn stored_versions(&mut self) -> Result<Vec<StoredVersion>, RegisterFault>
        ensures shown { HasCleanDisk (state_of S.Store self.new) → IfOk result (λ found.
            (commands : List CommandOf) → IsRegisterOf S.Store self.old commands →
            found.items ≡ all_entries commands) }
        // No matter what the disk returns.
        ensures ascending { IfOk result (λ found. IsListing (map version_in found.items)) }
        ensures cause { HasCleanDisk (state_of S.Store self.new) → IfErr result (λ fault.
            (commands : List CommandOf) → IsRegisterOf S.Store self.old commands → IsStoreFault fault) }
        // No matter what the disk returns.
        ensures named { IfErr result IsReadingFault }
        // No matter what the disk returns, only sound rows are listed, and the damaged row is the first that breaks a rule.
        ensures read { ReadsStored (state_of S.Store self.old) (state_of S.Store self.new) (revision_of self.old) result }
        // Unless the database or memory is the cause of a refusal, it shows the same as before, with the same limit of steps, and no fault
        // of the disk is forgotten.
        ensures still { HasCleanDisk (state_of S.Store self.new) →
            IsAnswered result → Remains S.Store self.old self.new }
        ensures store { HasCleanDisk (state_of S.Store self.new) →
            result ≡ Err RegisterFault.Store → (e : Error) × IsNotForMemory e ×
            FailsToQuery listing_text (Int (pos (revision_of self.old)) ∷ []) (state_of S.Store self.old) (state_of S.Store self.new) e }
        ensures same { HasCleanDisk (state_of S.Store self.new) →
            OnOk result ((commands : List CommandOf) → IsRegisterOf S.Store self.old commands →
            IsRegisterOf S.Store self.new commands) }
        ensures keeps { Keeps S.Store Leaves self.old self.new result }
        // For any result, the limit of steps is the same, and no fault of the disk is forgotten.
        ensures later { IsLater (state_of S.Store self.old) (state_of S.Store self.new) }
    {
        let newest = self.revision;
        entries_of(self.alloc, &mut self.connection, newest)
    }

    /// The commands after a revision, in their order: those that were accepted since, and no others.
    ///
    /// If sound rows show no command of some revision, the result is `NotARegister`. Only a file that another program wrote has such rows.
    pub fn journal(&mut self, behind: Revision) -> Result<Vec<Command>, RegisterFault>
        ensures given { HasCleanDisk (state_of S.Store self.new) → IfOk result (λ journal.
            (commands : List CommandOf) → IsRegisterOf S.Store self.old commands →
            journal.items ≡ drop behind commands) }
        ensures beyond { revision_of self.old < behind →
            result ≡ Err RegisterFault.UnknownRevision }
        ensures within { behind ≤ revision_of self.old →
            result ≢ Err RegisterFault.UnknownRevision }
        ensures cause { HasCleanDisk (state_of S.Store self.new) → IfErr result (λ fault.
            (commands : List CommandOf) → IsRegisterOf S.Store self.old commands →
            behind ≤ length commands → IsStoreFault fault) }
        // No matter what the disk returns.
        ensures named { IfErr result (λ fault. fault ≢ RegisterFault.UnknownRevision →
            IsJournalFault fault) }
        // No matter what the disk returns, the rows that were read show these commands, or one of them is named.
        ensures read { behind ≤ revision_of self.old →
            GivesJournal (state_of S.Store self.old) (state_of S.Store self.new) behind (revision_of self.old) result }
        // It shows the same as before, with the same limit of steps, and no fault of the disk is forgotten.
        ensures still { HasCleanDisk (state_of S.Store self.new) →
            OnOk result (Remains S.Store self.old self.new) }
        ensures store { HasCleanDisk (state_of S.Store self.new) →
            result ≡ Err RegisterFault.Store → (e : Error) × IsNotForMemory e ×
            FailsToQuery listing_text (Int (pos (revision_of self.old)) ∷ []) (state_of S.Store self.old) (state_of S.Store self.new) e }
        ensures kept { HasCleanDisk (state_of S.Store self.new) →
            OnOk result ((commands : List CommandOf) → IsRegisterOf S.Store self.old commands →
            IsRegisterOf S.Store self.new commands) }
        ensures keeps { Keeps S.Store Leaves self.old self.new result }
        // For any result, the limit of steps is the same, and no fault of the disk is forgotten.
        ensures later { IsLater (state_of S.Store self.old) (state_of S.Store self.new) }
    {
        if u64::from(self.revision) < behind {
            return Err(RegisterFault::UnknownRevision);
        }
        let last = self.revision;
        commands_behind(self.alloc, &mut self.connection, behind as u32, last)
    }

    /// Begins to read the commands after a revision, up to the newest. No row is read yet.
    pub fn begin_journal(&self, behind: Revision) -> Result<JournalReading, RegisterFault>
        ensures begun { IfOk result (Begins behind (revision_of self.now)) }
        ensures holds { IfOk result (λ reading. (commands : List CommandOf) → IsRegisterOf S.Store self.now commands →
            HasRead commands reading) }
        ensures beyond { revision_of self.now < behind →
            result ≡ Err RegisterFault.UnknownRevision }
        ensures within { IfErr result (λ fault. behind ≤ revision_of self.now →
            fault ≡ RegisterFault.Memory) }
    {
        if u64::from(self.revision) < behind {
            return Err(RegisterFault::UnknownRevision);
        }
        let reading = JournalReading::begin(self.alloc, behind as u32, self.revision)?;
        Ok(reading)
    }

    /// Reads the next rows of a journal, at most `most`, and returns whether all were read. Commands may have been accepted since the last
    /// rows were read.
    pub fn read_on(
        &mut self,
        reading: &mut JournalReading,
        most: u32,
    ) -> Result<bool, RegisterFault>
        ensures given { HasCleanDisk (state_of S.Store self.new) → OnOk result
            ((commands : List CommandOf) → IsRegisterOf S.Store self.old commands → HasRead commands reading.old →
            HasRead commands reading.new) }
        ensures on { OnOk result (HasReadOn most reading.old reading.new) }
        ensures whole { IfOk result (λ whole. whole ≡ is_whole reading.new) }
        ensures refused { OnErr result (reading.new ≡ reading.old) }
        ensures cause { HasCleanDisk (state_of S.Store self.new) → IfErr result (λ fault.
            (commands : List CommandOf) → IsRegisterOf S.Store self.old commands → IsStoreFault fault) }
        // No matter what the disk returns.
        ensures named { IfErr result IsReadingFault }
        // No matter what the disk returns, the reading holds what the rows that were read show, or the first of them that is damaged is named.
        ensures read { ReadsOn (state_of S.Store self.old) (state_of S.Store self.new) (revision_of self.old) most reading.old reading.new result }
        // It shows the same as before, with the same limit of steps, and no fault of the disk is forgotten.
        ensures still { HasCleanDisk (state_of S.Store self.new) →
            OnOk result (Remains S.Store self.old self.new) }
        ensures store { HasCleanDisk (state_of S.Store self.new) →
            result ≡ Err RegisterFault.Store → (e : Error) × IsNotForMemory e ×
            FailsToQuery range_text (Int (pos (rows_read reading.old)) ∷ Int (pos (next_place most reading.old)) ∷ []) (state_of S.Store self.old) (state_of S.Store self.new) e }
        ensures kept { HasCleanDisk (state_of S.Store self.new) →
            OnOk result ((commands : List CommandOf) → IsRegisterOf S.Store self.old commands →
            IsRegisterOf S.Store self.new commands) }
        ensures keeps { Keeps S.Store Leaves self.old self.new result }
        // For any result, the limit of steps is the same, and no fault of the disk is forgotten.
        ensures later { IsLater (state_of S.Store self.old) (state_of S.Store self.new) }
    {
        let newest = self.revision;
        let place = reading.next_place(most);
        let versions = versions_between(
            self.alloc,
            &mut self.connection,
            reading.place(),
            place,
            newest,
        )?;
        reading.note(versions, place);
        Ok(reading.is_whole())
    }

    /// What `apply` would answer to the command, which is not entered. If the command would be accepted, a refusal by the database when it
    /// is written cannot be foreseen.
    pub fn check(&mut self, command: &Command) -> Result<Revision, RegisterFault>
        ensures accepted { HasCleanDisk (state_of S.Store self.new) → IfOk result (λ revision.
            (commands : List CommandOf) → IsRegisterOf S.Store self.old commands →
            (refusal (versions commands) command.now ≡ None) × (revision ≡ length commands + 1)) }
        ensures refused { HasCleanDisk (state_of S.Store self.new) → IfErr result (λ fault.
            (commands : List CommandOf) → IsRegisterOf S.Store self.old commands →
            IsRefused commands command.now fault) }
        // No matter what the disk returns.
        ensures named { result ≢ Err RegisterFault.UnknownRevision }
        // No matter what the disk returns, a row that is named is the first of those asked for that breaks a rule.
        ensures damaged { IfErr result
            (NamesFirst S.Store (connection_of self.old) (connection_of self.new) (command_questions command.now (revision_of self.old))) }
        // Unless the database or memory is the cause of a refusal, it shows the same as before, with the same limit of steps, and no fault
        // of the disk is forgotten.
        ensures still { HasCleanDisk (state_of S.Store self.new) →
            IsAnswered result → Remains S.Store self.old self.new }
        // What the database itself refused: a question for the current state.
        ensures store { HasCleanDisk (state_of S.Store self.new) →
            result ≡ Err RegisterFault.Store → (commands : List CommandOf) →
            IsRegisterOf S.Store self.old commands →
            RefusesQuestion S.Store (connection_of self.old) (connection_of self.new) (IsForCommand command.now (length commands)) }
        ensures kept { HasCleanDisk (state_of S.Store self.new) →
            OnOk result ((commands : List CommandOf) → IsRegisterOf S.Store self.old commands →
            IsRegisterOf S.Store self.new commands) }
        ensures keeps { Keeps S.Store Leaves self.old self.new result }
        // For any result, the limit of steps is the same, and no fault of the disk is forgotten.
        ensures later { IsLater (state_of S.Store self.old) (state_of S.Store self.new) }
    {
        let decided = decide(self.alloc, &mut self.connection, self.revision, command);
        if let Err(fault) = decided {
            return Err(fault);
        }
        if self.revision >= MOST_REVISION {
            return Err(RegisterFault::NotARegister);
        }
        Ok(u64::from(self.revision + 1))
    }

    /// Makes the next revision of the register, or changes nothing. A register of 4,294,967,294 commands accepts no more, and refuses as
    /// `NotARegister`. After `Store`, a register in a file is to be opened again.
    pub fn apply(&mut self, command: Command) -> Result<Revision, RegisterFault>
        ensures accepted { HasCleanDisk (state_of S.Store self.new) → IfOk result (λ revision.
            (commands : List CommandOf) → IsRegisterOf S.Store self.old commands →
            (refusal (versions commands) command ≡ None) × (revision ≡ length commands + 1) ×
            IsRegisterOf S.Store self.new (commands ++ command ∷ [])) }
        ensures refused { HasCleanDisk (state_of S.Store self.new) → IfErr result (λ fault.
            (commands : List CommandOf) → IsRegisterOf S.Store self.old commands →
            IsRefused commands command fault) }
        // No matter what the disk returns.
        ensures named { result ≢ Err RegisterFault.UnknownRevision }
        // No matter what the disk returns, a row that is named is the first of those asked for that breaks a rule.
        ensures damaged { IfErr result
            (NamesFirst S.Store (connection_of self.old) (connection_of self.new) (command_questions command (revision_of self.old))) }
        // What the database itself refused: a question for the current state, a statement of the change or its commit.
        ensures store { HasCleanDisk (state_of S.Store self.new) →
            result ≡ Err RegisterFault.Store → (commands : List CommandOf) →
            IsRegisterOf S.Store self.old commands →
            RefusesToApply S.Store (connection_of self.old) (connection_of self.new) command (length commands) }
        // After another refusal, it shows the same as before, with the same limit of steps, and no fault of the disk is forgotten.
        ensures still { HasCleanDisk (state_of S.Store self.new) →
            IfErr result (λ fault. IsOfTheRegister fault → Remains S.Store self.old self.new) }
        ensures keeps { Keeps S.Store (LeavesEither command) self.old self.new result }
        // What an open after a crash may find once the revision is returned.
        ensures durable { HasCleanDisk (state_of S.Store self.new) →
            OnOk result ((commands : List CommandOf) → IsRegisterOf S.Store self.old commands →
            Leaves (state_of S.Store self.new) (commands ++ command ∷ [])) }
        // For any result, the limit of steps is the same, and no fault of the disk is forgotten.
        ensures later { IsLater (state_of S.Store self.old) (state_of S.Store self.new) }
    {
        let decided = decide(self.alloc, &mut self.connection, self.revision, &command);
        let count = match decided {
            Ok(count) => count,
            Err(fault) => {
                drop(command);
                return Err(fault);
            }
        };
        if self.revision >= MOST_REVISION {
            drop(command);
            return Err(RegisterFault::NotARegister);
        }
        let revision = self.revision + 1;
        enact(
            self.alloc,
            &mut self.connection,
            command,
            next_number(count),
            revision,
        )?;
        self.revision = revision;
        Ok(u64::from(revision))
    }
}

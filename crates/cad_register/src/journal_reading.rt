//! A journal that is read in pieces, between which the register accepts commands.

ghost use Rattle.std.specs.Prelude.{◌≡◌, ◌≤◌, ◌++◌, ◌-◌, IsTrue, ℕ, List, map, take, drop, IfOk, IfErr};
ghost use Rattle.cad_versions.specs.declared.command.Command.{Command as CommandOf};
ghost use Rattle.cad_versions.specs.Entries.{Entry};
ghost use Rattle.cad_register.specs.StoredVersions.{entry_of};
ghost use Rattle.cad_register.specs.inner.Gathering.{Gathers};

use crate::gathering::Gathering;
use crate::journal::commands_in;
use crate::stored_version::StoredVersion;
use cad_versions::{Command, RegisterFault};
use std::alloc::{AllocError, Global};

/// The commands after a revision, up to the revision that was the newest when the reading began, as far as the rows that were read show
/// them.
///
/// `Register::begin_journal` makes it, `Register::read_on` reads the next rows, and `commands` gives the commands once all rows were read.
#[derive(Drop)]
pub struct JournalReading {
    gathering: Gathering,
    read: u32,
    newest: u32,
}

/// Notes versions, one after the other.
fn note_all(gathering: &mut Gathering, versions: Vec<StoredVersion>)
    ensures behind { gathering.new.behind ≡ gathering.old.behind }
    ensures notes { (behind count : ℕ) (entries : List Entry) → Gathers behind count entries gathering.old →
        Gathers behind count (entries ++ map entry_of versions.items) gathering.new }
{
    for version in versions {
        version.note_in(gathering);
    }
}

impl JournalReading {
    ghost use Rattle.cad_register.specs.JournalReading.{rows_read, behind_of, newest_of, commands_held, is_whole as is_read_whole, next_place as place_after, HasRead, HasNoted, Begins, GivesHeld};

    /// A reading of the commands after the revision `behind`, up to `newest`. No row was read yet.
    pub(crate) fn begin(
        alloc: Global,
        behind: u32,
        newest: u32,
    ) -> Result<JournalReading, AllocError>
        requires { behind ≤ newest }
        ensures { IfOk result (Begins behind newest) }
    {
        let gathering = Gathering::new(alloc, behind, newest - behind)?;
        Ok(JournalReading {
            gathering,
            read: 0,
            newest,
        })
    }

    /// The last revision whose command it gives: the newest when it began.
    pub fn newest(&self) -> u64
        ensures { result ≡ newest_of self.now }
    {
        u64::from(self.newest)
    }

    /// Whether all rows were read that may show one of the commands.
    pub fn is_whole(&self) -> bool
        ensures { result ≡ is_read_whole self.now }
    {
        self.newest <= self.read
    }

    /// The place of the last row that was read, or 0 if none was.
    pub(crate) fn place(&self) -> u32
        ensures { result ≡ rows_read self.now }
    {
        self.read
    }

    /// The place up to which the next rows are read, at most `most` rows.
    pub(crate) fn next_place(&self, most: u32) -> u32
        ensures { result ≡ place_after most self.now }
    {
        if self.newest <= self.read || most >= self.newest - self.read {
            self.newest
        } else {
            self.read + most
        }
    }

    /// Notes the versions of the next rows, up to this place.
    pub(crate) fn note(&mut self, versions: Vec<StoredVersion>, place: u32)
        ensures { HasNoted (map entry_of versions.items) place self.old self.new }
    {
        note_all(&mut self.gathering, versions);
        self.read = place;
    }

    /// The commands, once all rows were read.
    ///
    /// If sound rows show no command of some revision, the result is `NotARegister`. Only a file that another program wrote has such rows.
    pub fn commands(self) -> Result<Vec<Command>, RegisterFault>
        requires { IsTrue (is_read_whole self) }
        ensures given { IfOk result (λ journal. (commands : List CommandOf) → HasRead commands self →
            journal.items ≡ drop (behind_of self) (take (newest_of self) commands)) }
        ensures cause { IfErr result (λ fault. (commands : List CommandOf) → HasRead commands self →
            fault ≡ RegisterFault.Memory) }
        // No matter what the disk returned.
        ensures held { GivesHeld (commands_held self) result }
    {
        let JournalReading {
            gathering,
            read: _,
            newest: _,
        } = self;
        commands_in(gathering)
    }
}

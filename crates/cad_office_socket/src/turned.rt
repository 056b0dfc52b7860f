//! The results of turns of the land office's connection.

ghost use Rattle.std.specs.Prelude.{◌≡◌};
ghost use Rattle.cad_office_socket.specs.Serving.{end_at as end_at_of};

use crate::status::Status;
use cad_dry_run::Report;
use cad_office::Answer;
use cad_versions::RegisterFault;

/// The result of a turn.
#[derive(Debug, Drop)]
pub enum EntryTurned {
    /// Bytes were written.
    Wrote,
    /// Bytes were read.
    Took,
    /// Bytes were added to a line that continues, or an empty line ended, which asks for nothing.
    Added,
    /// A line was answered, and its answer is to be written.
    Answered(Answer),
    /// A line was answered, and there is no memory for the text of its answer: nothing more is written to the office.
    Lost(Answer),
    /// A line `check LINE` was answered by what LINE would be answered, and this is to be written.
    Checked(Report),
    /// The same, and there is no memory for the text: nothing more is written to the office.
    CheckLost(Report),
    /// A line `status` was answered by this, and it is to be written.
    StatusAnswered(Status),
    /// The same, and there is no memory for the text: nothing more is written to the office.
    StatusLost,
    /// A line `journal N` was read: the commands after the revision N follow, or a refusal. A number above 10^18 counts as
    /// 10^18.
    JournalBegun(u64),
    /// Rows of the journal were read.
    RowsRead,
    /// The desk refused to read rows, and this is to be written.
    RowsRefused(RegisterFault),
    /// The same, and there is no memory for the text: nothing more is written to the office.
    RowsLost(RegisterFault),
    /// The next piece of the journal is to be written: lines, or why there are none.
    Piece,
    /// There is no memory for the text: nothing more is written to the office.
    PieceLost,
    /// The line `stop` was read.
    Stops,
    /// The socket gives or takes nothing for now.
    Waits,
    /// The office sends no more, or a read or a write failed, or there is no memory for what was read.
    Over,
}

/// The result of serving the office.
#[derive(Clone, Copy, Debug, PartialEq, Eq)]
pub enum EntryServed {
    /// The office may continue at once.
    Goes,
    /// Its socket gives or takes nothing for now.
    Waits,
    /// Its connection is over.
    Over,
    /// It asked to stop.
    Stops,
    /// The register's database refused a command. The answer that reports this, if there was memory for it, is to be written.
    StoreRefused,
}

/// How a turn ends the serving of the office, if it does.
pub(crate) fn end_at(turned: &EntryTurned) -> Option<EntryServed>
    ensures { result ≡ end_at_of turned.now }
{
    match turned {
        EntryTurned::Answered(Answer::Refused(RegisterFault::Store))
        | EntryTurned::Lost(Answer::Refused(RegisterFault::Store))
        | EntryTurned::Checked(Report::Refused(RegisterFault::Store))
        | EntryTurned::CheckLost(Report::Refused(RegisterFault::Store))
        | EntryTurned::RowsRefused(RegisterFault::Store)
        | EntryTurned::RowsLost(RegisterFault::Store) => Some(EntryServed::StoreRefused),
        EntryTurned::Wrote
        | EntryTurned::Took
        | EntryTurned::Added
        | EntryTurned::Answered(_)
        | EntryTurned::Checked(_)
        | EntryTurned::StatusAnswered(_)
        | EntryTurned::JournalBegun(_)
        | EntryTurned::RowsRead
        | EntryTurned::RowsRefused(_)
        | EntryTurned::Piece => None,
        EntryTurned::Lost(_)
        | EntryTurned::CheckLost(_)
        | EntryTurned::StatusLost
        | EntryTurned::RowsLost(_)
        | EntryTurned::PieceLost
        | EntryTurned::Over => Some(EntryServed::Over),
        EntryTurned::Stops => Some(EntryServed::Stops),
        EntryTurned::Waits => Some(EntryServed::Waits),
    }
}

//! How much of a journal an office got: first its rows are read, some in a turn, and then its lines are written, some in a turn.

ghost use Rattle.std.specs.Prelude.{◌≤◌};

use cad_office::JournalLines;
use cad_versions::RegisterFault;

/// A request for the commands after a revision, as far as their rows were read.
#[derive(Drop)]
pub struct JournalRequest<J> {
    /// At most 10^18.
    pub(crate) behind: u64,
    pub(crate) reading: J,
    pub ghost bound: { behind ≤ 1000000000000000000 },
}

/// How much of a journal an office got.
#[derive(Drop)]
pub enum JournalState<J> {
    /// It requested none, or got all.
    Idle,
    /// Why it gets none.
    Rejected(RegisterFault),
    /// The rows are read.
    Reading(JournalRequest<J>),
    /// The lines are written.
    Writing(JournalLines),
}

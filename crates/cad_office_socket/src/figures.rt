//! What a service did since its start, in numbers.

ghost use Rattle.std.specs.Prelude.{◌≡◌};
ghost use Rattle.cad_office_socket.specs.Counting.{commands_answered, count_if as count_if_of, figures_after, figures_replied, figures_with_client, figures_with_work, lined, looked, one_more as one_more_of, replies_after, work_reported, worked};

use crate::turned::EntryTurned;
use cad_office::Answer;

/// The clients.
#[derive(Clone, Copy, Debug, Default, PartialEq, Eq)]
pub struct ClientCounts {
    /// How many are connected.
    pub connected: u64,
    /// How many were connected so far, those that are included.
    pub all: u64,
}

/// The replies to them by their statuses.
#[derive(Clone, Copy, Debug, Default, PartialEq, Eq)]
pub struct ReplyCounts {
    /// 200.
    pub ok: u64,
    /// 400.
    pub bad_request: u64,
    /// 404.
    pub not_found: u64,
    /// 405.
    pub method_not_allowed: u64,
    /// 500.
    pub internal_error: u64,
    /// 503.
    pub unavailable: u64,
}

/// The lines of the land office that were answered as commands.
#[derive(Clone, Copy, Debug, Default, PartialEq, Eq)]
pub struct CommandCounts {
    /// Those that were answered by a revision.
    pub accepted: u64,
    /// Those that were refused, or are no command.
    pub refused: u64,
}

/// The work for replies that take more than a first piece.
#[derive(Clone, Copy, Debug, Default, PartialEq, Eq)]
pub struct WorkCounts {
    /// How many of these replies are worked on in turn.
    pub in_turn: u64,
    /// How many wait until one of those is made.
    pub waiting: u64,
    /// How many later pieces of work were made since the start.
    pub pieces: u64,
    /// The longest time between two looks at the network since the last status, in microseconds.
    pub longest_micros: u64,
}

/// What a service did since its start, in numbers.
#[derive(Clone, Copy, Debug, Default, PartialEq, Eq)]
pub struct Figures {
    /// The clients.
    pub clients: ClientCounts,
    /// The replies to them.
    pub replies: ReplyCounts,
    /// How many bytes these replies have.
    pub reply_bytes: u64,
    /// The lines of the land office.
    pub commands: CommandCounts,
    /// How many bytes of memory the program occupies, as it was found last; 0 if it is not known.
    pub resident_bytes: u64,
    /// The seconds since the start.
    pub seconds: u64,
    /// The work for replies.
    pub work: WorkCounts,
}

/// One more, up to the largest number.
fn one_more(count: u64) -> u64
    ensures { result ≡ one_more_of count }
{
    count.saturating_add(1)
}

/// One more, if the status is this one.
fn count_if(of: u64, status: u64, count: u64) -> u64
    ensures { result ≡ count_if_of of status count }
{
    if status == of { one_more(count) } else { count }
}

impl ReplyCounts {
    /// After one more reply with this status. One with another status is not counted.
    fn replied(self, status: u64) -> ReplyCounts
        ensures { result ≡ replies_after self status }
    {
        ReplyCounts {
            ok: count_if(200, status, self.ok),
            bad_request: count_if(400, status, self.bad_request),
            not_found: count_if(404, status, self.not_found),
            method_not_allowed: count_if(405, status, self.method_not_allowed),
            internal_error: count_if(500, status, self.internal_error),
            unavailable: count_if(503, status, self.unavailable),
        }
    }
}

impl CommandCounts {
    /// After one more answer.
    fn answered(self, answer: Answer) -> CommandCounts
        ensures { result ≡ commands_answered self answer }
    {
        match answer {
            Answer::Entered(_) => CommandCounts {
                accepted: one_more(self.accepted),
                refused: self.refused,
            },
            Answer::Refused(_) | Answer::NotACommand => CommandCounts {
                accepted: self.accepted,
                refused: one_more(self.refused),
            },
        }
    }
}

impl WorkCounts {
    /// After a status that reported the longest time: a new one begins.
    fn reported(self) -> WorkCounts
        ensures { result ≡ work_reported self }
    {
        WorkCounts {
            longest_micros: 0,
            ..self
        }
    }
}

impl Figures {
    fn with_commands(self, commands: CommandCounts) -> Figures
        ensures { result ≡ record { clients = self.clients; replies = self.replies; reply_bytes = self.reply_bytes; commands = commands; resident_bytes = self.resident_bytes; seconds = self.seconds; work = self.work } }
    {
        Figures { commands, ..self }
    }

    fn with_work(self, work: WorkCounts) -> Figures
        ensures { result ≡ figures_with_work self work }
    {
        Figures { work, ..self }
    }

    /// With so many replies that are worked on in turn, and so many that wait.
    pub fn with_line(self, in_turn: u64, waiting: u64) -> Figures
        ensures { result ≡ lined self in_turn waiting }
    {
        self.with_work(WorkCounts {
            in_turn,
            waiting,
            ..self.work
        })
    }

    /// After one more later piece of work.
    pub fn with_piece(self) -> Figures
        ensures { result ≡ worked self }
    {
        self.with_work(WorkCounts {
            pieces: one_more(self.work.pieces),
            ..self.work
        })
    }

    /// After one more look at the network, so many microseconds after the look before it.
    pub fn with_look(self, micros: u64) -> Figures
        ensures { result ≡ looked self micros }
    {
        self.with_work(WorkCounts {
            longest_micros: self.work.longest_micros.max(micros),
            ..self.work
        })
    }

    /// After one more client is connected.
    pub fn with_client(self) -> Figures
        ensures { result ≡ figures_with_client self }
    {
        Figures {
            clients: ClientCounts {
                connected: self.clients.connected,
                all: one_more(self.clients.all),
            },
            ..self
        }
    }

    /// After one more reply with this status and so many bytes.
    pub fn replied(self, status: u64, bytes: u64) -> Figures
        ensures { result ≡ figures_replied self status bytes }
    {
        Figures {
            replies: self.replies.replied(status),
            reply_bytes: self.reply_bytes.saturating_add(bytes),
            ..self
        }
    }

    /// After a turn of the land office. If a command was answered in it, this counts. After a status, a new longest time begins.
    pub fn with_turn(self, turned: &EntryTurned) -> Figures
        ensures { result ≡ figures_after self turned.now }
    {
        match turned {
            EntryTurned::Answered(answer) | EntryTurned::Lost(answer) => {
                self.with_commands(self.commands.answered(*answer))
            }
            EntryTurned::StatusAnswered(_) => self.with_work(self.work.reported()),
            EntryTurned::Wrote
            | EntryTurned::Took
            | EntryTurned::Added
            | EntryTurned::Checked(_)
            | EntryTurned::CheckLost(_)
            | EntryTurned::StatusLost
            | EntryTurned::JournalBegun(_)
            | EntryTurned::RowsRead
            | EntryTurned::RowsRefused(_)
            | EntryTurned::RowsLost(_)
            | EntryTurned::Piece
            | EntryTurned::PieceLost
            | EntryTurned::Stops
            | EntryTurned::Waits
            | EntryTurned::Over => self,
        }
    }
}

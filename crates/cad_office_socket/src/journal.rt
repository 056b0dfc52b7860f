//! Turns in which a journal is read or written.

ghost use Rattle.std.specs.Prelude.{◌≡◌, ◌≤◌, IfOk, IfErr};
ghost use Rattle.cad_office.specs.Answers.{printed};
ghost use Rattle.cad_office_socket.specs.Journals.{most_revision, Begins, IsWhole, IsRead, IsPiece, IsUnread, rest_of};

use crate::journal_state::{JournalRequest, JournalState};
use cad_desk::Desk;
use cad_io::WriteFailed;
use cad_office::{Answer, JournalLines, print_answer};
use cad_stream::JournalResponder;
use cad_versions::RegisterFault;
use std::alloc::{AllocError, Global};

/// The most rows of a turn.
const ROWS: u32 = 256;

/// Begins to read the commands after a revision.
pub(crate) fn begin<R: JournalResponder>(desk: &Desk<R>, behind: u64) -> JournalState<R::Reading>
    requires { behind ≤ most_revision }
    ensures { Begins R.Responder R.JournalResponder.own desk.now behind result }
{
    match desk.begin_journal(behind) {
        Ok(reading) => JournalState::Reading(JournalRequest { behind, reading }),
        Err(fault) => JournalState::Rejected(fault),
    }
}

/// The lines of the commands, once all rows were read.
fn lines_of<R: JournalResponder>(
    desk: &Desk<R>,
    asked: JournalRequest<R::Reading>,
) -> JournalState<R::Reading>
    requires { R.rows_left asked.reading ≡ 0 }
    ensures { IsWhole R.Responder R.JournalResponder.own asked.behind asked.reading result }
{
    let JournalRequest { behind, reading } = asked;
    match desk.journal(reading) {
        Ok(commands) => {
            let newest = behind + commands.len() as u64;
            JournalState::Writing(JournalLines::new(commands, newest))
        }
        Err(fault) => JournalState::Rejected(fault),
    }
}

/// Reads the next rows.
pub(crate) fn read_rows<R: JournalResponder>(
    desk: &mut Desk<R>,
    asked: JournalRequest<R::Reading>,
) -> Result<JournalState<R::Reading>, RegisterFault>
    ensures read { IfOk result (λ told. IsRead R.Responder R.JournalResponder.own desk.old asked desk.new told) }
    ensures unread { IfErr result (λ fault. IsUnread R.Responder R.JournalResponder.own desk.old asked fault desk.new) }
{
    let JournalRequest {
        behind,
        mut reading,
    } = asked;
    let is_whole = desk.read_on(&mut reading, ROWS)?;
    let asked = JournalRequest { behind, reading };
    Ok(if is_whole {
        lines_of(desk, asked)
    } else {
        JournalState::Reading(asked)
    })
}

/// The text of a refusal.
pub(crate) fn refusal_text(alloc: Global, fault: RegisterFault) -> Result<Vec<u8>, WriteFailed>
    ensures { IfOk result (λ bytes. bytes.items ≡ printed (Answer.Refused fault)) }
{
    let mut bytes = Vec::new(alloc);
    print_answer(&mut bytes, Answer::Refused(fault))?;
    Ok(bytes)
}

/// What is left after some of the lines.
fn rest<J: Drop>(lines: JournalLines) -> JournalState<J>
    ensures { result ≡ rest_of lines }
{
    if lines.is_done() {
        JournalState::Idle
    } else {
        JournalState::Writing(lines)
    }
}

/// The text of the next lines, and what is left after them.
pub(crate) fn next_lines<J: Drop>(
    alloc: Global,
    mut lines: JournalLines,
) -> Result<(Vec<u8>, JournalState<J>), AllocError>
    ensures { IfOk result (λ told. IsPiece (JournalState.Writing lines) told.0.items told.1) }
{
    let text = lines.next_piece(alloc)?;
    Ok((text.into_bytes(), rest(lines)))
}

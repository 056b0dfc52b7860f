//! Counting the replies that are made.

use cad_clients::{AccessLog, Ending, Served};
use cad_desk::DeskFault;
use cad_io::number;
use cad_office_socket::Figures;
use cad_serve::fixed_head;

/// What ends the head of a reply.
const HEAD_END: &[u8] = b"\r\n\r\n";

/// What the number of the bytes of its body follows.
const LENGTH: &[u8] = b"Content-Length: ";

/// The number of the bytes of the head at the front of these.
fn head_len(bytes: &[u8]) -> Option<usize> {
    let at = bytes
        .windows(HEAD_END.len())
        .position(|part| part == HEAD_END)?;
    at.checked_add(HEAD_END.len())
}

/// The number of the bytes of the body of a reply with this head.
fn body_len(head: &[u8]) -> Option<usize> {
    let at = head.windows(LENGTH.len()).position(|part| part == LENGTH)?;
    let digits = head.get(at.checked_add(LENGTH.len())?..)?;
    let count = digits
        .iter()
        .take_while(|byte| byte.is_ascii_digit())
        .count();
    let length = number(digits.get(..count)?)?;
    usize::try_from(length).ok()
}

/// The number of the bytes of the first of these replies.
fn first_len(replies: &[u8]) -> Option<usize> {
    let head = head_len(replies)?;
    head.checked_add(body_len(replies.get(..head)?)?)
}

/// Counts whole replies by their statuses.
fn after_replies(figures: Figures, replies: &[u8]) -> Figures {
    let mut counted = figures;
    let mut rest = replies;
    for _ in 0..replies.len() {
        let Some(length) = first_len(rest) else {
            return counted;
        };
        let (Some(status), Some(later)) = (rest.get(9..12), rest.get(length..)) else {
            return counted;
        };
        counted = counted.replied(number(status).unwrap_or(0), length as u64);
        rest = later;
    }
    counted
}

/// Counts the head that reports a fault.
pub(crate) fn after_fault(figures: Figures, fault: DeskFault) -> Figures {
    after_replies(figures, fixed_head(fault).as_bytes())
}

/// Counts a client, if a connection was opened for it, or else the head that reports why none was.
pub(crate) fn after_opening(figures: Figures, opened: Result<(), DeskFault>) -> Figures {
    match opened {
        Ok(()) => figures.with_client(),
        Err(fault) => after_fault(figures, fault),
    }
}

/// Counts the head that reports why a connection is over, if one does.
pub(crate) fn after_serving(figures: Figures, served: Served) -> Figures {
    match served {
        Served::Over(Ending::Refused(fault)) => after_fault(figures, fault),
        Served::Over(Ending::Unmade) => after_fault(figures, DeskFault::Memory),
        Served::Over(_) | Served::Stays | Served::Unknown => figures,
    }
}

/// A log that also counts the replies.
pub(crate) struct Counted<'a, L> {
    pub(crate) log: &'a mut L,
    pub(crate) figures: Figures,
}

impl<S, L: AccessLog<S>> AccessLog<S> for Counted<'_, L> {
    fn open(&mut self, c: u32, socket: &S) {
        self.log.open(c, socket);
    }

    fn note(&mut self, c: u32, piece: &[u8], reply: &[u8]) {
        self.figures = after_replies(self.figures, reply);
        self.log.note(c, piece, reply);
    }
}

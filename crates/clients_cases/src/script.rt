//! The lines, and what is printed for them.

use crate::hosted::put_hosted;
use crate::room::Room;
use crate::sockets::Sender;
use crate::steps::read_bytes;
use crate::world::Peer;
use cad_clients::{Ending, ROOM, Served};
use cad_office_socket::EntryTurned;
use std::alloc::AllocError;

/// A peer sends so many bytes `a`.
fn give_often(sender: &mut Sender, count: usize) -> Result<(), AllocError> {
    for _ in 0..count {
        sender.give(b"a")?;
    }
    Ok(())
}

/// Appends the text of bytes, in which `|` means LF, and CR is left out.
pub(crate) fn put_text(answer: &mut String, bytes: &[u8]) -> Result<(), AllocError> {
    for byte in bytes {
        match *byte {
            b'\n' => answer.push('|')?,
            b'\r' => {}
            byte => answer.push(char::from(byte))?,
        }
    }
    Ok(())
}

fn ending_name(ending: Ending) -> &'static str {
    match ending {
        Ending::PeerEnded => "PeerEnded",
        Ending::WeEnded => "WeEnded",
        Ending::Refused(_) => "Refused",
        Ending::Unmade => "Unmade",
        Ending::ReadFailed => "ReadFailed",
        Ending::WriteFailed => "WriteFailed",
    }
}

fn served_name(served: Served) -> &'static str {
    match served {
        Served::Stays => "stays",
        Served::Over(ending) => ending_name(ending),
        Served::Unknown => "unknown",
    }
}

fn turned_name(turned: EntryTurned) -> &'static str {
    match turned {
        EntryTurned::Wrote => "wrote",
        EntryTurned::Took => "took",
        EntryTurned::Added => "added",
        EntryTurned::Answered(_) => "answered",
        EntryTurned::Lost(_) => "lost",
        EntryTurned::Checked(_) => "checked",
        EntryTurned::JournalBegun(_) => "asked",
        EntryTurned::RowsRead => "read",
        EntryTurned::RowsRefused(_) | EntryTurned::RowsLost(_) => "unread",
        EntryTurned::Piece => "told",
        EntryTurned::PieceLost => "untold",
        EntryTurned::CheckLost(_) => "check lost",
        EntryTurned::StatusAnswered(_) => "status",
        EntryTurned::StatusLost => "status lost",
        EntryTurned::Stops => "stops",
        EntryTurned::Waits => "waits",
        EntryTurned::Over => "over",
    }
}

fn put_no_case(answer: &mut String) -> Result<(), AllocError> {
    answer.push_str("no case")
}

fn put_open(answer: &mut String, room: &mut Room) -> Result<(), AllocError> {
    match room.open() {
        Some(c) => write!(answer, "{c} opened"),
        None => answer.push_str("full"),
    }
}

/// Appends how serving ended, and what was written.
fn put_turn(
    answer: &mut String,
    ended: &str,
    sending: &str,
    written: &[u8],
) -> Result<(), AllocError> {
    write!(answer, "{ended}{sending} [")?;
    put_text(answer, written)?;
    answer.push(']')
}

/// What is left to be done for the reply of a client.
fn left_name(room: &Room, c: u32) -> &'static str {
    if room.is_sending(c) {
        " sending"
    } else if room.is_working(c) {
        " working"
    } else {
        ""
    }
}

fn put_served(answer: &mut String, room: &mut Room, c: u32) -> Result<(), AllocError> {
    write!(answer, "{c} ")?;
    let (served, taken) = room.serve(c);
    put_turn(answer, served_name(served), left_name(room, c), &taken)
}

/// Appends how many units of work were done, and what was written.
fn put_worked(answer: &mut String, room: &mut Room, c: u32) -> Result<(), AllocError> {
    write!(answer, "{c} ")?;
    let (served, units, taken) = room.work_on(c);
    write!(answer, "{units} units ")?;
    put_turn(answer, served_name(served), left_name(room, c), &taken)
}

fn put_office(answer: &mut String, room: &mut Room) -> Result<(), AllocError> {
    answer.push_str("office ")?;
    let (turned, taken) = room.serve_office();
    put_turn(answer, turned_name(turned), "", &taken)
}

/// It is this second. Appends the numbers of the clients that are dropped for it.
fn put_dropped(answer: &mut String, room: &mut Room, second: u64) -> Result<(), AllocError> {
    room.now = room.now.max(second);
    answer.push_str("dropped")?;
    for c in 0..ROOM {
        if room.drop_overdue(c) {
            write!(answer, " {c}")?;
        }
    }
    Ok(())
}

/// What a client's peer does.
fn at_peer(
    answer: &mut String,
    peer: &mut Peer,
    word: &str,
    rest: &str,
    given: &[u8],
) -> Result<(), AllocError> {
    match (word, rest.parse::<usize>()) {
        ("give", _) => peer.sender.give(given)?,
        ("long", Ok(count)) => give_often(&mut peer.sender, count)?,
        ("room", Ok(count)) => peer.taker.room = peer.taker.room.saturating_add(count),
        ("hang", _) => peer.sender.has_ended = true,
        ("break", _) => {
            peer.sender.is_broken = true;
            peer.taker.is_broken = true;
        }
        _ => return put_no_case(answer),
    }
    answer.push_str("done")
}

/// What the peer of this client does.
fn at_peer_of(
    answer: &mut String,
    room: &mut Room,
    word: &str,
    c: u32,
    rest: &str,
) -> Result<(), AllocError> {
    let given = read_bytes(room.alloc, rest)?;
    match room.peer(c) {
        Some(peer) => at_peer(answer, peer, word, rest, &given),
        None => answer.push_str("unknown"),
    }
}

/// What the office's peer does.
fn at_office(
    answer: &mut String,
    room: &mut Room,
    word: &str,
    rest: &str,
) -> Result<(), AllocError> {
    let Some(office) = room.office() else {
        return put_no_case(answer);
    };
    match (word, rest.parse::<usize>()) {
        ("line", _) => {
            office.sender.give(rest.as_bytes())?;
            office.sender.give(b"\n")?;
        }
        ("part", _) => office.sender.give(rest.as_bytes())?,
        ("office-room", Ok(count)) => {
            office.taker.room = office.taker.room.saturating_add(count);
        }
        ("office-hang", _) => office.sender.has_ended = true,
        _ => return put_no_case(answer),
    }
    answer.push_str("done")
}

/// A line of more than a word.
fn put_words(
    answer: &mut String,
    room: &mut Room,
    word: &str,
    rest: &str,
) -> Result<(), AllocError> {
    if word == "host" {
        return put_hosted(answer, room.alloc, rest);
    }
    let (number, text) = rest.split_once(' ').unwrap_or((rest, ""));
    let Ok(c) = number.parse::<u32>() else {
        return at_office(answer, room, word, rest);
    };
    match word {
        "serve" => put_served(answer, room, c),
        "work" => put_worked(answer, room, c),
        "second" => put_dropped(answer, room, u64::from(c)),
        "give" | "long" | "room" | "hang" | "break" => at_peer_of(answer, room, word, c, text),
        _ => at_office(answer, room, word, rest),
    }
}

/// Does what a line asks for, and appends what is printed for it.
pub(crate) fn put_answer(
    answer: &mut String,
    room: &mut Room,
    line: &[u8],
) -> Result<(), AllocError> {
    let Ok(text) = str::from_utf8(line) else {
        return put_no_case(answer);
    };
    match text.split_once(' ') {
        Some((word, rest)) => put_words(answer, room, word, rest),
        None => match text {
            "open" => put_open(answer, room),
            "office" => put_office(answer, room),
            _ => put_no_case(answer),
        },
    }
}

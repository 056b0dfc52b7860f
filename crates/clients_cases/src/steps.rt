//! What happens at a network until a wait ends.

use std::alloc::{AllocError, Global};

/// What happens.
#[derive(Drop)]
pub(crate) enum Step {
    /// A client comes.
    Come,
    /// The land office comes.
    Office,
    /// A peer sends this.
    Give(usize, Vec<u8>),
    /// A peer's socket takes so many more bytes.
    Room(usize, usize),
    /// A peer sends no more.
    Hang(usize),
    /// Reads and writes of a peer's socket fail.
    Break(usize),
    /// The network reports that the sockets at these places may continue.
    Wake(Vec<usize>),
    /// It is this second.
    Second(u64),
    /// So many times a client cannot be handed over.
    Refuse(u32),
    /// So many times a socket cannot be watched.
    Unwatched(u32),
    /// The wait ends.
    End,
}

/// The bytes of a text, in which `|` means CR and LF, and `_` means LF.
pub(crate) fn read_bytes(alloc: Global, text: &str) -> Result<Vec<u8>, AllocError> {
    let mut bytes = Vec::new(alloc);
    for byte in text.as_bytes() {
        match *byte {
            b'|' => bytes.extend_from_slice(b"\r\n")?,
            b'_' => bytes.push(b'\n')?,
            byte => bytes.push(byte)?,
        }
    }
    Ok(bytes)
}

/// The places that a text names.
fn read_places(alloc: Global, text: &str) -> Result<Vec<usize>, AllocError> {
    let mut places = Vec::new(alloc);
    for word in text.split(' ') {
        if let Ok(place) = word.parse::<usize>() {
            places.push(place)?;
        }
    }
    Ok(places)
}

/// The step that a text names: a word, and its arguments.
fn read_step(alloc: Global, text: &str) -> Result<Option<Step>, AllocError> {
    let (word, rest) = text.split_once(' ').unwrap_or((text, ""));
    let (first, more) = rest.split_once(' ').unwrap_or((rest, ""));
    let count = first.parse::<usize>().unwrap_or(0);
    let few = first.parse::<u32>().unwrap_or(0);
    Ok(match word {
        "come" => Some(Step::Come),
        "office" => Some(Step::Office),
        "give" => Some(Step::Give(count, read_bytes(alloc, more)?)),
        "room" => Some(Step::Room(count, more.parse::<usize>().unwrap_or(0))),
        "hang" => Some(Step::Hang(count)),
        "break" => Some(Step::Break(count)),
        "wake" => Some(Step::Wake(read_places(alloc, rest)?)),
        "second" => Some(Step::Second(u64::from(few))),
        "refuse" => Some(Step::Refuse(few)),
        "unwatched" => Some(Step::Unwatched(few)),
        "end" => Some(Step::End),
        _ => None,
    })
}

/// The steps of a text, with `;` between them. A part that names no step is left out.
pub(crate) fn read_steps(alloc: Global, text: &str) -> Result<Vec<Step>, AllocError> {
    let mut steps = Vec::new(alloc);
    for word in text.split(';') {
        if let Some(step) = read_step(alloc, word)? {
            steps.push(step)?;
        }
    }
    Ok(steps)
}

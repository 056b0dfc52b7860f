//! The parts of a reply that a log names.

/// The digits of its status, which follow `HTTP/1.1 `.
pub(crate) fn status_of(reply: &[u8]) -> &[u8] {
    reply.get(9..12).unwrap_or(b"-")
}

/// How a body names its revision.
const NAME: &[u8] = b"\"revision\":";

/// Where the last name of a revision ends.
fn last_name(reply: &[u8]) -> Option<usize> {
    let start = reply.windows(NAME.len()).rposition(|part| part == NAME)?;
    start.checked_add(NAME.len())
}

/// The digits of the revision that its body names, if it names one.
pub(crate) fn revision_of(reply: &[u8]) -> &[u8] {
    let Some(start) = last_name(reply) else {
        return b"-";
    };
    let Some(rest) = reply.get(start..) else {
        return b"-";
    };
    let count = rest.iter().take_while(|byte| byte.is_ascii_digit()).count();
    rest.get(..count).unwrap_or(b"-")
}

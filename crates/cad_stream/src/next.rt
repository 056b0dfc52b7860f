//! What bytes come to, whether the answers are made or only begun.

/// What bytes begin with.
#[derive(Debug, Drop)]
pub(crate) enum Next<A> {
    /// A request may still come.
    Waiting,
    /// No request can come, and this is the reply to that.
    Hopeless(Vec<u8>),
    /// The answer to a request whose head has `used` bytes.
    Answered { answer: A, used: usize },
}

/// The replies to bytes.
#[derive(Debug, Drop)]
pub(crate) struct Replies<O> {
    /// The replies, or what is left for them, one after the other.
    pub(crate) out: O,
    /// How many bytes were answered, if the connection still waits.
    pub(crate) used: Option<usize>,
}

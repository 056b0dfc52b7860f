//! A connection, and the result of the next piece of its bytes.

ghost use Rattle.cad_head.specs.Heads.{IsIncomplete};

use crate::beginning::begin_requests;
use crate::joining::joined;
use crate::replies::reply_to_requests;
use crate::responder::Responder;
use crate::working_responder::{Part, WorkingResponder};
use cad_head::may_settle;
use cad_versions::RegisterFault;
use std::alloc::Global;

/// The bytes of a connection that no request took yet. They may still become a request.
#[derive(Debug, Drop)]
pub struct Connection {
    held: Vec<u8>,
    /// No head is there yet, and one may still come.
    pub ghost waits: { IsIncomplete held.items },
}

/// The result of a piece.
#[derive(Debug, Drop)]
pub struct Fed {
    /// The replies, one after the other.
    pub bytes: Vec<u8>,
    /// The connection after it, if it did not end.
    pub connection: Option<Connection>,
}

/// The result of a piece whose requests were begun.
#[derive(Debug, Drop)]
pub struct FedBegun<W> {
    /// The replies or what is left for them, one after the other.
    pub parts: Vec<Part<W>>,
    /// The connection after it, if it did not end.
    pub connection: Option<Connection>,
}

impl Connection {
    ghost use Rattle.cad_stream.specs.Begins.{Begins};
    ghost use Rattle.std.specs.Prelude.{◌≡◌, []};
    ghost use Rattle.cad_stream.specs.Feeding.{bytes_held, Feeds};

    /// A connection that has sent nothing.
    pub fn new(alloc: Global) -> Connection
        ensures { bytes_held result ≡ [] }
    {
        Connection {
            held: Vec::new(alloc),
        }
    }

    /// Takes the next piece. Each request that is now complete is answered, one after the other. One that ends the
    /// connection is the last, and so is the reply to bytes that no request can begin with.
    ///
    /// The bytes are parsed only if the piece can settle what is at the front. So bytes which come a few at a time are not read again for
    /// each piece.
    pub fn feed<R: Responder>(
        self,
        alloc: Global,
        piece: Vec<u8>,
        responder: &mut R,
    ) -> Result<Fed, RegisterFault>
        ensures { Feeds R.Responder (bytes_held self) piece.items responder.old result responder.new }
    {
        let Connection { held } = self;
        let may_settle = may_settle(&held, &piece);
        let mut held = joined(held, piece)?;
        if !may_settle {
            return Ok(Fed {
                bytes: Vec::new(alloc),
                connection: Some(Connection { held }),
            });
        }
        let replies = reply_to_requests(alloc, &held, responder)?;
        let connection = match replies.used {
            None => None,
            Some(used) => {
                drop(held.drain(..used));
                Some(Connection { held })
            }
        };
        Ok(Fed {
            bytes: replies.out,
            connection,
        })
    }

    /// Takes the next piece, and begins each request that is now complete, one after the other. What is owed is what `feed` would answer now,
    /// whatever happens until it is made.
    pub fn begin<R: WorkingResponder>(
        self,
        alloc: Global,
        piece: Vec<u8>,
        responder: &mut R,
    ) -> Result<FedBegun<R::Work>, RegisterFault>
        ensures { Begins R.Responder R.owes (bytes_held self) piece.items responder.old result responder.new }
    {
        let Connection { held } = self;
        let settles = may_settle(&held, &piece);
        let mut all = joined(held, piece)?;
        if !settles {
            return Ok(FedBegun {
                parts: Vec::new(alloc),
                connection: Some(Connection { held: all }),
            });
        }
        let begun = begin_requests(alloc, &all, responder)?;
        let connection = match begun.used {
            None => None,
            Some(used) => {
                drop(all.drain(..used));
                let rest = Connection { held: all };
                Some(rest)
            }
        };
        Ok(FedBegun {
            parts: begun.out,
            connection,
        })
    }
}

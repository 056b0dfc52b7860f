//! Replies that were begun and are made in pieces.

use crate::limited::LimitedLedger;
use cad_desk::{Owing, Reply, SentBytes};
use cad_http::Server;
use cad_server::{PageWork, WorkMeter};
use cad_stream::{Part, WorkingResponder};
use std::alloc::{AllocError, Global};

/// The replies to bytes of a connection, or what is left to do for them.
#[derive(Drop)]
pub struct Owed {
    /// The connection.
    pub c: u32,
    /// The replies that were begun.
    pub owing: Owing<PageWork>,
}

/// The reply, by pieces of at most so many units of work.
fn made(alloc: Global, begun: Part<PageWork>, budget: u32) -> Result<Vec<u8>, AllocError> {
    let mut meter = WorkMeter::default();
    let mut part = begun;
    for _ in 0..u64::MAX {
        match part {
            Part::Made(bytes) => return Ok(bytes),
            Part::Left(work) => {
                part = Server::<LimitedLedger>::go_on(alloc, work, budget.max(1), &mut meter)?;
            }
        }
    }
    Err(AllocError)
}

impl Owed {
    /// What goes out, by pieces of at most so many units of work.
    pub fn reply(self, alloc: Global, budget: u32) -> Result<Reply, AllocError> {
        let Owed { c: _, owing } = self;
        let Owing { parts, ends } = owing;
        let mut bytes = Vec::new(alloc);
        for part in parts {
            let reply = made(alloc, part, budget)?;
            bytes.extend_from_slice(&reply)?;
        }
        Ok(Reply::Sent {
            bytes: SentBytes::new(bytes),
            ends,
        })
    }
}

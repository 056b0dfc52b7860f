//! What the loop does at a network whose peers follow a script.

use crate::refusing::Refusing;
use crate::script::put_text;
use crate::steps::read_steps;
use crate::wire::Wire;
use crate::world::Peer;
use cad_clients::NoLog;
use cad_desk::Desk;
use cad_event_loop::{Stopped, host};
use std::alloc::{AllocError, Global};
use std::io::Result as IoResult;
use test_support::Units;

fn stopped_name(hosted: &IoResult<Stopped>) -> &'static str {
    match hosted {
        Ok(Stopped::Asked) => "asked",
        Ok(Stopped::StoreRefused) => "refused",
        Ok(Stopped::RoundsSpent) => "spent",
        Err(_) => "failed",
    }
}

/// Appends what was written to a peer, and whether its socket was let go.
fn put_peer(answer: &mut String, peer: &Peer) -> Result<(), AllocError> {
    answer.push_str(if peer.is_left { " left [" } else { " here [" })?;
    put_text(answer, &peer.taker.taken)?;
    answer.push(']')
}

/// Hosts a desk at a network with these steps, and appends how that ended and the result for each peer.
pub(crate) fn put_hosted(answer: &mut String, alloc: Global, text: &str) -> Result<(), AllocError> {
    let mut wire = Wire::new(alloc, read_steps(alloc, text)?);
    let mut desk = Desk::new(alloc, Refusing::new(alloc));
    let mut units = Units::default();
    let hosted = host(alloc, &mut wire, &mut desk, &mut units, &mut NoLog);
    answer.push_str(stopped_name(&hosted))?;
    for peer in &wire.world.peers {
        put_peer(answer, peer)?;
    }
    Ok(())
}

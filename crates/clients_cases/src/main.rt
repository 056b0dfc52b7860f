//! What clients and the land office get at a desk whose sockets give and take bytes by a script: each line of standard input is something
//! that happens, and a line is printed for it.
//!
//! - `sockets`: sockets that give and take bytes by a script
//! - `steps`: what happens at a network; `world`: its peers, at which it happens
//! - `wire`: the network, and `history`: what was done there, so that the loop meets its whole contract here
//! - `room`: the clients, the office and their sockets, each served when a line asks for it
//! - `hosted`: the same by the loop; `refusing`: what answers there, as if its database refused commands for object 6
//! - `script`: the lines, and what is printed for them
//!
//! The lines are
//!
//! - `open`, a client comes: `N opened`, by its number, or `full`;
//! - `give N TEXT`, it sends this text, in which `|` means CR and LF; `long N COUNT`, it sends so many bytes `a`;
//! - `room N COUNT`, its socket takes so many more bytes; `hang N`, it sends no more; `break N`, reads and writes fail;
//! - `serve N`, it is served: how that ended, what was written to it, `sending` if a reply is not fully written, and `working` if one is
//!   not made; `work N`, it is worked on: how many units of work that was, and the same;
//! - `second N`, it is second N: the numbers of the clients that are dropped for it;
//! - `line TEXT`, the office sends a line; `part TEXT`, it sends a part of one; `office-room COUNT`, its socket takes so many more bytes;
//!   `office`, it is served: how that ended, and what was written to it.
//!
//! - `host STEPS`, a desk is hosted at a network with these steps: those up to an `end` are done until each wait is over, and the system
//!   refuses to wait if there are no more. `come` and `office`: somebody comes, and is numbered; `give N TEXT`, `room N COUNT`, `hang N`
//!   and `break N` as above, with `_` for LF; `wake PLACES`: the network reports that sockets may continue; `second N`; `refuse COUNT` and
//!   `unwatched COUNT`: so many times a client cannot be handed over, or a socket cannot be watched. The answer is how hosting ended, what
//!   was written to each, and whether its socket was let go.
//!
//! In what was written `|` means LF. A request is answered with its method, its target and the revision in force. The reply to `/units/N`
//! takes N units of work, and for that to `/unmade/N` there is no memory in the end. Any other line is answered by `no case`. An empty one is skipped, and so is one that begins with `#`.
#![tactic(auto)]

mod history;
mod hosted;
mod refusing;
mod room;
mod script;
mod sockets;
mod steps;
mod wire;
mod world;

use room::Room;
use script::put_answer;
use std::io::{Read, Result};

fn print_answer(rt: &HostRuntime, room: &mut Room, line: &[u8]) -> Result<()> {
    let mut answer = String::new(rt.alloc());
    put_answer(&mut answer, room, line)?;
    println!(rt; "{answer}")
}

fn print_answers(rt: &HostRuntime, room: &mut Room, lines: &[u8]) -> Result<()> {
    for line in lines.split(|byte| *byte == b'\n') {
        if !line.is_empty() && !line.starts_with(b"#") {
            print_answer(rt, room, line)?;
        }
    }
    Ok(())
}

fn main(rt: HostRuntime) -> Result<()> {
    let mut lines = Vec::new(rt.alloc());
    rt.stdin().read_to_end(&mut lines)?;
    let mut room = Room::new(rt.alloc())?;
    print_answers(&rt, &mut room, &lines)
}

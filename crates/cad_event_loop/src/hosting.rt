//! The loop over readiness.

ghost use Rattle.std.specs.Prelude.{◌≡◌, Ok, IsOk};
ghost use Rattle.cad_event_loop.specs.Hosting.{Hosted, IsLastOf, TellsFailure};
ghost use Rattle.cad_event_loop.specs.declared.stopped.Stopped.TheVariants.{Asked as asked};

use crate::rounds::Rounds;
use crate::stopped::Stopped;
use cad_clients::AccessLog;
use cad_desk::Desk;
use cad_network::Network;
use cad_stream::{JournalResponder, WorkingResponder};
use std::alloc::Global;
use std::io::Result;

/// How hosting ended, by the results of the rounds and of closing. A refusal by the database is reported even if closing fails.
fn last_of(hosted: Result<Stopped>, ended: Result<()>) -> Result<Stopped>
    ensures last { IsLastOf hosted result }
    ensures failed { TellsFailure hosted ended result }
    ensures closed { result ≡ Ok asked → IsOk ended }
{
    match hosted {
        Ok(Stopped::Asked) => match ended {
            Ok(()) => Ok(Stopped::Asked),
            Err(error) => Err(error),
        },
        Ok(Stopped::StoreRefused) => Ok(Stopped::StoreRefused),
        Ok(Stopped::RoundsSpent) => Ok(Stopped::RoundsSpent),
        Err(error) => Err(error),
    }
}

/// Takes clients at one door of a network, up to 64 at once, and the land office at the other, up to four connections at once. Serves them
/// alternately until the office asks to stop or the register's database refuses, whether or not the office gets that answer. A client that
/// comes when 64 are connected gets a fixed head that says so. A reply that takes more than a first piece of work is made in further ones, one
/// in each round, between which all others are served: eight of these replies in turn, and the next ones when those are made. A client that
/// neither sends nor takes a byte for 60 seconds, while no reply to it is worked on, is dropped, and so is one whose request and its reply take
/// 300 seconds, without the time in which that reply waits in the line. A connection of the office that takes no byte of an answer for 300
/// seconds is dropped. Replies that are made and the office's answers that are under way at the end are written for at most five seconds; then
/// all are let go. The meter counts the work for replies.
pub fn host<N: Network, R: JournalResponder + WorkingResponder, L: AccessLog<N::Socket>>(
    alloc: Global,
    net: &mut N,
    desk: &mut Desk<R>,
    meter: &mut R::Meter,
    log: &mut L,
) -> Result<Stopped>
    ensures drained { result ≡ Ok asked → N.is_drained net.new }
    ensures hosted { Hosted R.Responder R.JournalResponder.own R.owes (N.history net.old) desk.old result (N.history net.new) desk.new }
{
    let mut rounds = Rounds::new(alloc)?;
    let hosted = rounds.run(net, desk, meter, log);
    let ended = rounds.end(hosted.is_ok(), net, desk, meter);
    last_of(hosted, ended)
}

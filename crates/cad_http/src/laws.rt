//! What holds of desks over lists of events, of connections that are served, and of walks through pages. Each contract is a
//! law; the functions do nothing.

ghost use Rattle.cad_desk.specs.Desks.{rules_of};
ghost use Rattle.cad_http.specs.Laws.{
  ConnectionsAmongRestartsAreVisits,
  ConnectionsAreVisits,
  RestartsKeepAccepted,
  RunsKeepAccepted,
  WalksAmongRestartsShowTheAnswer,
  WalksHaveThatManyPages,
  WalksInRunsShowTheAnswer,
  WalksOfDesksAmongRestartsShowTheAnswer,
  WalksOfDesksShowTheAnswer,
  WalksShowTheAnswer,
};

use cad_answer::laws::walks_are_whole;
use cad_ask::laws::{fault_or_asks, pairs_ask_one_thing};
pub use cad_desk::laws::{
    connections_are_their_own, cuts_make_no_difference, others_stay, steps_are_a_run,
};
use cad_history::laws::{accepted_are_few, accepted_are_listed};
use cad_page::laws::{next_is_read_again, the_same_has_one_answer};
use cad_resource::laws::{paths_are_read_back, resources_are_requested};
pub use cad_serve::laws::{served_is_a_stream, serving_leaves_others, written_are_replies};
use cad_server::Server;
pub use cad_server::laws::requests_have_one_reply;
use cad_stream::Responder;
use cad_versions::HistoryLedger;
use cad_versions::laws::revisions_stay;

/// The features that come after the one that is named take as many pages as their number requires.
pub fn walks_have_that_many_pages()
    ensures { WalksHaveThatManyPages }
{
    walks_are_whole();
}

/// The pages of a walk, joined, are the whole answer of the revision that its first request asks for, for any commands between its
/// requests.
pub fn walks_show_the_answer()
    ensures { WalksShowTheAnswer }
{
    resources_are_requested();
    paths_are_read_back();
    fault_or_asks();
    pairs_ask_one_thing();
    the_same_has_one_answer();
    next_is_read_again();
    revisions_stay();
    walks_are_whole();
    walks_have_that_many_pages();
    accepted_are_listed();
    accepted_are_few();
}

/// If the commands in force at the start of a run were accepted one after the other, so were those in force after it.
pub fn runs_keep_accepted<R: Responder>()
    ensures { RunsKeepAccepted (rules_of R.Responder) }
{}

/// What goes out to a connection of the server, from its opening on, is a reply to each of its requests, one after the
/// other, while the commands in force only grow.
pub fn connections_are_visits<L: HistoryLedger>()
    ensures { ConnectionsAreVisits (rules_of ⟦<Server<L> as Responder>⟧) }
{
    connections_are_their_own::<Server<L>>();
}

/// In any run of a desk over the server, the pages of a walk, joined, are the whole answer of the revision that its first request asks for.
/// It does not matter on which connections its requests come, in which pieces, or what others and the office do between them.
pub fn walks_in_runs_show_the_answer<L: HistoryLedger>()
    ensures { WalksInRunsShowTheAnswer (rules_of ⟦<Server<L> as Responder>⟧) }
{
    walks_show_the_answer();
    runs_keep_accepted::<Server<L>>();
}

/// The answers of a desk over the server to events, one after the other, are a run, and the pages of a walk in it, joined, are the whole
/// answer. No premise says that the commands were accepted: a ledger holds no others.
pub fn walks_of_desks_show_the_answer<L: HistoryLedger>()
    ensures { WalksOfDesksShowTheAnswer ⟦<Server<L> as Responder>⟧ }
{
    steps_are_a_run::<Server<L>>();
    walks_in_runs_show_the_answer::<L>();
}

/// If the commands that the first start of a server finds were accepted one after the other, so were those in force after any number of
/// starts. This also holds if a command was being entered at a stop.
pub fn restarts_keep_accepted<R: Responder>()
    ensures { RestartsKeepAccepted (rules_of R.Responder) }
{}

/// What goes out to a connection, from its opening on and until the server is stopped, is a reply to each of its requests,
/// one after the other, while the commands in force only grow.
pub fn connections_among_restarts_are_visits<L: HistoryLedger>()
    ensures { ConnectionsAmongRestartsAreVisits (rules_of ⟦<Server<L> as Responder>⟧) }
{
    connections_are_visits::<L>();
}

/// The pages of a walk, joined, are the whole answer of the revision that its first request asks for. It does not matter on which
/// connections its requests come, or how often the server is stopped and started between them.
pub fn walks_among_restarts_show_the_answer<L: HistoryLedger>()
    ensures { WalksAmongRestartsShowTheAnswer (rules_of ⟦<Server<L> as Responder>⟧) }
{
    walks_show_the_answer();
    restarts_keep_accepted::<Server<L>>();
}

/// The same holds from a start on at which a ledger holds the commands that the start finds.
pub fn walks_of_desks_among_restarts_show_the_answer<L: HistoryLedger>()
    ensures { WalksOfDesksAmongRestartsShowTheAnswer ⟦<Server<L> as Responder>⟧ }
{
    walks_among_restarts_show_the_answer::<L>();
}

//! A walk through pages, over a restart: the files are closed and opened again, with a new desk over them.

use crate::files::{empty_files, work_over};
use crate::orders::Order;
use crate::trouble::Trouble;
use crate::works::{Outcome, Work};
use cad_desk::{Desk, DeskFault, Event, Reply};
use cad_register::Register;
use cad_server::Server;
use cad_stream::Responder;
use sqlite::Alter;
use std::alloc::Global;
use std::process::Abort;
use std::test::Fail;

/// What is done at a desk.
#[derive(Clone, Copy)]
pub(crate) enum Deed {
    /// A connection opens.
    Open(u32),
    /// It sends this text.
    Send(u32, &'static str),
    /// It closes.
    Close(u32),
    /// The land office enters a command.
    Enter(Order),
}

impl Deed {
    /// What is done, in words.
    fn text(self) -> &'static str {
        match self {
            Deed::Open(_) => "open",
            Deed::Send(_, text) => text,
            Deed::Close(_) => "close",
            Deed::Enter(order) => order.text(),
        }
    }

    /// The event of the desk.
    fn event(self, alloc: Global) -> Result<Event, Trouble> {
        match self {
            Deed::Open(c) => Ok(Event::Open(c)),
            Deed::Send(c, text) => Ok(Event::Bytes(c, Vec::from_slice(alloc, text.as_bytes())?)),
            Deed::Close(c) => Ok(Event::Close(c)),
            Deed::Enter(order) => Ok(Event::Office(order.command(alloc)?)),
        }
    }
}

/// What the desk answers.
#[derive(Clone, Copy)]
pub(crate) enum Wanted {
    /// The connection is open.
    Opened,
    /// This text goes out to the connection, which stays open.
    Sent(&'static str),
    /// The command is accepted, and makes this revision.
    Entered(u64),
    /// The desk refuses, since the connection is not open.
    Unknown,
}

impl Wanted {
    /// Whether this is the answer.
    fn is(self, answer: &Result<Reply, DeskFault>) -> bool {
        match (self, answer) {
            (Wanted::Opened, Ok(Reply::Opened)) => true,
            (Wanted::Sent(text), Ok(Reply::Sent { bytes, ends })) => {
                !*ends && bytes.as_slice() == text.as_bytes()
            }
            (Wanted::Entered(revision), Ok(Reply::Entered(entered))) => *entered == revision,
            (Wanted::Unknown, Err(fault)) => *fault == DeskFault::UnknownConnection,
            _ => false,
        }
    }
}

/// The text that a desk sends, or what else it answers, in words.
fn text_of(answer: &Result<Reply, DeskFault>) -> &str {
    match answer {
        Ok(Reply::Opened) => "opened",
        Ok(Reply::Closed) => "closed",
        Ok(Reply::Entered(_)) => "entered",
        Ok(Reply::Sent { bytes, .. }) => match str::from_utf8(bytes.as_slice()) {
            Ok(text) => text,
            Err(_) => "no text",
        },
        Err(fault) => fault.name(),
    }
}

/// A walk of five pages on connection 1, and the answers. After each page a command is entered, and connection 2 asks for an old revision.
pub(crate) const WALK: [(Deed, Wanted); 8] = [
    (Deed::Open(1), Wanted::Opened),
    (Deed::Open(2), Wanted::Opened),
    (
        Deed::Send(
            1,
            "GET /collections/parcels/items?limit=1 HTTP/1.1\r\nHost: x\r\n\r\n",
        ),
        Wanted::Sent(
            "HTTP/1.1 200 OK\r\nContent-Type: application/json\r\nContent-Length: 554\r\n\r\n{\"features\":[{\"geometry\":{\"coordinates\":[[[0,0],[20000,0],[20000,20000],[0,20000],[0,0]]],\"type\":\"Polygon\"},\"id\":\"1.1\",\"properties\":{\"area\":400,\"begin\":\"2001-01-01\",\"end\":\"2009-12-31\",\"label\":\"A-1\",\"number\":1,\"object\":1,\"reference_point\":null,\"unit\":10,\"unit_name\":\"Mill\"},\"type\":\"Feature\"}],\"links\":[{\"href\":\"/collections/parcels/items?limit=1\",\"rel\":\"self\",\"type\":\"application/json\"},{\"href\":\"/collections/parcels/items?limit=1&revision=10&after=1.1\",\"rel\":\"next\",\"type\":\"application/json\"}],\"numberReturned\":1,\"revision\":10,\"type\":\"FeatureCollection\"}",
        ),
    ),
    (
        Deed::Enter(Order::AmendUnit {
            object: 10,
            first: "2008-01-01",
            name: Some("New Mill"),
        }),
        Wanted::Entered(11),
    ),
    (
        Deed::Send(
            2,
            "GET /collections/parcels/items?revision=1 HTTP/1.1\r\nHost: x\r\n\r\n",
        ),
        Wanted::Sent(
            "HTTP/1.1 200 OK\r\nContent-Type: application/json\r\nContent-Length: 172\r\n\r\n{\"features\":[],\"links\":[{\"href\":\"/collections/parcels/items?revision=1\",\"rel\":\"self\",\"type\":\"application/json\"}],\"numberReturned\":0,\"revision\":1,\"type\":\"FeatureCollection\"}",
        ),
    ),
    (
        Deed::Send(
            1,
            "GET /collections/parcels/items?limit=1&revision=10&after=1.1 HTTP/1.1\r\nHost: x\r\n\r\n",
        ),
        Wanted::Sent(
            "HTTP/1.1 200 OK\r\nContent-Type: application/json\r\nContent-Length: 568\r\n\r\n{\"features\":[{\"geometry\":{\"coordinates\":[[[0,0],[20000,0],[20000,20000],[0,20000],[0,0]]],\"type\":\"Polygon\"},\"id\":\"1.2\",\"properties\":{\"area\":380,\"begin\":\"2010-01-01\",\"end\":null,\"label\":\"A-1\",\"number\":2,\"object\":1,\"reference_point\":null,\"unit\":10,\"unit_name\":\"Mill\"},\"type\":\"Feature\"}],\"links\":[{\"href\":\"/collections/parcels/items?limit=1&revision=10&after=1.1\",\"rel\":\"self\",\"type\":\"application/json\"},{\"href\":\"/collections/parcels/items?limit=1&revision=10&after=1.2\",\"rel\":\"next\",\"type\":\"application/json\"}],\"numberReturned\":1,\"revision\":10,\"type\":\"FeatureCollection\"}",
        ),
    ),
    (
        Deed::Enter(Order::EnterParcel {
            object: 5,
            first: "2009-01-01",
        }),
        Wanted::Entered(12),
    ),
    (Deed::Send(2, "GET / HTTP/1.1\r\n"), Wanted::Sent("")),
];

/// It continues after a restart, on connections that are opened anew.
pub(crate) const WALK_ON: [(Deed, Wanted); 13] = [
    (
        Deed::Send(1, "GET / HTTP/1.1\r\nHost: x\r\n\r\n"),
        Wanted::Unknown,
    ),
    (Deed::Close(2), Wanted::Unknown),
    (Deed::Open(1), Wanted::Opened),
    (Deed::Open(2), Wanted::Opened),
    (
        Deed::Send(
            2,
            "GET /collections/parcels/items?revision=2 HTTP/1.1\r\nHost: x\r\n\r\n",
        ),
        Wanted::Sent(
            "HTTP/1.1 200 OK\r\nContent-Type: application/json\r\nContent-Length: 172\r\n\r\n{\"features\":[],\"links\":[{\"href\":\"/collections/parcels/items?revision=2\",\"rel\":\"self\",\"type\":\"application/json\"}],\"numberReturned\":0,\"revision\":2,\"type\":\"FeatureCollection\"}",
        ),
    ),
    (
        Deed::Send(
            1,
            "GET /collections/parcels/items?limit=1&revision=10&after=1.2 HTTP/1.1\r\nHost: x\r\n\r\n",
        ),
        Wanted::Sent(
            "HTTP/1.1 200 OK\r\nContent-Type: application/json\r\nContent-Length: 581\r\n\r\n{\"features\":[{\"geometry\":{\"coordinates\":[[[20000,0],[40000,0],[40000,20000],[20000,20000],[20000,0]]],\"type\":\"Polygon\"},\"id\":\"2.1\",\"properties\":{\"area\":null,\"begin\":\"2005-06-01\",\"end\":null,\"label\":\"A-2\",\"number\":1,\"object\":2,\"reference_point\":null,\"unit\":10,\"unit_name\":\"Mill\"},\"type\":\"Feature\"}],\"links\":[{\"href\":\"/collections/parcels/items?limit=1&revision=10&after=1.2\",\"rel\":\"self\",\"type\":\"application/json\"},{\"href\":\"/collections/parcels/items?limit=1&revision=10&after=2.1\",\"rel\":\"next\",\"type\":\"application/json\"}],\"numberReturned\":1,\"revision\":10,\"type\":\"FeatureCollection\"}",
        ),
    ),
    (
        Deed::Enter(Order::Retire {
            object: 4,
            last: "2020-12-31",
        }),
        Wanted::Entered(13),
    ),
    (
        Deed::Send(
            2,
            "GET /collections/parcels/items?revision=3 HTTP/1.1\r\nHost: x\r\n\r\n",
        ),
        Wanted::Sent(
            "HTTP/1.1 200 OK\r\nContent-Type: application/json\r\nContent-Length: 172\r\n\r\n{\"features\":[],\"links\":[{\"href\":\"/collections/parcels/items?revision=3\",\"rel\":\"self\",\"type\":\"application/json\"}],\"numberReturned\":0,\"revision\":3,\"type\":\"FeatureCollection\"}",
        ),
    ),
    (
        Deed::Send(
            1,
            "GET /collections/parcels/items?limit=1&revision=10&after=2.1 HTTP/1.1\r\nHost: x\r\n\r\n",
        ),
        Wanted::Sent(
            "HTTP/1.1 200 OK\r\nContent-Type: application/json\r\nContent-Length: 564\r\n\r\n{\"features\":[{\"geometry\":{\"coordinates\":[[[0,30000],[30000,30000],[0,60000],[0,30000]]],\"type\":\"Polygon\"},\"id\":\"3.1\",\"properties\":{\"area\":900,\"begin\":\"2003-01-01\",\"end\":null,\"label\":\"b-7\",\"number\":1,\"object\":3,\"reference_point\":null,\"unit\":11,\"unit_name\":null},\"type\":\"Feature\"}],\"links\":[{\"href\":\"/collections/parcels/items?limit=1&revision=10&after=2.1\",\"rel\":\"self\",\"type\":\"application/json\"},{\"href\":\"/collections/parcels/items?limit=1&revision=10&after=3.1\",\"rel\":\"next\",\"type\":\"application/json\"}],\"numberReturned\":1,\"revision\":10,\"type\":\"FeatureCollection\"}",
        ),
    ),
    (
        Deed::Enter(Order::Retire {
            object: 2,
            last: "2020-12-31",
        }),
        Wanted::Entered(14),
    ),
    (
        Deed::Send(
            2,
            "GET /collections/parcels/items?revision=4 HTTP/1.1\r\nHost: x\r\n\r\n",
        ),
        Wanted::Sent(
            "HTTP/1.1 200 OK\r\nContent-Type: application/json\r\nContent-Length: 441\r\n\r\n{\"features\":[{\"geometry\":{\"coordinates\":[[[0,0],[20000,0],[20000,20000],[0,20000],[0,0]]],\"type\":\"Polygon\"},\"id\":\"1.1\",\"properties\":{\"area\":400,\"begin\":\"2001-01-01\",\"end\":null,\"label\":\"A-1\",\"number\":1,\"object\":1,\"reference_point\":null,\"unit\":10,\"unit_name\":\"Mill\"},\"type\":\"Feature\"}],\"links\":[{\"href\":\"/collections/parcels/items?revision=4\",\"rel\":\"self\",\"type\":\"application/json\"}],\"numberReturned\":1,\"revision\":4,\"type\":\"FeatureCollection\"}",
        ),
    ),
    (
        Deed::Send(
            1,
            "GET /collections/parcels/items?limit=1&revision=10&after=3.1 HTTP/1.1\r\nHost: x\r\n\r\n",
        ),
        Wanted::Sent(
            "HTTP/1.1 200 OK\r\nContent-Type: application/json\r\nContent-Length: 379\r\n\r\n{\"features\":[{\"geometry\":null,\"id\":\"4.1\",\"properties\":{\"area\":0,\"begin\":\"2003-01-01\",\"end\":null,\"label\":\"C%1\",\"number\":1,\"object\":4,\"reference_point\":null,\"unit\":11,\"unit_name\":null},\"type\":\"Feature\"}],\"links\":[{\"href\":\"/collections/parcels/items?limit=1&revision=10&after=3.1\",\"rel\":\"self\",\"type\":\"application/json\"}],\"numberReturned\":1,\"revision\":10,\"type\":\"FeatureCollection\"}",
        ),
    ),
    (
        Deed::Send(
            1,
            "GET /collections/parcels/items HTTP/1.1\r\nHost: x\r\n\r\n",
        ),
        Wanted::Sent(
            "HTTP/1.1 200 OK\r\nContent-Type: application/json\r\nContent-Length: 1776\r\n\r\n{\"features\":[{\"geometry\":{\"coordinates\":[[[0,0],[20000,0],[20000,20000],[0,20000],[0,0]]],\"type\":\"Polygon\"},\"id\":\"1.1\",\"properties\":{\"area\":400,\"begin\":\"2001-01-01\",\"end\":\"2009-12-31\",\"label\":\"A-1\",\"number\":1,\"object\":1,\"reference_point\":null,\"unit\":10,\"unit_name\":\"Mill\"},\"type\":\"Feature\"},{\"geometry\":{\"coordinates\":[[[0,0],[20000,0],[20000,20000],[0,20000],[0,0]]],\"type\":\"Polygon\"},\"id\":\"1.2\",\"properties\":{\"area\":380,\"begin\":\"2010-01-01\",\"end\":null,\"label\":\"A-1\",\"number\":2,\"object\":1,\"reference_point\":null,\"unit\":10,\"unit_name\":\"New Mill\"},\"type\":\"Feature\"},{\"geometry\":{\"coordinates\":[[[20000,0],[40000,0],[40000,20000],[20000,20000],[20000,0]]],\"type\":\"Polygon\"},\"id\":\"2.1\",\"properties\":{\"area\":null,\"begin\":\"2005-06-01\",\"end\":\"2020-12-31\",\"label\":\"A-2\",\"number\":1,\"object\":2,\"reference_point\":null,\"unit\":10,\"unit_name\":\"Mill\"},\"type\":\"Feature\"},{\"geometry\":{\"coordinates\":[[[0,30000],[30000,30000],[0,60000],[0,30000]]],\"type\":\"Polygon\"},\"id\":\"3.1\",\"properties\":{\"area\":900,\"begin\":\"2003-01-01\",\"end\":null,\"label\":\"b-7\",\"number\":1,\"object\":3,\"reference_point\":null,\"unit\":11,\"unit_name\":null},\"type\":\"Feature\"},{\"geometry\":null,\"id\":\"4.1\",\"properties\":{\"area\":0,\"begin\":\"2003-01-01\",\"end\":\"2020-12-31\",\"label\":\"C%1\",\"number\":1,\"object\":4,\"reference_point\":null,\"unit\":11,\"unit_name\":null},\"type\":\"Feature\"},{\"geometry\":{\"coordinates\":[[[50000,0],[60000,0],[60000,10000],[50000,0]]],\"type\":\"Polygon\"},\"id\":\"5.1\",\"properties\":{\"area\":50,\"begin\":\"2009-01-01\",\"end\":null,\"label\":\"D-1\",\"number\":1,\"object\":5,\"reference_point\":{\"coordinates\":[55000,2000],\"type\":\"Point\"},\"unit\":10,\"unit_name\":\"New Mill\"},\"type\":\"Feature\"}],\"links\":[{\"href\":\"/collections/parcels/items\",\"rel\":\"self\",\"type\":\"application/json\"}],\"numberReturned\":6,\"revision\":14,\"type\":\"FeatureCollection\"}",
        ),
    ),
];

/// Does each deed at the desk, and compares the answers.
fn tell<R: Responder>(
    rt: &impl Abort,
    alloc: Global,
    desk: &mut Desk<R>,
    script: &[(Deed, Wanted)],
) -> Result<(), Trouble> {
    for (deed, wanted) in script {
        let answer = desk.step(deed.event(alloc)?);
        assert!(rt; wanted.is(&answer), "{}: {}", deed.text(), text_of(&answer));
    }
    Ok(())
}

/// Does each deed at a desk over the register, and returns the register. The desk goes, and with it its connections.
pub(crate) fn told<S: Alter>(
    rt: &impl Abort,
    alloc: Global,
    register: Register<S>,
    script: &[(Deed, Wanted)],
) -> (Result<Outcome, Trouble>, Register<S>) {
    match Server::new(alloc, register) {
        Ok(server) => {
            let mut desk = Desk::new(alloc, server);
            let told = tell(rt, alloc, &mut desk, script);
            let register = desk.release().release();
            match told {
                Ok(()) => (Ok(Outcome::Walked), register),
                Err(trouble) => (Err(trouble), register),
            }
        }
        Err(register) => (Err(Trouble::Missing("server")), register),
    }
}

/// Checks that this part of the walk went to its end.
fn check_walked(rt: &impl Abort, outcome: Outcome) {
    assert!(rt; matches!(outcome, Outcome::Walked), "{}", outcome.text());
}

#[test]
fn a_walk_goes_on_over_a_restart(rt: HostRuntime) -> Result<(), Fail> {
    let alloc = rt.alloc();
    let (begun, files) = work_over(&rt, alloc, empty_files(alloc), Work::BeginWalk);
    check_walked(&rt, begun?);
    let (ended, _) = work_over(&rt, alloc, files, Work::GoOn);
    check_walked(&rt, ended?);
    Ok(())
}

//! Connections served over readers and writers that fail, and one after another. Each request is answered with its own words, because
//! serving does the same for any answers.

use cad_desk::{Desk, Event};
use cad_io::{Counted, CountedWriter};
use cad_serve::{Ending, ServeFault, serve};
use std::test::Fail;
use test_support::{Copies, Echo, Endless, Peer, Stop, Taker};

/// A request after which the connection continues.
const REQUEST: &str = "GET /collections/parcels/items?filter=5+%3C+3 HTTP/1.1\r\nHost: x\r\n\r\n";

const REPLY: &str = "GET /collections/parcels/items?filter=5+%3C+3 at revision 0\n";

/// A request that ends the connection.
const LAST: &str =
    "GET /collections/units/items/12.1 HTTP/1.1\r\nConnection: close\r\nHost: x\r\n\r\n";

const LAST_REPLY: &str = "GET /collections/units/items/12.1 at revision 0\n";

/// How reading may go: the most bytes of a read, and what happens after the last byte.
const READINGS: [(usize, Stop); 4] = [
    (1, Stop::Ends),
    (1, Stop::Fails),
    (7, Stop::Fails),
    (4096, Stop::Ends),
];

/// How many reads give so many bytes.
fn reads_of(bytes: usize, piece: usize) -> usize {
    if piece == 0 {
        return 0;
    }
    bytes.div_ceil(piece)
}

/// For each number of bytes after which the peer ends or a read fails, the requests before have replies. The connection is closed each
/// time, so that it can be opened again.
#[test]
fn stops_where_reading_does(rt: HostRuntime) -> Result<(), Fail> {
    let alloc = rt.alloc();
    let mut desk = Desk::new(alloc, Echo::new(alloc));
    for bytes in 0..=REQUEST.len() {
        for (piece, stop) in READINGS {
            let mut reader = Counted::new(Peer::new(REQUEST.as_bytes(), piece, bytes, stop));
            let mut writer = CountedWriter::new(Taker::new(512, 512, Stop::Fails));
            let served = serve(alloc, &mut reader, &mut writer, &mut desk, 1);
            let wanted = match stop {
                Stop::Fails => Err(ServeFault::Read),
                Stop::Ends => Ok(Ending::PeerEnded),
            };
            let reply = if bytes == REQUEST.len() { REPLY } else { "" };
            assert_eq!(rt; served, wanted, "after {bytes}");
            assert_eq!(rt;
                reader.reader().reads(),
                reads_of(bytes, piece).saturating_add(1),
                "after {bytes}"
            );
            assert!(rt;
                writer.writer().has_taken(reply.as_bytes()),
                "after {bytes}"
            );
        }
    }
    Ok(())
}

/// No read is made after a request that ends the connection.
#[test]
fn reads_nothing_behind_the_end(rt: HostRuntime) -> Result<(), Fail> {
    let alloc = rt.alloc();
    let mut desk = Desk::new(alloc, Echo::new(alloc));
    for (piece, stop) in READINGS {
        let mut reader = Counted::new(Peer::new(LAST.as_bytes(), piece, LAST.len(), stop));
        let mut writer = CountedWriter::new(Taker::new(1, 512, Stop::Fails));
        let served = serve(alloc, &mut reader, &mut writer, &mut desk, 1);
        assert_eq!(rt; served, Ok(Ending::WeEnded), "{piece} a read");
        assert_eq!(rt;
            reader.reader().reads(),
            reads_of(LAST.len(), piece),
            "{piece} a read"
        );
        assert!(rt;
            writer.writer().has_taken(LAST_REPLY.as_bytes()),
            "{piece} a read"
        );
    }
    Ok(())
}

/// For each number of bytes after which a write fails or takes nothing, so many bytes of the reply were written.
#[test]
fn stops_where_writing_does(rt: HostRuntime) -> Result<(), Fail> {
    let alloc = rt.alloc();
    let mut desk = Desk::new(alloc, Echo::new(alloc));
    for most in 0..=REPLY.len() {
        for (piece, stop) in [(1, Stop::Ends), (1, Stop::Fails), (100, Stop::Fails)] {
            let mut reader = Counted::new(Peer::new(
                REQUEST.as_bytes(),
                4096,
                REQUEST.len(),
                Stop::Ends,
            ));
            let mut writer = CountedWriter::new(Taker::new(piece, most, stop));
            let served = serve(alloc, &mut reader, &mut writer, &mut desk, 1);
            let wanted = if most == REPLY.len() {
                Ok(Ending::PeerEnded)
            } else {
                Err(ServeFault::Write)
            };
            assert_eq!(rt; served, wanted, "after {most}");
            assert!(rt;
                writer.writer().has_taken(&REPLY.as_bytes()[..most]),
                "after {most}"
            );
        }
    }
    Ok(())
}

/// A desk serves one connection after another, while a third stays open. What it does if the system refuses more memory is tested by a run
/// of the cases, in `make refused`.
#[test]
fn replies_twice_on_one_desk(rt: HostRuntime) -> Result<(), Fail> {
    let alloc = rt.alloc();
    let mut desk = Desk::new(alloc, Echo::new(alloc));
    assert!(rt; desk.step(Event::Open(2)).is_ok());
    for _ in 0..2 {
        let mut reader = Counted::new(Peer::new(
            REQUEST.as_bytes(),
            4096,
            REQUEST.len(),
            Stop::Ends,
        ));
        let mut writer = CountedWriter::new(Taker::new(512, 512, Stop::Fails));
        let served = serve(alloc, &mut reader, &mut writer, &mut desk, 1);
        assert_eq!(rt; served, Ok(Ending::PeerEnded));
        assert!(rt; writer.writer().has_taken(REPLY.as_bytes()));
    }
    assert!(rt; desk.step(Event::Close(2)).is_ok());
    Ok(())
}

/// A request of 27 bytes, and its reply.
const SHORT: &str = "GET / HTTP/1.1\r\nHost: x\r\n\r\n";

const SHORT_REPLY: &str = "GET / at revision 0\n";

/// A peer that sends one byte a read and never ends is served for 100,000 reads: 3,703 requests of 27 bytes are complete then, each has its
/// reply, and the connection is closed.
#[test]
fn ends_where_the_turns_are_spent(rt: HostRuntime) -> Result<(), Fail> {
    let alloc = rt.alloc();
    let mut desk = Desk::new(alloc, Echo::new(alloc));
    let mut reader = Counted::new(Endless::new(SHORT.as_bytes()));
    let mut writer = CountedWriter::new(Copies::new(SHORT_REPLY.as_bytes()));
    let served = serve(alloc, &mut reader, &mut writer, &mut desk, 1);
    assert_eq!(rt; served, Err(ServeFault::TurnsSpent));
    assert_eq!(rt; reader.reader().reads(), 100_000);
    assert_eq!(rt; writer.writer().count(), Some(3703));
    assert!(rt; desk.step(Event::Open(1)).is_ok());
    Ok(())
}

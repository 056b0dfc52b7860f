//! A connection that is taken from a listener.

use cad_desk::Desk;
use cad_serve::listen;
use std::io::{Read, Write};
use std::net::{TcpListener, TcpStream};
use std::test::Fail;
use test_support::Echo;

const REQUEST: &str =
    "GET /collections/parcels/items?filter=area+%3E+400 HTTP/1.1\r\nHost: x\r\nConnection: close\r\n\r\n";

const REPLY: &str = "GET /collections/parcels/items?filter=area+%3E+400 at revision 0\n";

/// A client that connected before gets its reply, and the connection ends with it.
#[test]
fn serves_a_client_that_waits(rt: HostRuntime) -> Result<(), Fail> {
    let alloc = rt.alloc();
    let mut desk = Desk::new(alloc, Echo::new(alloc));
    let listener = TcpListener::bind(&rt, "127.0.0.1:0")?;
    let mut client = TcpStream::connect(&rt, listener.local_addr()?)?;
    client.write_all(REQUEST.as_bytes())?;
    let mut told = Vec::new(alloc);
    let status = listen(alloc, &listener, &mut told, 1, &mut desk);
    let mut reply = Vec::new(alloc);
    client.read_to_end(&mut reply)?;
    assert_eq!(rt; status, 0);
    assert!(rt; told.is_empty());
    assert_eq!(rt; reply.as_slice(), REPLY.as_bytes());
    Ok(())
}

/// A connection that cannot be taken is reported by a line, and the program waits for the next one.
#[test]
fn tells_of_what_goes_wrong(rt: HostRuntime) -> Result<(), Fail> {
    let alloc = rt.alloc();
    let mut desk = Desk::new(alloc, Echo::new(alloc));
    let listener = TcpListener::bind(&rt, "127.0.0.1:0")?;
    listener.set_nonblocking(true)?;
    let mut told = Vec::new(alloc);
    let status = listen(alloc, &listener, &mut told, 2, &mut desk);
    assert_eq!(rt; status, 1);
    assert_eq!(rt;
        told.as_slice(),
        "serve: 1 Read\nserve: 1 Read\n".as_bytes()
    );
    Ok(())
}

//! A desk over a register with a damaged row.

use crate::damage::changed;
use cad_desk::Desk;
use cad_register::Register;
use cad_server::Server;
use cad_stream::Responder;
use sqlite::MemStore;
use std::alloc::Global;
use std::process::Abort;
use std::test::Fail;
use test_support::{Memory as Want, answer, line_of};

/// A desk of the server over a register in a database.
fn desk_over(
    alloc: Global,
    register: Register<MemStore>,
) -> Result<Desk<Server<Register<MemStore>>>, Fail> {
    match Server::new(alloc, register) {
        Ok(server) => Ok(Desk::new(alloc, server)),
        Err(_) => Err("server")?,
    }
}

/// Gives the desk each line of a script, and compares what is printed for it.
fn tell<R: Responder>(
    rt: &impl Abort,
    alloc: Global,
    desk: &mut Desk<R>,
    script: &str,
    answers: &str,
) -> Result<(), Fail> {
    for (line, wanted) in script.lines().zip(answers.lines()) {
        let event = line_of(alloc, line.as_bytes())?.ok_or("a line of a script")?;
        let told = answer(alloc, desk, event, Want::IsAmple)?;
        assert_eq!(rt; told.as_str(), wanted, "{line}");
    }
    Ok(())
}

/// For a register whose parcel 2 has no label: a request at a revision that has that row is refused and closes only its connection, and all
/// else continues.
const DAMAGED: &str =
    r#"serve 1 "GET /collections/parcels/items?filter=area+%3E+400 HTTP/1.1\r\nHost: x\r\n\r\n"
serve 1 "GET / HTTP/1.1\r\nHost: x\r\n\r\n"
open 2
bytes 2 "GET / HTTP/1.1\r\n"
serve 1 "GET /collections/units/items/10.1 HTTP/1.1\r\nHost: x\r\n\r\n"
office {"do":"enter","object":12,"first":"2000-01-01","unit":{}}
office {"do":"amend","object":1,"first":"2020-01-01","parcel":{"unit":12,"label":"A-1"}}
office {"do":"retire","object":2,"last":"2020-01-01"}
bytes 2 "Host: x\r\n\r\n"
bytes 2 "GET /collections/parcels/items?revision=5 HTTP/1.1\r\nHost: x\r\n\r\n"
bytes 2 "GET /collections/parcels/items?revision=99 HTTP/1.1\r\nHost: x\r\n\r\n"
serve 1 "GET /collections/parcels/items?revision=5&filter=area+%3E+300 HTTP/1.1\r\nHost: x\r\n\r\n"
bytes 2 "GET /collections/parcels/items?revision=6 HTTP/1.1\r\nHost: x\r\n\r\n"
bytes 2 "GET / HTTP/1.1\r\nHost: x\r\n\r\n""#;

const DAMAGED_ANSWERS: &str =
    r#"5 Register Damaged "HTTP/1.1 500 Internal Server Error\r\nContent-Length: 0\r\nConnection: close\r\n\r\n"
peer ended "HTTP/1.1 200 OK\r\nContent-Type: application/json\r\nContent-Length: 145\r\n\r\n{\"links\":[{\"href\":\"/\",\"rel\":\"self\",\"type\":\"application/json\"},{\"href\":\"/collections\",\"rel\":\"data\",\"type\":\"application/json\"}],\"title\":\"Cadastre\"}"
Opened
Sent ""
5 Register Damaged "HTTP/1.1 500 Internal Server Error\r\nContent-Length: 0\r\nConnection: close\r\n\r\n"
Entered 11
Entered 12
Entered 13
Sent "HTTP/1.1 200 OK\r\nContent-Type: application/json\r\nContent-Length: 145\r\n\r\n{\"links\":[{\"href\":\"/\",\"rel\":\"self\",\"type\":\"application/json\"},{\"href\":\"/collections\",\"rel\":\"data\",\"type\":\"application/json\"}],\"title\":\"Cadastre\"}"
Sent "HTTP/1.1 200 OK\r\nContent-Type: application/json\r\nContent-Length: 719\r\n\r\n{\"features\":[{\"geometry\":{\"coordinates\":[[[0,0],[20000,0],[20000,20000],[0,20000],[0,0]]],\"type\":\"Polygon\"},\"id\":\"1.1\",\"properties\":{\"area\":400,\"begin\":\"2001-01-01\",\"end\":\"2009-12-31\",\"label\":\"A-1\",\"number\":1,\"object\":1,\"reference_point\":null,\"unit\":10,\"unit_name\":\"Mill\"},\"type\":\"Feature\"},{\"geometry\":{\"coordinates\":[[[0,0],[20000,0],[20000,20000],[0,20000],[0,0]]],\"type\":\"Polygon\"},\"id\":\"1.2\",\"properties\":{\"area\":380,\"begin\":\"2010-01-01\",\"end\":null,\"label\":\"A-1\",\"number\":2,\"object\":1,\"reference_point\":null,\"unit\":10,\"unit_name\":\"Mill\"},\"type\":\"Feature\"}],\"links\":[{\"href\":\"/collections/parcels/items?revision=5\",\"rel\":\"self\",\"type\":\"application/json\"}],\"numberReturned\":2,\"revision\":5,\"type\":\"FeatureCollection\"}"
Sent "HTTP/1.1 400 Bad Request\r\nContent-Type: application/json\r\nContent-Length: 20\r\n\r\n{\"fault\":\"revision\"}"
peer ended "HTTP/1.1 200 OK\r\nContent-Type: application/json\r\nContent-Length: 739\r\n\r\n{\"features\":[{\"geometry\":{\"coordinates\":[[[0,0],[20000,0],[20000,20000],[0,20000],[0,0]]],\"type\":\"Polygon\"},\"id\":\"1.1\",\"properties\":{\"area\":400,\"begin\":\"2001-01-01\",\"end\":\"2009-12-31\",\"label\":\"A-1\",\"number\":1,\"object\":1,\"reference_point\":null,\"unit\":10,\"unit_name\":\"Mill\"},\"type\":\"Feature\"},{\"geometry\":{\"coordinates\":[[[0,0],[20000,0],[20000,20000],[0,20000],[0,0]]],\"type\":\"Polygon\"},\"id\":\"1.2\",\"properties\":{\"area\":380,\"begin\":\"2010-01-01\",\"end\":null,\"label\":\"A-1\",\"number\":2,\"object\":1,\"reference_point\":null,\"unit\":10,\"unit_name\":\"Mill\"},\"type\":\"Feature\"}],\"links\":[{\"href\":\"/collections/parcels/items?revision=5&filter=area+%3E+300\",\"rel\":\"self\",\"type\":\"application/json\"}],\"numberReturned\":2,\"revision\":5,\"type\":\"FeatureCollection\"}"
5 Register Damaged
1 UnknownConnection"#;

#[test]
fn a_damaged_row_refuses_the_revisions_that_have_it_alone(rt: HostRuntime) -> Result<(), Fail> {
    let alloc = rt.alloc();
    let register = changed(alloc, "UPDATE version SET label = NULL WHERE object = 2")?;
    let mut desk = desk_over(alloc, register)?;
    tell(&rt, alloc, &mut desk, DAMAGED, DAMAGED_ANSWERS)
}

/// Whether the desk answers a page of the revision with 500, and not with 200.
fn refuses<R: Responder>(alloc: Global, desk: &mut Desk<R>, revision: u64) -> Result<bool, Fail> {
    let line = format!(in alloc;
        r#"serve 1 "GET /collections/parcels/items?revision={revision} HTTP/1.1\r\nHost: x\r\n\r\n""#
    )?;
    let event = line_of(alloc, line.as_bytes())?.ok_or("a line of a script")?;
    let told = answer(alloc, desk, event, Want::IsAmple)?;
    if told.starts_with("5 Register Damaged \"HTTP/1.1 500 ") {
        return Ok(true);
    }
    if told.starts_with("peer ended \"HTTP/1.1 200 ") {
        return Ok(false);
    }
    Err("another answer")?
}

/// Asks for each revision of a register with this change: as the first request of a desk, and after those before it.
fn refuses_exactly(
    rt: &impl Abort,
    alloc: Global,
    change: &str,
    refused: &[u64],
) -> Result<(), Fail> {
    let mut desk = desk_over(alloc, changed(alloc, change)?)?;
    for revision in 0..11 {
        let wanted = refused.contains(&revision);
        let mut new = desk_over(alloc, changed(alloc, change)?)?;
        assert_eq!(rt;
            refuses(alloc, &mut new, revision)?,
            wanted,
            "{revision}: {change}"
        );
        assert_eq!(rt;
            refuses(alloc, &mut desk, revision)?,
            wanted,
            "{revision}, later: {change}"
        );
    }
    Ok(())
}

/// The version 1.2 is entered at revision 5, by the command after the one that entered 1.1.
#[test]
fn each_revision_is_judged_by_its_own_rows(rt: HostRuntime) -> Result<(), Fail> {
    let alloc = rt.alloc();
    let label = "UPDATE version SET label = NULL WHERE object = 2";
    refuses_exactly(&rt, alloc, label, &[6, 7, 8, 9, 10])?;
    let early = "UPDATE version SET entered = 7, closed = 7 WHERE object = 1 AND number = 1";
    refuses_exactly(&rt, alloc, early, &[5, 6])?;
    refuses_exactly(
        &rt,
        alloc,
        "UPDATE version SET label = 'B-9' WHERE object = 2",
        &[],
    )
}

//! What a server's summary says of its commands: their chain and the highest number of an object.

use crate::register::{created, in_memory};
use cad_commands::read_command;
use cad_register::{Command, Register};
use cad_server::Server;
use cad_stream::{JournalResponder, Responder};
use hex::encode;
use sqlite::MemStore;
use std::alloc::Global;
use std::process::Abort;
use std::test::Fail;

type RegisterServer = Server<Register<MemStore>>;

/// Commands of the office, the last of which is refused.
const COMMANDS: [&str; 4] = [
    r#"{"do":"enter","object":11,"first":"2000-01-01","unit":{}}"#,
    r#"{"do":"enter","object":3,"first":"2003-01-01","parcel":{"unit":11,"label":"b-7"}}"#,
    r#"{"do":"retire","object":3,"last":"2020-12-31"}"#,
    r#"{"do":"retire","object":12,"last":"2020-12-31"}"#,
];

/// The chain of the first two of them, as Python's hashlib computes it of their lines in the journal.
const OF_TWO: &str = "f5431766b392d847fae6d1799ef6464dd6b220553a100f846b98b52173c432e5";

/// Of the first three.
const OF_THREE: &str = "7a246bc076154d53c5995a165d62d7db2d37418df9b5680016355b2dd1d5c04f";

/// Of none.
const OF_NONE: &str = "0000000000000000000000000000000000000000000000000000000000000000";

fn command(alloc: Global, text: &str) -> Result<Command, Fail> {
    Ok(
        read_command(alloc, text.as_bytes())
            .ok()
            .ok_or("a command")?,
    )
}

fn server(alloc: Global) -> Result<RegisterServer, Fail> {
    let connection = in_memory(alloc).ok_or("in memory")?;
    let register = created(alloc, connection).ok_or("created")?;
    Ok(Server::new(alloc, register).ok().ok_or("server")?)
}

/// Enters one of the commands, and returns whether it was accepted.
fn enters(alloc: Global, server: &mut RegisterServer, text: &str) -> Result<bool, Fail> {
    let command = command(alloc, text)?;
    Ok(server.enter(command).is_ok())
}

/// Compares the chain that the summary tells.
fn tells(rt: &impl Abort, alloc: Global, server: &RegisterServer, chain: &str) -> Result<(), Fail> {
    let told = server.summary().chain.ok_or("a chain")?;
    let digits = encode(alloc, told.digest().as_slice())?;
    assert_eq!(rt; digits.as_str(), chain);
    Ok(())
}

#[test]
fn a_chain_is_read_and_then_follows_each_command(rt: HostRuntime) -> Result<(), Fail> {
    let alloc = rt.alloc();
    let mut server = server(alloc)?;
    assert!(rt; enters(alloc, &mut server, COMMANDS[0])?);
    assert!(rt; enters(alloc, &mut server, COMMANDS[1])?);
    assert_eq!(rt; server.summary().chain, None);
    assert!(rt; server.keep_chain().is_ok());
    tells(&rt, alloc, &server, OF_TWO)?;
    assert!(rt; !enters(alloc, &mut server, COMMANDS[3])?);
    tells(&rt, alloc, &server, OF_TWO)?;
    assert!(rt; enters(alloc, &mut server, COMMANDS[2])?);
    tells(&rt, alloc, &server, OF_THREE)
}

#[test]
fn the_chain_of_a_new_register_is_32_zeros(rt: HostRuntime) -> Result<(), Fail> {
    let alloc = rt.alloc();
    let mut server = server(alloc)?;
    assert!(rt; server.keep_chain().is_ok());
    tells(&rt, alloc, &server, OF_NONE)?;
    for text in COMMANDS {
        enters(alloc, &mut server, text)?;
    }
    tells(&rt, alloc, &server, OF_THREE)
}

#[test]
fn the_highest_number_is_known_once_the_register_is_read(rt: HostRuntime) -> Result<(), Fail> {
    let alloc = rt.alloc();
    let mut server = server(alloc)?;
    assert!(rt; enters(alloc, &mut server, COMMANDS[0])?);
    assert_eq!(rt; server.summary().highest_object, None);
    assert!(rt; server.prepare().is_ok());
    assert_eq!(rt; server.summary().highest_object, Some(11));
    assert!(rt; enters(alloc, &mut server, COMMANDS[1])?);
    assert_eq!(rt; server.summary().highest_object, Some(11));
    let other = r#"{"do":"enter","object":12,"first":"2000-01-01","unit":{}}"#;
    assert!(rt; enters(alloc, &mut server, other)?);
    assert_eq!(rt; server.summary().highest_object, Some(12));
    Ok(())
}

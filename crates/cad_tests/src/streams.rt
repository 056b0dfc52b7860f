//! The office over readers and writers that fail.

use cad_io::Counted;
use cad_memory_ledger::MemoryLedger;
use cad_office::{OfficeFault, office};
use cad_versions::Ledger;
use std::test::Fail;
use test_support::{Endless, Peer, Stop, Taker};

/// Two commands, with a line between them that is no command.
const LINES: &str = r#"{"do":"enter","object":11,"first":"2000-01-01","unit":{}}
hello
{"do":"retire","object":11,"last":"2000-01-01"}
"#;

const ANSWERS: &str = "revision 1\nrefused 0 NotACommand\nrevision 2\n";

/// After so many bytes of the lines these are the answers, and the ledger has that revision.
const PROGRESS: [(usize, &str, u64); 4] = [
    (0, "", 0),
    (58, "revision 1\n", 1),
    (64, "revision 1\nrefused 0 NotACommand\n", 1),
    (112, ANSWERS, 2),
];

/// The answers and the revision after so many bytes of the lines.
fn progress(bytes: usize) -> (&'static str, u64) {
    let mut reached = ("", 0);
    for (from, answers, revision) in PROGRESS {
        if from <= bytes {
            reached = (answers, revision);
        }
    }
    reached
}

/// For each number of bytes after which a read fails, the lines before are answered, and no read is made after it.
#[test]
fn stops_where_reading_does(rt: HostRuntime) -> Result<(), Fail> {
    for bytes in 0..=LINES.len() {
        for piece in [1, 7, 4096] {
            let mut reader = Counted::new(Peer::new(LINES.as_bytes(), piece, bytes, Stop::Fails));
            let mut writer = Taker::new(512, 512, Stop::Fails);
            let mut ledger = MemoryLedger::new(rt.alloc());
            let ended = office(rt.alloc(), &mut reader, &mut writer, &mut ledger);
            let (answers, revision) = progress(bytes);
            assert_eq!(rt; ended, Err(OfficeFault::Read), "after {bytes}");
            assert_eq!(rt;
                reader.reader().reads(),
                bytes.div_ceil(piece) + 1,
                "after {bytes}"
            );
            assert!(rt; writer.has_taken(answers.as_bytes()), "after {bytes}");
            assert_eq!(rt; ledger.revision(), revision, "after {bytes}");
        }
    }
    Ok(())
}

/// For each number of bytes after which a write fails or takes nothing, so many bytes of the answers were written.
#[test]
fn stops_where_writing_does(rt: HostRuntime) -> Result<(), Fail> {
    for most in 0..=ANSWERS.len() {
        for (piece, stop) in [(1, Stop::Ends), (100, Stop::Fails)] {
            let mut reader = Counted::new(Peer::new(
                LINES.as_bytes(),
                4096,
                LINES.len(),
                Stop::Ends,
            ));
            let mut writer = Taker::new(piece, most, stop);
            let mut ledger = MemoryLedger::new(rt.alloc());
            let ended = office(rt.alloc(), &mut reader, &mut writer, &mut ledger);
            let wanted = if most == ANSWERS.len() {
                Ok(false)
            } else {
                Err(OfficeFault::Write)
            };
            assert_eq!(rt; ended, wanted, "after {most}");
            assert!(rt;
                writer.has_taken(&ANSWERS.as_bytes()[..most]),
                "after {most}"
            );
        }
    }
    Ok(())
}

/// A reader that gives line feeds without end is read 1,000,000 times, and nothing is answered.
#[test]
fn ends_where_the_turns_are_spent(rt: HostRuntime) -> Result<(), Fail> {
    let mut reader = Counted::new(Endless::new(b"\n"));
    let mut writer = Taker::new(512, 512, Stop::Fails);
    let mut ledger = MemoryLedger::new(rt.alloc());
    let ended = office(rt.alloc(), &mut reader, &mut writer, &mut ledger);
    assert_eq!(rt; ended, Err(OfficeFault::TurnsSpent));
    assert_eq!(rt; reader.reader().reads(), 1_000_000);
    assert!(rt; writer.has_taken(b""));
    Ok(())
}

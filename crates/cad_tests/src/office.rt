//! The office over a register.

use cad_io::Counted;
use cad_office::office;
use cad_register::{Register, RegisterFault, Version};
use cad_sample::fill;
use sqlite::{Connection, MemStore};
use std::alloc::{AllocError, Global};
use std::io::Cursor;
use std::process::Abort;

type MemoryRegister = Register<MemStore>;

fn empty_register(rt: &impl Abort, alloc: Global) -> MemoryRegister {
    let connection = Connection::open_in_memory(alloc).expect(rt, "memory");
    match Register::create(alloc, connection) {
        Ok(register) => register,
        Err((fault, connection)) => {
            drop(connection.into_store());
            panic!(rt; "{fault:?}")
        }
    }
}

fn opened_again(rt: &impl Abort, alloc: Global, register: MemoryRegister) -> MemoryRegister {
    match Register::open(alloc, register.release()) {
        Ok(register) => register,
        Err((fault, connection)) => {
            drop(connection.into_store());
            panic!(rt; "{fault:?}")
        }
    }
}

fn end(register: MemoryRegister) {
    drop(register.release().into_store());
}

/// What is printed for the lines.
fn printed(
    rt: &impl Abort,
    alloc: Global,
    register: &mut MemoryRegister,
    lines: &str,
) -> Result<Vec<u8>, AllocError> {
    let mut out = Vec::new(alloc);
    let ended = office(
        alloc,
        &mut Counted::new(Cursor::new(lines.as_bytes())),
        &mut out,
        register,
    );
    assert!(rt; ended.is_ok());
    Ok(out)
}

/// Versions as `object.number first..last`, with day numbers.
fn told(alloc: Global, versions: &[Version]) -> Result<String, AllocError> {
    let mut text = String::new(alloc);
    for version in versions {
        let object = version.object.number();
        let number = version.number;
        let first = version.first.number();
        let last = version.last.map(|day| day.number());
        write!(text, "{object}.{number} {first}..{last:?} ")?;
    }
    Ok(text)
}

fn features_given(
    alloc: Global,
    register: &mut MemoryRegister,
    revision: u64,
) -> Result<String, AllocError> {
    match register.as_of(revision) {
        Ok(versions) => told(alloc, &versions),
        Err(fault) => format!(in alloc; "{fault:?}"),
    }
}

const LINES: &str = r#"{"do":"enter","object":11,"first":"2000-01-01","unit":{}}
{"do":"enter","object":3,"first":"2003-01-01","parcel":{"unit":12,"label":"b-7"}}
{"do":"amend","object":11,"first":"2001-01-01","party":{"code":"x"}}
{"do":"retire","object":99,"last":"2000-01-01"}
{"do":"retire","object":11,"last":"2000-01-01"}
{"do":"amend","object":11,"first":"2001-01-01","unit":{}}
{"do":"enter","object":0,"first":"2001-01-01","unit":{}}
"#;

const ANSWERS: &str = "revision 1
refused 6 UnknownReference
refused 3 OtherClass
refused 2 UnknownObject
revision 2
refused 5 Retired
refused 0 NotACommand
";

#[test]
fn answers_by_the_register(rt: HostRuntime) -> Result<(), AllocError> {
    let alloc = rt.alloc();
    let mut register = empty_register(&rt, alloc);
    let answered = answers(&rt, alloc, &mut register);
    let kept = keeps(&rt, alloc, &mut register);
    let mut register = opened_again(&rt, alloc, register);
    let kept_then = keeps(&rt, alloc, &mut register);
    end(register);
    answered.and(kept).and(kept_then)
}

fn answers(
    rt: &impl Abort,
    alloc: Global,
    register: &mut MemoryRegister,
) -> Result<(), AllocError> {
    let out = printed(rt, alloc, register, LINES)?;
    assert_eq!(rt; out.as_slice(), ANSWERS.as_bytes());
    Ok(())
}

fn keeps(rt: &impl Abort, alloc: Global, register: &mut MemoryRegister) -> Result<(), AllocError> {
    for (revision, versions) in [
        (0, ""),
        (1, "11.1 10957..None "),
        (2, "11.1 10957..Some(10957) "),
        (3, "UnknownRevision"),
    ] {
        let text = features_given(alloc, register, revision)?;
        assert_eq!(rt; text.as_str(), versions, "{revision}");
    }
    Ok(())
}

#[test]
fn fills_a_register_once(rt: HostRuntime) -> Result<(), AllocError> {
    let alloc = rt.alloc();
    let mut register = empty_register(&rt, alloc);
    assert_eq!(rt; fill(alloc, &mut register), Ok(10));
    let refused = refuses(&rt, alloc, &mut register);
    assert_eq!(rt; register.revision(), 10);
    assert_eq!(rt; fill(alloc, &mut register), Err(RegisterFault::KnownObject));
    let sampled = holds_the_sample(&rt, alloc, &mut register);
    end(register);
    refused.and(sampled)
}

fn refuses(
    rt: &impl Abort,
    alloc: Global,
    register: &mut MemoryRegister,
) -> Result<(), AllocError> {
    let lines = r#"{"do":"amend","object":3,"first":"2003-01-01","parcel":{"unit":11,"label":"b-7"}}
{"do":"enter","object":3,"first":"2003-01-01","parcel":{"unit":11,"label":"b-7"}}
"#;
    let out = printed(rt, alloc, register, lines)?;
    let answers = "refused 4 DayNotAfter 2003-01-01\nrefused 1 KnownObject\n";
    assert_eq!(rt; out.as_slice(), answers.as_bytes());
    Ok(())
}

fn holds_the_sample(
    rt: &impl Abort,
    alloc: Global,
    register: &mut MemoryRegister,
) -> Result<(), AllocError> {
    let sample =
        "1.1 11323..Some(14609) 1.2 14610..None 2.1 12935..None 3.1 12053..None 4.1 12053..None 10.1 10957..None 11.1 10957..None 20.1 10957..None 30.1 12784..None 31.1 13149..None ";
    let text = features_given(alloc, register, 10)?;
    assert_eq!(rt; text.as_str(), sample);
    Ok(())
}

//! The memory that the program occupies.

use cad_io::number;
use std::fs::{self, Files};
use std::io::Read;

/// The file in which Linux shows what it knows of the program that reads it.
const STATUS: &str = "/proc/self/status";

/// What the number of its resident kibibytes follows there.
const NAME: &[u8] = b"VmRSS:";

/// The number of resident kibibytes in such a file.
fn kibibytes(text: &[u8]) -> Option<u64> {
    let start = text.windows(NAME.len()).position(|part| part == NAME)?;
    let rest = text.get(start.checked_add(NAME.len())?..)?;
    let blanks = rest.iter().position(|byte| byte.is_ascii_digit())?;
    let digits = rest.get(blanks..)?;
    let count = digits
        .iter()
        .take_while(|byte| byte.is_ascii_digit())
        .count();
    number(digits.get(..count)?)
}

/// The number of resident bytes, or 0 if the system does not show it. One file is opened and read once.
pub(crate) fn resident_bytes<R: Files>(rt: &R) -> u64 {
    let Ok(mut file) = fs::open(rt, STATUS) else {
        return 0;
    };
    let mut buffer = [0; 4096];
    let Ok(count) = file.read(&mut buffer) else {
        return 0;
    };
    let text = buffer.get(..count).unwrap_or(&[]);
    kibibytes(text).unwrap_or(0).saturating_mul(1024)
}

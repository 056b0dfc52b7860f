//! Cases, and the lines that write them.

use std::alloc::{AllocError, Global};

/// A text that is repeated several times.
#[derive(Drop)]
struct Repeated {
    count: usize,
    text: Vec<u8>,
}

/// The cases of successive lines.
#[derive(Drop)]
pub struct Cases {
    alloc: Global,
    /// The texts that replace the marks of a case, from the lines before it.
    repeated: Vec<Repeated>,
}

/// The number and the text after the word `repeat`.
fn repeat_of(alloc: Global, line: &[u8]) -> Result<Option<Repeated>, AllocError> {
    let Some(rest) = line.strip_prefix(b"repeat ") else {
        return Ok(None);
    };
    let Some(end) = rest.iter().position(|byte| *byte == b' ') else {
        return Ok(None);
    };
    let Ok(digits) = str::from_utf8(&rest[..end]) else {
        return Ok(None);
    };
    let Ok(count) = digits.parse::<usize>() else {
        return Ok(None);
    };
    let text = Vec::from_slice(alloc, &rest[end + 1..])?;
    Ok(Some(Repeated { count, text }))
}

/// Appends a text as often as it is repeated.
fn push_repeated(out: &mut Vec<u8>, repeated: &Repeated) -> Result<(), AllocError> {
    for _ in 0..repeated.count {
        out.extend_from_slice(&repeated.text)?;
    }
    Ok(())
}

/// The bytes of a case, with each mark replaced by its text.
fn expanded(alloc: Global, line: &[u8], repeated: &[Repeated]) -> Result<Vec<u8>, AllocError> {
    let mut out = Vec::new(alloc);
    let mut marks = repeated.iter();
    for byte in line {
        let mark = if *byte == b'@' { marks.next() } else { None };
        match mark {
            Some(repeated) => push_repeated(&mut out, repeated)?,
            None => out.push(*byte)?,
        }
    }
    Ok(out)
}

impl Cases {
    /// No lines yet.
    pub fn new(alloc: Global) -> Cases {
        Cases {
            alloc,
            repeated: Vec::new(alloc),
        }
    }

    /// The case of the next line, if it is one.
    pub fn case_of(&mut self, line: &[u8]) -> Result<Option<Vec<u8>>, AllocError> {
        if line.is_empty() || line.starts_with(b"#") {
            return Ok(None);
        }
        if let Some(repeated) = repeat_of(self.alloc, line)? {
            self.repeated.push(repeated)?;
            return Ok(None);
        }
        let case = expanded(self.alloc, line, &self.repeated)?;
        self.repeated.clear();
        Ok(Some(case))
    }
}

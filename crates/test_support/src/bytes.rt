//! Bytes, and the JSON that writes them: each character of a string means the byte of its number.

use serde_json::{Error, Value};
use std::alloc::{AllocError, Global};

/// Appends the bytes of a text. Returns whether each of its characters means a byte.
fn push_text(out: &mut Vec<u8>, text: &str) -> Result<bool, AllocError> {
    for character in text.chars() {
        let Ok(byte) = u8::try_from(u32::from(character)) else {
            return Ok(false);
        };
        out.push(byte)?;
    }
    Ok(true)
}

/// Appends the bytes of a text so many times.
fn push_often(out: &mut Vec<u8>, count: u64, text: &str) -> Result<bool, AllocError> {
    for _ in 0..count {
        if !push_text(out, text)? {
            return Ok(false);
        }
    }
    Ok(true)
}

/// Appends the bytes of a part: a string, or a number of times and the string. Returns whether it is a part.
fn push_part(out: &mut Vec<u8>, part: &Value) -> Result<bool, AllocError> {
    if let Some(text) = part.as_str() {
        return push_text(out, text);
    }
    let Some(pair) = part.as_array() else {
        return Ok(false);
    };
    let [count, text] = pair.as_slice() else {
        return Ok(false);
    };
    match (count.as_u64(), text.as_str()) {
        (Some(count), Some(text)) => push_often(out, count, text),
        _ => Ok(false),
    }
}

/// Appends the bytes of a string, or of a list of parts. Returns whether it is one of these.
fn push_all(out: &mut Vec<u8>, value: &Value) -> Result<bool, AllocError> {
    let Some(parts) = value.as_array() else {
        return push_part(out, value);
    };
    for part in parts {
        if !push_part(out, part)? {
            return Ok(false);
        }
    }
    Ok(true)
}

/// The value of a line, if it is JSON.
fn value_of(alloc: Global, line: &[u8]) -> Result<Option<Value>, AllocError> {
    let Ok(text) = str::from_utf8(line) else {
        return Ok(None);
    };
    match Value::from_str(alloc, text) {
        Ok(value) => Ok(Some(value)),
        Err(error) => without_value(error),
    }
}

fn without_value(error: Error) -> Result<Option<Value>, AllocError> {
    if error.is_memory() {
        Err(AllocError)
    } else {
        Ok(None)
    }
}

/// The bytes that a line writes, if it writes any.
pub(crate) fn bytes_of(alloc: Global, line: &[u8]) -> Result<Option<Vec<u8>>, AllocError> {
    let Some(value) = value_of(alloc, line)? else {
        return Ok(None);
    };
    let mut bytes = Vec::new(alloc);
    if push_all(&mut bytes, &value)? {
        Ok(Some(bytes))
    } else {
        Ok(None)
    }
}

/// The JSON string that writes these bytes.
pub(crate) fn json_of(alloc: Global, bytes: &[u8]) -> Result<String, AllocError> {
    let mut text = String::new(alloc);
    for byte in bytes {
        text.push(char::from(*byte))?;
    }
    Value::try_from_str(alloc, text.as_str())?.to_string(alloc)
}

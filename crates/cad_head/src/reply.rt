//! A whole reply.

ghost use Rattle.std.specs.Prelude.{◌≡◌, ◌++◌, IfOk, OnOk, string_bytes};
ghost use Rattle.cad_head.specs.Replies.{line, close_line as close_line_of, reply_text};

use crate::status::Status;
use std::alloc::{AllocError, Global};

/// The bytes of a reply with this JSON body. If `ends` is true, the reply says that the connection ends after it.
/// An error means out of memory.
pub fn reply_bytes(
    alloc: Global,
    status: Status,
    ends: bool,
    body: &str,
) -> Result<Vec<u8>, AllocError>
    ensures { IfOk result (λ bytes. bytes.items ≡ reply_text status ends body.now) }
{
    Ok(reply_string(alloc, status, ends, body)?.into_bytes())
}

fn reply_string(alloc: Global, status: Status, ends: bool, body: &str) -> Result<String, AllocError>
    ensures { IfOk result (λ text. string_bytes text ≡ reply_text status ends body.now) }
{
    let mut text = String::new(alloc);
    push_line(&mut text, "HTTP/1.1 ", status.text())?;
    push_line(&mut text, "Content-Type: application/json", "")?;
    push_line(
        &mut text,
        "Content-Length: ",
        body.len().to_string(alloc)?.as_str(),
    )?;
    text.push_str(status.allow_line())?;
    text.push_str(close_line(ends))?;
    push_line(&mut text, "", "")?;
    text.push_str(body)?;
    Ok(text)
}

fn push_line(text: &mut String, name: &str, value: &str) -> Result<(), AllocError>
    ensures { OnOk result (string_bytes text.new ≡ string_bytes text.old ++ line (name.now ++ value.now)) }
{
    text.push_str(name)?;
    text.push_str(value)?;
    text.push_str("\r\n")
}

fn close_line(ends: bool) -> &'static str
    ensures { result.now ≡ close_line_of ends }
{
    if ends { "Connection: close\r\n" } else { "" }
}

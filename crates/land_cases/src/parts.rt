//! The parts of the input.

ghost use Rattle.std.specs.Prelude.{◌<◌, length};

/// The begin of a part's first line, with the end of the line before it.
const BEGIN: &[u8] = b"\n= ";

/// The bytes before a text and after it. If the text is missing, nothing is after it.
fn split_around<'a>(bytes: &'a [u8], text: &[u8]) -> (&'a [u8], &'a [u8])
    requires { 0 < length text.now }
{
    match bytes.windows(text.len()).position(|piece| piece == text) {
        Some(at) => (&bytes[..at], &bytes[at + text.len()..]),
        None => (bytes, b"".as_slice()),
    }
}

/// The lines between the line of this name and the one that begins the next part. A part that is missing has no lines.
///
/// The name has the end of the line before it, as `\n= days`. The last line is without its end.
pub(crate) fn lines_of<'a>(input: &'a [u8], name: &[u8]) -> &'a [u8]
    requires { 0 < length name.now }
{
    let (_, behind) = split_around(input, name);
    let (lines, _) = split_around(behind, BEGIN);
    lines.strip_prefix(b"\n".as_slice()).unwrap_or(lines)
}

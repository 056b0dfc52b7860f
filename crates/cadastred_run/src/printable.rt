//! Text of printable bytes.

ghost use Rattle.std.specs.Prelude.{◌≡◌, true};
ghost use Rattle.cadastred_run.specs.inner.Printable.{is_printable as is_printable_byte, StaysPrintable};

use std::alloc::AllocError;

fn is_printable(byte: u8) -> bool
    ensures { result ≡ is_printable_byte byte }
{
    b' ' <= byte && byte <= b'~'
}

/// The digit of a number below 16.
fn digit(number: u8) -> u8
    ensures { is_printable_byte result ≡ true }
{
    if number < 10 {
        b'0' + number
    } else if number < 16 {
        b'a' + (number - 10)
    } else {
        b'?'
    }
}

/// Appends a byte: itself if it is printable and neither `"` nor `\`, else `\x` and two digits.
pub(crate) fn push_byte(text: &mut Vec<u8>, byte: u8) -> Result<(), AllocError>
    ensures { StaysPrintable text.old.items text.new.items }
{
    if is_printable(byte) && byte != b'"' && byte != b'\\' {
        text.push(byte)?;
        return Ok(());
    }
    text.push(b'\\')?;
    text.push(b'x')?;
    text.push(digit(byte / 16))?;
    text.push(digit(byte % 16))?;
    Ok(())
}

/// Appends the bytes, each in this form.
pub(crate) fn push_all(text: &mut Vec<u8>, bytes: &[u8]) -> Result<(), AllocError>
    ensures { StaysPrintable text.old.items text.new.items }
{
    for byte in bytes {
        push_byte(text, *byte)?;
    }
    Ok(())
}

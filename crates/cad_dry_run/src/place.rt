//! Where the members of a command are in its line.

ghost use Rattle.std.specs.Prelude.{◌≤◌, length, IfOk};

use json::{MAX_DEPTH, Reader, Scratch};
use std::alloc::{AllocError, Global};
use std::str;

/// A step from a value to one inside it, or to the name of one.
#[derive(Clone, Copy)]
pub enum Step<'a> {
    /// To the value of the object's member with this name. If it is given more than once, the last one counts.
    Member(&'a [u8]),
    /// To the name of that member.
    Name(&'a [u8]),
    /// To the item at this place of the array, counted from 0.
    Item(usize),
}

/// The place of what the steps lead to, from the value of the line on.
pub(crate) fn find(alloc: Global, line: &[u8], steps: &[Step<'_>]) -> Result<usize, AllocError>
    ensures { IfOk result (λ place. place ≤ length line.now) }
{
    let object = start(alloc, line)?;
    find_from(alloc, line, object, steps)
}

/// The place of what the steps lead to, from the value at a place on.
pub(crate) fn find_from(
    alloc: Global,
    line: &[u8],
    from: usize,
    steps: &[Step<'_>],
) -> Result<usize, AllocError>
    requires { from ≤ length line.now }
    ensures { IfOk result (λ place. place ≤ length line.now) }
{
    let mut place = from;
    for step in steps {
        place = next_place(alloc, line, place, *step)?;
    }
    Ok(place)
}

/// The place of the line's value.
fn start(alloc: Global, line: &[u8]) -> Result<usize, AllocError>
    ensures { IfOk result (λ place. place ≤ length line.now) }
{
    let Ok(text) = str::from_utf8(line) else {
        return Ok(0);
    };
    let mut scratch = Scratch::new(alloc);
    let reader = Reader::new(text, &mut scratch)?;
    Ok(reader.offset().min(line.len()))
}

/// The place to which a step leads from the value at a place.
fn next_place(alloc: Global, line: &[u8], from: usize, step: Step<'_>) -> Result<usize, AllocError>
    requires { from ≤ length line.now }
    ensures { IfOk result (λ place. place ≤ length line.now) }
{
    let Ok(text) = str::from_utf8(&line[from..]) else {
        return Ok(from);
    };
    let mut scratch = Scratch::new(alloc);
    let mut reader = Reader::new(text, &mut scratch)?;
    let found = match step {
        Step::Member(name) => member(&mut reader, name, text.len()).1,
        Step::Name(name) => member(&mut reader, name, text.len()).0,
        Step::Item(index) => item(&mut reader, index),
    };
    Ok(from.saturating_add(found).min(line.len()))
}

/// The places of the name and of the value of the last member with this name, in the object that comes next, of at most so many members.
fn member(reader: &mut Reader<'_>, name: &[u8], most: usize) -> (usize, usize) {
    let mut found = (reader.offset(), reader.offset());
    let _ = reader.next();
    for _ in 0..most {
        let name_place = reader.offset();
        let Ok(Some(key)) = reader.next_key() else {
            return found;
        };
        let is_it = key.as_bytes() == name;
        let value_place = reader.offset();
        if is_it {
            found = (name_place, value_place);
        }
        if reader.skip_value(MAX_DEPTH).is_err() {
            return found;
        }
    }
    found
}

/// The place of the item at an index, in the array that comes next.
fn item(reader: &mut Reader<'_>, index: usize) -> usize {
    let _ = reader.next();
    for _ in 0..index {
        let _ = reader.skip_value(MAX_DEPTH);
    }
    reader.offset()
}

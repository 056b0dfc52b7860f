//! Events at a desk whose replies are the words of the requests.

use cad_desk::Desk;
use std::alloc::{AllocError, Global};
use test_support::{Echo, Memory, answer as answer_of_line, line_of};

/// What is printed for a line. Out of memory that the line does not ask for is reported by `Err`.
pub fn answer(alloc: Global, desk: &mut Desk<Echo>, line: &[u8]) -> Result<String, AllocError> {
    let memory = if line.windows(5).any(|part| part == b"/full".as_slice()) {
        Memory::MayBeWanting
    } else {
        Memory::IsAmple
    };
    match line_of(alloc, line)? {
        None => String::from_str(alloc, "no case"),
        Some(line) => answer_of_line(alloc, desk, line, memory),
    }
}

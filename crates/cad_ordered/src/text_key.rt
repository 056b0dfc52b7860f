//! Texts as keys.

ghost use Rattle.std.specs.Prelude.{◌≡◌, drop, get_or, string_bytes};
ghost use Rattle.cad_ordered.specs.Fronts.{front_of, AreBytes};
ghost use Rattle.cad_ordered.specs.TwoFronts.{AreFrontsOf};

use std::alloc::AllocError;
use std::rc::Rc;

/// The byte at that place, or nought behind the last one.
fn byte_at(bytes: &[u8], place: usize) -> u8
    ensures { result ≡ get_or bytes.now place 0 }
{
    if place < bytes.len() { bytes[place] } else { 0 }
}

/// The number whose digits to the base of 256 are the first eight bytes; if there are fewer bytes, the missing digits are zeros.
fn leading(bytes: &[u8]) -> u64
    ensures front { result ≡ front_of 8 bytes.now }
    ensures bytes { AreBytes bytes.now }
{
    let mut front = 0;
    for place in 0..8 {
        front = front * 256 + u64::from(byte_at(bytes, place));
    }
    front
}

/// The bytes behind the first eight.
fn behind_front(bytes: &[u8]) -> &[u8]
    ensures { result.now ≡ drop 8 bytes.now }
{
    match bytes.get(8..) {
        Some(behind) => behind,
        None => &[],
    }
}

/// The number of the first eight bytes of a text, and that of the next eight. Two texts with different numbers are in the order of these,
/// which are quick to compare.
#[derive(Clone, Copy, PartialEq, Eq, PartialOrd, Ord)]
pub(crate) struct Fronts {
    first: u64,
    second: u64,
}

impl Fronts {
    /// The numbers of the text with these bytes.
    pub(crate) fn of(bytes: &[u8]) -> Fronts
        ensures { AreFrontsOf result bytes.now }
    {
        let first = leading(bytes);
        let second = leading(behind_front(bytes));
        Fronts { first, second }
    }
}

/// A text, behind its two numbers. Keys are sorted with these, and most texts are stored without them.
#[derive(PartialEq, Eq, PartialOrd, Ord, Drop)]
pub(crate) struct TextKey {
    pub(crate) fronts: Fronts,
    pub(crate) text: Rc<String>,
    pub ghost fronted: { AreFrontsOf fronts (string_bytes text.value) },
}

impl TextKey {
    ghost use Rattle.std.specs.Prelude.{◌≡◌, IfOk, string_bytes};

    /// The key of the text, which is shared. An error means that too many share it.
    pub(crate) fn of(text: &Rc<String>) -> Result<TextKey, AllocError>
        ensures { IfOk result (λ key. string_bytes key.text.value ≡ string_bytes text.now.value) }
    {
        let text = text.clone()?;
        let fronts = Fronts::of(text.as_ref().as_bytes());
        Ok(TextKey { fronts, text })
    }
}

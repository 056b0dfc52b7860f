//! Splitting a text.

ghost use Rattle.std.specs.Prelude.{◌≡◌, option_map};
ghost use Rattle.cad_parameters.specs.Parts.{parted};

/// The text before and the text after the first such byte, if there is one.
pub(crate) fn part(text: &[u8], byte: u8) -> Option<(&[u8], &[u8])>
    ensures { option_map (λ parts. (parts.0.now, parts.1.now)) result ≡ parted byte text.now }
{
    match text.iter().position(|other| *other == byte) {
        Some(place) => Some((&text[..place], &text[place + 1..])),
        None => None,
    }
}

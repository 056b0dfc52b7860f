//! Hashes of texts, by which most texts are told apart.

ghost use Rattle.std.specs.Prelude.{◌≡◌, ◌<◌, chars};
ghost use Rattle.caseless.specs.Caseless.{default_case_fold};
ghost use Rattle.cql_text.specs.Hashes.{hash_of_text, next_hash};

use caseless::Caseless;

/// Hashes are below this, the greatest prime below 2^32.
const MODULUS: u64 = 4_294_967_291;

/// What the hash of a text is multiplied by before a further character is added.
const FACTOR: u64 = 16_777_619;

fn with_character(hash: u32, character: char) -> u32
    requires { hash < 4294967291 }
    ensures hash { result ≡ next_hash hash character }
    ensures within { result < 4294967291 }
{
    ((u64::from(hash) * FACTOR + u64::from(u32::from(character))) % MODULUS) as u32
}

/// The hash of a text, below 4,294,967,291. Equal texts have one hash.
pub fn hash_of(text: &str) -> u32
    ensures hash { result ≡ hash_of_text (chars text.now) }
    ensures within { result < 4294967291 }
{
    let mut hash = 0;
    for character in text.chars() {
        hash = with_character(hash, character);
    }
    hash
}

/// The hash of a text with its case folded. No memory is taken.
pub fn hash_of_folded(text: &str) -> u32
    ensures hash { result ≡ hash_of_text (default_case_fold (chars text.now)) }
    ensures within { result < 4294967291 }
{
    let mut hash = 0;
    for character in text.chars().default_case_fold() {
        hash = with_character(hash, character);
    }
    hash
}

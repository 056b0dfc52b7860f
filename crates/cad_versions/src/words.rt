//! Short texts: names, codes and labels.

ghost use Rattle.std.specs.Prelude.{◌≡◌, ◌≤◌, ◌==◌, false, length, IsUtf8};
ghost use Rattle.std.specs.List.{list_any};

use std::alloc::AllocError;
use std::marker::Model;
use std::rc::Rc;

// The bytes alone, so that two words with the same spelling are one value. Copies share the text.
#[derive(Debug, Drop)]
struct Spelling {
    text: Rc<String>,
}

impl Model for Spelling {
    ghost use Rattle.std.specs.Prelude.{List, ℕ, string_bytes};

    ghost Value = { List ℕ };

    ghost view = { λ spelling. string_bytes spelling.text.value };
}

/// A text of 1 to 200 bytes of UTF-8 without U+0000.
#[derive(Debug, Drop)]
pub struct Words {
    spelling: Spelling,
    /// The text is not empty.
    pub ghost some: { 1 ≤ length spelling },
    /// It has at most 200 bytes.
    pub ghost few: { length spelling ≤ 200 },
    /// It has no U+0000.
    pub ghost printable: { list_any (λ b. b == 0) spelling ≡ false },
    /// Its bytes are UTF-8.
    pub ghost utf8: { ∥ IsUtf8 spelling ∥₁ },
}

impl Words {
    ghost use Rattle.std.specs.Prelude.{◌≡◌, string_bytes, MatchResult, IfOk, IsUtf8};
    ghost use Rattle.cad_versions.specs.Texts.{AreWords, bytes_of};

    /// The text as words, or the text back if it is not words.
    pub fn new(text: Rc<String>) -> Result<Words, Rc<String>>
        ensures { MatchResult result (λ words. bytes_of words ≡ string_bytes text.value) (λ back.
            (back ≡ text) × ¬ AreWords (string_bytes text.value)) }
    {
        let spelt = text.as_ref();
        if 1 <= spelt.len() && spelt.len() <= 200 && !spelt.as_bytes().contains(&0) {
            Ok(Words {
                spelling: Spelling { text },
            })
        } else {
            Err(text)
        }
    }

    /// The text, of 1 to 200 bytes.
    pub fn as_str(&self) -> &str
        ensures value { result.now ≡ bytes_of self.now }
        ensures words { AreWords result.now }
    {
        self.spelling.text.as_ref().as_str()
    }

    /// The text, which is shared and not copied. An error means that too many share it.
    pub fn text(&self) -> Result<Rc<String>, AllocError>
        ensures { IfOk result (λ text. string_bytes text.value ≡ bytes_of self.now) }
    {
        let text = self.spelling.text.clone()?;
        Ok(text)
    }

    /// A copy of the words, which shares the text. They are not checked again.
    pub fn copy(&self) -> Result<Words, AllocError>
        ensures { IfOk result (λ copy. copy ≡ self.now) }
    {
        let text = self.text()?;
        Ok(Words {
            spelling: Spelling { text },
        })
    }
}

//! The parameters of a request, as pairs of a name and a value.

ghost use Rattle.std.specs.Prelude.{◌≡◌, map, string_bytes, IfOk};
ghost use Rattle.cad_parameters.specs.Pairs.{text_of, pairs_of, pair_text, written};

use form_urlencoded::{Serializer, decode, raw_pairs};
use std::alloc::{AllocError, Global};

/// A parameter, decoded.
#[derive(Debug, Drop)]
pub struct Pair {
    /// The name, without escapes.
    pub name: String,
    /// The value, without escapes.
    pub value: String,
}

fn read_text(alloc: Global, bytes: &[u8]) -> Result<String, AllocError>
    ensures { IfOk result (λ text. string_bytes text ≡ text_of bytes.now) }
{
    decode(alloc, bytes)?.into_owned(alloc)
}

/// The pairs of a query: `+` is a space, and escapes that are no UTF-8 become U+FFFD.
pub fn read_pairs(alloc: Global, query: &[u8]) -> Result<Vec<Pair>, AllocError>
    ensures { IfOk result (λ pairs. map pair_text pairs.items ≡ pairs_of query.now) }
{
    let mut pairs = Vec::new(alloc);
    for (name, value) in raw_pairs(query) {
        let name = read_text(alloc, name)?;
        let value = read_text(alloc, value)?;
        pairs.push(Pair { name, value })?;
    }
    Ok(pairs)
}

/// The pairs written as a query, in their order.
pub(crate) fn write_pairs(alloc: Global, pairs: &[Pair]) -> Result<String, AllocError>
    ensures { IfOk result (λ text. string_bytes text ≡ written (map pair_text pairs.now)) }
{
    let mut form = Serializer::new(String::new(alloc));
    for pair in pairs {
        form.append_pair(pair.name.as_str(), pair.value.as_str())?;
    }
    Ok(form.finish())
}

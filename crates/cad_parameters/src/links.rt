//! The targets of the links of a page.

ghost use Rattle.std.specs.Prelude.{◌≡◌, ◌++◌, codes, map, string_bytes, IfOk, OnOk};
ghost use Rattle.form_urlencoded.specs.Form.{append_pair};
ghost use Rattle.cad_parameters.specs.Pairs.{pair_text, written};
ghost use Rattle.cad_parameters.specs.Identifiers.{numbers_of};
ghost use Rattle.cad_parameters.specs.Links as spec;
ghost use Rattle.cad_parameters.specs.Links.{continued};

use crate::pairs::{Pair, write_pairs};
use cad_versions::Identifier;
use form_urlencoded::Serializer;
use std::alloc::{AllocError, Global};

/// The target of the link to the page itself, over the path of its list.
pub fn self_target(alloc: Global, path: &str, pairs: &[Pair]) -> Result<String, AllocError>
    ensures { IfOk result (λ text. string_bytes text ≡ spec.self_target path.now (map pair_text pairs.now)) }
{
    if pairs.is_empty() {
        return String::from_str(alloc, path);
    }
    let query = write_pairs(alloc, pairs)?;
    with_query(alloc, path, query.as_str())
}

/// The target of the link to the next page, over the path of the list: the same pairs, at the
/// revision of the page and after its last feature.
pub fn next_target(
    alloc: Global,
    path: &str,
    pairs: &[Pair],
    revision: u64,
    last: Identifier,
) -> Result<String, AllocError>
    ensures { IfOk result (λ text. string_bytes text
        ≡ spec.next_target path.now (map pair_text pairs.now) revision (numbers_of last)) }
{
    let query = write_continued(alloc, pairs, revision, last)?;
    with_query(alloc, path, query.as_str())
}

fn with_query(alloc: Global, path: &str, query: &str) -> Result<String, AllocError>
    ensures { IfOk result (λ text. string_bytes text ≡ path.now ++ codes "?" ++ query.now) }
{
    let mut target = String::from_str(alloc, path)?;
    target.push_str("?")?;
    target.push_str(query)?;
    Ok(target)
}

fn write_continued(
    alloc: Global,
    pairs: &[Pair],
    revision: u64,
    last: Identifier,
) -> Result<String, AllocError>
    ensures { IfOk result (λ text. string_bytes text ≡ written (continued revision (numbers_of last) (map pair_text pairs.now))) }
{
    let revision = format!(in alloc; "{revision}")?;
    let after = last.text(alloc)?;
    let mut form = Serializer::new(String::new(alloc));
    for pair in pairs {
        if !is_beginning(pair) {
            form.append_pair(pair.name.as_str(), pair.value.as_str())?;
        }
    }
    append_beginning(&mut form, revision.as_str(), after.as_str())?;
    Ok(form.finish())
}

fn append_beginning(form: &mut Serializer, revision: &str, after: &str) -> Result<(), AllocError>
    ensures { OnOk result (form.new ≡ record form.old {
      form =
          append_pair (append_pair form.old.form (codes "revision") revision.now) (codes "after") after.now;
    }) }
{
    form.append_pair("revision", revision)?;
    form.append_pair("after", after)
}

fn is_beginning(pair: &Pair) -> bool
    ensures { result ≡ spec.is_beginning (pair_text pair.now) }
{
    pair.name.as_str() == "revision" || pair.name.as_str() == "after"
}

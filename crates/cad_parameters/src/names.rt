//! The names of parameters, and the values under them.

ghost use Rattle.std.specs.Prelude.{◌≡◌, [], ◌∷◌, map, codes, option_copied};
ghost use Rattle.std.specs.Result.{result_err};
ghost use Rattle.std.specs.List.{list_any};
ghost use Rattle.cad_parameters.specs.Pairs.{pair_text, given};
ghost use Rattle.cad_parameters.specs.Parameters as spec;
ghost use Rattle.cad_parameters.specs.Parameters.{first_of};

use crate::fault::ParameterFault;
use crate::pairs::Pair;

/// Refuses an unknown name, and then a name that comes twice.
pub(crate) fn check_names(pairs: &[Pair]) -> Result<(), ParameterFault>
    ensures { result_err result
        ≡ first_of (ParameterFault.Unknown ∷ ParameterFault.Repeated ∷ []) (map pair_text pairs.now) }
{
    if has_unknown(pairs) {
        return Err(ParameterFault::Unknown);
    }
    if has_twice(pairs) {
        return Err(ParameterFault::Repeated);
    }
    Ok(())
}

fn is_unknown(pair: &Pair) -> bool
    ensures { result ≡ spec.is_unknown (pair_text pair.now) }
{
    let name = pair.name.as_str();
    let is_known = name == "limit"
        || name == "datetime"
        || name == "bbox"
        || name == "filter-lang"
        || name == "filter"
        || name == "revision"
        || name == "after";
    !is_known
}

fn has_unknown(pairs: &[Pair]) -> bool
    ensures { result ≡ list_any spec.is_unknown (map pair_text pairs.now) }
{
    let mut is_found = false;
    for pair in pairs {
        is_found |= is_unknown(pair);
    }
    is_found
}

fn has_twice(pairs: &[Pair]) -> bool
    ensures { result ≡ spec.has_twice (map pair_text pairs.now) }
{
    let mut rest = pairs;
    while let [pair, others @ ..] = rest {
        if value_under(others, pair.name.as_str()).is_some() {
            return true;
        }
        rest = others;
    }
    false
}

/// The value that is given under a name, if there is one.
pub(crate) fn value_under<'a>(pairs: &'a [Pair], name: &str) -> Option<&'a str>
    ensures { option_copied result ≡ given name.now (map pair_text pairs.now) }
{
    for pair in pairs {
        if pair.name.as_str() == name {
            return Some(pair.value.as_str());
        }
    }
    None
}

/// The text of the filter, if one is given.
pub fn filter_text(pairs: &[Pair]) -> Option<&str>
    ensures { option_copied result ≡ given (codes "filter") (map pair_text pairs.now) }
{
    value_under(pairs, "filter")
}

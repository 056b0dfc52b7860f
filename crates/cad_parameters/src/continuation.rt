//! Where a page begins.

ghost use Rattle.std.specs.Prelude.{◌≡◌, [], ◌∷◌, map, codes, IfOk, option_map};
ghost use Rattle.std.specs.Result.{result_err};
ghost use Rattle.cad_parameters.specs.Pairs.{pair_text};
ghost use Rattle.cad_parameters.specs.Numerals.{revision_of};
ghost use Rattle.cad_parameters.specs.Identifiers.{identifier_named, numbers_of};
ghost use Rattle.cad_parameters.specs.Parameters.{first_of, continuation_faults, value_of_parameter, IsContinuation};

use crate::fault::ParameterFault;
use crate::identifier::read_identifier;
use crate::names::value_under;
use crate::numerals::revision_in;
use crate::pairs::Pair;
use cad_versions::Identifier;

/// Where a page begins: the pages of one walk show one revision, each after the last feature of the one before.
#[derive(Clone, Copy, Debug, PartialEq, Eq)]
pub struct Continuation {
    /// The revision that the page shows; if it is `None`, the one in force.
    pub revision: Option<u64>,
    /// Only features after this one are given. It need not exist.
    pub after: Option<Identifier>,
}

impl Continuation {
    /// Where the pairs say that the page begins, or the first of the faults that are looked for after the filter.
    pub fn read(pairs: &[Pair]) -> Result<Continuation, ParameterFault>
        ensures fault { result_err result ≡ first_of continuation_faults (map pair_text pairs.now) }
        ensures value { IfOk result (IsContinuation (map pair_text pairs.now)) }
    {
        let revision = revision(pairs)?;
        let after = read_after(pairs)?;
        Ok(Continuation { revision, after })
    }
}

fn revision(pairs: &[Pair]) -> Result<Option<u64>, ParameterFault>
    ensures fault { result_err result ≡ first_of (ParameterFault.Revision ∷ []) (map pair_text pairs.now) }
    ensures value { IfOk result (λ revision. revision ≡ value_of_parameter revision_of (codes "revision") (map pair_text pairs.now)) }
{
    match value_under(pairs, "revision") {
        Some(text) => match revision_in(text) {
            Some(revision) => Ok(Some(revision)),
            None => Err(ParameterFault::Revision),
        },
        None => Ok(None),
    }
}

fn read_after(pairs: &[Pair]) -> Result<Option<Identifier>, ParameterFault>
    ensures fault { result_err result ≡ first_of (ParameterFault.After ∷ []) (map pair_text pairs.now) }
    ensures value { IfOk result (λ after. option_map numbers_of after ≡ value_of_parameter identifier_named (codes "after") (map pair_text pairs.now)) }
{
    match value_under(pairs, "after") {
        Some(text) => match read_identifier(text) {
            Some(identifier) => Ok(Some(identifier)),
            None => Err(ParameterFault::After),
        },
        None => Ok(None),
    }
}

//! Which features are asked for, except for the filter.

ghost use Rattle.std.specs.Prelude.{◌≡◌, [], ◌∷◌, map, codes, IfOk, option_map, unwrap_or};
ghost use Rattle.std.specs.Result.{result_err};
ghost use Rattle.cad_day.specs.Moments.{numbers_of as ends_of};
ghost use Rattle.cad_parameters.specs.Pairs.{pair_text};
ghost use Rattle.cad_parameters.specs.Numerals.{limit_of};
ghost use Rattle.cad_parameters.specs.Boxes.{box_numbers, box_of};
ghost use Rattle.cad_parameters.specs.Parameters.{first_of, selection_faults, days_of, value_of_parameter, IsSelection};

use crate::boxes::bounds_in;
use crate::fault::ParameterFault;
use crate::names::{check_names, value_under};
use crate::numerals::limit_in;
use crate::pairs::Pair;
use cad_day::{Interval, asked};
use cad_shape::Bounds;

/// Which features are asked for, except for the filter.
#[derive(Clone, Copy, Debug, PartialEq, Eq)]
pub struct Selection {
    /// The most features, from 1 to 1,000.
    pub limit: u32,
    /// The days that a version's lifespan has to meet.
    pub datetime: Option<Interval>,
    /// The box that a geometry has to meet, in millimetres.
    pub bbox: Option<Bounds>,
}

impl Selection {
    /// What the pairs select, or the first of the faults that are looked for before the filter.
    pub fn read(pairs: &[Pair]) -> Result<Selection, ParameterFault>
        ensures fault { result_err result ≡ first_of selection_faults (map pair_text pairs.now) }
        ensures value { IfOk result (IsSelection (map pair_text pairs.now)) }
    {
        check_names(pairs)?;
        let limit = limit(pairs)?;
        let datetime = datetime(pairs)?;
        let bbox = bbox(pairs)?;
        check_language(pairs)?;
        Ok(Selection {
            limit,
            datetime,
            bbox,
        })
    }
}

fn limit(pairs: &[Pair]) -> Result<u32, ParameterFault>
    ensures fault { result_err result ≡ first_of (ParameterFault.Limit ∷ []) (map pair_text pairs.now) }
    ensures value { IfOk result (λ n. n ≡ unwrap_or (value_of_parameter limit_of (codes "limit") (map pair_text pairs.now)) 10) }
{
    match value_under(pairs, "limit") {
        Some(text) => limit_in(text).ok_or(ParameterFault::Limit),
        None => Ok(10),
    }
}

fn datetime(pairs: &[Pair]) -> Result<Option<Interval>, ParameterFault>
    ensures fault { result_err result ≡ first_of (ParameterFault.Datetime ∷ []) (map pair_text pairs.now) }
    ensures value { IfOk result (λ days. option_map ends_of days ≡ value_of_parameter days_of (codes "datetime") (map pair_text pairs.now)) }
{
    match value_under(pairs, "datetime") {
        Some(text) => match asked(text) {
            Ok(days) => Ok(Some(days)),
            Err(_) => Err(ParameterFault::Datetime),
        },
        None => Ok(None),
    }
}

fn bbox(pairs: &[Pair]) -> Result<Option<Bounds>, ParameterFault>
    ensures fault { result_err result ≡ first_of (ParameterFault.Bbox ∷ []) (map pair_text pairs.now) }
    ensures value { IfOk result (λ bounds. option_map box_numbers bounds ≡ value_of_parameter box_of (codes "bbox") (map pair_text pairs.now)) }
{
    match value_under(pairs, "bbox") {
        Some(text) => match bounds_in(text) {
            Some(bounds) => Ok(Some(bounds)),
            None => Err(ParameterFault::Bbox),
        },
        None => Ok(None),
    }
}

fn check_language(pairs: &[Pair]) -> Result<(), ParameterFault>
    ensures { result_err result ≡ first_of (ParameterFault.FilterLang ∷ []) (map pair_text pairs.now) }
{
    match value_under(pairs, "filter-lang") {
        Some(text) => {
            if text == "cql2-text" {
                Ok(())
            } else {
                Err(ParameterFault::FilterLang)
            }
        }
        None => Ok(()),
    }
}

//! Values that are ordered as keys.

ghost use Rattle.std.specs.Prelude.{◌≡◌, ◌≤◌, IfOk, MatchOption, Some, false, length, map};
ghost use Rattle.std.specs.List.{All, zip};
ghost use Rattle.cad_feature.specs.Values.{Datum, IsOfKind, datum_of};
ghost use Rattle.cad_range.specs.Ranges.{compared, has_order};
ghost use Rattle.cad_ordered.specs.Ranged.{column, value_at};
ghost use Rattle.cad_ordered.specs.Columns.{IsOrderOf, keyed_from};

use crate::text_key::TextKey;
use cad_day::Day;
use cad_feature::{Feature, Value};
use std::alloc::{AllocError, Global};

/// A type of keys: the values of one kind.
pub(crate) trait Key: Ord + Drop {
    ghost use Rattle.cad_schema.specs.declared.property.PropertyKind.{PropertyKind};
    ghost use Rattle.std.specs.Prelude.{◌≡◌, IfOk, MatchOption, Some, false};
    ghost use Rattle.cad_feature.specs.Values.{Datum, IsOfKind, datum_of};
    ghost use Rattle.cad_range.specs.Ranges.{compared, has_order};

    ghost kind: { PropertyKind };

    ghost datum: { Self → Datum };

    /// The key that the value is, if there is one.
    fn read(value: &Value) -> Result<Option<Self>, AllocError>
        requires { IsOfKind kind (datum_of value.now) }
        ensures { IfOk result (λ key. MatchOption key (has_order (datum_of value.now) ≡ false) (λ k. datum k ≡ datum_of value.now)) };

    ghost ordered: { (x y : Self) → compared (datum x) (datum y) ≡ Some (Self.cmp x y) };
}

impl Key for i64 {
    ghost use Rattle.std.specs.Prelude.{refl};
    ghost use Rattle.cad_feature.specs.Values.{a_whole};
    ghost use Rattle.cad_schema.specs.declared.property.PropertyKind.TheVariants as kinds;

    ghost kind = { kinds.Whole };

    ghost datum = { a_whole };

    ghost ordered = { λ x y. refl };

    fn read(value: &Value) -> Result<Option<i64>, AllocError> {
        match value {
            Value::Whole(number) => Ok(Some(*number)),
            _ => Ok(None),
        }
    }
}

impl Key for Day {
    ghost use Rattle.std.specs.Prelude.{refl};
    ghost use Rattle.cad_feature.specs.Values.{a_day};
    ghost use Rattle.cad_schema.specs.declared.property.PropertyKind.TheVariants as kinds;

    ghost kind = { kinds.Day };

    ghost datum = { a_day };

    ghost ordered = { λ x y. refl };

    fn read(value: &Value) -> Result<Option<Day>, AllocError> {
        match value {
            Value::Day(day) => Ok(Some(*day)),
            _ => Ok(None),
        }
    }
}

impl Key for TextKey {
    ghost use Rattle.std.specs.Prelude.{chars, string_bytes};
    ghost use Rattle.cad_feature.specs.Values.{a_text};
    ghost use Rattle.cad_schema.specs.declared.property.PropertyKind.TheVariants as kinds;
    ghost use Rattle.cad_ordered.specs.TextKeys.{text_keys};

    ghost kind = { kinds.Text };

    ghost datum = { λ key. a_text (chars (string_bytes key.text.value)) };

    ghost ordered = { text_keys };

    fn read(value: &Value) -> Result<Option<TextKey>, AllocError> {
        match value {
            Value::Text(text) => {
                let key = TextKey::of(text)?;
                Ok(Some(key))
            }
            _ => Ok(None),
        }
    }
}

fn read_at<K: Key>(feature: &Feature, place: usize) -> Result<Option<K>, AllocError>
    requires { IsOfKind K.kind (value_at place feature.now) }
    ensures { IfOk result (λ key. MatchOption key (has_order (value_at place feature.now) ≡ false) (λ k. K.datum k ≡ value_at place feature.now)) }
{
    if place < feature.values.len() {
        let key = K::read(&feature.values[place])?;
        Ok(key)
    } else {
        Ok(None)
    }
}

// The keys of the features with their positions.
fn read_all<K: Key>(
    alloc: Global,
    features: &[Feature],
    place: usize,
) -> Result<Vec<(K, u32)>, AllocError>
    requires small { length features.now ≤ 4294967295 }
    requires alike { All (λ x. IsOfKind K.kind (value_at place x)) features.now }
    ensures { IfOk result (λ v. map (λ e. (K.datum e.0, e.1)) v.items ≡ keyed_from 0 (column place features.now)) }
{
    let mut pairs = Vec::with_capacity(alloc, features.len())?;
    for (position, feature) in features.iter().enumerate() {
        let key = read_at::<K>(feature, place)?;
        match key {
            None => {}
            Some(key) => pairs.push((key, position as u32))?,
        }
    }
    Ok(pairs)
}

fn parted<K: Drop>(alloc: Global, pairs: Vec<(K, u32)>) -> Result<(Vec<K>, Vec<u32>), AllocError>
    ensures same { IfOk result (λ r. zip r.0.items r.1.items ≡ pairs.items) }
    ensures beside { IfOk result (λ r. length r.0.items ≡ length r.1.items) }
{
    let mut keys = Vec::with_capacity(alloc, pairs.len())?;
    let mut places = Vec::with_capacity(alloc, pairs.len())?;
    for (key, place) in pairs {
        keys.push(key)?;
        places.push(place)?;
    }
    Ok((keys, places))
}

/// The keys of the features in their order, and their positions in the same order.
pub(crate) fn ordered_keys<K: Key>(
    alloc: Global,
    features: &[Feature],
    place: usize,
) -> Result<(Vec<K>, Vec<u32>), AllocError>
    requires small { length features.now ≤ 4294967295 }
    requires alike { All (λ x. IsOfKind K.kind (value_at place x)) features.now }
    ensures { IfOk result (λ r. IsOrderOf (map K.datum r.0.items) r.1.items (column place features.now)) }
{
    let mut pairs = read_all::<K>(alloc, features, place)?;
    pairs.sort_unstable();
    let parts = parted(alloc, pairs)?;
    Ok(parts)
}

//! The parts of a body, in the columns of a row.

ghost use Rattle.cad_register.specs.inner.Reading.{Reads};
ghost use Rattle.cad_register.specs.Parts.{HasParts};

use crate::columns::{
    ReadFault, flag_at, named_object_at, optional_count_at, shape_at, share_at, spot_at, words_at,
};
use cad_versions::BodyParts;
use sqlite::Row;
use std::alloc::Global;

/// The parts of a body in the columns of the row. Each class has some of these parts.
pub(crate) fn parts_at(alloc: Global, row: &Row) -> Result<BodyParts, ReadFault>
    ensures { Reads result (HasParts row.now) }
{
    let area = optional_count_at(row, 10)?;
    let unit = named_object_at(row, 11)?;
    let party = named_object_at(row, 12)?;
    let share = share_at(row, 13)?;
    let required = flag_at(row, 15)?;
    let spot = spot_at(row, 16)?;
    let name = words_at(alloc, row, 7)?;
    let code = words_at(alloc, row, 8)?;
    let label = words_at(alloc, row, 9)?;
    let shape = shape_at(alloc, row, 18)?;
    Ok(BodyParts {
        name,
        code,
        label,
        area,
        unit,
        party,
        share,
        required,
        spot,
        shape,
    })
}

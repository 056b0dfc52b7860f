//! A new version as a row.

ghost use Rattle.std.specs.Prelude.{◌≡◌, IfOk};
ghost use Rattle.std.specs.Option.{option_map};
ghost use Rattle.cad_versions.specs.BodyParts.{shape_in};
ghost use Rattle.cad_versions.specs.Entries.{entered_at};
ghost use Rattle.cad_versions.specs.ShapeBytes.{shape_bytes};
ghost use Rattle.cad_register.specs.Rows.{items_of, line_of};

use crate::cells::{
    bytes_or_null, count_cell, count_or_null, day_cell, day_or_null, den_or_null, flag_or_null,
    num_or_null, object_or_null, words_or_null, x_or_null, y_or_null,
};
use cad_tables::Stored;
use cad_versions::{Version, write_shape};
use sqlite::types::ValueRef;
use std::alloc::{AllocError, Global};

/// A new version, the revision that enters it, and its shape as it is stored.
#[derive(Debug, Drop)]
pub(crate) struct NewEntry {
    version: Version,
    entered: u32,
    shape: Option<Vec<u8>>,
    ghost spelt: { option_map items_of shape ≡ option_map shape_bytes (shape_in version.body) },
}

impl NewEntry {
    ghost use Rattle.std.specs.Prelude.{IfOk};
    ghost use Rattle.cad_register.specs.Changing.{IsNew};

    pub(crate) fn new(alloc: Global, version: Version, entered: u32) -> Result<NewEntry, AllocError>
        ensures { IfOk result (IsNew version entered) }
    {
        let shape = match version.body.shape() {
            Some(region) => Some(write_shape(alloc, region)?),
            None => None,
        };
        Ok(NewEntry {
            version,
            entered,
            shape,
        })
    }
}

impl Stored for NewEntry {
    ghost use Rattle.cad_versions.specs.Entries.{entered_at};
    ghost use Rattle.cad_register.specs.Rows.{line_of};

    ghost line = { λ new. line_of (entered_at new.entered new.version) };

    fn cells(&self) -> [ValueRef<'_>; 19] {
        let version = &self.version;
        let body = &version.body;
        [
            count_cell(version.object.number()),
            count_cell(version.number),
            count_cell(u32::from(body.class().number())),
            day_cell(version.first),
            day_or_null(version.last),
            count_cell(self.entered),
            ValueRef::Null,
            words_or_null(body.name()),
            words_or_null(body.code()),
            words_or_null(body.label()),
            count_or_null(body.area()),
            object_or_null(body.unit()),
            object_or_null(body.party()),
            num_or_null(body.share()),
            den_or_null(body.share()),
            flag_or_null(body.required()),
            x_or_null(body.spot()),
            y_or_null(body.spot()),
            bytes_or_null(&self.shape),
        ]
    }
}

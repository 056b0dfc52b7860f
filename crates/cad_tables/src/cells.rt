//! Rows and parameters as cells.

ghost use Rattle.std.specs.Prelude.{◌≡◌, [], ◌∷◌, pos};
ghost use Rattle.sqlite_value.specs.declared.value.Value.TheVariants.{Int};
ghost use Rattle.sqlite.specs.Values.{bound};
ghost use Rattle.cad_tables.specs.VersionRow.{VersionRow, cells_of};

use crate::changes::Closing;
use sqlite::types::ValueRef;

/// A version as a row of the table `version`.
pub trait Stored {
    ghost line: { Self → VersionRow };

    /// The cells in the order of the columns: object, number, class, first, last, entered, closed, name, code,
    /// label, area, unit, party, share_num, share_den, required, spot_x, spot_y, shape.
    fn cells(&self) -> [ValueRef<'_>; 19]
        ensures { bound result ≡ cells_of (line self.now) };
}

/// The parameters that close a version: its object, its last day and the revision.
pub(crate) fn closing_cells(closing: Closing, revision: u32) -> [ValueRef<'static>; 3]
    ensures { bound result ≡ Int (pos closing.object) ∷ Int closing.last ∷ Int (pos revision) ∷ [] }
{
    [
        ValueRef::Int(i64::from(closing.object)),
        ValueRef::Int(i64::from(closing.last)),
        ValueRef::Int(i64::from(revision)),
    ]
}

/// Two numbers as the parameters.
pub(crate) fn two_cells(m: u32, n: u32) -> [ValueRef<'static>; 2]
    ensures { bound result ≡ Int (pos m) ∷ Int (pos n) ∷ [] }
{
    [ValueRef::Int(i64::from(m)), ValueRef::Int(i64::from(n))]
}

/// A number as the only parameter.
pub(crate) fn one_cell(n: u32) -> [ValueRef<'static>; 1]
    ensures { bound result ≡ Int (pos n) ∷ [] }
{
    [ValueRef::Int(i64::from(n))]
}

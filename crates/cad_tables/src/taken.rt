//! A CREATE TABLE that finds its name in use.

ghost use Rattle.std.specs.Prelude.{◌≡◌};
ghost use Rattle.cad_tables.specs.Faults.{is_name_taken as is_taken};

use sqlite::Error;
use sqlite_resolve::CompileError;

/// Whether CREATE TABLE was refused because its name is in use.
pub(crate) fn is_name_taken(error: Error) -> bool
    ensures { result ≡ is_taken error }
{
    matches!(error, Error::SqlInputError(CompileError::Exists))
}

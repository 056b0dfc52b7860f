//! The paths of a collection's resources.

ghost use Rattle.std.specs.Prelude.{◌≡◌, string_bytes, IfOk};
ghost use Rattle.cad_json.specs.Paths as spec;

use cad_schema::Collection;
use std::alloc::{AllocError, Global};

/// `/collections/` and the collection's name.
pub fn collection_path(alloc: Global, collection: Collection) -> Result<String, AllocError>
    ensures { IfOk result (λ path. string_bytes path ≡ spec.collection_path collection) }
{
    let mut path = String::from_str(alloc, "/collections/")?;
    path.push_str(collection.name())?;
    Ok(path)
}

/// The path of the features of a collection.
pub fn items_path(alloc: Global, collection: Collection) -> Result<String, AllocError>
    ensures { IfOk result (λ path. string_bytes path ≡ spec.items_path collection) }
{
    let mut path = collection_path(alloc, collection)?;
    path.push_str("/items")?;
    Ok(path)
}

/// The path of the properties of a collection that filters may name.
pub(crate) fn queryables_path(alloc: Global, collection: Collection) -> Result<String, AllocError>
    ensures { IfOk result (λ path. string_bytes path ≡ spec.queryables_path collection) }
{
    let mut path = collection_path(alloc, collection)?;
    path.push_str("/queryables")?;
    Ok(path)
}

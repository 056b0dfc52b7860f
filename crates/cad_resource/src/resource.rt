//! The resources of the server.

ghost use Rattle.std.specs.Prelude.{◌≡◌, option_map};
ghost use Rattle.cad_resource.specs.Requested.{place_held};
ghost use Rattle.cad_resource.specs.Places.{known};
ghost use Rattle.cad_resource.specs.RouteRows.{place_routed};

use crate::route::{Route, Routed};
use cad_schema::Collection;

/// What a path names.
#[derive(Clone, Copy, Debug)]
pub enum Resource<'a> {
    /// `/`: where the collections are.
    Landing,
    /// `/collections`: all collections.
    Collections,
    /// `/collections/{c}`: one of them.
    Collection(Collection),
    /// `/collections/{c}/queryables`: the properties that filters may name.
    Queryables(Collection),
    /// `/collections/{c}/items`: the features of a collection.
    Items(Collection),
    /// `/collections/{c}/items/{id}`: one feature, by the text of its identifier, which need not be a valid one.
    Item {
        /// The collection.
        collection: Collection,
        /// The text of the identifier.
        identifier: &'a str,
    },
}

/// The resource that a path of this route names, if its collection is known.
pub(crate) fn resource_at(routed: Routed<'_>) -> Option<Resource<'_>>
    ensures { option_map place_held result ≡ known (place_routed routed.entry) }
{
    match routed.route {
        Route::Landing => Some(Resource::Landing),
        Route::Collections => Some(Resource::Collections),
        Route::Collection => Some(Resource::Collection(Collection::read(routed.name)?)),
        Route::Queryables => Some(Resource::Queryables(Collection::read(routed.name)?)),
        Route::Items => Some(Resource::Items(Collection::read(routed.name)?)),
        Route::Item => Some(Resource::Item {
            collection: Collection::read(routed.name)?,
            identifier: routed.identifier,
        }),
    }
}

//! Which features of a revision a request asks for.

use cad_ask::Ask;
use cad_parameters::Identifier;
use cad_schema::Collection;

/// Which features of a revision a request asks for.
#[derive(Drop)]
pub enum FeatureRequest {
    /// A page of a collection's features.
    Page(Ask),
    /// One feature, if it exists.
    Feature {
        /// The collection in which it is asked for.
        collection: Collection,
        /// Which version of which object it is.
        identifier: Identifier,
    },
}

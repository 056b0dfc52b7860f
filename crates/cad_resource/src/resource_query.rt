//! What a request asks for.

use crate::resource::Resource;

/// What a request that passes every check asks for.
#[derive(Clone, Copy, Debug)]
pub struct ResourceQuery<'a> {
    /// What the path names.
    pub resource: Resource<'a>,
    /// The target after its first question mark, as it was sent; empty if it has no question mark.
    pub query: &'a str,
}

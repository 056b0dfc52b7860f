//! Kinds of resources, and paths of such a kind.

/// What kind of resource a path names.
#[derive(Clone, Copy, Debug, PartialEq, Eq)]
pub enum Route {
    /// `/`
    Landing,
    /// `/collections`
    Collections,
    /// `/collections/{c}`
    Collection,
    /// `/collections/{c}/queryables`
    Queryables,
    /// `/collections/{c}/items`
    Items,
    /// `/collections/{c}/items/{id}`
    Item,
}

/// The route of a path, with the text that each parameter took of the path. The text is empty if the route has no such parameter.
#[derive(Clone, Copy)]
pub(crate) struct Routed<'p> {
    pub(crate) route: Route,
    /// `{c}`
    pub(crate) name: &'p str,
    /// `{id}`
    pub(crate) identifier: &'p str,
}

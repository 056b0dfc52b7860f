//! What the definitions of requests and paths say together. Nothing runs here.

ghost use Rattle.cad_resource.specs.Laws.{HostIsFirst, BodyIsSecond, TargetIsThird, PathIsFourth, MethodIsFifth, CollectionIsSixth, ResourcesAreRequested};
ghost use Rattle.cad_resource.specs.Laws.{PathsAreReadBack, PlacesHaveOnePath, KnownPathsAreReadBack, ResourcesHaveOnePath};

/// Each check decides if those before it pass, no matter what those after it say.
pub fn checks_come_in_order()
    ensures host { HostIsFirst }
    ensures body { BodyIsSecond }
    ensures target { TargetIsThird }
    ensures path { PathIsFourth }
    ensures method { MethodIsFifth }
    ensures collection { CollectionIsSixth }
{}

/// A GET of a resource's path asks for that resource, with any query.
pub fn resources_are_requested()
    ensures { ResourcesAreRequested }
{}

/// The path of a place names that place.
pub fn paths_are_read_back()
    ensures places { PathsAreReadBack }
    ensures resources { KnownPathsAreReadBack }
{}

/// Nothing but its path names a place, so a path has at most one resource, and a resource has one path.
pub fn places_have_one_path()
    ensures places { PlacesHaveOnePath }
    ensures resources { ResourcesHaveOnePath }
{}

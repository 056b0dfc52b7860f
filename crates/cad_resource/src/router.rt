//! The routes of the server.

ghost use Rattle.std.specs.Prelude.{◌≡◌, IfOk, OnOk, option_map};
ghost use Rattle.matchit.specs.Params.{AllText, named, walk};
ghost use Rattle.cad_resource.specs.Places.{place_of};
ghost use Rattle.cad_resource.specs.RouteRows.{CanAdd, place_routed, route_rows, taken as taken_of, with_route};

use crate::route::{Route, Routed};
use matchit::{InsertError, Params, Router};
use std::alloc::{AllocError, Global};

/// The routes of the server. They are made once, and then looked up for each request.
#[derive(Drop)]
pub struct Routes {
    router: Router<Route>,
    ghost complete: { router ≡ route_rows },
}

impl Routes {
    ghost use Rattle.std.specs.Prelude.{◌≡◌, IfOk, option_map};
    ghost use Rattle.cad_resource.specs.Places.{place_of};
    ghost use Rattle.cad_resource.specs.RouteRows.{place_routed, route_rows};

    /// All routes. An error means out of memory.
    pub fn new(alloc: Global) -> Result<Routes, AllocError>
        ensures { IfOk result (λ routes. routes.router ≡ route_rows) }
    {
        Ok(Routes {
            router: router(alloc)?,
        })
    }

    /// The route of a path, if it has one, with the texts that its parameters took.
    pub(crate) fn routed<'p>(&self, path: &'p str) -> Option<Routed<'p>>
        ensures { option_map place_routed result ≡ place_of path.now }
    {
        routed(&self.router, path)
    }
}

/// The text that the parameter of this name took of the path, or nothing.
fn taken<'p>(params: &Params<'_, 'p>, name: &str) -> &'p str
    ensures { AllText (walk params.now.pattern.now params.now.text.now params.now.path.now params.now.names.now 0 0) →
        result.now ≡ taken_of (named name.now (walk params.now.pattern.now params.now.text.now params.now.path.now params.now.names.now 0 0)) }
{
    match params.get(name) {
        Some(text) => text,
        None => "",
    }
}

fn routed<'p>(router: &Router<Route>, path: &'p str) -> Option<Routed<'p>>
    requires { router.now ≡ route_rows }
    ensures { option_map place_routed result ≡ place_of path.now }
{
    match router.at(path) {
        Ok(found) => Some(Routed {
            route: *found.value,
            name: taken(&found.params, "c"),
            identifier: taken(&found.params, "id"),
        }),
        Err(_) => None,
    }
}

fn router(alloc: Global) -> Result<Router<Route>, AllocError>
    ensures { IfOk result (λ router. router ≡ route_rows) }
{
    let mut router = Router::new(alloc);
    add(&mut router, "/", Route::Landing)?;
    add(&mut router, "/collections", Route::Collections)?;
    add(&mut router, "/collections/{c}", Route::Collection)?;
    add(
        &mut router,
        "/collections/{c}/queryables",
        Route::Queryables,
    )?;
    add(&mut router, "/collections/{c}/items", Route::Items)?;
    add(&mut router, "/collections/{c}/items/{id}", Route::Item)?;
    Ok(router)
}

fn add(router: &mut Router<Route>, text: &str, route: Route) -> Result<(), AllocError>
    requires { CanAdd text.now router.old }
    ensures { OnOk result (router.new ≡ with_route text.now route router.old) }
{
    match router.insert(text, route) {
        Ok(()) => Ok(()),
        Err(error) => Err(no_memory(error)),
    }
}

/// Well-formed routes that differ are refused only if memory runs out.
fn no_memory(error: InsertError) -> AllocError
    requires { error ≡ InsertError.OutOfMemory }
{
    drop(error);
    AllocError
}

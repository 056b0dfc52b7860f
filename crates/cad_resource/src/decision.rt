//! What a request asks for, or the first check that it fails.

ghost use Rattle.std.specs.Prelude.{◌≡◌};
ghost use Rattle.httparse.specs.Spans.{IsRequestWithin};
ghost use Rattle.cad_head.specs.Request.{request_at};
ghost use Rattle.cad_resource.specs.Requested as spec;
ghost use Rattle.cad_resource.specs.Requested.{requested_text, requested_resource, ends_by_check, ends_after};
ghost use Rattle.cad_resource.specs.Places.{known, place_of};
ghost use Rattle.cad_resource.specs.RouteRows.{place_routed};

use crate::check::Check;
use crate::fields::{has_body, lacks_host};
use crate::parts::cut;
use crate::resource::resource_at;
use crate::resource_query::ResourceQuery;
use crate::route::Routed;
use crate::router::Routes;
use crate::target::target_text;
use cad_head::closes_connection;
use httparse::spans::{HeaderSpan, RequestSpans};

/// What a request asks for or fails, and whether its connection ends.
#[derive(Clone, Copy, Debug)]
pub struct Decision<'a> {
    /// What it asks for, or the first check that it fails.
    pub requested: Result<ResourceQuery<'a>, Check>,
    /// Whether the connection ends after the reply: it does for HTTP/1.0, if the request asks for it, and after some failed checks.
    pub ends: bool,
}

/// Decides a request, which `spans` show in the bytes of its head.
pub fn decide<'a>(
    routes: &Routes,
    bytes: &'a [u8],
    headers: &[HeaderSpan],
    spans: &RequestSpans,
) -> Decision<'a>
    requires { IsRequestWithin bytes.now headers.now spans.now }
    ensures requested { requested_text result.requested ≡ spec.requested (request_at bytes.now headers.now spans.now) }
    ensures ends { result.ends ≡ ends_after (request_at bytes.now headers.now spans.now) }
{
    let requested = requested(routes, bytes, headers, spans);
    let ends = closes_connection(bytes, headers, spans) || ends_by(&requested);
    Decision { requested, ends }
}

fn ends_by(requested: &Result<ResourceQuery<'_>, Check>) -> bool
    ensures { result ≡ ends_by_check (requested_text requested.now) }
{
    match requested {
        Ok(_) => false,
        Err(check) => check.ends_connection(),
    }
}

fn requested<'a>(
    routes: &Routes,
    bytes: &'a [u8],
    headers: &[HeaderSpan],
    spans: &RequestSpans,
) -> Result<ResourceQuery<'a>, Check>
    requires { IsRequestWithin bytes.now headers.now spans.now }
    ensures { requested_text result ≡ spec.requested (request_at bytes.now headers.now spans.now) }
{
    if lacks_host(bytes, headers, spans) {
        return Err(Check::Host);
    }
    if has_body(bytes, headers, spans) {
        return Err(Check::Body);
    }
    requested_by_target(routes, spans.method.of(bytes), spans.path.of(bytes))
}

/// What a request with this method and target asks for, if its head is sound.
fn requested_by_target<'a>(
    routes: &Routes,
    method: &[u8],
    target: &'a [u8],
) -> Result<ResourceQuery<'a>, Check>
    ensures { requested_text result ≡ spec.requested_by_target method.now target.now }
{
    let Some(text) = target_text(target) else {
        return Err(Check::Target);
    };
    let (path, query) = cut(text, '?');
    requested_at_place(routes, method, path, query)
}

/// What a request with this method, path and query asks for.
fn requested_at_place<'a>(
    routes: &Routes,
    method: &[u8],
    path: &'a str,
    query: &'a str,
) -> Result<ResourceQuery<'a>, Check>
    ensures { requested_text result ≡ spec.requested_at_place (place_of path.now) method.now query.now }
{
    let Some(routed) = routes.routed(path) else {
        return Err(Check::NoResource);
    };
    if method != b"GET".as_slice() {
        return Err(Check::Method);
    }
    requested_resource(routed, query)
}

/// What a GET of a path of this route asks for.
fn requested_resource<'a>(routed: Routed<'a>, query: &'a str) -> Result<ResourceQuery<'a>, Check>
    ensures { requested_text result ≡ spec.requested_resource (known (place_routed routed.entry)) query.now }
{
    match resource_at(routed) {
        Some(resource) => Ok(ResourceQuery { resource, query }),
        None => Err(Check::NoCollection),
    }
}

//! What the fields of a request say of its host and its body.

ghost use Rattle.std.specs.Prelude.{◌≡◌, length, map, codes, count_by, All};
ghost use Rattle.std.specs.List.{list_any};
ghost use Rattle.httparse.specs.Spans.{IsHeaderWithin, IsRequestWithin, header_bytes};
ghost use Rattle.cad_head.specs.Request.{request_at};
ghost use Rattle.cad_resource.specs.Heads as spec;
ghost use Rattle.cad_resource.specs.Heads.{is_named as is_named_field, announces_body as announces_body_field};

use httparse::spans::{HeaderSpan, RequestSpans};

/// Whether a request of HTTP/1.1 has no Host field, or more than one.
pub(crate) fn lacks_host(bytes: &[u8], headers: &[HeaderSpan], spans: &RequestSpans) -> bool
    requires { IsRequestWithin bytes.now headers.now spans.now }
    ensures { result ≡ spec.lacks_host (request_at bytes.now headers.now spans.now) }
{
    spans.version == 1 && count_hosts(bytes, &headers[..spans.headers]) != 1
}

/// Whether a request announces a body.
pub(crate) fn has_body(bytes: &[u8], headers: &[HeaderSpan], spans: &RequestSpans) -> bool
    requires { IsRequestWithin bytes.now headers.now spans.now }
    ensures { result ≡ spec.has_body (request_at bytes.now headers.now spans.now) }
{
    announce_body(bytes, &headers[..spans.headers])
}

fn count_hosts(bytes: &[u8], headers: &[HeaderSpan]) -> usize
    requires { All (IsHeaderWithin (length bytes.now)) headers.now }
    ensures { result ≡ count_by (is_named_field (codes "host")) (map (header_bytes bytes.now) headers.now) }
{
    let mut count = 0;
    for header in headers {
        if is_named(bytes, header, "host") {
            count += 1;
        }
    }
    count
}

fn announce_body(bytes: &[u8], headers: &[HeaderSpan]) -> bool
    requires { All (IsHeaderWithin (length bytes.now)) headers.now }
    ensures { result ≡ list_any announces_body_field (map (header_bytes bytes.now) headers.now) }
{
    let mut is_found = false;
    for header in headers {
        is_found |= announces_body(bytes, header);
    }
    is_found
}

fn announces_body(bytes: &[u8], header: &HeaderSpan) -> bool
    requires { IsHeaderWithin (length bytes.now) header.now }
    ensures { result ≡ announces_body_field (header_bytes bytes.now header.now) }
{
    is_named(bytes, header, "transfer-encoding")
        || (is_named(bytes, header, "content-length") && header.value.of(bytes) != b"0".as_slice())
}

fn is_named(bytes: &[u8], header: &HeaderSpan, name: &str) -> bool
    requires { IsHeaderWithin (length bytes.now) header.now }
    ensures { result ≡ is_named_field name.now (header_bytes bytes.now header.now) }
{
    header.name.of(bytes).eq_ignore_ascii_case(name.as_bytes())
}

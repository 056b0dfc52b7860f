//! Whether the fields of a request close its connection.

ghost use Rattle.std.specs.Prelude.{◌≡◌, ◌<◌, [], ◌∷◌, length, map, reverse, All, IfSome, MatchOption};
ghost use Rattle.std.specs.List.{list_any};
ghost use Rattle.httparse.specs.Grammar.{is_ows, skip_ows, trim_ows};
ghost use Rattle.httparse.specs.Spans.{IsHeaderWithin, IsRequestWithin, header_bytes};
ghost use Rattle.cad_head.specs.Request.{members, is_close as is_close_member, asks_to_close as asks_to_close_field, closes_connection as closes_connection_of, request_at};

use httparse::spans::{HeaderSpan, RequestSpans};

fn is_blank(byte: u8) -> bool
    ensures { result ≡ is_ows byte }
{
    byte == b' ' || byte == b'\t'
}

fn after_blanks(bytes: &[u8]) -> &[u8]
    ensures { result.now ≡ skip_ows bytes.now }
{
    let mut rest = bytes;
    while let [first, others @ ..] = rest {
        if !is_blank(*first) {
            return rest;
        }
        rest = others;
    }
    rest
}

fn before_blanks(bytes: &[u8]) -> &[u8]
    ensures { result.now ≡ reverse (skip_ows (reverse bytes.now)) }
{
    let mut rest = bytes;
    while let [others @ .., last] = rest {
        if !is_blank(*last) {
            return rest;
        }
        rest = others;
    }
    rest
}

#[tactic(auto, unfolding(httparse::specs::Grammar::trim_ows))]
fn trimmed(bytes: &[u8]) -> &[u8]
    ensures { result.now ≡ trim_ows bytes.now }
{
    before_blanks(after_blanks(bytes))
}

fn is_close(member: &[u8]) -> bool
    ensures { result ≡ is_close_member member.now }
{
    trimmed(member).eq_ignore_ascii_case(b"close")
}

/// The first member of a list, and the bytes after its comma.
fn split_member(list: &[u8]) -> (&[u8], Option<&[u8]>)
    ensures split { MatchOption result.1 (members list.now ≡ result.0.now ∷ [])
        (λ others. members list.now ≡ result.0.now ∷ members others.now) }
    ensures shorter { IfSome result.1 (λ others. length others.now < length list.now) }
{
    match list.iter().position(|byte| *byte == b',') {
        Some(i) => (&list[..i], Some(&list[i + 1..])),
        None => (list, None),
    }
}

fn has_close(list: &[u8]) -> bool
    ensures { result ≡ list_any is_close_member (members list.now) }
{
    let mut rest = list;
    loop {
        let (member, others) = split_member(rest);
        if is_close(member) {
            return true;
        }
        match others {
            Some(others) => rest = others,
            None => return false,
        }
    }
}

fn asks_to_close(bytes: &[u8], header: &HeaderSpan) -> bool
    requires { IsHeaderWithin (length bytes.now) header.now }
    ensures { result ≡ asks_to_close_field (header_bytes bytes.now header.now) }
{
    header.name.of(bytes).eq_ignore_ascii_case(b"connection") && has_close(header.value.of(bytes))
}

fn has_closing_field(bytes: &[u8], headers: &[HeaderSpan]) -> bool
    requires { All (IsHeaderWithin (length bytes.now)) headers.now }
    ensures { result ≡ list_any asks_to_close_field (map (header_bytes bytes.now) headers.now) }
{
    let mut is_found = false;
    for header in headers {
        is_found |= asks_to_close(bytes, header);
    }
    is_found
}

/// Whether the connection closes after the reply to this request: it does for HTTP/1.0, and if the request asks for it.
pub fn closes_connection(bytes: &[u8], headers: &[HeaderSpan], spans: &RequestSpans) -> bool
    requires { IsRequestWithin bytes.now headers.now spans.now }
    ensures { result ≡ closes_connection_of (request_at bytes.now headers.now spans.now) }
{
    spans.version == 0 || has_closing_field(bytes, &headers[..spans.headers])
}

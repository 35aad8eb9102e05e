//! The media type of a request's body (GraphQL over HTTP, POST).

ghost use Rattle.std.specs.Prelude.{◌≡◌, codes};
ghost use Rattle.std.specs.List.{list_all};
ghost use Rattle.http_header.specs.HeaderMap.{get};
ghost use Rattle.graphql_http.specs.Pieces.{pieces};
ghost use Rattle.graphql_http.specs.ContentType as spec;

use crate::pieces::{next_piece, split_once, trim};
use http::{HeaderMap, HeaderValue, header};
use http1::text::eq_ignore_case;

/// Whether the name of a charset is that of UTF-8.
fn is_utf8_name(name: &[u8]) -> bool
    ensures { result ≡ spec.is_utf8_name name.now }
{
    eq_ignore_case(name, b"utf-8") || eq_ignore_case(name, b"\"utf-8\"")
}

/// Whether a parameter tells no other charset than UTF-8.
fn leaves_utf8(parameter: &[u8]) -> bool
    ensures { result ≡ spec.leaves_utf8 parameter.now }
{
    let (name, value) = split_once(parameter, b'=');
    if eq_ignore_case(trim(name), b"charset") {
        is_utf8_name(trim(value))
    } else {
        true
    }
}

/// Whether no parameter tells another charset than UTF-8.
fn all_leave_utf8(parameters: &[u8]) -> bool
    ensures { result ≡ list_all spec.leaves_utf8 (pieces 59 parameters.now) }
{
    let mut rest = parameters;
    'parameters: while let Some((parameter, others)) = next_piece(rest, b';') {
        if !leaves_utf8(parameter) {
            return false;
        }
        rest = others;
    }
    true
}

/// Whether a value of `Content-Type` is `application/json` in UTF-8.
#[tactic(auto, unfolding(crate::specs::ContentType::is_json))]
fn is_json(value: &[u8]) -> bool
    ensures { result ≡ spec.is_json value.now }
{
    let (kind, parameters) = split_once(value, b';');
    eq_ignore_case(trim(kind), b"application/json") && all_leave_utf8(parameters)
}

/// Whether these fields tell a body that is `application/json` in UTF-8.
pub(crate) fn has_json(headers: &HeaderMap<HeaderValue>) -> bool
    ensures { result ≡ spec.has_json (get headers.now (codes "content-type")) }
{
    match headers.get(header::CONTENT_TYPE) {
        Some(value) => is_json(value.as_bytes()),
        None => false,
    }
}

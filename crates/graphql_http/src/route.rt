//! What a request of HTTP asks for.

ghost use Rattle.std.specs.Prelude.{◌≡◌};
ghost use Rattle.graphql_http.specs.Routes as spec;

use crate::accept::accepted;
use crate::content_type::has_json;
use crate::media::Media;
use crate::refusal::HttpRefusal;
use bytes::Bytes;
use http::{HeaderMap, HeaderValue, Request};

/// What a request of HTTP asks for.
#[derive(Clone, Copy, Debug, PartialEq, Eq)]
pub enum Route {
    /// The answer to the line that is its body, as this media type.
    Body(Media),
    /// The answer to the line that the target's query asks, as this media type.
    Query(Media),
    /// The page on which requests are tried.
    Page,
    /// Whether there is a server.
    Health,
    /// The methods by which requests are asked.
    Options,
    /// Nothing that there is.
    Refused(HttpRefusal),
}

/// What is asked by POST, whose body is JSON or not.
fn route_of_post(is_json: bool, accepted: Option<Media>) -> Route
    ensures { result ≡ spec.route_of_post is_json accepted }
{
    match accepted {
        _ if !is_json => Route::Refused(HttpRefusal::NotJson),
        None => Route::Refused(HttpRefusal::NotAcceptable),
        Some(media) => Route::Body(media),
    }
}

/// What is asked by GET or HEAD.
fn route_of_get(accepted: Option<Media>) -> Route
    ensures { result ≡ spec.route_of_get accepted }
{
    match accepted {
        None => Route::Refused(HttpRefusal::NotAcceptable),
        Some(media) => Route::Query(media),
    }
}

/// What a request to the path of requests asks for.
fn route_of_requests(method: &str, headers: &HeaderMap<HeaderValue>) -> Route
    ensures { result ≡ spec.route_of_requests method.now headers.now }
{
    match method {
        "POST" => route_of_post(has_json(headers), accepted(headers)),
        "GET" | "HEAD" => route_of_get(accepted(headers)),
        "OPTIONS" => Route::Options,
        _ => Route::Refused(HttpRefusal::UnknownMethod),
    }
}

/// What a request to a path that is only read asks for.
fn route_of_read(method: &str, read: Route) -> Route
    ensures { result ≡ spec.route_of_read method.now read }
{
    match method {
        "GET" | "HEAD" => read,
        _ => Route::Refused(HttpRefusal::OnlyRead),
    }
}

/// What a request of HTTP asks for.
pub fn route_of(request: &Request<Bytes>) -> Route
    ensures { result ≡ spec.route_of request.now }
{
    let method = request.method().as_str();
    match request.uri().path() {
        "/graphql" => route_of_requests(method, request.headers()),
        "/" => route_of_read(method, Route::Page),
        "/health" => route_of_read(method, Route::Health),
        _ => Route::Refused(HttpRefusal::UnknownPath),
    }
}

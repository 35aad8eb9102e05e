//! Responses of HTTP, and the fields that each of them has.

ghost use Rattle.std.specs.Prelude.{◌≡◌, [], ◌∷◌, ◌++◌, OnOk, codes};
ghost use Rattle.http_header.specs.HeaderMap.{get};
ghost use Rattle.http_server.specs.Response.{IsBlank, IsResponse, fields_of};
ghost use Rattle.graphql_http.specs.Answers.{IsTold};
ghost use Rattle.graphql_http.specs.Fields as spec;
ghost use Rattle.graphql_http.specs.Refusals as refusal_of;

use crate::refusal::HttpRefusal;
use bytes::BufMut;
use http::{HeaderMap, HeaderValue, StatusCode, header};
use http_server::Response;
use std::alloc::AllocError;

/// Whether an origin is one of those that are allowed.
fn is_allowed(origins: &[HeaderValue], origin: &[u8]) -> bool
    ensures { result ≡ spec.is_allowed origins.now origin.now }
{
    origins.iter().any(|allowed| allowed.as_bytes() == origin)
}

/// Tells a request from an allowed origin that it is allowed (Fetch Standard, 3.3 CORS protocol).
fn allow_origin(
    origins: &[HeaderValue],
    headers: &HeaderMap<HeaderValue>,
    response: &mut Response,
) -> Result<(), AllocError>
    ensures fields { OnOk result (fields_of response.new
        ≡ fields_of response.old
        ++ spec.allowing_origin origins.now (get headers.now (codes "origin"))) }
    ensures status { response.new.status ≡ response.old.status }
    ensures body { response.new.body.items ≡ response.old.body.items }
{
    match headers.get(header::ORIGIN) {
        Some(origin) if is_allowed(origins, origin.as_bytes()) => {
            response.add_header(header::ACCESS_CONTROL_ALLOW_ORIGIN, origin.clone()?)
        }
        _ => Ok(()),
    }
}

/// Writes the fields that each response has.
pub(crate) fn begin(
    origins: &[HeaderValue],
    headers: &HeaderMap<HeaderValue>,
    response: &mut Response,
) -> Result<(), AllocError>
    requires { IsBlank response.old }
    ensures { OnOk result
        (IsResponse 200 (spec.begun origins.now headers.now) [] response.new) }
{
    response.add_header(header::CACHE_CONTROL, HeaderValue::from_static("no-store"))?;
    response.add_header(header::VARY, HeaderValue::from_static("Accept, Origin"))?;
    let nosniff = HeaderValue::from_static("nosniff");
    response.add_header(header::X_CONTENT_TYPE_OPTIONS, nosniff)?;
    allow_origin(origins, headers, response)
}

/// Writes a status, a media type and a body.
pub(crate) fn fill(
    response: &mut Response,
    status: StatusCode,
    content_type: HeaderValue,
    body: &[u8],
) -> Result<(), AllocError>
    requires { response.old.body.items ≡ [] }
    ensures { OnOk result (IsResponse status
        (fields_of response.old ++ (codes "content-type", content_type.bytes) ∷ []) body.now
        response.new) }
{
    response.add_header(header::CONTENT_TYPE, content_type)?;
    response.body.put_slice(body)?;
    response.status = status;
    Ok(())
}

/// Tells the methods that there are, with a refusal that has to (RFC 9110, 15.5.6).
fn add_allow(refusal: HttpRefusal, response: &mut Response) -> Result<(), AllocError>
    ensures fields { OnOk result (fields_of response.new
        ≡ spec.with_allow (refusal_of.allow refusal) (fields_of response.old)) }
    ensures status { response.new.status ≡ response.old.status }
    ensures body { response.new.body.items ≡ response.old.body.items }
{
    match refusal.allow() {
        Some(methods) => response.add_header(header::ALLOW, methods),
        None => Ok(()),
    }
}

/// Tells a refusal.
pub(crate) fn refuse(refusal: HttpRefusal, response: &mut Response) -> Result<(), AllocError>
    requires { response.old.body.items ≡ [] }
    ensures { OnOk result (IsTold (fields_of response.old) refusal response.new) }
{
    let json = HeaderValue::from_static("application/json; charset=utf-8");
    fill(response, refusal.status(), json, refusal.text().as_bytes())?;
    add_allow(refusal, response)?;
    Ok(())
}

/// Writes the methods by which requests are asked, also for a browser that asks before it sends
/// (Fetch Standard, 3.3.3).
pub(crate) fn tell_methods(response: &mut Response) -> Result<(), AllocError>
    requires { response.old.body.items ≡ [] }
    ensures { OnOk result (IsResponse 204 (spec.with_methods (fields_of response.old)) [] response.new) }
{
    response.status = StatusCode::NO_CONTENT;
    let allowed = HeaderValue::from_static("GET, HEAD, OPTIONS, POST");
    response.add_header(header::ALLOW, allowed)?;
    let asked = HeaderValue::from_static("GET, HEAD, POST");
    response.add_header(header::ACCESS_CONTROL_ALLOW_METHODS, asked)?;
    let sent = HeaderValue::from_static("Content-Type");
    response.add_header(header::ACCESS_CONTROL_ALLOW_HEADERS, sent)?;
    Ok(())
}

/// Writes that memory ran out: a 503 without a body, which asks to close the connection where there
/// is room for that field.
pub(crate) fn tell_want_of_memory(response: &mut Response)
    ensures { spec.TellsWantOfMemory response.new }
{
    response.clear();
    response.status = StatusCode::SERVICE_UNAVAILABLE;
    let close = HeaderValue::from_static("close");
    let _ = response.add_header(header::CONNECTION, close);
}

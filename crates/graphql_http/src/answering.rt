//! What a request of HTTP is answered.

ghost use Rattle.std.specs.Prelude.{◌≡◌, [], ◌++◌, OnErr, OnOk};
ghost use Rattle.http_server.specs.Response.{IsBlank, IsResponse, fields_of};
ghost use Rattle.graphql_http.specs.Answers.{IsAnsweredAs, MayLeave, QueryGives};
ghost use Rattle.graphql_http.specs.Answers.{QueryLeaves, RouteGives, RouteLeaves};
ghost use Rattle.graphql_http.specs.Fields.{begun, html, json, typed};
ghost use Rattle.graphql_http.specs.declared.answering.TheConstants.{HEALTHY};
ghost use Rattle.graphql_http.specs.declared.page.TheConstants.{PAGE};
ghost use Rattle.graphql_http.specs.Routes.{route_of};
ghost use Rattle.http.specs.Request.{head_of};

use crate::engine::RequestEngine;
use crate::fields::{begin, fill, refuse, tell_methods};
use crate::media::Media;
use crate::page::PAGE;
use crate::query_line::{LineFault, line_of_query};
use crate::refusal::HttpRefusal;
use crate::route::{Route, route_of};
use bytes::Bytes;
use http::{HeaderValue, Request, StatusCode};
use http_server::Response;
use std::alloc::{AllocError, Global};

/// What `/health` is answered.
const HEALTHY: &[u8] = b"{\"status\":\"ok\"}\n";

/// Answers a line, as this media type.
fn answer_line<E: RequestEngine>(
    alloc: Global,
    engine: &mut E,
    media: Media,
    line: &[u8],
    response: &mut Response,
) -> Result<(), AllocError>
    requires { response.old.body.items ≡ [] }
    ensures answered { OnOk result (IsAnsweredAs E.answers E.breaks E.mutates E.limit
        (fields_of response.old) media engine.old line.now response.new engine.new) }
    ensures left { OnErr result (MayLeave E.answers E.breaks E.mutates E.limit engine.old line.now
        engine.new) }
{
    let too_long = line.len() > engine.line_limit();
    let mut text = Vec::new(alloc);
    engine.append_answer(alloc, line, &mut text)?;
    let status = media.status(too_long, text.as_slice());
    fill(response, status, media.content_type(), text.as_slice())
}

/// Answers the line that a target's query asks, unless it asks for a mutation.
fn answer_query<E: RequestEngine>(
    alloc: Global,
    engine: &mut E,
    media: Media,
    query: &[u8],
    response: &mut Response,
) -> Result<(), AllocError>
    requires { response.old.body.items ≡ [] }
    ensures given { OnOk result (QueryGives E.answers E.breaks E.mutates E.limit
        (fields_of response.old) media query.now engine.old response.new engine.new) }
    ensures left { OnErr result (QueryLeaves E.answers E.breaks E.mutates E.limit query.now
        engine.old engine.new) }
{
    let line = match line_of_query(alloc, query) {
        Ok(line) => line,
        Err(LineFault::Refused(refusal)) => return refuse(refusal, response),
        Err(LineFault::Memory) => return Err(AllocError),
    };
    if engine.asks_mutation(alloc, line.as_bytes())? {
        return refuse(HttpRefusal::MutationByGet, response);
    }
    answer_line(alloc, engine, media, line.as_bytes(), response)
}

/// Writes the page on which requests are tried.
fn tell_page(response: &mut Response) -> Result<(), AllocError>
    requires { response.old.body.items ≡ [] }
    ensures { OnOk result (IsResponse 200 (fields_of response.old ++ typed html) PAGE.now
        response.new) }
{
    let html = HeaderValue::from_static("text/html; charset=utf-8");
    fill(response, StatusCode::OK, html, PAGE.as_bytes())?;
    Ok(())
}

/// Tells that there is a server.
fn tell_health(response: &mut Response) -> Result<(), AllocError>
    requires { response.old.body.items ≡ [] }
    ensures { OnOk result (IsResponse 200 (fields_of response.old ++ typed json) HEALTHY.now
        response.new) }
{
    let json = HeaderValue::from_static("application/json; charset=utf-8");
    fill(response, StatusCode::OK, json, HEALTHY)?;
    Ok(())
}

/// Answers what a request asks for.
fn answer_route<E: RequestEngine>(
    alloc: Global,
    engine: &mut E,
    route: Route,
    request: &Request<Bytes>,
    response: &mut Response,
) -> Result<(), AllocError>
    requires { response.old.body.items ≡ [] }
    ensures given { OnOk result (RouteGives E.answers E.breaks E.mutates E.limit
        (fields_of response.old) route request.now engine.old response.new engine.new) }
    ensures left { OnErr result (RouteLeaves E.answers E.breaks E.mutates E.limit route request.now
        engine.old engine.new) }
{
    match route {
        Route::Body(media) => {
            answer_line(alloc, engine, media, request.body().as_slice(), response)
        }
        Route::Query(media) => {
            let query = request.uri().query().unwrap_or("");
            answer_query(alloc, engine, media, query.as_bytes(), response)
        }
        Route::Page => tell_page(response),
        Route::Health => tell_health(response),
        Route::Options => tell_methods(response),
        Route::Refused(refusal) => refuse(refusal, response),
    }
}

/// Answers a request that may come from these other origins.
pub(crate) fn respond<E: RequestEngine>(
    alloc: Global,
    origins: &[HeaderValue],
    engine: &mut E,
    request: &Request<Bytes>,
    response: &mut Response,
) -> Result<(), AllocError>
    requires { IsBlank response.old }
    ensures given { OnOk result (RouteGives E.answers E.breaks E.mutates E.limit
        (begun origins.now (head_of request.now).headers) (route_of request.now) request.now
        engine.old response.new engine.new) }
    ensures left { OnErr result (RouteLeaves E.answers E.breaks E.mutates E.limit
        (route_of request.now) request.now engine.old engine.new) }
{
    begin(origins, request.headers(), response)?;
    answer_route(alloc, engine, route_of(request), request, response)
}

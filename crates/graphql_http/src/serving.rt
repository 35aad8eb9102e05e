//! One connection.

ghost use Rattle.std.specs.Prelude.{◌≡◌, ◌+◌, ◌-◌, ◌^◌, ◌++◌, ℕ, List, OnOk, min};
ghost use Rattle.std.specs.Io.KnownBytes.{Appends, Consumes};
ghost use Rattle.graphql_http.specs.Connections.{EndpointGives};
ghost use Rattle.http_server.specs.Connection.{config_of, history};
ghost use Rattle.http_server.specs.Exchange.{Calls};
ghost use Rattle.http_server.specs.History.{IsDone, IsServed};

use crate::endpoint::Endpoint;
use crate::engine::RequestEngine;
use http_server::{Config, Connection, serve};
use std::io;
use std::io::{Read, Write};

/// How many bytes of a body are taken beyond the length of a line, so that the engine tells that
/// it is too long.
const BEYOND: usize = 1_048_576;

/// The limits of a connection over an engine whose lines have at most `limit` bytes.
pub fn config_of_limit(limit: usize) -> Config
    ensures { result.max_body_len ≡ min (limit + 1048576) (2 ^ 64 - 1) }
{
    Config {
        max_body_len: limit.saturating_add(BEYOND),
        ..Config::default()
    }
}

/// Answers the requests of one connection, in order, until it ends.
///
/// Errors: a read or a write that failed. Requests whose bytes had come by then are answered, but
/// not all answers may be written.
pub fn serve_http<E: RequestEngine, R: Read, W: Write>(
    connection: &mut Connection,
    endpoint: &mut Endpoint<E>,
    reader: &mut R,
    writer: &mut W,
) -> io::Result<()>
    ensures served { ∥ IsServed (config_of connection.new) (history connection.new) ∥₁ }
    ensures calls { Calls (EndpointGives E.answers E.breaks E.mutates E.limit) endpoint.old
        endpoint.new (history connection.old).calls (history connection.new).calls }
    ensures done { OnOk result (IsDone (history connection.new)) }
    ensures config { config_of connection.new ≡ config_of connection.old }
    ensures read { (more : List ℕ)
        × Consumes (R.remaining reader.old) (R.remaining reader.new) more
        × ((history connection.new).received ≡ (history connection.old).received ++ more) }
    ensures written { (more : List ℕ)
        × Appends (W.contents writer.old) (W.contents writer.new) more
        × ((history connection.new).sent ≡ (history connection.old).sent ++ more) }
{
    serve(connection, endpoint, reader, writer)
}

//! An engine as a service of HTTP.

ghost use Rattle.std.specs.Prelude.{◌≡◌, false};

use crate::answering::respond;
use crate::engine::RequestEngine;
use crate::fields::tell_want_of_memory;
use bytes::Bytes;
use http::{HeaderValue, Request};
use http_server::{Response, Service};
use std::alloc::{AllocError, Global};

/// An engine that answers the requests of one connection.
#[derive(Drop)]
pub struct Endpoint<E> {
    alloc: Global,
    engine: E,
    origins: Vec<HeaderValue>,
    is_spent: bool,
}

impl<E> Endpoint<E> {
    /// An endpoint of this engine, which pages of these other origins may ask too.
    pub fn new(alloc: Global, engine: E, origins: Vec<HeaderValue>) -> Endpoint<E>
        ensures engine { result.engine ≡ engine }
        ensures origins { result.origins ≡ origins }
        ensures unspent { result.is_spent ≡ false }
    {
        Endpoint {
            alloc,
            engine,
            origins,
            is_spent: false,
        }
    }

    /// The engine.
    pub fn engine(&self) -> &E
        ensures { result.now ≡ self.now.engine }
    {
        &self.engine
    }

    /// Whether memory ran out at a request, after which no more are answered.
    pub fn is_spent(&self) -> bool
        ensures { result ≡ self.now.is_spent }
    {
        self.is_spent
    }
}

impl<E: RequestEngine> Service for Endpoint<E> {
    ghost use Rattle.graphql_http.specs.Connections.{EndpointGives};

    ghost answers = { EndpointGives E.answers E.breaks E.mutates E.limit };

    /// Answers a request. Where memory runs out the response is a 503 without a body, and the next
    /// call fails, so that the connection ends.
    fn call(
        &mut self,
        request: &Request<Bytes>,
        response: &mut Response,
    ) -> Result<(), AllocError> {
        if self.is_spent {
            return Err(AllocError);
        }
        let origins = self.origins.as_slice();
        match respond(self.alloc, origins, &mut self.engine, request, response) {
            Ok(()) => Ok(()),
            Err(_) => {
                self.is_spent = true;
                tell_want_of_memory(response);
                Ok(())
            }
        }
    }
}

//! What a line asks of a store.

ghost use Rattle.std.specs.Prelude.{◌≡◌, IfOk, OnOk};
ghost use Rattle.graphql_lines.specs.Request.{HoldsRequest, Request};
ghost use Rattle.graphql_lines.specs.declared.refusal.LineRefusal.TheVariants.{Memory};
ghost use Rattle.graphql_names.specs.Names.{Bytes};
ghost use Rattle.graphql_service.specs.Answers.{Asks, answerer_of};
ghost use Rattle.graphql_stores.specs.Stored.{IsAskedBy};
ghost use Rattle.graphql_stores.specs.declared.asked.Asked.TheVariants.{Refused};

use graphql_schema::SchemaScalar;
use graphql_service::{
    Answering, GraphQLMutationValue, GraphQLRequest, LineRefusal, PlainError, Service,
    request_from_line,
};
use std::alloc::{AllocError, Global};

/// What a line asks, by its plain text.
#[derive(Drop)]
pub(crate) enum Asked {
    /// A request that has this plain text.
    Plain(String),

    /// A request whose plain text has more fields and inline fragments than the service takes.
    TooLarge,

    /// No request, or one that is refused on its way to a plain text. The service refuses the line,
    /// too.
    Refused,
}

/// What a line asks a service for. An error is want of memory.
pub(crate) fn asked_of_line<S: SchemaScalar + Drop, R: GraphQLMutationValue<S>>(
    alloc: Global,
    service: &Service<S, R, R::Context>,
    line: &[u8],
) -> Result<Asked, AllocError>
    ensures { let a = answerer_of ⟦<R as Answering<S>>⟧.answering service.now in
        IfOk result (IsAskedBy a service.now.selection_limit line.now) }
{
    if line.len() > service.line_limit() {
        return Ok(Asked::Refused);
    }
    match request_from_line(alloc, line) {
        Ok(request) => asked_of_request(alloc, service, &request),
        Err(refusal) => asked_of_refusal(refusal),
    }
}

/// What a line asks that is no request. An error is want of memory.
fn asked_of_refusal(refusal: LineRefusal) -> Result<Asked, AllocError>
    ensures refused { IfOk result (λ it. it ≡ Refused) }
    ensures memory { OnOk result (refusal ≡ Memory → ⊥) }
{
    match refusal {
        LineRefusal::LineTooLong | LineRefusal::NotARequest | LineRefusal::BadNumber => {
            Ok(Asked::Refused)
        }
        LineRefusal::Memory => Err(AllocError),
    }
}

/// What a request asks a service for. An error is want of memory.
fn asked_of_request<S: SchemaScalar + Drop, R: GraphQLMutationValue<S>>(
    alloc: Global,
    service: &Service<S, R, R::Context>,
    request: &GraphQLRequest<S>,
) -> Result<Asked, AllocError>
    ensures { let a = answerer_of ⟦<R as Answering<S>>⟧.answering service.now in
        IfOk result (λ it. (line : Bytes) (asked : Request) → Asks a line asked
        → HoldsRequest S.of_bool S.of_int S.of_text asked request.now
        → IsAskedBy a service.now.selection_limit line it) }
{
    match service.plain(alloc, request) {
        Ok(text) => Ok(Asked::Plain(text)),
        Err(PlainError::TooLarge) => Ok(Asked::TooLarge),
        Err(PlainError::Refused(_)) => Ok(Asked::Refused),
        Err(PlainError::Memory) => Err(AllocError),
    }
}

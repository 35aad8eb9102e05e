//! What a field is answered, or why it has no answer.

ghost use Rattle.std.specs.Prelude.{◌≡◌};
ghost use Rattle.graphql_resolvers.specs.Answers as spec;

use crate::failure::Failure;
use graphql_field_results::{FieldFault, FieldResult, Resolved};
use graphql_scalars::DefaultScalarValue;

/// What a field is answered: `null`, a leaf, a list or a node (GraphQL October 2021, 6.4.3 Value
/// Completion). The functions of this crate make it.
#[derive(Drop)]
pub struct Reply<N> {
    /// As a service takes it.
    pub resolved: Resolved<DefaultScalarValue, N>,
}

/// What a resolver whose nodes are these answers for a field, or why it has no answer.
pub type Answer<N> = Result<Reply<N>, Failure>;

/// The same, as a service takes it.
pub fn into_field_result<N>(
    answer: Answer<N>,
) -> FieldResult<Resolved<DefaultScalarValue, N>, DefaultScalarValue>
    ensures { result ≡ spec.field_result answer }
{
    match answer {
        Ok(reply) => Ok(reply.resolved),
        Err(Failure::Error(error)) => Err(FieldFault::Error(error)),
        Err(Failure::Memory) => Err(FieldFault::Memory),
    }
}

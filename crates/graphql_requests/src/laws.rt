//! Laws of requests: each function's contract is a law, and its body does nothing.

ghost use Rattle.graphql_requests.specs.Asked.{ExecutableAreNotRefused, OneIsExecuted};
ghost use Rattle.graphql_requests.specs.Steps.{ExecutedAreAtNoStep, OneStepRefuses};
ghost use Rattle.graphql_requests.specs.Steps.{RefusalsHaveSteps};

use graphql_schema::{Meaning, SchemaScalar};

/// A request that can be executed is refused by nothing but want of memory: no request is both
/// executed and refused, so that the first step that fails decides what it is refused for.
pub fn executable_requests_are_not_refused<S: SchemaScalar>()
    ensures { ExecutableAreNotRefused ⟦<S as Meaning>⟧.meaning }
{}

/// Of a request one document is read, and one operation of it is executed.
pub fn one_operation_is_executed<S: SchemaScalar>()
    ensures { OneIsExecuted ⟦<S as Meaning>⟧.meaning }
{}

/// A request that is refused, but for want of memory, is refused at the one step that fails first,
/// of which the refusal tells; and a request that is executed is refused at none (GraphQL October
/// 2021, 6.1 Executing Requests).
pub fn refusals_have_steps<S: SchemaScalar>()
    ensures steps { RefusalsHaveSteps ⟦<S as Meaning>⟧.meaning }
    ensures one { OneStepRefuses ⟦<S as Meaning>⟧.meaning }
    ensures executed { ExecutedAreAtNoStep ⟦<S as Meaning>⟧.meaning }
{}

//! A service that answers what a store allows.

ghost use Rattle.std.specs.Prelude.{◌≡◌, ◌++◌, [], IfOk, OnErr, OnOk};
ghost use Rattle.graphql_answers.specs.Lines.{IsLine};
ghost use Rattle.graphql_json.specs.Writing.{KeepsFront};
ghost use Rattle.graphql_service.specs.Answers.{Appends, answerer_of};
ghost use Rattle.graphql_service.specs.Laws.{IsLineOfDistinctKeys};
ghost use Rattle.graphql_stores.specs.Allowing.{AnswersIfAllowed, BreaksIfAllowed};
ghost use Rattle.graphql_stores.specs.Allowing.{IsAnswerIfAllowed, Passes, not_allowed_line};
ghost use Rattle.graphql_stores.specs.AllowingLines.{KeepsParts};

use crate::AllowedQueries;
use crate::asked::{Asked, asked_of_line};
use graphql_answers::laws::{answers_have_distinct_keys, values_are_lines};
use graphql_answers::refusal_to_json;
use graphql_schema::SchemaScalar;
use graphql_service::laws::executable_requests_are_not_refused;
use graphql_service::{Answering, GraphQLMutationValue, Service};
use std::alloc::{AllocError, Global};

/// A service that answers the requests whose plain text is in a store.
#[derive(Drop)]
pub struct AllowingService<S, R, X, C = <S as SchemaScalar>::Check> {
    service: Service<S, R, X, C>,
    allowed: AllowedQueries,
}

impl<S: SchemaScalar + Drop, R: GraphQLMutationValue<S>> AllowingService<S, R, R::Context> {
    /// A service that answers what a store allows.
    pub fn new(
        service: Service<S, R, R::Context>,
        allowed: AllowedQueries,
    ) -> AllowingService<S, R, R::Context>
        ensures service { result.service ≡ service }
        ensures allowed { result.allowed ≡ allowed }
    {
        AllowingService { service, allowed }
    }

    /// The service that answers what is allowed.
    pub fn service(&self) -> &Service<S, R, R::Context>
        ensures { result.now ≡ self.now.service }
    {
        &self.service
    }

    /// The plain texts of the requests that are allowed.
    pub fn allowed(&self) -> &AllowedQueries
        ensures { result.now ≡ self.now.allowed }
    {
        &self.allowed
    }

    /// The answer line of a request line, its line feed included, which is then all that `out`
    /// holds: that of [`Service::answer`] where the request's plain text is in the store; else the
    /// refusal of the line on its way to a plain text, as [`Service::answer`] has it, or, where it
    /// has one that is not in the store or is larger than the service takes,
    /// `{"errors":[{"message":"Query is not allowed"}]}`. The line is given without its line feed.
    /// Only a request that is allowed changes the context (GraphQL October 2021, 6.1 Executing
    /// Requests).
    ///
    /// The only error is want of memory, after which `out` is empty, and the context is as it was,
    /// or, of a request that is allowed, as [`Service::answer`] leaves it then.
    pub fn answer(
        &mut self,
        alloc: Global,
        line: &[u8],
        out: &mut Vec<u8>,
    ) -> Result<(), AllocError>
        ensures answers { let a = answerer_of ⟦<R as Answering<S>>⟧.answering self.old.service in
            OnOk result
            (IsAnswerIfAllowed a self.old.service.selection_limit self.old.allowed line.now
            self.old.service.context out.new.items self.new.service.context) }
        ensures line { OnOk result (IsLine out.new.items) }
        ensures distinct { OnOk result (IsLineOfDistinctKeys out.new.items) }
        ensures parts { KeepsParts self.old self.new }
        ensures broken { let a = answerer_of ⟦<R as Answering<S>>⟧.answering self.old.service in
            OnErr result (BreaksIfAllowed a self.old.service.selection_limit self.old.allowed
            self.old.service.context line.now self.new.service.context) }
        ensures emptied { OnErr result (out.new.items ≡ []) }
    {
        out.clear();
        self.append_line(alloc, line, out)
    }

    /// Writes the answer line of a request line behind what `out` holds, as
    /// [`AllowingService::answer`] gives it. The only error is want of memory, after which `out` is
    /// as it was.
    pub(crate) fn append_line(
        &mut self,
        alloc: Global,
        line: &[u8],
        out: &mut Vec<u8>,
    ) -> Result<(), AllocError>
        ensures answers { let a = answerer_of ⟦<R as Answering<S>>⟧.answering self.old.service in
            OnOk result
            (Appends (λ text. AnswersIfAllowed a self.old.service.selection_limit self.old.allowed
            self.old.service.context line.now text self.new.service.context) out.old.items
            out.new.items) }
        ensures parts { KeepsParts self.old self.new }
        ensures broken { let a = answerer_of ⟦<R as Answering<S>>⟧.answering self.old.service in
            OnErr result (BreaksIfAllowed a self.old.service.selection_limit self.old.allowed
            self.old.service.context line.now self.new.service.context) }
        ensures kept { OnErr result (out.new.items ≡ out.old.items) }
    {
        executable_requests_are_not_refused::<S>();
        values_are_lines();
        answers_have_distinct_keys::<S>();
        match self.passes(alloc, line) {
            Ok(true) => self.service.append_answer_line(alloc, line, out),
            Ok(false) => append_not_allowed(out),
            Err(error) => Err(error),
        }
    }

    /// Whether the service answers the line: it asks for what is allowed, or is refused before that
    /// is asked. An error is want of memory.
    fn passes(&self, alloc: Global, line: &[u8]) -> Result<bool, AllocError>
        ensures { let a = answerer_of ⟦<R as Answering<S>>⟧.answering self.now.service in
            IfOk result (Passes a self.now.service.selection_limit self.now.allowed line.now) }
    {
        match asked_of_line(alloc, &self.service, line) {
            Ok(Asked::Plain(plain)) => Ok(self.allowed.allows(plain.as_str())),
            Ok(Asked::TooLarge) => Ok(false),
            Ok(Asked::Refused) => Ok(true),
            Err(error) => Err(error),
        }
    }
}

/// Writes the answer line that a query is not allowed behind what `out` holds. The only error is
/// want of memory, after which `out` is as it was.
fn append_not_allowed(out: &mut Vec<u8>) -> Result<(), AllocError>
    ensures written { OnOk result (out.new.items ≡ out.old.items ++ not_allowed_line) }
    ensures kept { OnErr result (out.new.items ≡ out.old.items) }
{
    let length = out.len();
    match push_not_allowed(out) {
        Ok(()) => Ok(()),
        Err(error) => {
            out.truncate(length);
            Err(error)
        }
    }
}

/// Writes the answer line that a query is not allowed, at the end of `out`. An error is want of
/// memory: then `out` may hold a part of it, behind what it held.
#[tactic(auto, using(graphql_json::proofs::Fronts::fronts))]
fn push_not_allowed(out: &mut Vec<u8>) -> Result<(), AllocError>
    ensures written { OnOk result (out.new.items ≡ out.old.items ++ not_allowed_line) }
    ensures front { KeepsFront out.old.items out.new.items }
{
    refusal_to_json(out, "Query is not allowed", &[])?;
    out.extend_from_slice(b"\n")
}

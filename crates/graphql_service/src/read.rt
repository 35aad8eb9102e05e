//! Answers to lines that are read already: what stands between a line and its answer, as a cache of
//! answers does, reads it once.

ghost use Rattle.std.specs.Prelude.{◌≡◌, OnErr, OnOk};
ghost use Rattle.graphql_tree.specs.Definitions.{fragments_listed};
ghost use Rattle.graphql_written_out.specs.Written.{Settled};
ghost use Rattle.graphql_executor.specs.Requests as request;
ghost use Rattle.graphql_lines.specs.declared.refusal.LineRefusal.TheVariants as line_refusal;
ghost use Rattle.graphql_json.specs.Writing.{KeepsFront};
ghost use Rattle.graphql_names.specs.Names.{Bytes};
ghost use Rattle.graphql_service.specs.Answers.{Appends, IsAnswer, IsNoRequest, IsNotExecuted};
ghost use Rattle.graphql_service.specs.Answers.{LeavesBroken, answerer_of};
ghost use Rattle.graphql_service.specs.Made.{IsOf};
ghost use Rattle.graphql_service.specs.Reading.{Executes};
ghost use Rattle.graphql_service.specs.Serving.{AnswersLine};

use crate::accepted::AcceptedRequest;
use crate::answered_by::Answering;
use crate::laws::answer_lines_have_distinct_keys;
use crate::refusal::{push_error, push_line_refusal};
use crate::response::push_response;
use crate::service::Service;
use graphql_answers::laws::values_are_lines;
use graphql_executor::{GraphQLError, GraphQLMutationValue, execute_validated_query};
use graphql_lines::LineRefusal;
use graphql_schema::SchemaScalar;
use std::alloc::{AllocError, Global};

impl<S: SchemaScalar + Drop, R: GraphQLMutationValue<S>> Service<S, R, R::Context> {
    /// Writes the answer line of a line that is no request behind what `out` holds, as
    /// [`Service::answer`] gives it to the line.
    ///
    /// The only error is want of memory, for which the line may have been refused too; `out` is
    /// then as it was.
    pub fn append_line_refusal(
        &self,
        alloc: Global,
        refusal: LineRefusal,
        out: &mut Vec<u8>,
    ) -> Result<(), AllocError>
        ensures answers { let a = answerer_of ⟦<R as Answering<S>>⟧.answering self.now in
            let context = self.now.context in
            OnOk result ((line : Bytes) → IsNoRequest a line refusal
            → Appends (λ text. AnswersLine a context line text context) out.old.items
            out.new.items) }
        ensures memory { OnOk result (refusal ≡ line_refusal.Memory → ⊥) }
        ensures kept { OnErr result (out.new.items ≡ out.old.items) }
    {
        values_are_lines();
        answer_lines_have_distinct_keys::<S, R>();
        let length = out.len();
        match push_line_refusal(alloc, out, refusal, self.line_limit) {
            Ok(()) => Ok(()),
            Err(error) => {
                out.truncate(length);
                Err(error)
            }
        }
    }

    /// Writes the answer line of a request that is not executed behind what `out` holds, as
    /// [`Service::answer`] gives it to its line: `error` is the step that fails first, as
    /// `read_records` and `chosen_operation` of `graphql_requests` tell it.
    ///
    /// The only error is want of memory, for which the request may have been refused too; `out` is
    /// then as it was.
    pub fn append_refusal(
        &self,
        alloc: Global,
        error: GraphQLError,
        out: &mut Vec<u8>,
    ) -> Result<(), AllocError>
        ensures answers { let a = answerer_of ⟦<R as Answering<S>>⟧.answering self.now in
            let context = self.now.context in
            OnOk result ((line : Bytes) → IsNotExecuted a line error
            → Appends (λ text. AnswersLine a context line text context) out.old.items
            out.new.items) }
        ensures memory { OnOk result (error ≡ request.Memory → ⊥) }
        ensures kept { OnErr result (out.new.items ≡ out.old.items) }
    {
        values_are_lines();
        answer_lines_have_distinct_keys::<S, R>();
        let length = out.len();
        match push_error(alloc, out, error) {
            Ok(()) => Ok(()),
            Err(error) => {
                out.truncate(length);
                Err(error)
            }
        }
    }

    /// Writes the answer line of a request that is read and accepted already behind what `out`
    /// holds, as [`Service::answer`] gives it to its line. Nothing is read or checked again. A
    /// query leaves the context as it was; a mutation changes it, response key after response key.
    ///
    /// The only error is want of memory, after which `out` is as it was; a mutation has then
    /// changed the context by a beginning of its response keys, by none in part.
    pub fn append_executed(
        &mut self,
        alloc: Global,
        accepted: &AcceptedRequest<'_, '_, S>,
        out: &mut Vec<u8>,
    ) -> Result<(), AllocError>
        requires { Settled (fragments_listed accepted.now.document.now) }
        ensures answers { let a = answerer_of ⟦<R as Answering<S>>⟧.answering self.old in
            OnOk result ((line : Bytes) → Executes a line accepted.now
            → Appends (λ text. AnswersLine a self.old.context line text self.new.context)
            out.old.items out.new.items) }
        ensures parts { IsOf self.old.root_node self.old.resolver self.new.context
            self.old.line_limit self.old.selection_limit self.new }
        ensures broken { let a = answerer_of ⟦<R as Answering<S>>⟧.answering self.old in
            OnErr result ((line : Bytes) → Executes a line accepted.now
            → LeavesBroken a line self.old.context self.new.context) }
        ensures front { KeepsFront out.old.items out.new.items }
        ensures kept { OnErr result (out.new.items ≡ out.old.items) }
    {
        values_are_lines();
        answer_lines_have_distinct_keys::<S, R>();
        let length = out.len();
        match self.push_accepted(alloc, accepted, out) {
            Ok(()) => Ok(()),
            Err(error) => {
                out.truncate(length);
                Err(error)
            }
        }
    }

    /// Writes the answer line of a request that is accepted, at the end of `out`. An error is want
    /// of memory: then `out` may hold a part of it, behind what it held.
    fn push_accepted(
        &mut self,
        alloc: Global,
        accepted: &AcceptedRequest<'_, '_, S>,
        out: &mut Vec<u8>,
    ) -> Result<(), AllocError>
        requires { Settled (fragments_listed accepted.now.document.now) }
        ensures answers { let a = answerer_of ⟦<R as Answering<S>>⟧.answering self.old in
            OnOk result ((line : Bytes) → Executes a line accepted.now
            → Appends (λ text. IsAnswer a line self.old.context text self.new.context)
            out.old.items out.new.items) }
        ensures parts { IsOf self.old.root_node self.old.resolver self.new.context
            self.old.line_limit self.old.selection_limit self.new }
        ensures broken { let a = answerer_of ⟦<R as Answering<S>>⟧.answering self.old in
            OnErr result ((line : Bytes) → Executes a line accepted.now
            → LeavesBroken a line self.old.context self.new.context) }
        ensures front { KeepsFront out.old.items out.new.items }
    {
        match execute_validated_query(
            alloc,
            accepted.document,
            accepted.operation,
            &self.root_node,
            &self.resolver,
            accepted.variables,
            &mut self.context,
        ) {
            Ok(response) => push_response(out, response),
            Err(error) => push_error(alloc, out, error),
        }
    }
}

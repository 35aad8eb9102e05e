//! Plain texts of requests.

ghost use Rattle.std.specs.Prelude.{◌≡◌, [], IfErr, IfOk, OnErr, OnOk, string_bytes};
ghost use Rattle.graphql_answers.specs.Lines.{IsLine};
ghost use Rattle.graphql_lines.specs.Request.{HoldsRequest, Request};
ghost use Rattle.graphql_json.specs.Writing.{KeepsFront};
ghost use Rattle.graphql_names.specs.Names.{Bytes};
ghost use Rattle.graphql_service.specs.PlainRequests.{
  HasNoPlainText,
  IsAcceptedAgain,
  IsDocumentAgain,
  IsPlainTextWithin,
  TakesStandIn,
  asked_of,
};
ghost use Rattle.graphql_service.specs.Answers.{Appends, Asks, answerer_of};
ghost use Rattle.graphql_service.specs.Laws.{IsLineOfDistinctKeys};
ghost use Rattle.graphql_service.specs.PlainAnswers.{AnswersPlain, IsPlainAnswer};

use crate::answered_by::Answering;
use crate::refusal::{push_line_refusal, push_plain_error};
use crate::response::push_plain_text;
use crate::service::Service;
use crate::{PlainError, plain_request};
use graphql_answers::laws::{
    answers_have_distinct_keys, plain_answers_have_distinct_keys, values_are_lines,
};
use graphql_executor::{GraphQLMutationValue, Meaning};
use graphql_lines::{GraphQLRequest, LineRefusal, request_from_line};
use graphql_rule_errors::RuleError;
use graphql_schema::SchemaScalar;
use std::alloc::{AllocError, Global};

impl<S: SchemaScalar + Drop, R: GraphQLMutationValue<S>> Service<S, R, R::Context> {
    /// The plain text of a request, as [`plain_request`] gives it over the service's root node and
    /// its greatest size: one operation without named fragments, variable conditions or unused
    /// variables. No resolver is asked, and nothing of the context decides. The text is executed in
    /// the request's place, with the same operation name and the same values for variables:
    /// [`Service::new`] tells that the schema takes the stand-in for it.
    ///
    /// An error is `PlainError::Refused` where the request is refused, with the step that fails
    /// first as `execute_sync` tells it; else `PlainError::TooLarge` where it has more fields and
    /// inline fragments than [`Service::selection_limit`]. `PlainError::Memory` comes only where
    /// memory ran out.
    pub fn plain(&self, alloc: Global, request: &GraphQLRequest<S>) -> Result<String, PlainError>
        ensures plain { let asked = asked_of self.now.root_node request.now in
            IfOk result (λ text. IsPlainTextWithin ⟦<S as Meaning>⟧.meaning asked
            self.now.selection_limit (string_bytes text)) }
        ensures document { let asked = asked_of self.now.root_node request.now in
            IfOk result
            (λ text. IsDocumentAgain ⟦<S as Meaning>⟧.meaning asked (string_bytes text)) }
        ensures accepted { let asked = asked_of self.now.root_node request.now in
            TakesStandIn ⟦<S as Meaning>⟧.meaning self.now.root_node.schema →
            IfOk result
            (λ text. IsAcceptedAgain ⟦<S as Meaning>⟧.meaning asked (string_bytes text)) }
        ensures refused { let asked = asked_of self.now.root_node request.now in
            IfErr result (HasNoPlainText ⟦<S as Meaning>⟧.meaning asked ⟦<RuleError as Ord>⟧.cmp
            self.now.selection_limit) }
    {
        plain_request(alloc, request, &self.root_node, self.selection_limit)
    }

    /// The answer line that tells the plain text of a request line, its line feed included, which
    /// is then all that `out` holds: `{"plain":TEXT}`, or the refusal that comes first, in the
    /// order of [`LineRefusal`] and then of [`Service::plain`]. The line is given without its line
    /// feed. Nothing is executed, so the context stays as it is.
    ///
    /// The only error is want of memory, after which `out` is empty.
    pub fn plain_line(
        &self,
        alloc: Global,
        line: &[u8],
        out: &mut Vec<u8>,
    ) -> Result<(), AllocError>
        ensures answers { let a = answerer_of ⟦<R as Answering<S>>⟧.answering self.now in
            OnOk result (IsPlainAnswer a self.now.selection_limit line.now out.new.items) }
        ensures line { OnOk result (IsLine out.new.items) }
        ensures distinct { OnOk result (IsLineOfDistinctKeys out.new.items) }
        ensures emptied { OnErr result (out.new.items ≡ []) }
    {
        out.clear();
        self.append_plain_line(alloc, line, out)
    }

    /// Writes the answer line that tells the plain text of a request line behind what `out` holds,
    /// as [`Service::plain_line`] gives it. The only error is want of memory, after which `out` is
    /// as it was.
    pub(crate) fn append_plain_line(
        &self,
        alloc: Global,
        line: &[u8],
        out: &mut Vec<u8>,
    ) -> Result<(), AllocError>
        ensures answers { let a = answerer_of ⟦<R as Answering<S>>⟧.answering self.now in
            OnOk result (Appends (AnswersPlain a self.now.selection_limit line.now) out.old.items
            out.new.items) }
        ensures kept { OnErr result (out.new.items ≡ out.old.items) }
    {
        values_are_lines();
        answers_have_distinct_keys::<S>();
        plain_answers_have_distinct_keys();
        let length = out.len();
        match self.push_plain_answer(alloc, line, out) {
            Ok(()) => Ok(()),
            Err(error) => {
                out.truncate(length);
                Err(error)
            }
        }
    }

    /// Writes the answer line that tells the plain text of a request line, at the end of `out`. An
    /// error is want of memory: then `out` may hold a part of it, behind what it held.
    fn push_plain_answer(
        &self,
        alloc: Global,
        line: &[u8],
        out: &mut Vec<u8>,
    ) -> Result<(), AllocError>
        ensures answers { let a = answerer_of ⟦<R as Answering<S>>⟧.answering self.now in
            OnOk result (Appends (IsPlainAnswer a self.now.selection_limit line.now) out.old.items
            out.new.items) }
        ensures front { KeepsFront out.old.items out.new.items }
    {
        if line.len() > self.line_limit {
            return push_line_refusal(alloc, out, LineRefusal::LineTooLong, self.line_limit);
        }
        match request_from_line(alloc, line) {
            Ok(request) => self.push_plain(alloc, &request, out),
            Err(refusal) => push_line_refusal(alloc, out, refusal, self.line_limit),
        }
    }

    /// Writes the answer line that tells the plain text of a request, at the end of `out`. An error
    /// is want of memory: then `out` may hold a part of it, behind what it held.
    fn push_plain(
        &self,
        alloc: Global,
        request: &GraphQLRequest<S>,
        out: &mut Vec<u8>,
    ) -> Result<(), AllocError>
        ensures answers { let a = answerer_of ⟦<R as Answering<S>>⟧.answering self.now in
            OnOk result ((line : Bytes) (asked : Request) → Asks a line asked
            → HoldsRequest S.of_bool S.of_int S.of_text asked request.now
            → Appends (IsPlainAnswer a self.now.selection_limit line) out.old.items out.new.items) }
        ensures front { KeepsFront out.old.items out.new.items }
    {
        match self.plain(alloc, request) {
            Ok(text) => push_plain_text(out, text.as_str()),
            Err(error) => push_plain_error(alloc, out, error, self.selection_limit),
        }
    }
}

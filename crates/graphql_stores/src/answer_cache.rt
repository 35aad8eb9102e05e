//! A service whose answers are kept.

ghost use Rattle.std.specs.Prelude.{◌≡◌, [], OnErr, OnOk, string_bytes};
ghost use Rattle.graphql_json.specs.Writing.{KeepsFront};
ghost use Rattle.graphql_names.specs.Names.{Bytes};
ghost use Rattle.graphql_tree.specs.Definitions.{fragments_listed};
ghost use Rattle.graphql_written_out.specs.Written.{Settled};
ghost use Rattle.graphql_service.specs.Answers.{Appends, answerer_of};
ghost use Rattle.graphql_service.specs.PlainRequests.{TakesStandIn};
ghost use Rattle.graphql_service.specs.Reading.{Executes};
ghost use Rattle.graphql_service.specs.Serving.{HasPartsOf, ServiceAnswers};
ghost use Rattle.graphql_stores.specs.Caching.{AnswersBehind, CacheAnswers, CacheBreaks};
ghost use Rattle.graphql_stores.specs.Caching.{KeepsAnswers};
ghost use Rattle.graphql_stores.specs.Laws.{HasPlainUsing, SharesQuery};
ghost use Rattle.graphql_stores.specs.Reading.{AsksAccepted};

use crate::kept_answers::{KeptAnswers, behind, is_executed, is_whole, push_text};
use crate::laws::{answers_are_shared, answers_show_errors, queries_leave_the_context};
use crate::plain_lines::{is_query, plain_line_of};
use graphql_answers::laws::values_are_lines;
use graphql_executor::Meaning;
use graphql_plain_requests::Printed;
use graphql_schema::SchemaScalar;
use graphql_service::laws::answer_lines_have_distinct_keys;
use graphql_service::{AcceptedRequest, Answering, GraphQLMutationValue, Service};
use std::alloc::{AllocError, Global};

/// A service that keeps the answers of queries, and gives them again to each line that asks for the
/// same: the same bytes, or a request of the same plain text with the same operation name and the
/// same values for the variables that the plain text uses (GraphQL October 2021, 6.1 Executing
/// Requests, 6.1.2 Coercing Variable Values). What is kept is an
/// answer without errors, since the places of errors are those of one spelling. A mutation lets all
/// go.
///
/// What is given again is what the service would answer, since what a resolver answers depends on
/// the context, the node, the field and its arguments alone, as the laws of `GraphQLValue` have it.
/// A resolver that reads anything else, as a clock, a file or a random number, does not keep those
/// laws.
#[derive(Drop)]
pub struct AnswerCache<S, R, X, C = <S as SchemaScalar>::Check> {
    pub(crate) service: Service<S, R, X, C>,
    kept: KeptAnswers,
}

impl<S: SchemaScalar + Drop, R: GraphQLMutationValue<S>> AnswerCache<S, R, R::Context> {
    /// A cache of which no answer is kept yet. Of answers and what they are found by at most
    /// `byte_limit` bytes are kept, half of them by lines and half by plain texts; the oldest go
    /// first. The schema takes the stand-in of plain texts, as `Service::new` tells of each service
    /// that it makes.
    pub fn new(
        alloc: Global,
        service: Service<S, R, R::Context>,
        byte_limit: usize,
    ) -> AnswerCache<S, R, R::Context>
        ensures keeps { TakesStandIn ⟦<S as Meaning>⟧.meaning service.root_node.schema
            → KeepsAnswers ⟦<R as Answering<S>>⟧.answering result }
        ensures service { result.service ≡ service }
    {
        AnswerCache {
            service,
            kept: KeptAnswers::new(alloc, byte_limit),
        }
    }

    /// The service whose answers are kept.
    pub fn service(&self) -> &Service<S, R, R::Context>
        ensures { result.now ≡ self.now.service }
    {
        &self.service
    }

    /// The answer line of a request line, as `Service::answer` gives it, which is then all that
    /// `out` holds: one that is kept, or else that of the service, for which the line is read and
    /// validated once. A refusal leaves what is kept, and so does a query; what is kept is let go
    /// at a request that is executed and is no query, or whose plain text is larger than the
    /// service's limit, or where memory runs out once it is accepted.
    ///
    /// The only error is want of memory, after which `out` is empty; a mutation has then changed
    /// the context by a beginning of its response keys. Want of memory for keeping an answer is no
    /// error.
    pub fn answer(
        &mut self,
        alloc: Global,
        line: &[u8],
        out: &mut Vec<u8>,
    ) -> Result<(), AllocError>
        ensures answers { OnOk result (CacheAnswers ⟦<R as Answering<S>>⟧.answering
            self.old line.now out.new.items self.new) }
        ensures broken { OnErr result (CacheBreaks ⟦<R as Answering<S>>⟧.answering
            self.old line.now self.new) }
        ensures parts { HasPartsOf self.old.service self.new.service }
        ensures emptied { OnErr result (out.new.items ≡ []) }
    {
        out.clear();
        self.append_line(alloc, line, out)
    }

    /// Writes the answer line of a request line behind what `out` holds, as [`AnswerCache::answer`]
    /// gives it. The only error is want of memory, after which `out` is as it was.
    pub(crate) fn append_line(
        &mut self,
        alloc: Global,
        line: &[u8],
        out: &mut Vec<u8>,
    ) -> Result<(), AllocError>
        ensures { AnswersBehind ⟦<R as Answering<S>>⟧.answering
            result self.old line.now out.old.items out.new.items self.new }
    {
        values_are_lines();
        answer_lines_have_distinct_keys::<S, R>();
        if let Some(kept) = self.kept.of_line(line) {
            return push_text(out, kept);
        }
        self.answer_anew(alloc, line, out)
    }

    /// Writes the answer line of a line that has this plain text, behind what `out` holds.
    pub(crate) fn answer_plain(
        &mut self,
        alloc: Global,
        line: &[u8],
        accepted: &AcceptedRequest<'_, '_, S>,
        printed: Printed<'_>,
        out: &mut Vec<u8>,
    ) -> Result<(), AllocError>
        requires has { HasPlainUsing (answerer_of ⟦<R as Answering<S>>⟧.answering self.old.service)
            self.old.service.selection_limit line.now (string_bytes printed.text)
            printed.used.keys }
        requires reads { AsksAccepted (answerer_of ⟦<R as Answering<S>>⟧.answering self.old.service)
            line.now accepted.now }
        ensures { AnswersBehind ⟦<R as Answering<S>>⟧.answering
            result self.old line.now out.old.items out.new.items self.new }
    {
        if !is_query(printed.text.as_bytes()) {
            return self.answer_other(alloc, accepted, out);
        }
        match plain_line_of(alloc, line, printed) {
            Some(key) => self.answer_query(alloc, line, accepted, key.as_str(), out),
            None => self.answer_other(alloc, accepted, out),
        }
    }

    /// The same of a line that asks for a query, by the line of its plain text.
    fn answer_query(
        &mut self,
        alloc: Global,
        line: &[u8],
        accepted: &AcceptedRequest<'_, '_, S>,
        key: &str,
        out: &mut Vec<u8>,
    ) -> Result<(), AllocError>
        requires shares { SharesQuery ⟦<R as Answering<S>>⟧.answering
            self.old.service line.now key.now }
        requires reads { AsksAccepted (answerer_of ⟦<R as Answering<S>>⟧.answering self.old.service)
            line.now accepted.now }
        ensures { AnswersBehind ⟦<R as Answering<S>>⟧.answering
            result self.old line.now out.old.items out.new.items self.new }
    {
        values_are_lines();
        answer_lines_have_distinct_keys::<S, R>();
        answers_are_shared(&self.service);
        let length = out.len();
        let Some(kept) = self.kept.of_plain(key) else {
            return self.answer_first(alloc, line, accepted, key, out);
        };
        match push_text(out, kept) {
            Ok(()) => {
                self.kept
                    .keep_line(alloc, line, behind(out.as_slice(), length));
                Ok(())
            }
            Err(error) => Err(error),
        }
    }

    /// The same where nothing is kept for the plain text yet: the service's answer, which is kept
    /// if it has no errors.
    fn answer_first(
        &mut self,
        alloc: Global,
        line: &[u8],
        accepted: &AcceptedRequest<'_, '_, S>,
        key: &str,
        out: &mut Vec<u8>,
    ) -> Result<(), AllocError>
        requires shares { SharesQuery ⟦<R as Answering<S>>⟧.answering
            self.old.service line.now key.now }
        requires reads { AsksAccepted (answerer_of ⟦<R as Answering<S>>⟧.answering self.old.service)
            line.now accepted.now }
        ensures { AnswersBehind ⟦<R as Answering<S>>⟧.answering
            result self.old line.now out.old.items out.new.items self.new }
    {
        answers_are_shared(&self.service);
        answers_show_errors(&self.service);
        queries_leave_the_context(&self.service);
        let length = out.len();
        match self.ask(alloc, accepted, out) {
            Ok(()) => {}
            Err(error) => return Err(error),
        }
        let text = behind(out.as_slice(), length);
        if !is_whole(text) {
            return Ok(());
        }
        self.kept.keep_plain(alloc, key, text);
        self.kept.keep_line(alloc, line, text);
        Ok(())
    }

    /// The same of any request that is accepted: the service's answer. What is kept is let go where
    /// the request is executed, since it may be a mutation.
    pub(crate) fn answer_other(
        &mut self,
        alloc: Global,
        accepted: &AcceptedRequest<'_, '_, S>,
        out: &mut Vec<u8>,
    ) -> Result<(), AllocError>
        requires { Settled (fragments_listed accepted.now.document.now) }
        ensures { let a = answerer_of ⟦<R as Answering<S>>⟧.answering self.old.service in
            (line : Bytes) → Executes a line accepted.now
            → AnswersBehind ⟦<R as Answering<S>>⟧.answering
            result self.old line out.old.items out.new.items self.new }
    {
        answers_show_errors(&self.service);
        let length = out.len();
        match self.ask(alloc, accepted, out) {
            Ok(()) => {}
            Err(error) => return Err(error),
        }
        if !is_executed(behind(out.as_slice(), length)) {
            return Ok(());
        }
        self.kept.clear();
        Ok(())
    }

    /// Writes the service's answer to a request that is accepted. Where memory runs out, what is
    /// kept is let go.
    fn ask(
        &mut self,
        alloc: Global,
        accepted: &AcceptedRequest<'_, '_, S>,
        out: &mut Vec<u8>,
    ) -> Result<(), AllocError>
        requires { Settled (fragments_listed accepted.now.document.now) }
        ensures answers { let a = answerer_of ⟦<R as Answering<S>>⟧.answering self.old.service in
            OnOk result ((line : Bytes) → Executes a line accepted.now
            → Appends (λ text. ServiceAnswers ⟦<R as Answering<S>>⟧.answering
            self.old.service line text self.new.service) out.old.items out.new.items) }
        ensures front { KeepsFront out.old.items out.new.items }
        ensures same { OnOk result (self.new.kept ≡ self.old.kept) }
        ensures broken { let a = answerer_of ⟦<R as Answering<S>>⟧.answering self.old.service in
            OnErr result ((line : Bytes) → Executes a line accepted.now
            → CacheBreaks ⟦<R as Answering<S>>⟧.answering self.old line self.new) }
        ensures parts { HasPartsOf self.old.service self.new.service }
        ensures kept { OnErr result (out.new.items ≡ out.old.items) }
    {
        match self.service.append_executed(alloc, accepted, out) {
            Ok(()) => Ok(()),
            Err(error) => {
                self.kept.clear();
                Err(error)
            }
        }
    }
}

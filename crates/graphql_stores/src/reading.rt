//! Lines for which no answer is kept: each is read and validated once, for its plain text and for
//! its answer.

ghost use Rattle.std.specs.Prelude.{string_bytes};
ghost use Rattle.std.specs.Str.{chars};
ghost use Rattle.graphql_lexer.specs.Records.{IsRecorded};
ghost use Rattle.graphql_service.specs.Answers.{answerer_of};
ghost use Rattle.graphql_stores.specs.Caching.{AnswersBehind};
ghost use Rattle.graphql_stores.specs.Reading.{AsksRequest, ReadsAccepted, ReadsDocument};

use crate::answer_cache::AnswerCache;
use graphql_executor::documents_without_a_fault_are_settled;
use graphql_language::TokenRecords;
use graphql_plain_requests::plain_of_chosen;
use graphql_requests::{chosen_operation, read_records};
use graphql_schema::SchemaScalar;
use graphql_service::{
    AcceptedRequest, Answering, GraphQLError, GraphQLMutationValue, GraphQLRequest, LineRefusal,
    operation_name_of, request_from_line,
};
use graphql_tree::Definition;
use std::alloc::{AllocError, Global};

impl<S: SchemaScalar + Drop, R: GraphQLMutationValue<S>> AnswerCache<S, R, R::Context> {
    /// Writes the answer line of a line for which none is kept, behind what `out` holds. A refusal
    /// leaves what is kept.
    pub(crate) fn answer_anew(
        &mut self,
        alloc: Global,
        line: &[u8],
        out: &mut Vec<u8>,
    ) -> Result<(), AllocError>
        ensures { AnswersBehind ⟦<R as Answering<S>>⟧.answering
            result self.old line.now out.old.items out.new.items self.new }
    {
        if line.len() > self.service.line_limit() {
            return self
                .service
                .append_line_refusal(alloc, LineRefusal::LineTooLong, out);
        }
        match request_from_line(alloc, line) {
            Ok(request) => self.answer_request(alloc, line, &request, out),
            Err(refusal) => self.service.append_line_refusal(alloc, refusal, out),
        }
    }

    /// The same of a line that asks this request: its text is cut into tokens.
    fn answer_request(
        &mut self,
        alloc: Global,
        line: &[u8],
        request: &GraphQLRequest<S>,
        out: &mut Vec<u8>,
    ) -> Result<(), AllocError>
        requires { AsksRequest (answerer_of ⟦<R as Answering<S>>⟧.answering self.old.service)
            line.now request.now }
        ensures { AnswersBehind ⟦<R as Answering<S>>⟧.answering
            result self.old line.now out.old.items out.new.items self.new }
    {
        match TokenRecords::new(alloc, request.query.as_str()) {
            Ok(records) => self.answer_records(alloc, line, request, &records, out),
            Err(fault) => {
                let error = GraphQLError::from(fault);
                self.service.append_refusal(alloc, error, out)
            }
        }
    }

    /// The same of a request whose text has these tokens: its document is read and validated.
    fn answer_records<'a>(
        &mut self,
        alloc: Global,
        line: &[u8],
        request: &GraphQLRequest<S>,
        records: &'a TokenRecords<'a>,
        out: &mut Vec<u8>,
    ) -> Result<(), AllocError>
        requires asks { AsksRequest (answerer_of ⟦<R as Answering<S>>⟧.answering self.old.service)
            line.now request.now }
        requires recorded { IsRecorded (chars (string_bytes request.now.query)) records.now }
        ensures { AnswersBehind ⟦<R as Answering<S>>⟧.answering
            result self.old line.now out.old.items out.new.items self.new }
    {
        match read_records(alloc, records, self.service.root_node()) {
            Ok(document) => {
                self.answer_document(alloc, line, request, records, document.as_slice(), out)
            }
            Err(error) => self.service.append_refusal(alloc, error, out),
        }
    }

    /// The same of a request whose document is valid: its operation is chosen, and takes the values
    /// for variables.
    fn answer_document<'d, 'a>(
        &mut self,
        alloc: Global,
        line: &[u8],
        request: &'d GraphQLRequest<S>,
        records: &'d TokenRecords<'a>,
        document: &'d [Definition<'a, S>],
        out: &mut Vec<u8>,
    ) -> Result<(), AllocError>
        requires { ReadsDocument (answerer_of ⟦<R as Answering<S>>⟧.answering self.old.service)
            line.now request.now records.now document.now }
        ensures { AnswersBehind ⟦<R as Answering<S>>⟧.answering
            result self.old line.now out.old.items out.new.items self.new }
    {
        let root_node = self.service.root_node();
        documents_without_a_fault_are_settled(root_node.schema());
        let name = operation_name_of(request);
        match chosen_operation(alloc, document, name, root_node, &request.variables) {
            Ok(operation) => {
                let accepted = AcceptedRequest {
                    document,
                    operation,
                    variables: &request.variables,
                };
                self.answer_accepted(alloc, line, &accepted, records, out)
            }
            Err(error) => self.service.append_refusal(alloc, error, out),
        }
    }

    /// The same of a request that is accepted: of its plain text, unless that has too many fields
    /// and inline fragments, or memory runs out for it.
    fn answer_accepted<'d, 'a>(
        &mut self,
        alloc: Global,
        line: &[u8],
        accepted: &AcceptedRequest<'d, 'a, S>,
        records: &'d TokenRecords<'a>,
        out: &mut Vec<u8>,
    ) -> Result<(), AllocError>
        requires { ReadsAccepted (answerer_of ⟦<R as Answering<S>>⟧.answering self.old.service)
            line.now accepted.now records.now }
        ensures { AnswersBehind ⟦<R as Answering<S>>⟧.answering
            result self.old line.now out.old.items out.new.items self.new }
    {
        match plain_of_chosen(
            alloc,
            accepted.document,
            &accepted.operation.item,
            accepted.variables,
            records,
            self.service.selection_limit(),
        ) {
            Ok(printed) => self.answer_plain(alloc, line, accepted, printed, out),
            Err(_) => self.answer_other(alloc, accepted, out),
        }
    }
}

//! Gives the plain text of each line of what is read.

ghost use Rattle.std.specs.Prelude.{◌≡◌, IfErr, OnOk};
ghost use Rattle.graphql_streams.specs.Counts.{HasRisen};
ghost use Rattle.graphql_streams.specs.Served.{Ends, ServedAll, WritesAfter, reads_after};
ghost use Rattle.graphql_service.specs.Answers.{answerer_of};
ghost use Rattle.graphql_service.specs.PlainAnswers.{PlainBreaks, PlainGives, PlainOfLines};
ghost use Rattle.graphql_service.specs.PlainServing.{plain-kept};

use crate::answered_by::Answering;
use crate::plain_lines::PlainLines;
use crate::service::Service;
use graphql_executor::GraphQLMutationValue;
use graphql_schema::SchemaScalar;
use graphql_streams::{ByteSink, ByteSource, LineEngine, ServeError, serve_lines};
use std::alloc::{AllocError, Global};

impl<S: SchemaScalar + Drop, R: GraphQLMutationValue<S>> Service<S, R, R::Context> {
    /// Tells the plain text of each line that is not empty until the input ends, in order: what is
    /// written is what [`Service::plain_line`] gives for each. Nothing is executed, so the context
    /// stays as it is. Lines end, are read, are cut and are answered as [`Service::serve`] has it.
    ///
    /// Errors: a read that failed, a write that failed or took nothing, and want of memory, each at
    /// the first that comes. After a failed read the answers to the whole lines before it are
    /// written; after want of memory those to the lines before the one that met it, or a beginning
    /// of them where a write failed then; after a failed write a beginning of the answers' text.
    pub fn serve_plain<I: ByteSource, O: ByteSink>(
        &self,
        alloc: Global,
        reader: &mut I,
        writer: &mut O,
    ) -> Result<(), ServeError>
        ensures served { let a = answerer_of ⟦<R as Answering<S>>⟧.answering self.now in
            OnOk result (ServedAll (PlainGives a self.now.selection_limit) tt
            (I.left reader.old) (I.left reader.new)
            (O.written writer.old) (O.written writer.new) tt) }
        ensures ended { let a = answerer_of ⟦<R as Answering<S>>⟧.answering self.now in
            IfErr result (λ error. Ends (PlainGives a self.now.selection_limit)
            (PlainBreaks a self.now.selection_limit)
            (HasRisen (O.faults writer.old) (O.faults writer.new)) error tt
            (I.left reader.old) (I.left reader.new)
            (O.written writer.old) (O.written writer.new) tt) }
        ensures reads { I.faults reader.new ≡ reads_after result (I.faults reader.old) }
        ensures writes { WritesAfter result (O.faults writer.old) (O.faults writer.new) }
    {
        let mut lines = PlainLines { service: self };
        serve_lines(alloc, &mut lines, reader, writer)
    }
}

impl<S: SchemaScalar + Drop, R: GraphQLMutationValue<S>> LineEngine
    for PlainLines<'_, S, R, R::Context> {
    ghost answers = { PlainOfLines ⟦<R as Answering<S>>⟧.answering };

    ghost breaks = { λ old line new. new.service.now ≡ old.service.now };

    ghost holds = { λ _. Unit {0} };

    ghost limit = { λ lines. lines.service.now.line_limit };

    ghost answers_kept = { plain-kept ⟦<R as Answering<S>>⟧.answering };

    ghost breaks_kept = { λ old line new longer same. same };

    fn line_limit(&self) -> usize {
        self.service.line_limit()
    }

    fn append_answer(
        &mut self,
        alloc: Global,
        line: &[u8],
        out: &mut Vec<u8>,
    ) -> Result<(), AllocError> {
        self.service.append_plain_line(alloc, line, out)
    }
}

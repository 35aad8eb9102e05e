//! Answers each line of what is read.

ghost use Rattle.std.specs.Prelude.{◌≡◌, IfErr, OnOk};
ghost use Rattle.graphql_streams.specs.Counts.{HasRisen};
ghost use Rattle.graphql_streams.specs.Served.{Ends, ServedAll, WritesAfter, reads_after};
ghost use Rattle.graphql_service.specs.Answers.{answerer_of};
ghost use Rattle.graphql_service.specs.KeptTexts.{AreKept};
ghost use Rattle.graphql_service.specs.Made.{IsOf};
ghost use Rattle.graphql_service.specs.Serving.{AnswersLine, BreaksAtLine, ServiceAnswers};
ghost use Rattle.graphql_service.specs.Serving.{ServiceBreaks, answers-kept, breaks-kept};

use crate::answered_by::Answering;
use crate::service::Service;
use graphql_executor::{GraphQLMutationValue, Meaning, ValidTexts};
use graphql_schema::SchemaScalar;
use graphql_streams::{ByteSink, ByteSource, LineEngine, ServeError, serve_lines};
use std::alloc::{AllocError, Global};

impl<S: SchemaScalar + Drop, R: GraphQLMutationValue<S>> Service<S, R, R::Context> {
    /// Sets how many texts of requests [`Service::serve`] keeps that were found valid, so that no
    /// rule is asked of a text that comes again (GraphQL October 2021, 5 Validation): at most
    /// `text_limit` texts, of at most `byte_limit` bytes in all; none where one of them is zero.
    /// Where one more would be too many, all go and it begins anew. A service begins with
    /// [`VALID_TEXT_LIMIT`](crate::VALID_TEXT_LIMIT) and
    /// [`VALID_BYTE_LIMIT`](crate::VALID_BYTE_LIMIT).
    ///
    /// While lines are served it keeps up to `byte_limit` bytes of texts, and up to some 100 bytes
    /// beside each. Memory that is wanting for them is no error: the text is not kept.
    pub fn keep_valid_texts(&mut self, text_limit: usize, byte_limit: usize)
        ensures text_limit { self.new.valid_text_limit ≡ text_limit }
        ensures byte_limit { self.new.valid_byte_limit ≡ byte_limit }
        ensures parts { IsOf self.old.root_node self.old.resolver self.old.context
            self.old.line_limit self.old.selection_limit self.new }
    {
        self.valid_text_limit = text_limit;
        self.valid_byte_limit = byte_limit;
    }

    /// Answers each line that is not empty until the input ends, in order, each on the context that
    /// the lines before left: what is written is the answer of [`Service::answer`] to each. A line
    /// ends at a line feed or at the end of the input, in whatever pieces the bytes come. Input is
    /// read by blocks, and the answers to the lines of a block are written together, before the
    /// next block is asked for. Of a line that is longer than the service takes one byte more is
    /// kept, so that the service refuses it; the rest is let go as it is read.
    ///
    /// Texts of requests that were found valid are kept until the end, as many as
    /// [`Service::keep_valid_texts`] has it, and no rule is asked again of a text that is kept.
    ///
    /// Errors: a read that failed, a write that failed or took nothing, and want of memory, each at
    /// the first that comes.
    ///
    /// - After a failed read the answers to the whole lines before it are written.
    /// - After want of memory the answers to the lines before the one that met it are written, and
    ///   none to that one. Where it asks for a mutation, the context may be what a beginning of its
    ///   response keys leaves. Where a write failed after that, a beginning of those answers is
    ///   written, and want of memory is told.
    /// - After a failed write a beginning of the answers' text is written, and the context is what
    ///   the lines leave whose answers were made.
    pub fn serve<I: ByteSource, O: ByteSink>(
        &mut self,
        alloc: Global,
        reader: &mut I,
        writer: &mut O,
    ) -> Result<(), ServeError>
        ensures served { let a = answerer_of ⟦<R as Answering<S>>⟧.answering self.old in
            OnOk result (ServedAll (AnswersLine a) self.old.context
            (I.left reader.old) (I.left reader.new)
            (O.written writer.old) (O.written writer.new) self.new.context) }
        ensures ended { let a = answerer_of ⟦<R as Answering<S>>⟧.answering self.old in
            IfErr result (λ error. Ends (AnswersLine a) (BreaksAtLine a)
            (HasRisen (O.faults writer.old) (O.faults writer.new)) error self.old.context
            (I.left reader.old) (I.left reader.new)
            (O.written writer.old) (O.written writer.new) self.new.context) }
        ensures parts { IsOf self.old.root_node self.old.resolver self.new.context
            self.old.line_limit self.old.selection_limit self.new }
        ensures reads { I.faults reader.new ≡ reads_after result (I.faults reader.old) }
        ensures writes { WritesAfter result (O.faults writer.old) (O.faults writer.new) }
    {
        let begun = ValidTexts::new(self.valid_text_limit, self.valid_byte_limit);
        self.valid = begun;
        let served = self.serve_keeping(alloc, reader, writer);
        let none = ValidTexts::new(0, 0);
        self.valid = none;
        served
    }

    /// The same, where texts are kept that were found valid.
    fn serve_keeping<I: ByteSource, O: ByteSink>(
        &mut self,
        alloc: Global,
        reader: &mut I,
        writer: &mut O,
    ) -> Result<(), ServeError>
        requires { AreKept ⟦<S as Meaning>⟧.meaning self.old }
        ensures served { let a = answerer_of ⟦<R as Answering<S>>⟧.answering self.old in
            OnOk result (ServedAll (AnswersLine a) self.old.context
            (I.left reader.old) (I.left reader.new)
            (O.written writer.old) (O.written writer.new) self.new.context) }
        ensures ended { let a = answerer_of ⟦<R as Answering<S>>⟧.answering self.old in
            IfErr result (λ error. Ends (AnswersLine a) (BreaksAtLine a)
            (HasRisen (O.faults writer.old) (O.faults writer.new)) error self.old.context
            (I.left reader.old) (I.left reader.new)
            (O.written writer.old) (O.written writer.new) self.new.context) }
        ensures parts { IsOf self.old.root_node self.old.resolver self.new.context
            self.old.line_limit self.old.selection_limit self.new }
        ensures reads { I.faults reader.new ≡ reads_after result (I.faults reader.old) }
        ensures writes { WritesAfter result (O.faults writer.old) (O.faults writer.new) }
    {
        serve_lines(alloc, self, reader, writer)
    }
}

impl<S: SchemaScalar + Drop, R: GraphQLMutationValue<S>> LineEngine for Service<S, R, R::Context> {
    ghost answers = { ServiceAnswers ⟦<R as Answering<S>>⟧.answering };

    ghost breaks = { ServiceBreaks ⟦<R as Answering<S>>⟧.answering };

    ghost holds = { AreKept ⟦<S as Meaning>⟧.meaning };

    ghost limit = { λ service. service.line_limit };

    ghost answers_kept = { answers-kept ⟦<R as Answering<S>>⟧.answering };

    ghost breaks_kept = { breaks-kept ⟦<R as Answering<S>>⟧.answering };

    fn line_limit(&self) -> usize {
        Service::line_limit(self)
    }

    fn append_answer(
        &mut self,
        alloc: Global,
        line: &[u8],
        out: &mut Vec<u8>,
    ) -> Result<(), AllocError> {
        self.append_line(alloc, line, out)
    }
}

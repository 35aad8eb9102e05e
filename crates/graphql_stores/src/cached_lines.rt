//! Answers each line of what is read, and keeps answers.

ghost use Rattle.std.specs.Prelude.{◌≡◌, IfErr, OnOk};
ghost use Rattle.graphql_streams.specs.Counts.{HasRisen};
ghost use Rattle.graphql_streams.specs.Served.{Ends, ServedAll, WritesAfter, reads_after};
ghost use Rattle.graphql_service.specs.Answers.{answerer_of};
ghost use Rattle.graphql_service.specs.Serving.{AnswersLine, BreaksAtLine, HasPartsOf};
ghost use Rattle.graphql_stores.specs.CachedLines.{cache-answers-kept, cache-breaks-kept};
ghost use Rattle.graphql_stores.specs.Caching.{CacheAnswers, CacheBreaks, KeepsAnswers};

use crate::answer_cache::AnswerCache;
use graphql_schema::SchemaScalar;
use graphql_service::{Answering, GraphQLMutationValue};
use graphql_streams::{ByteSink, ByteSource, LineEngine, ServeError, serve_lines};
use std::alloc::{AllocError, Global};

impl<S: SchemaScalar + Drop, R: GraphQLMutationValue<S>> AnswerCache<S, R, R::Context> {
    /// Answers each line that is not empty until the input ends, in order, each on the context that
    /// the lines before left: what is written is the answer of [`AnswerCache::answer`] to each,
    /// which is that of the service. Lines end, are read, are cut and are answered as
    /// `Service::serve` has it.
    ///
    /// Errors: those of `Service::serve`, each where it comes there, and what is read, written and
    /// left then is what is said there.
    pub fn serve<I: ByteSource, O: ByteSink>(
        &mut self,
        alloc: Global,
        reader: &mut I,
        writer: &mut O,
    ) -> Result<(), ServeError>
        ensures served { let a = answerer_of ⟦<R as Answering<S>>⟧.answering self.old.service in
            KeepsAnswers ⟦<R as Answering<S>>⟧.answering self.old →
            OnOk result (ServedAll (AnswersLine a) self.old.service.context
            (I.left reader.old) (I.left reader.new)
            (O.written writer.old) (O.written writer.new) self.new.service.context) }
        ensures ended { let a = answerer_of ⟦<R as Answering<S>>⟧.answering self.old.service in
            KeepsAnswers ⟦<R as Answering<S>>⟧.answering self.old →
            IfErr result (λ error. Ends (AnswersLine a) (BreaksAtLine a)
            (HasRisen (O.faults writer.old) (O.faults writer.new)) error self.old.service.context
            (I.left reader.old) (I.left reader.new)
            (O.written writer.old) (O.written writer.new) self.new.service.context) }
        ensures keeps { let keeps = KeepsAnswers ⟦<R as Answering<S>>⟧.answering in
            keeps self.old → HasPartsOf self.old.service self.new.service × keeps self.new }
        ensures reads { I.faults reader.new ≡ reads_after result (I.faults reader.old) }
        ensures writes { WritesAfter result (O.faults writer.old) (O.faults writer.new) }
    {
        serve_lines(alloc, self, reader, writer)
    }
}

impl<S: SchemaScalar + Drop, R: GraphQLMutationValue<S>> LineEngine
    for AnswerCache<S, R, R::Context> {
    ghost answers = { CacheAnswers ⟦<R as Answering<S>>⟧.answering };

    ghost breaks = { CacheBreaks ⟦<R as Answering<S>>⟧.answering };

    ghost holds = { λ _. Unit {0} };

    ghost limit = { λ cache. cache.service.line_limit };

    ghost answers_kept = { cache-answers-kept ⟦<R as Answering<S>>⟧.answering };

    ghost breaks_kept = { cache-breaks-kept ⟦<R as Answering<S>>⟧.answering };

    fn line_limit(&self) -> usize {
        self.service().line_limit()
    }

    fn append_answer(
        &mut self,
        alloc: Global,
        line: &[u8],
        out: &mut Vec<u8>,
    ) -> Result<(), AllocError> {
        self.append_line(alloc, line, out)
    }
}

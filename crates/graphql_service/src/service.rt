//! A service that answers request lines.

ghost use Rattle.std.specs.Prelude.{◌≡◌, true};
ghost use Rattle.graphql_schema.specs.Executable.{is_executable};
ghost use Rattle.graphql_schema.specs.Schemas.{roots_of};
ghost use Rattle.graphql_schema.specs.Directives.{has_standard_conditions};

use crate::answered_by::Answering;
use crate::laws::answer_lines_have_distinct_keys;
use crate::refusal::{push_error, push_line_refusal};
use crate::response::push_response;
use crate::{boolean_takes_true, operation_name_of};
use graphql_answers::laws::values_are_lines;
use graphql_executor::{GraphQLMutationValue, Meaning, ValidTexts, execute_with};
use graphql_lines::{GraphQLRequest, LineRefusal, request_from_line};
use graphql_schema::{RootNode, SchemaScalar};
use std::alloc::{AllocError, AllocFailed, Global};
use std::fmt;
use thiserror::Error;

/// Why there is no service.
#[derive(Clone, Copy, Debug, Error, PartialEq, Eq)]
pub enum ServiceFault {
    /// A type of the schema does not keep what it promises: `schema_is_executable` is false.
    NotExecutable,

    /// The directive `skip` or `include` is not the standard's: `has_standard_conditions` is false.
    OtherConditions,

    /// The type `Boolean` is no scalar that takes `true`: `boolean_takes_true` is false.
    OtherBoolean,

    /// Memory ran out while `Boolean` was asked.
    Memory,
}

impl From<AllocError> for ServiceFault {
    ghost use Rattle.graphql_service.specs.declared.service.ServiceFault.TheVariants.{Memory};

    ghost from_gives = { λ _ fault. fault ≡ Memory };

    fn from(_error: AllocError) -> ServiceFault {
        ServiceFault::Memory
    }
}

impl<T: Drop> From<AllocFailed<T>> for ServiceFault {
    ghost use Rattle.graphql_service.specs.declared.service.ServiceFault.TheVariants.{Memory};

    ghost from_gives = { λ _ fault. fault ≡ Memory };

    fn from(_error: AllocFailed<T>) -> ServiceFault {
        ServiceFault::Memory
    }
}

/// Writes the fault in words.
impl fmt::Display for ServiceFault {
    ghost use Rattle.std.specs.Prelude.{Some};
    ghost use Rattle.graphql_service.specs.FaultTexts.{service_fault_text};

    ghost output = { λ fault. Some (service_fault_text fault) };

    fn fmt<W: fmt::Write>(&self, f: &mut fmt::Formatter<W>) -> fmt::Result {
        match self {
            ServiceFault::NotExecutable => {
                f.write_str("a type of the schema does not keep what it promises")
            }
            ServiceFault::OtherConditions => {
                f.write_str("the directive skip or include is not the standard's")
            }
            ServiceFault::OtherBoolean => {
                f.write_str("the type Boolean is no scalar that takes true")
            }
            ServiceFault::Memory => f.write_str("out of memory"),
        }
    }
}

/// How many texts of requests a service keeps as valid while it serves lines, unless
/// [`Service::keep_valid_texts`] says otherwise.
pub const VALID_TEXT_LIMIT: usize = 1_000;

/// How many bytes of such texts a service keeps in all, unless [`Service::keep_valid_texts`] says
/// otherwise.
pub const VALID_BYTE_LIMIT: usize = 1_048_576;

/// A schema that can be executed, a resolver and its context, over which request lines are
/// answered.
#[derive(Drop)]
pub struct Service<S, R, X, C = <S as SchemaScalar>::Check> {
    pub(crate) root_node: RootNode<S, C>,
    pub(crate) resolver: R,
    pub(crate) context: X,
    pub(crate) line_limit: usize,
    pub(crate) selection_limit: usize,

    // How many texts that were found valid are kept while lines are served, and how many bytes of
    // them in all.
    pub(crate) valid_text_limit: usize,
    pub(crate) valid_byte_limit: usize,

    // The texts that were found valid among the lines that are being served.
    pub(crate) valid: ValidTexts,

    ghost executable: { is_executable root_node.schema.types (roots_of root_node.schema) ≡ true },
    ghost conditions: { has_standard_conditions root_node.schema.directives ≡ true },
}

impl<S: SchemaScalar + Drop, R: GraphQLMutationValue<S>> Service<S, R, R::Context> {
    ghost use Rattle.std.specs.Prelude.{[], OnErr, OnOk};
    ghost use Rattle.graphql_answers.specs.Lines.{IsLine};
    ghost use Rattle.graphql_lines.specs.Request.{HoldsRequest, Request};
    ghost use Rattle.graphql_json.specs.Writing.{KeepsFront};
    ghost use Rattle.graphql_names.specs.Names.{Bytes};
    ghost use Rattle.graphql_service.specs.Answers.{Appends, Asks, IsAnswer, LeavesBroken};
    ghost use Rattle.graphql_service.specs.Answers.{answerer_of};
    ghost use Rattle.graphql_service.specs.Laws.{IsLineOfDistinctKeys};
    ghost use Rattle.graphql_service.specs.Made.{IsOf, Makes};
    ghost use Rattle.graphql_service.specs.KeptTexts.{AreKept};
    ghost use Rattle.graphql_service.specs.Serving.{AnswersLine};

    /// A service over this root node, this resolver and this context. Its lines have at most
    /// `line_limit` bytes, and plain texts at most `selection_limit` fields and inline fragments.
    ///
    /// The first fault that stands is told, in the order of [`ServiceFault`]; the parts are let go
    /// then. So the schema of a service takes the stand-in of a plain text, `@skip(if: true)`.
    pub fn new(
        root_node: RootNode<S>,
        resolver: R,
        context: R::Context,
        line_limit: usize,
        selection_limit: usize,
    ) -> Result<Service<S, R, R::Context>, ServiceFault>
    where
        R: Drop,
        R::Context: Drop,
        ensures { Makes root_node resolver context line_limit selection_limit
            ⟦<S as Meaning>⟧.meaning result }
    {
        if !root_node.schema().schema_is_executable() {
            return Err(ServiceFault::NotExecutable);
        }
        if !root_node.schema().has_standard_conditions() {
            return Err(ServiceFault::OtherConditions);
        }
        if !boolean_takes_true(root_node.schema())? {
            return Err(ServiceFault::OtherBoolean);
        }
        Ok(Service {
            root_node,
            resolver,
            context,
            line_limit,
            selection_limit,
            valid_text_limit: VALID_TEXT_LIMIT,
            valid_byte_limit: VALID_BYTE_LIMIT,
            valid: ValidTexts::new(0, 0),
        })
    }

    /// The schema over which requests are answered, and whether it may be asked for.
    pub fn root_node(&self) -> &RootNode<S>
        ensures { result.now ≡ self.now.root_node }
    {
        &self.root_node
    }

    /// What fields are asked of.
    pub fn resolver(&self) -> &R
        ensures { result.now ≡ self.now.resolver }
    {
        &self.resolver
    }

    /// What the resolver answers from.
    pub fn context(&self) -> &R::Context
        ensures { result.now ≡ self.now.context }
    {
        &self.context
    }

    /// The greatest length of a line, in bytes. A longer one is refused.
    pub fn line_limit(&self) -> usize
        ensures { result ≡ self.now.line_limit }
    {
        self.line_limit
    }

    /// The greatest size of a plain text, in fields and inline fragments.
    pub fn selection_limit(&self) -> usize
        ensures { result ≡ self.now.selection_limit }
    {
        self.selection_limit
    }

    /// The answer line of a request line, its line feed included, which is then all that `out`
    /// holds: the refusal that comes first, in the order of [`LineRefusal`] and then of
    /// `execute_sync`, or data and errors (GraphQL October 2021, 7 Response). The line is given
    /// without its line feed. Each object in the answer has distinct keys, however deep. A refusal
    /// and a query leave the context as it was; a mutation changes it, response key after response
    /// key. The other parts of the service stay as they were.
    ///
    /// The only error is want of memory, after which `out` is empty; a mutation has then changed
    /// the context by a beginning of its response keys, by none in part.
    pub fn answer(
        &mut self,
        alloc: Global,
        line: &[u8],
        out: &mut Vec<u8>,
    ) -> Result<(), AllocError>
        ensures answers { let a = answerer_of ⟦<R as Answering<S>>⟧.answering self.old in
            OnOk result (IsAnswer a line.now self.old.context out.new.items self.new.context) }
        ensures line { OnOk result (IsLine out.new.items) }
        ensures distinct { OnOk result (IsLineOfDistinctKeys out.new.items) }
        ensures parts { IsOf self.old.root_node self.old.resolver self.new.context
            self.old.line_limit self.old.selection_limit self.new }
        ensures broken { let a = answerer_of ⟦<R as Answering<S>>⟧.answering self.old in
            OnErr result (LeavesBroken a line.now self.old.context self.new.context) }
        ensures emptied { OnErr result (out.new.items ≡ []) }
    {
        out.clear();
        self.append_answer_line(alloc, line, out)
    }

    /// Writes the answer line of a request line behind what `out` holds, as [`Service::answer`]
    /// gives it. The only error is want of memory, after which `out` is as it was; a mutation has
    /// then changed the context by a beginning of its response keys, by none in part.
    pub fn append_answer_line(
        &mut self,
        alloc: Global,
        line: &[u8],
        out: &mut Vec<u8>,
    ) -> Result<(), AllocError>
        ensures answers { let a = answerer_of ⟦<R as Answering<S>>⟧.answering self.old in
            OnOk result
            (Appends (λ text. AnswersLine a self.old.context line.now text self.new.context)
            out.old.items out.new.items) }
        ensures parts { IsOf self.old.root_node self.old.resolver self.new.context
            self.old.line_limit self.old.selection_limit self.new }
        ensures broken { let a = answerer_of ⟦<R as Answering<S>>⟧.answering self.old in
            OnErr result (LeavesBroken a line.now self.old.context self.new.context) }
        ensures kept { OnErr result (out.new.items ≡ out.old.items) }
    {
        let none = ValidTexts::new(0, 0);
        self.valid = none;
        self.append_line(alloc, line, out)
    }

    /// The same, where texts are kept that were found valid: no rule is asked of these.
    pub(crate) fn append_line(
        &mut self,
        alloc: Global,
        line: &[u8],
        out: &mut Vec<u8>,
    ) -> Result<(), AllocError>
        requires { AreKept ⟦<S as Meaning>⟧.meaning self.old }
        ensures answers { let a = answerer_of ⟦<R as Answering<S>>⟧.answering self.old in
            OnOk result
            (Appends (λ text. AnswersLine a self.old.context line.now text self.new.context)
            out.old.items out.new.items) }
        ensures parts { IsOf self.old.root_node self.old.resolver self.new.context
            self.old.line_limit self.old.selection_limit self.new }
        ensures broken { let a = answerer_of ⟦<R as Answering<S>>⟧.answering self.old in
            OnErr result (LeavesBroken a line.now self.old.context self.new.context) }
        ensures kept { OnErr result (out.new.items ≡ out.old.items) }
        ensures kept_texts { AreKept ⟦<S as Meaning>⟧.meaning self.new }
    {
        values_are_lines();
        answer_lines_have_distinct_keys::<S, R>();
        let length = out.len();
        match self.push_answer(alloc, line, out) {
            Ok(()) => Ok(()),
            Err(error) => {
                out.truncate(length);
                Err(error)
            }
        }
    }

    /// Writes the answer line of a request line, at the end of `out`. An error is want of memory:
    /// then `out` may hold a part of it, behind what it held.
    fn push_answer(
        &mut self,
        alloc: Global,
        line: &[u8],
        out: &mut Vec<u8>,
    ) -> Result<(), AllocError>
        requires { AreKept ⟦<S as Meaning>⟧.meaning self.old }
        ensures answers { let a = answerer_of ⟦<R as Answering<S>>⟧.answering self.old in
            OnOk result
            (Appends (λ text. IsAnswer a line.now self.old.context text self.new.context)
            out.old.items out.new.items) }
        ensures parts { IsOf self.old.root_node self.old.resolver self.new.context
            self.old.line_limit self.old.selection_limit self.new }
        ensures broken { let a = answerer_of ⟦<R as Answering<S>>⟧.answering self.old in
            OnErr result (LeavesBroken a line.now self.old.context self.new.context) }
        ensures front { KeepsFront out.old.items out.new.items }
        ensures kept_texts { AreKept ⟦<S as Meaning>⟧.meaning self.new }
    {
        if line.len() > self.line_limit {
            return push_line_refusal(alloc, out, LineRefusal::LineTooLong, self.line_limit);
        }
        match request_from_line(alloc, line) {
            Ok(request) => self.push_executed(alloc, &request, out),
            Err(refusal) => push_line_refusal(alloc, out, refusal, self.line_limit),
        }
    }

    /// Writes the answer line of a request, at the end of `out`. An error is want of memory: then
    /// `out` may hold a part of it, behind what it held.
    fn push_executed(
        &mut self,
        alloc: Global,
        request: &GraphQLRequest<S>,
        out: &mut Vec<u8>,
    ) -> Result<(), AllocError>
        requires { AreKept ⟦<S as Meaning>⟧.meaning self.old }
        ensures answers { let a = answerer_of ⟦<R as Answering<S>>⟧.answering self.old in
            OnOk result ((line : Bytes) (asked : Request) → Asks a line asked
            → HoldsRequest S.of_bool S.of_int S.of_text asked request.now
            → Appends (λ text. IsAnswer a line self.old.context text self.new.context) out.old.items
            out.new.items) }
        ensures parts { IsOf self.old.root_node self.old.resolver self.new.context
            self.old.line_limit self.old.selection_limit self.new }
        ensures broken { let a = answerer_of ⟦<R as Answering<S>>⟧.answering self.old in
            OnErr result ((line : Bytes) (asked : Request) → Asks a line asked
            → HoldsRequest S.of_bool S.of_int S.of_text asked request.now
            → LeavesBroken a line self.old.context self.new.context) }
        ensures front { KeepsFront out.old.items out.new.items }
        ensures kept_texts { AreKept ⟦<S as Meaning>⟧.meaning self.new }
    {
        let name = operation_name_of(request);
        let query = request.query.as_str();
        match execute_with(
            alloc,
            query,
            name,
            &self.root_node,
            &self.resolver,
            &request.variables,
            &mut self.context,
            &mut self.valid,
        ) {
            Ok(response) => push_response(out, response),
            Err(error) => push_error(alloc, out, error),
        }
    }
}

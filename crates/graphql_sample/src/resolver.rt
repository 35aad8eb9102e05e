//! The resolver of the sample.

ghost use Rattle.std.specs.Prelude.{◌≡◌, Ok};
ghost use Rattle.std.specs.Option.{option_copied};
ghost use Rattle.graphql_arguments.specs.GivenValues.{arguments_told};
ghost use Rattle.graphql_execution_walk.specs.Answered.{Answered};
ghost use Rattle.graphql_sample.specs.Sample as spec;

use crate::given::text_given_in;
use crate::records::{SampleRecord, SampleRecords};
use crate::renaming::rename;
use graphql_arguments::Arguments;
use graphql_execution_walk::{Executor, GraphQLValue};
use graphql_field_results::{FieldResult, Resolved};
use graphql_mutation::GraphQLMutationValue;
use graphql_text::Text;
use graphql_values::DefaultScalarValue;
use std::alloc::Global;

/// What fields are asked of: the root, and the humans.
#[derive(Clone, Copy)]
pub enum SampleNode {
    /// The root.
    Root,

    /// The human at this place among the records, from zero.
    Human(usize),
}

pub(crate) type Answer = Resolved<DefaultScalarValue, SampleNode>;

/// Answers from the records, and changes the names in them.
#[derive(Drop)]
pub struct SampleResolver;

/// The place of the first human of this `id`.
pub(crate) fn place_of(records: &[SampleRecord], id: &str) -> Option<usize>
    ensures { result ≡ spec.record_index records.now id.now }
{
    records.iter().position(|record| id == record.id.as_str())
}

/// The first human of this `id`, `Null` where there is none.
fn human_of(records: &[SampleRecord], id: &str) -> Answer
    ensures { result ≡ spec.human_of records.now id.now }
{
    match place_of(records, id) {
        Some(place) => Resolved::Node(SampleNode::Human(place)),
        None => Resolved::Null,
    }
}

/// A text as an answer. An error is want of memory.
fn word(alloc: Global, text: &Text) -> FieldResult<Answer, DefaultScalarValue>
    ensures { Answered (Ok (spec.text_answer text.now)) result }
{
    Ok(Resolved::Scalar(DefaultScalarValue::String(text.clone()?)))
}

/// What a human answers for a field. An error is want of memory.
fn of_human(
    alloc: Global,
    records: &[SampleRecord],
    human: &SampleRecord,
    field: &str,
) -> FieldResult<Answer, DefaultScalarValue>
    ensures { Answered (Ok (spec.of_human records.now human.now field.now)) result }
{
    match field {
        "id" => word(alloc, &human.id),
        "name" => match &human.name {
            Some(name) => word(alloc, name),
            None => Ok(Resolved::Null),
        },
        "friend" => match &human.friend {
            Some(friend) => Ok(human_of(records, friend.as_str())),
            None => Ok(Resolved::Null),
        },
        _ => Ok(Resolved::Null),
    }
}

/// Whether both are known, and the same.
fn are_same(one: Option<&Text>, other: Option<&Text>) -> bool
    ensures { result ≡ spec.are_same (option_copied one.entry) (option_copied other.entry) }
{
    match (one, other) {
        (Some(one), Some(other)) => one.is(other.as_str()),
        _ => false,
    }
}

/// Whether the human has this `id`, or this name.
fn fits(id: Option<&Text>, name: Option<&Text>, human: &SampleRecord) -> bool
    ensures { result ≡ spec.fits (option_copied id.entry) (option_copied name.entry) human.now }
{
    are_same(id, Some(&human.id)) || are_same(name, human.name.as_ref())
}

/// The place of the first human who has this `id` or this name.
fn place_found(records: &[SampleRecord], id: Option<&Text>, name: Option<&Text>) -> Option<usize>
    ensures { result
        ≡ spec.place_found records.now (option_copied id.entry) (option_copied name.entry) }
{
    records.iter().position(|record| fits(id, name, record))
}

/// The first human who has this `id` or this name, `Null` where there is none.
fn found_by(records: &[SampleRecord], id: Option<&Text>, name: Option<&Text>) -> Answer
    ensures { result
        ≡ spec.found_by records.now (option_copied id.entry) (option_copied name.entry) }
{
    match place_found(records, id, name) {
        Some(place) => Resolved::Node(SampleNode::Human(place)),
        None => Resolved::Null,
    }
}

/// The first human who has the `id` or the name that the argument `by` is of, `Null` where there is
/// none.
fn found(records: &[SampleRecord], arguments: &Arguments<'_, DefaultScalarValue>) -> Answer
    ensures { result ≡ spec.human_found records.now (arguments_told arguments.now) }
{
    let id = text_given_in(arguments, "by", "id");
    let name = text_given_in(arguments, "by", "name");
    found_by(records, id, name)
}

/// What the root answers for a field.
fn of_root(
    records: &[SampleRecord],
    field: &str,
    arguments: &Arguments<'_, DefaultScalarValue>,
) -> Answer
    ensures { result ≡ spec.of_root records.now field.now (arguments_told arguments.now) }
{
    match field {
        "hero" => human_of(records, "h1"),
        "find" => found(records, arguments),
        _ => Resolved::Null,
    }
}

impl GraphQLValue<DefaultScalarValue> for SampleResolver {
    type Context = SampleRecords;

    type Node = SampleNode;

    ghost use Rattle.std.specs.Prelude.{Ok};
    ghost use Rattle.std.proofs.Common.{ap};
    ghost use Rattle.graphql_sample.specs.SameTexts.{answered-alike};
    ghost use Rattle.graphql_sample.specs.Sample as spec;
    ghost use Rattle.graphql_sample.specs.declared.resolver.SampleNode.TheVariants as node;

    ghost root_node = { λ _. node.Root };

    ghost type_of = { λ _ _ n. spec.type_name n };

    ghost answer = { λ _ context n field given. Ok (spec.answer context.records n field given) };

    ghost respects = { λ _ context n field a b same.
        ap Ok (answered-alike context.records a b same n field) };

    ghost tells_distinct_keys = { λ _ _ _ _ _. record { beside = tt } };

    /// The root.
    fn root(&self) -> SampleNode
        ensures { result ≡ node.Root }
    {
        SampleNode::Root
    }

    fn concrete_type_name<'c>(
        &'c self,
        _context: &'c SampleRecords,
        node: &'c SampleNode,
    ) -> &'c str
        ensures { result.now ≡ spec.type_name node.now }
    {
        match node {
            SampleNode::Root => "Query",
            SampleNode::Human(_) => "Human",
        }
    }

    fn resolve_field(
        &self,
        node: &SampleNode,
        field: &str,
        arguments: &Arguments<'_, DefaultScalarValue>,
        executor: &Executor<'_, '_, '_, SampleRecords, DefaultScalarValue>,
    ) -> FieldResult<Answer, DefaultScalarValue> {
        let records = executor.context.records.as_slice();
        match node {
            SampleNode::Root => Ok(of_root(records, field, arguments)),
            SampleNode::Human(place) => match records.get(*place) {
                Some(human) => of_human(executor.alloc, records, human, field),
                None => Ok(Resolved::Null),
            },
        }
    }
}

impl GraphQLMutationValue<DefaultScalarValue> for SampleResolver {
    ghost use Rattle.std.specs.Prelude.{Ok};
    ghost use Rattle.graphql_arguments.specs.GivenValues.{arguments_told};
    ghost use Rattle.graphql_field_results.specs.Answered.{Answered, Leaves};
    ghost use Rattle.graphql_sample.specs.Sample as spec;
    ghost use Rattle.graphql_sample.specs.SameTexts.{answers-same, leaves-same};

    ghost changes = { λ _. spec.changes };

    ghost respects_root = { λ _ c field a b same.
        (answers-same c field a b same, leaves-same c field a b same) };

    ghost root_tells_distinct_keys = { λ _ _ _ _. record { beside = tt } };

    /// What `rename` answers, and changes; null for each other field. Each call counts, whatever is
    /// asked, but for want of memory, which changes nothing.
    fn resolve_root(
        &self,
        _alloc: Global,
        context: &mut SampleRecords,
        field: &str,
        arguments: &Arguments<'_, DefaultScalarValue>,
    ) -> FieldResult<Answer, DefaultScalarValue>
        ensures answer { let given = arguments_told arguments.now in
            Answered (Ok (spec.root_answer context.old field.now given)) result }
        ensures after { let given = arguments_told arguments.now in
            Leaves context.old (spec.root_after context.old field.now given) result context.new }
    {
        let answer = match field {
            "rename" => rename(&mut context.records, arguments)?,
            _ => Resolved::Null,
        };
        context.root_calls = context.root_calls.saturating_add(1);
        Ok(answer)
    }
}

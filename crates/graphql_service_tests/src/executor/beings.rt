//! The resolver of the tests: three beings, and a root.

ghost use Rattle.std.specs.Prelude.{◌≡◌, ◌∷◌, [], Ok, Err};
ghost use Rattle.std.specs.Option.{option_copied};
ghost use Rattle.graphql_text.specs.Memory.{Gives};
ghost use Rattle.graphql_arguments.specs.GivenValues.{arguments_told};
ghost use Rattle.graphql_semantics.specs.Completion.{reason};
ghost use Rattle.graphql_field_results.specs.declared.resolved.Resolved.TheVariants as resolved;
ghost use Rattle.graphql_execution_walk.specs.Answered.{Answered};
ghost use Rattle.graphql_execution_walk.specs.Standing.{IsSettled};
ghost use Rattle.graphql_service_tests.specs.Beings as spec;
ghost use Rattle.graphql_service_tests.specs.Kinds.{kind};

use crate::executor::completed::completed;
use crate::executor::told::errors_told;
use graphql_arguments::Arguments;
use graphql_execution_walk::{Executor, GraphQLValue};
use graphql_field_results::{FieldError, FieldFault, FieldResult, Resolved};
use graphql_text::{Items, SourcePosition, Text};
use graphql_values::{DefaultScalarValue, InputValue};
use std::alloc::{AllocError, Global};

/// What fields are asked of: the root, a human, a dog and a cat.
#[derive(Clone, Copy)]
pub enum Being {
    /// The root.
    Root,

    /// A human.
    Ann,

    /// A dog.
    Rex,

    /// A cat.
    Tom,
}

pub type Answer = Resolved<DefaultScalarValue, Being>;

/// What `placed` wants to be told of its place, and what it tells of the start of the text.
const PLACES: &str = "\n(19,2,3) self there: here\n(0,0,0) self there: at the start";

/// Knows the beings.
#[derive(Clone, Copy)]
pub struct Household;

/// A text as an answer. An error is want of memory.
fn word(alloc: Global, words: &str) -> FieldResult<Answer, DefaultScalarValue>
    ensures { Answered (spec.text_answer words.now) result }
{
    let text = Text::from_str(alloc, words)?;
    Ok(Resolved::Scalar(DefaultScalarValue::String(text)))
}

/// An error of this reason, or want of memory.
fn fails(alloc: Global, words: &str) -> FieldResult<Answer, DefaultScalarValue>
    ensures { Answered (Err (reason words.now)) result }
{
    let text = Text::from_str(alloc, words)?;
    Err(FieldFault::Error(FieldError::of(text)))
}

/// Two answers as a list. An error is want of memory.
fn listed(alloc: Global, first: Answer, second: Answer) -> Result<Answer, AllocError>
    ensures { Gives result (resolved.List (first ∷ second ∷ [])) }
{
    let mut items = Items::with_capacity(alloc, 2)?;
    items.push(first)?;
    items.push(second)?;
    Ok(Resolved::List(items))
}

/// A flag, and none. An error is want of memory.
fn flags(alloc: Global) -> Result<Answer, AllocError>
    ensures { Gives result spec.flags }
{
    listed(
        alloc,
        Resolved::Scalar(DefaultScalarValue::Boolean(true)),
        Resolved::Null,
    )
}

/// Of which kind the value is, if there is one.
fn kind_or_absent(value: Option<&InputValue<DefaultScalarValue>>) -> &'static str
    ensures { result.now ≡ spec.kind_or_absent (option_copied value.entry) }
{
    match value {
        None => "absent",
        Some(InputValue::Null) => "null",
        Some(InputValue::Scalar(_)) => "scalar",
        Some(InputValue::Enum(_)) => "enum",
        Some(InputValue::Variable(_)) => "variable",
        Some(InputValue::List(_)) => "list",
        Some(InputValue::Object(_)) => "object",
    }
}

/// The errors that an executor makes of the field at which it stands, each behind the end of a
/// line. An error is want of memory.
fn places_told(
    executor: &Executor<'_, '_, '_, (), DefaultScalarValue>,
) -> Result<String, AllocError> {
    let alloc = executor.alloc();
    let mut errors = Items::new(alloc);
    let here = FieldError::of(Text::from_str(alloc, "here")?);
    executor.push_error(here, &mut errors)?;
    let there = FieldError::of(Text::from_str(alloc, "at the start")?);
    let start = SourcePosition::new_origin();
    let other = executor.replaced_context(&true);
    other.push_error_at(there, start, &mut errors)?;
    errors_told(alloc, errors.as_slice())
}

/// `Null`, if this holds; else want of memory, which alone may depend on an executor's place.
pub fn null_if(holds: bool) -> FieldResult<Answer, DefaultScalarValue>
    ensures { Answered (Ok resolved.Null) result }
{
    if holds {
        Ok(Resolved::Null)
    } else {
        Err(FieldFault::Memory)
    }
}

/// `Null`, if the executor stands at the field of the one request that asks for it.
fn placed(
    executor: &Executor<'_, '_, '_, (), DefaultScalarValue>,
) -> FieldResult<Answer, DefaultScalarValue>
    ensures { Answered (Ok resolved.Null) result }
{
    let told = places_told(executor)?;
    null_if(executor.current_type().name == "Boolean" && told.as_str() == PLACES)
}

/// `Null`, if the argument `value` is read as `true` and as no number, and no other one is there.
fn read(
    alloc: Global,
    arguments: &Arguments<'_, DefaultScalarValue>,
) -> FieldResult<Answer, DefaultScalarValue>
    ensures { Answered (Ok resolved.Null) result }
{
    let is_flag = matches!(arguments.get::<bool>(alloc, "value"), Ok(Some(true)));
    let is_number = arguments.get::<i32>(alloc, "value").is_ok();
    let is_alone = matches!(arguments.get::<bool>(alloc, "other"), Ok(None));
    null_if(is_flag && !is_number && is_alone)
}

/// A dog twice, and a cat and the dog. An error is want of memory.
fn packs(alloc: Global) -> Result<Answer, AllocError>
    ensures { Gives result spec.packs }
{
    let dog = Resolved::Node(Being::Rex);
    let same = listed(alloc, dog, Resolved::Node(Being::Rex))?;
    let cat = Resolved::Node(Being::Tom);
    let mixed = listed(alloc, cat, Resolved::Node(Being::Rex))?;
    listed(alloc, same, mixed)
}

/// What the root answers for a field.
fn of_root(
    executor: &Executor<'_, '_, '_, (), DefaultScalarValue>,
    field: &str,
    arguments: &Arguments<'_, DefaultScalarValue>,
) -> FieldResult<Answer, DefaultScalarValue>
    requires { IsSettled executor.now }
    ensures { Answered (spec.of_root field.now (arguments_told arguments.now)) result }
{
    let alloc = executor.alloc();
    match field {
        "placed" => placed(executor),
        "completed" => completed(executor),
        "read" => read(alloc, arguments),
        "human" => Ok(Resolved::Node(Being::Ann)),
        "dog" => Ok(Resolved::Node(Being::Rex)),
        "pet" => Ok(Resolved::Node(Being::Tom)),
        "pets" => Ok(listed(
            alloc,
            Resolved::Node(Being::Rex),
            Resolved::Node(Being::Tom),
        )?),
        "packs" => Ok(packs(alloc)?),
        "self" => Ok(Resolved::Node(Being::Root)),
        "impossible" => Ok(Resolved::Node(Being::Ann)),
        "broken" => fails(alloc, "No such flag"),
        "flags" => Ok(flags(alloc)?),
        "grid" => Ok(listed(alloc, flags(alloc)?, Resolved::Null)?),
        "one" => Ok(Resolved::Scalar(DefaultScalarValue::Boolean(true))),
        "given" | "many" | "shape" => {
            word(alloc, kind_or_absent(arguments.get_input_value("value")))
        }
        _ => Ok(Resolved::Null),
    }
}

/// What a being is called.
pub fn own_name(being: &Being) -> &'static str
    ensures { result.now ≡ spec.own_name being.now }
{
    match being {
        Being::Root => "Root",
        Being::Ann => "Ann",
        Being::Rex => "Rex",
        Being::Tom => "Tom",
    }
}

/// The name of a being's object type.
pub fn type_name(being: &Being) -> &'static str
    ensures { result.now ≡ spec.type_name being.now }
{
    match being {
        Being::Root => "Query",
        Being::Ann => "Human",
        Being::Rex => "Dog",
        Being::Tom => "Cat",
    }
}

/// What a being of this name answers for a field.
pub fn of_being(alloc: Global, own: &str, field: &str) -> FieldResult<Answer, DefaultScalarValue>
    ensures { Answered (spec.of_being own.now field.now) result }
{
    match field {
        "name" => word(alloc, own),
        "owner" => Ok(Resolved::Node(Being::Ann)),
        "lives" => fails(alloc, "Nobody counts"),
        _ => Ok(Resolved::Null),
    }
}

impl GraphQLValue<DefaultScalarValue> for Household {
    type Context = ();

    type Node = Being;

    ghost use Rattle.graphql_service_tests.specs.Beings as spec;
    ghost use Rattle.graphql_service_tests.specs.SameKinds.{answers-same};
    ghost use Rattle.graphql_service_tests.specs.ToldKeys.{answers-tell};
    ghost use Rattle.graphql_service_tests.specs.declared.executor.beings.Being.TheVariants as being;

    ghost root_node = { λ _. being.Root };

    ghost type_of = { λ _ _ node. spec.type_name node };

    ghost answer = { λ _ _ node field given. spec.answer node field given };

    ghost respects = { λ _ _ node field a b same. answers-same _ node field a b same };

    ghost tells_distinct_keys = { λ _ _ node field given. answers-tell node field given };

    fn root(&self) -> Being
        ensures { result ≡ being.Root }
    {
        Being::Root
    }

    fn concrete_type_name<'c>(&'c self, _context: &'c (), node: &'c Being) -> &'c str
        ensures { result.now ≡ spec.type_name node.now }
    {
        type_name(node)
    }

    fn resolve_field(
        &self,
        node: &Being,
        field: &str,
        arguments: &Arguments<'_, DefaultScalarValue>,
        executor: &Executor<'_, '_, '_, (), DefaultScalarValue>,
    ) -> FieldResult<Answer, DefaultScalarValue> {
        match node {
            Being::Root => of_root(executor, field, arguments),
            _ => of_being(executor.alloc, own_name(node), field),
        }
    }
}

//! The resolver of the tests, which looks ahead.

ghost use Rattle.std.specs.Prelude.{◌≡◌};
ghost use Rattle.graphql_execution_walk.specs.Answered.{Answered};
ghost use Rattle.graphql_execution_walk.specs.Standing.{IsSettled};
ghost use Rattle.graphql_service_tests.specs.Persons as spec;

use crate::executor::look_ahead::look::{Look, tell_seen};
use graphql_arguments::Arguments;
use graphql_execution_walk::{Executor, GraphQLValue};
use graphql_field_results::{FieldResult, Resolved};
use graphql_text::Text;
use graphql_values::DefaultScalarValue;
use std::alloc::{AllocError, Global};
use std::cell::RefCell;

/// What fields are asked of.
#[derive(Clone, Copy)]
pub enum Person {
    /// The root.
    Root,

    /// A human.
    Luke,
}

/// Where it is noted what look-ahead tells.
pub type Notes = RefCell<String>;

pub type Answer = Resolved<DefaultScalarValue, Person>;

/// Knows one human, and notes what look-ahead tells where the hero is asked for.
#[derive(Clone, Copy)]
pub struct Watcher<'l> {
    /// What is asked of the hero's field.
    pub look: Look<'l>,
}

/// Notes what look-ahead tells of the field that is answered. An error is want of memory.
fn note(
    look: Look<'_>,
    executor: &Executor<'_, '_, '_, Notes, DefaultScalarValue>,
) -> Result<(), AllocError>
    requires { IsSettled executor.now }
{
    let Some(field) = executor.look_ahead() else {
        return Ok(());
    };
    let mut told = String::new(executor.alloc());
    tell_seen(executor.alloc(), &mut told, &field, look)?;
    match executor.context().try_replace(told) {
        Ok(_) => Ok(()),
        Err(_) => Err(AllocError),
    }
}

/// A text as an answer. An error is want of memory.
fn word(alloc: Global, words: &str) -> FieldResult<Answer, DefaultScalarValue>
    ensures { Answered (spec.text_answer words.now) result }
{
    let text = Text::from_str(alloc, words)?;
    Ok(Resolved::Scalar(DefaultScalarValue::String(text)))
}

/// What the root answers for a field.
fn of_root(
    look: Look<'_>,
    executor: &Executor<'_, '_, '_, Notes, DefaultScalarValue>,
    field: &str,
) -> FieldResult<Answer, DefaultScalarValue>
    requires { IsSettled executor.now }
    ensures { Answered (spec.of_root field.now) result }
{
    if field == "hero" {
        note(look, executor)?;
        return Ok(Resolved::Node(Person::Luke));
    }
    Ok(Resolved::Null)
}

/// What the human answers for a field.
fn of_luke(alloc: Global, field: &str) -> FieldResult<Answer, DefaultScalarValue>
    ensures { Answered (spec.of_luke field.now) result }
{
    match field {
        "id" => word(alloc, "1000"),
        "name" => word(alloc, "Luke"),
        _ => Ok(Resolved::Null),
    }
}

/// The name of a person's object type.
fn type_name(person: &Person) -> &'static str
    ensures { result.now ≡ spec.type_name person.now }
{
    match person {
        Person::Root => "Query",
        Person::Luke => "Human",
    }
}

impl<'l> GraphQLValue<DefaultScalarValue> for Watcher<'l> {
    type Context = Notes;

    type Node = Person;

    ghost use Rattle.std.specs.Prelude.{refl};
    ghost use Rattle.graphql_service_tests.specs.Persons as spec;
    ghost use Rattle.graphql_service_tests.specs.PersonKeys.{answers-tell};
    ghost use Rattle.graphql_service_tests.specs.declared.executor.look_ahead.watcher.Person.TheVariants as person;

    ghost root_node = { λ _. person.Root };

    ghost type_of = { λ _ _ node. spec.type_name node };

    ghost answer = { λ _ _ node field _. spec.answer node field };

    ghost respects = { λ _ _ _ _ _ _ _. refl };

    ghost tells_distinct_keys = { λ _ _ node field _. answers-tell node field };

    fn root(&self) -> Person
        ensures { result ≡ person.Root }
    {
        Person::Root
    }

    fn concrete_type_name<'c>(&'c self, _context: &'c Notes, node: &'c Person) -> &'c str
        ensures { result.now ≡ spec.type_name node.now }
    {
        type_name(node)
    }

    fn resolve_field(
        &self,
        node: &Person,
        field: &str,
        _arguments: &Arguments<'_, DefaultScalarValue>,
        executor: &Executor<'_, '_, '_, Notes, DefaultScalarValue>,
    ) -> FieldResult<Answer, DefaultScalarValue> {
        match node {
            Person::Root => of_root(self.look, executor, field),
            Person::Luke => of_luke(executor.alloc(), field),
        }
    }
}

//! A walk over an input value, step by step.

ghost use Rattle.std.specs.Prelude.{◌≡◌, ◌∷◌, [], IfOk, MatchOption};
ghost use Rattle.graphql_values.specs.Pending.{Opens, steps_ahead, task_steps, told_step};
ghost use Rattle.graphql_values.specs.Steps.{fields_steps, items_steps, steps};

use super::InputValue;
use graphql_text::{Items, Spanning, Text};
use std::alloc::{AllocError, Global};

/// What a walk over an input value tells next.
#[derive(Clone, Copy)]
pub(super) enum Step<'a, S> {
    /// `null`
    Null,

    /// A number, a string or a boolean.
    Scalar(&'a S),

    /// An enum value, by its name.
    Enum(&'a str),

    /// A variable, by its name without the `$`.
    Variable(&'a str),

    /// A list begins: its items come next, and then its end.
    ListOpens,

    /// The list ends.
    ListCloses,

    /// An input object begins: its fields come next, each its name and its value, and then its end.
    ObjectOpens,

    /// The input object ends.
    ObjectCloses,

    /// The name of the field whose value comes next.
    Name(&'a str),

    /// Another item or field comes after this one.
    Gap,
}

/// What a walk has yet to do.
#[derive(Drop)]
enum Task<'a, S> {
    /// To tell a value.
    Value(&'a InputValue<S>),

    /// To tell items, and the end of their list.
    Items(&'a [Spanning<InputValue<S>>]),

    /// The same, each item behind a gap.
    MoreItems(&'a [Spanning<InputValue<S>>]),

    /// To tell fields, and the end of their input object.
    Fields(&'a [(Spanning<Text>, Spanning<InputValue<S>>)]),

    /// The same, each field behind a gap.
    MoreFields(&'a [(Spanning<Text>, Spanning<InputValue<S>>)]),
}

/// A walk over an input value, which tells its steps in order. What it has yet to do stands on the
/// heap, so it takes no more stack however deep the value is.
#[derive(Drop)]
pub(super) struct Walk<'a, S> {
    tasks: Items<Task<'a, S>>,
}

impl<'a, S> Walk<'a, S> {
    /// A walk from the start of `value`. An error is want of memory.
    pub(super) fn new(alloc: Global, value: &'a InputValue<S>) -> Result<Walk<'a, S>, AllocError>
        ensures { IfOk result (λ walk. steps_ahead walk ≡ steps value.now) }
    {
        let mut tasks = Items::new(alloc);
        tasks.push(Task::Value(value))?;
        Ok(Walk { tasks })
    }

    /// The next step, or `None` at the end of the value. An error is want of memory.
    pub(super) fn next(&mut self) -> Result<Option<Step<'a, S>>, AllocError>
        ensures { IfOk result (λ next. MatchOption next (steps_ahead self.old ≡ [])
            (λ step. steps_ahead self.old ≡ told_step step ∷ steps_ahead self.new)) }
    {
        match self.tasks.pop() {
            None => Ok(None),
            Some(task) => Ok(Some(open(&mut self.tasks, task)?)),
        }
    }
}

/// Tells the first step of a task, and keeps the others for later.
fn open<'a, S>(tasks: &mut Items<Task<'a, S>>, task: Task<'a, S>) -> Result<Step<'a, S>, AllocError>
    ensures { IfOk result (λ step. Opens (task_steps task.entry) step tasks.old tasks.new) }
{
    match task {
        Task::Value(value) => open_value(tasks, value),
        Task::Items(items) => open_items(tasks, items),
        Task::MoreItems(items) => {
            if items.is_empty() {
                return Ok(Step::ListCloses);
            }
            tasks.push(Task::Items(items))?;
            Ok(Step::Gap)
        }
        Task::Fields(fields) => open_fields(tasks, fields),
        Task::MoreFields(fields) => {
            if fields.is_empty() {
                return Ok(Step::ObjectCloses);
            }
            tasks.push(Task::Fields(fields))?;
            Ok(Step::Gap)
        }
    }
}

/// Tells the first step of a value.
fn open_value<'a, S>(
    tasks: &mut Items<Task<'a, S>>,
    value: &'a InputValue<S>,
) -> Result<Step<'a, S>, AllocError>
    ensures { IfOk result (λ step. Opens (steps value.now) step tasks.old tasks.new) }
{
    match value {
        InputValue::Null => Ok(Step::Null),
        InputValue::Scalar(scalar) => Ok(Step::Scalar(scalar)),
        InputValue::Enum(name) => Ok(Step::Enum(name.as_str())),
        InputValue::Variable(name) => Ok(Step::Variable(name.as_str())),
        InputValue::List(items) => {
            tasks.push(Task::Items(items.as_slice()))?;
            Ok(Step::ListOpens)
        }
        InputValue::Object(pairs) => {
            tasks.push(Task::Fields(pairs.as_slice()))?;
            Ok(Step::ObjectOpens)
        }
    }
}

/// Tells the first step of items and the end of their list.
fn open_items<'a, S>(
    tasks: &mut Items<Task<'a, S>>,
    items: &'a [Spanning<InputValue<S>>],
) -> Result<Step<'a, S>, AllocError>
    ensures { IfOk result (λ step. Opens (items_steps items.now) step tasks.old tasks.new) }
{
    match items.split_first() {
        None => Ok(Step::ListCloses),
        Some((first, others)) => {
            tasks.push(Task::MoreItems(others))?;
            open_value(tasks, &first.item)
        }
    }
}

/// Tells the first step of fields and the end of their input object.
fn open_fields<'a, S>(
    tasks: &mut Items<Task<'a, S>>,
    fields: &'a [(Spanning<Text>, Spanning<InputValue<S>>)],
) -> Result<Step<'a, S>, AllocError>
    ensures { IfOk result (λ step. Opens (fields_steps fields.now) step tasks.old tasks.new) }
{
    match fields.split_first() {
        None => Ok(Step::ObjectCloses),
        Some((first, others)) => {
            tasks.push(Task::MoreFields(others))?;
            tasks.push(Task::Value(&first.1.item))?;
            Ok(Step::Name(first.0.item.as_str()))
        }
    }
}

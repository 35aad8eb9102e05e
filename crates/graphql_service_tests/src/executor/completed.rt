//! What answers come to that a resolver completes itself.

ghost use Rattle.std.specs.Prelude.{Ok};
ghost use Rattle.graphql_field_results.specs.declared.resolved.Resolved.TheVariants as resolved;
ghost use Rattle.graphql_execution_walk.specs.Answered.{Answered};
ghost use Rattle.graphql_execution_walk.specs.Standing.{IsSettled};

use crate::executor::beings::{Answer, Being, null_if};
use crate::executor::kennel::Kennel;
use crate::executor::told::errors_told;
use graphql_execution_walk::{Executor, declared_type};
use graphql_field_results::{ExecutionError, FieldFault, FieldResult, Resolved};
use graphql_output_values::Value;
use graphql_text::{Items, SourcePosition, TextRef};
use graphql_tree::Selection;
use graphql_values::DefaultScalarValue;
use std::alloc::{AllocError, Global};

/// An executor at a field.
type Place<'c, 'd, 'a> = Executor<'c, 'd, 'a, (), DefaultScalarValue>;

type Errors = Items<ExecutionError<DefaultScalarValue>>;

/// What `completed` wants to be told.
const COMPLETED: &str = "\
\n{\"name\": \"Rex\", \"owner\": {\"name\": \"Ann\"}}\
\nno value\
\nAnswer does not fit type Pet\
\nnull\
\n{\"name\": \"Rex\", \"owner\": {\"name\": \"Ann\"}}\
\n{\"owner\": {\"name\": \"Ann\"}}\
\n{}\
\nNull at a non-null place\
\nnull\
\n(76,0,76) completed lives: Nobody counts\
\n(2,0,2) completed: Answer does not fit type Pet\
\n(0,0,0) completed mine: Null at a non-null place";

/// Tells a value, that there is none, or the error of the place, behind the end of a line. An error
/// is want of memory.
fn tell(
    alloc: Global,
    given: FieldResult<Option<Value<DefaultScalarValue>>, DefaultScalarValue>,
    told: &mut String,
) -> Result<(), AllocError> {
    let line = match given {
        Ok(Some(value)) => format!(in alloc; "\n{value}")?,
        Ok(None) => return told.push_str("\nno value"),
        Err(FieldFault::Error(error)) => format!(in alloc; "\n{error}")?,
        Err(FieldFault::Memory) => return Err(AllocError),
    };
    told.push_str(line.as_str())
}

/// Tells what an answer comes to at an executor's place. An error is want of memory.
fn tell_resolved(
    executor: &Place<'_, '_, '_>,
    answer: Answer,
    errors: &mut Errors,
    told: &mut String,
) -> Result<(), AllocError>
    requires { IsSettled executor.now }
{
    let given = executor.resolve(&Kennel, answer, errors);
    tell(executor.alloc(), given, told)
}

/// Tells the value that an answer comes to at an executor's place. An error is want of memory.
fn tell_value(
    executor: &Place<'_, '_, '_>,
    answer: Answer,
    errors: &mut Errors,
    told: &mut String,
) -> Result<(), AllocError>
    requires { IsSettled executor.now }
{
    let value = executor.resolve_into_value(&Kennel, answer, errors)?;
    tell(executor.alloc(), Ok(Some(value)), told)
}

/// Tells what answers come to at an executor's own place. An error is want of memory.
fn tell_here(
    executor: &Place<'_, '_, '_>,
    errors: &mut Errors,
    told: &mut String,
) -> Result<(), AllocError>
    requires { IsSettled executor.now }
{
    let flag = DefaultScalarValue::Boolean(true);
    let other = DefaultScalarValue::Boolean(true);
    tell_resolved(executor, Resolved::Node(Being::Rex), errors, told)?;
    tell_resolved(executor, Resolved::Node(Being::Tom), errors, told)?;
    tell_resolved(executor, Resolved::Scalar(flag), errors, told)?;
    tell_value(executor, Resolved::Scalar(other), errors, told)?;
    let given = executor.resolve_with_ctx(&Kennel, Resolved::Node(Being::Rex), errors);
    tell(executor.alloc(), given, told)
}

/// Tells what answers come to at other types, and with other selections. An error is want of
/// memory.
fn tell_at_types(
    executor: &Place<'_, '_, '_>,
    errors: &mut Errors,
    told: &mut String,
) -> Result<(), AllocError>
    requires { IsSettled executor.now }
{
    let Some(fragment) = executor.fragment_by_name("f") else {
        return Ok(());
    };
    let set = fragment.selection_set.as_slice();
    let dog = executor.type_sub_executor(Some("Dog"), Some(set));
    tell_resolved(&dog, Resolved::Node(Being::Rex), errors, told)?;
    let bare = executor.type_sub_executor(None, None);
    tell_resolved(&bare, Resolved::Node(Being::Tom), errors, told)
}

/// Tells what `null` comes to as the answer of a field `owner`, if the current type has one. An
/// error is want of memory.
fn tell_at_field(
    executor: &Place<'_, '_, '_>,
    errors: &mut Errors,
    told: &mut String,
) -> Result<(), AllocError>
    requires { IsSettled executor.now }
{
    let object = executor.current_type().name;
    if declared_type(executor.schema(), object, "owner").is_none() {
        return Ok(());
    }
    let mut keys = executor.path.lent_keys(executor.alloc())?;
    keys.push(TextRef::new("mine"))?;
    let start = SourcePosition::new_origin();
    let set: Option<&[Selection<'_, DefaultScalarValue>]> = None;
    let owner = executor.field_sub_executor(keys.as_slice(), "owner", start, set);
    tell_resolved(&owner, Resolved::Null, errors, told)?;
    tell_value(&owner, Resolved::Null, errors, told)
}

/// What answers come to, and then the errors that are told, each behind the end of a line. An error
/// is want of memory.
fn completions_told(executor: &Place<'_, '_, '_>) -> Result<String, AllocError>
    requires { IsSettled executor.now }
{
    let alloc = executor.alloc();
    let mut told = String::new(alloc);
    let mut errors = Items::new(alloc);
    tell_here(executor, &mut errors, &mut told)?;
    tell_at_types(executor, &mut errors, &mut told)?;
    tell_at_field(executor, &mut errors, &mut told)?;
    let lines = errors_told(alloc, errors.as_slice())?;
    told.push_str(lines.as_str())?;
    Ok(told)
}

/// `Null`, if answers come to what they should at the field of the one request that asks for it.
pub fn completed(executor: &Place<'_, '_, '_>) -> FieldResult<Answer, DefaultScalarValue>
    requires { IsSettled executor.now }
    ensures { Answered (Ok resolved.Null) result }
{
    let told = completions_told(executor)?;
    null_if(told.as_str() == COMPLETED)
}

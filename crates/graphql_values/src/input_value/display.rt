ghost use Rattle.std.specs.Prelude.{Some};
ghost use Rattle.std.specs.Fmt.{WritesOnOk};
ghost use Rattle.std.specs.List.{flat_map};
ghost use Rattle.graphql_values.specs.InputValueText.{input_value_text, step_text};
ghost use Rattle.graphql_values.specs.Pending.{steps_ahead, told_step};

use super::InputValue;
use super::walk::{Step, Walk};
use graphql_scalars::{Scalar, ScalarValue};
use std::alloc::Global;
use std::fmt::{Display, Error, Formatter, Result, Write};

/// Writes the value as a document does (GraphQL October 2021, 2.9 Input Values): `null`, a number,
/// a boolean, an enum value's name, `$` and a variable's name, `[a, b]`, `{k: v, l: w}`. A text
/// stands between quotes, with nothing escaped. What is yet to be written of a list or an input
/// object stands on the heap, so a deep value takes no more stack; want of memory for it is an
/// error.
impl<S: ScalarValue> Display for InputValue<S> {
    ghost output = { λ value. Some (input_value_text S.answer value) };

    fn fmt<W: Write>(&self, f: &mut Formatter<W>) -> Result {
        match self {
            InputValue::Null => f.write_str("null"),
            InputValue::Scalar(scalar) => write!(f, "{}", Scalar::from(scalar)),
            InputValue::Enum(name) => f.write_str(name.as_str()),
            InputValue::Variable(name) => write!(f, "${name}"),
            InputValue::List(items) => write_walked(f, *items.allocator(), self),
            InputValue::Object(pairs) => write_walked(f, *pairs.allocator(), self),
        }
    }
}

/// Writes a value by a walk over it. Want of memory is an error too.
fn write_walked<S: ScalarValue, W: Write>(
    f: &mut Formatter<W>,
    alloc: Global,
    value: &InputValue<S>,
) -> Result
    ensures { WritesOnOk W.write_str_gives f.old result (input_value_text S.answer value.now)
        f.new }
{
    match Walk::new(alloc, value) {
        Ok(walk) => write_steps(f, walk),
        Err(_) => Err(Error),
    }
}

/// Writes what a walk has yet to tell. Want of memory is an error too.
fn write_steps<S: ScalarValue, W: Write>(f: &mut Formatter<W>, walk: Walk<'_, S>) -> Result
    ensures { WritesOnOk W.write_str_gives f.old result
        (flat_map (step_text S.answer) (steps_ahead walk.entry)) f.new }
{
    let mut walk = walk;
    'steps: loop {
        match walk.next() {
            Ok(Some(step)) => write_step(f, step)?,
            Ok(None) => return Ok(()),
            Err(_) => return Err(Error),
        }
    }
}

/// Writes what a walk tells next. A string stands between quotes, with nothing escaped.
fn write_step<S: ScalarValue, W: Write>(f: &mut Formatter<W>, step: Step<'_, S>) -> Result
    ensures { WritesOnOk W.write_str_gives f.old result (step_text S.answer (told_step step.entry))
        f.new }
{
    match step {
        Step::Null => f.write_str("null"),
        Step::Scalar(scalar) => write!(f, "{}", Scalar::from(scalar)),
        Step::Enum(name) => f.write_str(name),
        Step::Variable(name) => write!(f, "${name}"),
        Step::ListOpens => f.write_str("["),
        Step::ListCloses => f.write_str("]"),
        Step::ObjectOpens => f.write_str("{"),
        Step::ObjectCloses => f.write_str("}"),
        Step::Name(name) => write!(f, "{name}: "),
        Step::Gap => f.write_str(", "),
    }
}

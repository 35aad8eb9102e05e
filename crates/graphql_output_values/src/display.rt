//! The texts of values.

ghost use Rattle.std.specs.Prelude.{Some};
ghost use Rattle.std.specs.Fmt.{WritesOnOk};
ghost use Rattle.std.specs.List.{flat_map};
ghost use Rattle.graphql_output_values.specs.Pending.{steps_ahead, told_step};
ghost use Rattle.graphql_output_values.specs.ValueText.{step_text, value_text};

use crate::value::Value;
use crate::walk::{Step, Walk};
use graphql_scalars::{Scalar, ScalarValue};
use std::alloc::Global;
use std::fmt::{Display, Error, Formatter, Result, Write};

/// Writes what a walk tells next: a key between quotes, with nothing escaped.
fn write_step<S: ScalarValue, W: Write>(f: &mut Formatter<W>, step: Step<'_, S>) -> Result
    ensures { WritesOnOk W.write_str_gives f.old result (step_text S.answer (told_step step.entry))
        f.new }
{
    match step {
        Step::Null => f.write_str("null"),
        Step::Scalar(scalar) => write!(f, "{}", Scalar::from(scalar)),
        Step::ListOpens => f.write_str("["),
        Step::ListCloses => f.write_str("]"),
        Step::ObjectOpens => f.write_str("{"),
        Step::ObjectCloses => f.write_str("}"),
        Step::Key(key) => write!(f, "\"{key}\": "),
        Step::Gap => f.write_str(", "),
    }
}

/// Writes what a walk has yet to tell. Want of memory is an error too.
fn write_steps<S: ScalarValue, W: Write>(f: &mut Formatter<W>, walk: Walk<'_, S>) -> Result
    ensures { WritesOnOk W.write_str_gives f.old result
        (flat_map (step_text S.answer) (steps_ahead walk.entry)) f.new }
{
    let mut walk = walk;
    'steps: loop {
        match walk.next() {
            Ok(Some(step)) => write_step(f, step)?,
            Ok(None) => return Ok(()),
            Err(_) => return Err(Error),
        }
    }
}

/// Writes a value by a walk over it. Want of memory is an error too.
fn write_walked<S: ScalarValue, W: Write>(
    f: &mut Formatter<W>,
    alloc: Global,
    value: &Value<S>,
) -> Result
    ensures { WritesOnOk W.write_str_gives f.old result (value_text S.answer value.now) f.new }
{
    match Walk::new(alloc, value) {
        Ok(walk) => write_steps(f, walk),
        Err(_) => Err(Error),
    }
}

/// Writes `null`, a scalar as `Scalar` does, a list as `[a, b]` and an object as `{"k": v, "l":
/// w}`; nothing is escaped. What is yet to be written of a list or an object stands on the heap, so
/// a deep value takes no more stack; want of memory for it is an error.
impl<S: ScalarValue> Display for Value<S> {
    ghost output = { λ value. Some (value_text S.answer value) };

    fn fmt<W: Write>(&self, f: &mut Formatter<W>) -> Result {
        match self {
            Value::Null => f.write_str("null"),
            Value::Scalar(scalar) => write!(f, "{}", Scalar::from(scalar)),
            Value::List(items) => write_walked(f, *items.allocator(), self),
            Value::Object(object) => write_walked(f, *object.fields.allocator(), self),
        }
    }
}

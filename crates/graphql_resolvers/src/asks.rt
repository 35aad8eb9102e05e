//! Values that are asked for by a name and a kind.

ghost use Rattle.std.specs.Option.{option_map};
ghost use Rattle.graphql_resolvers.specs.Asked as spec;
ghost use Rattle.graphql_resolvers.specs.Refusals.{TellsBy};
ghost use Rattle.graphql_resolvers.specs.Told.{given_to};

use crate::failure::Failure;
use crate::given::{Given, Source};
use crate::leaves::id_of;
use crate::refusals::refused;
use graphql_scalars::DefaultScalarValue;
use graphql_text::Text;
use graphql_values::InputValue;

/// What is asked for, or the error of the field.
pub type Asked<T> = Result<T, Failure>;

impl<'a> Given<'a> {
    /// The text that stands under this name, or the name of the enum value; `None` where it is
    /// `null` or absent (GraphQL October 2021, 3.5.3 String, 3.9 Enums). What is sent for an enum
    /// value by way of a variable is a text. It takes memory for an error alone.
    pub fn word_or_null(&self, name: &str) -> Asked<Option<&'a str>>
        ensures { TellsBy (option_map (λ word. word.now)) result
            (spec.word_or_null (given_to self.now) name.now) }
    {
        match self.value(name) {
            None => Ok(None),
            Some(InputValue::Null) => Ok(None),
            Some(InputValue::Scalar(DefaultScalarValue::String(text))) => Ok(Some(text.as_str())),
            Some(InputValue::Enum(value)) => Ok(Some(value.as_str())),
            Some(_) => Err(refused(self.alloc, name, "no text")),
        }
    }

    /// The integer that stands under this name; `None` where it is `null` or absent (3.5.1 Int).
    pub fn int_or_null(&self, name: &str) -> Asked<Option<i32>>
        ensures { TellsBy (λ value. value) result (spec.int_or_null (given_to self.now) name.now) }
    {
        match self.value(name) {
            None => Ok(None),
            Some(InputValue::Null) => Ok(None),
            Some(InputValue::Scalar(DefaultScalarValue::Int(value))) => Ok(Some(*value)),
            Some(_) => Err(refused(self.alloc, name, "no integer")),
        }
    }

    /// What of `true` and `false` stands under this name; `None` where it is `null` or absent
    /// (3.5.4 Boolean).
    pub fn boolean_or_null(&self, name: &str) -> Asked<Option<bool>>
        ensures { TellsBy (λ value. value) result
            (spec.boolean_or_null (given_to self.now) name.now) }
    {
        match self.value(name) {
            None => Ok(None),
            Some(InputValue::Null) => Ok(None),
            Some(InputValue::Scalar(DefaultScalarValue::Boolean(value))) => Ok(Some(*value)),
            Some(_) => Err(refused(self.alloc, name, "no truth value")),
        }
    }

    /// The integer that stands under this name and is not negative, as a count; `None` where it is
    /// `null` or absent.
    pub fn count_or_null(&self, name: &str) -> Asked<Option<usize>>
        ensures { TellsBy (λ value. value) result
            (spec.count_or_null (given_to self.now) name.now) }
    {
        match self.value(name) {
            None => Ok(None),
            Some(InputValue::Null) => Ok(None),
            Some(InputValue::Scalar(DefaultScalarValue::Int(value))) => {
                if *value < 0 {
                    Err(refused(self.alloc, name, "no count"))
                } else {
                    Ok(Some(value.unsigned_abs() as usize))
                }
            }
            Some(_) => Err(refused(self.alloc, name, "no count")),
        }
    }

    /// The id that stands under this name, a text or an integer, as a text; `None` where it is
    /// `null` or absent (3.5.5 ID). It takes memory.
    pub fn id_or_null(&self, name: &str) -> Asked<Option<Text>>
        ensures { TellsBy (λ id. id) result (spec.id_or_null (given_to self.now) name.now) }
    {
        match self.value(name) {
            None => Ok(None),
            Some(InputValue::Null) => Ok(None),
            Some(InputValue::Enum(value)) => Ok(Some(value.clone()?)),
            Some(InputValue::Scalar(scalar)) => match id_of(self.alloc, scalar)? {
                Some(id) => Ok(Some(id)),
                None => Err(refused(self.alloc, name, "no id")),
            },
            Some(_) => Err(refused(self.alloc, name, "no id")),
        }
    }

    /// The fields of the input object that stands under this name; `None` where it is `null` or
    /// absent (3.10 Input Objects).
    pub fn part_or_null(&self, name: &str) -> Asked<Option<Given<'a>>>
        ensures { TellsBy (option_map given_to) result
            (spec.part_or_null (given_to self.now) name.now) }
    {
        match self.value(name) {
            None => Ok(None),
            Some(InputValue::Null) => Ok(None),
            Some(InputValue::Object(pairs)) => {
                let source = Source::Fields(pairs.as_slice());
                Ok(Some(Given {
                    alloc: self.alloc,
                    source,
                }))
            }
            Some(_) => Err(refused(self.alloc, name, "no input object")),
        }
    }
}

//! Scalars, how they are read from the tokens of a text, and what they answer.

ghost use mir.Syntax.{w32};
ghost use Rattle.std.specs.Prelude.{◌≡◌, ℤ, Result, Bool, List, ℕ, string_bytes, FitsSigned};
ghost use Rattle.std.specs.Prelude.{IfSome};
ghost use Rattle.std.specs.Option.{option_map};
ghost use Rattle.std.specs.Str.{IsUtf8};
ghost use Rattle.graphql_text.specs.declared.token.ScalarToken.{ScalarToken};
ghost use Rattle.graphql_text.specs.declared.parse_error.ParseError.{ParseError};
ghost use Rattle.graphql_text.specs.Memory.{Answers, Gives, GivesBy, Meets};
ghost use Rattle.graphql_scalars.specs.Another.{of_answer};
ghost use Rattle.graphql_scalars.specs.Reading.{IsMemory};
ghost use Rattle.graphql_scalars.specs.ScalarAnswers.{ScalarAnswer, integer, boolean, text, as_int};
ghost use Rattle.graphql_scalars.specs.ScalarAnswers.{as_bool, as_text};

use crate::from_scalar::FromScalarValue;
use graphql_text::{ParseError, ScalarToken, Text};
use std::alloc::{AllocError, Global};
use std::fmt::Display;

/// What a token means as a scalar, or why it means none.
pub type ParseScalarResult<S> = Result<S, ParseError>;

/// A type whose values `S` are written as scalar tokens (GraphQL October 2021, 3.5 Scalars).
pub trait ParseScalarValue<S> {
    /// What a token means, by its kind and its text alone.
    ghost reads: { ScalarToken → Result S ParseError };

    /// What the token means, or why it means nothing here. `ParseError::Memory` is want of memory,
    /// and tells nothing of the token.
    fn from_str(alloc: Global, token: &ScalarToken<'_>) -> ParseScalarResult<S>
        ensures { Meets IsMemory result (reads token.now) };
}

/// A type that holds every scalar of a schema (GraphQL October 2021, 3.5 Scalars). Each of its
/// values answers as an integer, as a boolean or as a text, and one that is made from such a value
/// answers that value.
pub trait ScalarValue: ParseScalarValue<Self> + Clone + Eq {
    /// The scalar of a boolean.
    ghost of_bool: { Bool → Self };

    /// The scalar of an integer of 32 bits.
    ghost of_int: { ℤ → Self };

    /// The scalar of a text, by its bytes, which are in UTF-8.
    ghost of_text: { List ℕ → Self };

    /// What a scalar answers: an integer, a boolean or a text.
    ghost answer: { Self → ScalarAnswer };

    /// The scalar of `true` or `false`. Takes no memory.
    fn from_bool(value: bool) -> Self
        ensures { result ≡ of_bool value };

    /// The scalar of an integer. Takes no memory.
    fn from_int(value: i32) -> Self
        ensures { result ≡ of_int value };

    /// The scalar of a text. Takes no memory.
    fn from_string(value: String) -> Self
        ensures { result ≡ of_text (string_bytes value) };

    /// The boolean that the scalar answers, if it answers one (3.5.4 Boolean).
    fn try_to_bool(&self) -> Option<bool>
        ensures { result ≡ as_bool (answer self.now) };

    /// The integer that the scalar answers, if it answers one (3.5.1 Int).
    fn try_to_int(&self) -> Option<i32>
        ensures { result ≡ as_int (answer self.now) };

    /// The text that the scalar answers, if it answers one (3.5.3 String).
    fn try_as_str(&self) -> Option<&str>
        ensures { option_map (λ text. text.now) result ≡ as_text (answer self.now) };

    /// The text that the scalar answers, if it answers one, as a text of its own. Takes no memory.
    fn try_into_string(self) -> Option<String>
        ensures { option_map (λ text. string_bytes text) result ≡ as_text (answer self) };

    /// The text that the scalar answers, if it answers one, as a text of its own. An error is want
    /// of memory.
    final fn try_to_string(&self, alloc: Global) -> Result<Option<String>, AllocError>
        ensures { GivesBy (λ text. option_map (λ t. string_bytes t) text) result
            (as_text (answer self.now)) }
    {
        match self.try_as_str() {
            Some(text) => Ok(Some(Text::from_str(alloc, text)?.into_string())),
            None => Ok(None),
        }
    }

    /// What the scalar means at the type `T`, or why it means nothing there.
    final fn try_to<'a, T: FromScalarValue<'a, Self>>(
        &'a self,
        alloc: Global,
    ) -> Result<T, T::Error>
        ensures { Answers (T.means self.now) (T.refuses self.now) T.is_memory result }
    {
        T::from_scalar_value(alloc, self)
    }

    /// The scalar of another type that gives the same answer: the integer, else the boolean, else
    /// the text. Takes no memory.
    final fn into_another<T: ScalarValue>(self) -> T
    where
        Self: Drop,
        ensures { result ≡ of_answer T.of_int T.of_bool T.of_text (answer self) }
    {
        if let Some(value) = self.try_to_int() {
            return T::from_int(value);
        }
        if let Some(value) = self.try_to_bool() {
            return T::from_bool(value);
        }
        match self.try_into_string() {
            Some(text) => T::from_string(text),
            None => unreachable!(),
        }
    }

    /// The scalar of the text that `{}` writes of a value. An error is want of memory.
    final fn from_displayable<D: Display>(alloc: Global, value: &D) -> Result<Self, AllocError>
        ensures { IfSome (D.output value.now) (λ text. Gives result (of_text text)) }
    {
        Ok(Self::from_string(value.to_string(alloc)?))
    }

    /// A clone is the same scalar.
    ghost clones: { (x y : Self) → Self.is_clone x y → y ≡ x };

    /// The scalar of a boolean answers it.
    ghost bool_answers: { (b : Bool) → answer (of_bool b) ≡ boolean b };

    /// The scalar of an integer of 32 bits answers it.
    ghost int_answers: { (n : ℤ) → FitsSigned w32 n → answer (of_int n) ≡ integer n };

    /// The scalar of a text, which is in UTF-8, answers it.
    ghost text_answers: { (t : List ℕ) → IsUtf8 t → answer (of_text t) ≡ text t };
}

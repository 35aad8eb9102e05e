//! The laws of names, of scalars and of the errors of fields with a premise, each of what meets it.

ghost use Rattle.std.specs.Prelude.{◌≡◌, [], ◌∷◌, Ok, Err, codes, encode_utf8_all};
ghost use Rattle.graphql_field_results.specs.IntoFieldErrors.{IsReason};
ghost use Rattle.graphql_scalars.specs.DefaultScalar.{reads};
ghost use Rattle.graphql_scalars.specs.declared.check_error.CheckError.TheVariants as check;
ghost use Rattle.graphql_scalars.specs.declared.default_scalar.DefaultScalarValue.TheVariants as scalar;
ghost use Rattle.graphql_text.specs.Grammar.{IsDivided};
ghost use Rattle.graphql_text.specs.Tokens.{Located};
ghost use Rattle.graphql_text.specs.declared.token.ScalarToken.TheVariants as token;
ghost use Rattle.graphql_text.specs.declared.token.Token.TheVariants as named;
ghost use Rattle.graphql_values.specs.declared.conversions.arrays.FromInputValueArrayError.TheVariants as array_error;
ghost use Rattle.graphql_values.specs.declared.conversions.lists.FromInputValueVecError.TheVariants as vec_error;
ghost use Rattle.graphql_law_rows.specs.SampleScalars as spec;

use graphql_field_results::{IntoFieldError, laws as error_laws};
use graphql_names::laws as name_laws;
use graphql_scalars::{DefaultScalarValue, laws as scalar_laws};
use graphql_values::{FromInputValueArrayError, FromInputValueVecError};
use std::fmt::Display;

/// Why a value is no list of integers.
type ListError = FromInputValueVecError<i32, DefaultScalarValue>;

/// Why a value is no array of integers.
type ArrayError = FromInputValueArrayError<i32, DefaultScalarValue>;

/// A text that is a name is divided into that name and its end.
pub fn name_is_a_token()
    ensures { (name end : Located) × IsDivided (codes "_id") (name ∷ end ∷ [])
        × (name.item ≡ named.Name (encode_utf8_all (codes "_id"))) }
{
    name_laws::names_are_tokens();
}

/// A string of a letter, an escape and a code is read as their characters; one with an escape that
/// is none is refused, and that one is told.
pub fn strings_are_read_by_their_pieces()
    ensures read { reads (token.String spec.written)
        ≡ Ok (scalar.String (encode_utf8_all spec.meant)) }
    ensures refused { reads (token.String spec.bad) ≡ Err spec.unknown_escape }
{
    scalar_laws::strings_mean_their_pieces();
    scalar_laws::first_bad_escape_is_told();
}

/// The reason that the error of a list of integers gives is the text that it writes.
pub fn reasons_of_integers_are_texts()
    ensures list { let becomes = ⟦<ListError as IntoFieldError<DefaultScalarValue>>⟧.becomes in
        IsReason (becomes vec_error.Null) (⟦<ListError as Display>⟧.output vec_error.Null) }
    ensures array { let error = array_error.Item spec.no_integer in
        let becomes = ⟦<ArrayError as IntoFieldError<DefaultScalarValue>>⟧.becomes in
        IsReason (becomes error) (⟦<ArrayError as Display>⟧.output error) }
{
    error_laws::reasons_are_texts::<DefaultScalarValue, DefaultScalarValue>();
    error_laws::reasons_of_lists_are_texts::<DefaultScalarValue, i32>();
}

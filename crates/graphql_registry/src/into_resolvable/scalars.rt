//! Scalars.

ghost use Rattle.std.specs.Prelude.{Ok, string_bytes};
ghost use Rattle.std.proofs.Common.{rules};
ghost use Rattle.graphql_field_results.specs.declared.resolved.Resolved.TheVariants as resolved;

use super::{AnswersByClones, IntoResolvable};
use graphql_field_results::{FieldResult, Resolved};
use graphql_input_types::ID;
use graphql_scalars::ScalarValue;
use std::alloc::Global;

/// The scalar of the boolean (GraphQL October 2021, 3.5.4 Boolean). Takes no memory.
impl<S: ScalarValue, N> IntoResolvable<S, N> for bool {
    ghost answer = { λ truth. Ok (resolved.Scalar (S.of_bool truth)) };

    fn into_resolvable(self, _alloc: Global) -> FieldResult<Resolved<S, N>, S> {
        Ok(Resolved::Scalar(S::from_bool(self)))
    }
}

/// The scalar of the integer (GraphQL October 2021, 3.5.1 Int). Takes no memory.
impl<S: ScalarValue, N> IntoResolvable<S, N> for i32 {
    ghost answer = { λ number. Ok (resolved.Scalar (S.of_int number)) };

    fn into_resolvable(self, _alloc: Global) -> FieldResult<Resolved<S, N>, S> {
        Ok(Resolved::Scalar(S::from_int(self)))
    }
}

/// The scalar of the text (GraphQL October 2021, 3.5.3 String).
impl<S: ScalarValue, N> IntoResolvable<S, N> for &str {
    ghost answer = { λ text. Ok (resolved.Scalar (S.of_text text.now)) };

    fn into_resolvable(self, alloc: Global) -> FieldResult<Resolved<S, N>, S> {
        Ok(Resolved::Scalar(S::from_string(String::from_str(alloc, self)?)))
    }
}

/// The scalar of the text (GraphQL October 2021, 3.5.3 String). Takes no memory.
impl<S: ScalarValue, N> IntoResolvable<S, N> for String {
    ghost answer = { λ text. Ok (resolved.Scalar (S.of_text (string_bytes text))) };

    fn into_resolvable(self, _alloc: Global) -> FieldResult<Resolved<S, N>, S> {
        Ok(Resolved::Scalar(S::from_string(self)))
    }
}

/// The scalar of the text of the identifier (GraphQL October 2021, 3.5.5 ID, "Result Coercion").
/// Takes no memory.
impl<S: ScalarValue, N> IntoResolvable<S, N> for ID {
    ghost answer = { λ id. Ok (resolved.Scalar (S.of_text id.text)) };

    fn into_resolvable(self, _alloc: Global) -> FieldResult<Resolved<S, N>, S> {
        Ok(Resolved::Scalar(S::from_string(String::from(self))))
    }
}

impl<S: ScalarValue, N> AnswersByClones<S, N> for bool {
    ghost clones_answer = { Prim.search rules };
}

impl<S: ScalarValue, N> AnswersByClones<S, N> for i32 {
    ghost clones_answer = { Prim.search rules };
}

impl<S: ScalarValue, N> AnswersByClones<S, N> for &str {
    ghost clones_answer = { Prim.search rules };
}

impl<S: ScalarValue, N> AnswersByClones<S, N> for String {
    ghost clones_answer = { Prim.search rules };
}

impl<S: ScalarValue, N> AnswersByClones<S, N> for ID {
    ghost clones_answer = { Prim.search rules };
}

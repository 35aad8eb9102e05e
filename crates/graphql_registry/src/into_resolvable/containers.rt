//! Lists, values that may be null, and results.

ghost use Rattle.std.proofs.Common.{rules};
ghost use Rattle.graphql_registry.specs.ClonesAnswer.{list_of_clones};
ghost use Rattle.graphql_registry.specs.Resolvables.{answer_of_list, answer_of_nullable};
ghost use Rattle.graphql_registry.specs.Resolvables.{answer_of_option, answer_of_result};

use super::{AnswersByClones, IntoResolvable};
use graphql_field_results::{FieldFault, FieldResult, IntoFieldError, Resolved};
use graphql_input_types::Nullable;
use graphql_text::Items;
use std::alloc::Global;

/// `null` where there is none, else what is there answers (GraphQL October 2021, 3.12 Non-Null: a
/// type is nullable where it is not wrapped).
impl<S, N, T: IntoResolvable<S, N>> IntoResolvable<S, N> for Option<T> {
    ghost answer = { answer_of_option T.answer };

    fn into_resolvable(self, alloc: Global) -> FieldResult<Resolved<S, N>, S> {
        match self {
            Some(value) => value.into_resolvable(alloc),
            None => Ok(Resolved::Null),
        }
    }
}

/// `null` for both nulls, else what is there answers (GraphQL October 2021, 2.9.5 Null Value).
impl<S, N, T: IntoResolvable<S, N>> IntoResolvable<S, N> for Nullable<T> {
    ghost answer = { answer_of_nullable T.answer };

    fn into_resolvable(self, alloc: Global) -> FieldResult<Resolved<S, N>, S> {
        match self {
            Nullable::Some(value) => value.into_resolvable(alloc),
            Nullable::ImplicitNull | Nullable::ExplicitNull => Ok(Resolved::Null),
        }
    }
}

/// What the value answers, or the error of the field that the error becomes (GraphQL October 2021,
/// 6.4.4 Handling Field Errors).
impl<S, N, T: IntoResolvable<S, N>, E: IntoFieldError<S>> IntoResolvable<S, N> for Result<T, E> {
    ghost answer = { answer_of_result T.answer E.becomes };

    fn into_resolvable(self, alloc: Global) -> FieldResult<Resolved<S, N>, S> {
        match self {
            Ok(value) => value.into_resolvable(alloc),
            Err(error) => Err(error.into_field_error(alloc)),
        }
    }
}

/// The list of the items' answers, in order, or the error of the first item that is one (GraphQL
/// October 2021, 3.11 List).
impl<S: Drop, N: Drop, T: IntoResolvable<S, N> + Drop> IntoResolvable<S, N> for Vec<T> {
    ghost answer = { λ items. answer_of_list T.answer items.items };

    fn into_resolvable(self, alloc: Global) -> FieldResult<Resolved<S, N>, S> {
        let mut answers = Items::with_capacity(alloc, self.len())?;
        'items: for item in self {
            match item.into_resolvable(alloc) {
                Ok(answer) => answers.push(answer)?,
                Err(fault) => return Err(fault),
            }
        }
        Ok(Resolved::List(answers))
    }
}

/// The list of the items' answers, in order, or the error of the first item that is one (GraphQL
/// October 2021, 3.11 List). Each item is cloned.
impl<S: Drop, N: Drop, T: AnswersByClones<S, N>> IntoResolvable<S, N> for &[T] {
    ghost answer = { λ items. answer_of_list T.answer items.now };

    fn into_resolvable(self, alloc: Global) -> FieldResult<Resolved<S, N>, S> {
        let mut answers = Items::with_capacity(alloc, self.len())?;
        'items: for item in self {
            match item.into_resolvable(alloc) {
                Ok(answer) => answers.push(answer)?,
                Err(fault) => return Err(fault),
            }
        }
        Ok(Resolved::List(answers))
    }
}

/// The list of the items' answers, in order, or the error of the first item that is one (GraphQL
/// October 2021, 3.11 List).
impl<S: Drop, N: Drop, T: IntoResolvable<S, N> + Drop, const C: usize> IntoResolvable<S, N>
    for [T; C] {
    ghost answer = { answer_of_list T.answer };

    fn into_resolvable(self, alloc: Global) -> FieldResult<Resolved<S, N>, S> {
        match Vec::from_array(alloc, self) {
            Ok(items) => items.into_resolvable(alloc),
            Err(_) => Err(FieldFault::Memory),
        }
    }
}

impl<S, N, T: AnswersByClones<S, N>> AnswersByClones<S, N> for Option<T> {
    ghost clones_answer = { Prim.search rules };
}

impl<S, N, T: AnswersByClones<S, N>> AnswersByClones<S, N> for Nullable<T> {
    ghost clones_answer = { Prim.search rules };
}

impl<S: Drop, N: Drop, T: AnswersByClones<S, N>> AnswersByClones<S, N> for Vec<T> {
    ghost clones_answer = { λ x y is.
        list_of_clones T.answer T.is_clone T.clones_answer x.items y.items is.0 };
}

impl<S: Drop, N: Drop, T: AnswersByClones<S, N>> AnswersByClones<S, N> for &[T] {
    ghost clones_answer = { Prim.search rules };
}

impl<S: Drop, N: Drop, T: AnswersByClones<S, N>, const C: usize> AnswersByClones<S, N> for [T; C] {
    ghost clones_answer = { λ x y is.
        list_of_clones T.answer T.is_clone T.clones_answer x y is.whole };
}

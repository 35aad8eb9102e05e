//! Values behind a pointer: they answer what they answer without it.

ghost use Rattle.std.proofs.Common.{rules};

use super::{AnswersByClones, IntoResolvable};
use graphql_field_results::{FieldResult, Resolved};
use std::alloc::Global;
use std::rc::Rc;

/// What the value in the box answers.
impl<S, N, T: IntoResolvable<S, N>> IntoResolvable<S, N> for Box<T> {
    ghost answer = { λ boxed. T.answer boxed.value };

    fn into_resolvable(self, alloc: Global) -> FieldResult<Resolved<S, N>, S> {
        Box::into_inner(self).into_resolvable(alloc)
    }
}

/// What the value that is lent answers, by a clone.
impl<S, N, T: AnswersByClones<S, N>> IntoResolvable<S, N> for &T {
    ghost answer = { λ lent. T.answer lent.now };

    fn into_resolvable(self, alloc: Global) -> FieldResult<Resolved<S, N>, S> {
        self.clone()?.into_resolvable(alloc)
    }
}

/// What the value that is shared answers, by a clone.
impl<S, N, T: AnswersByClones<S, N> + Drop> IntoResolvable<S, N> for Rc<T> {
    ghost answer = { λ shared. T.answer shared.value };

    fn into_resolvable(self, alloc: Global) -> FieldResult<Resolved<S, N>, S> {
        (*self).clone()?.into_resolvable(alloc)
    }
}

impl<S, N, T: AnswersByClones<S, N>> AnswersByClones<S, N> for Box<T> {
    ghost clones_answer = { λ x y is. T.clones_answer x.value y.value is };
}

impl<S, N, T: AnswersByClones<S, N>> AnswersByClones<S, N> for &T {
    ghost clones_answer = { Prim.search rules };
}

impl<S, N, T: AnswersByClones<S, N> + Drop> AnswersByClones<S, N> for Rc<T> {
    ghost clones_answer = { Prim.search rules };
}

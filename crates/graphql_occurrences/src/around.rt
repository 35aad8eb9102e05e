//! The types around a node of a document.

ghost use Rattle.std.specs.Prelude.{◌≡◌, None};
ghost use Rattle.std.specs.Option.{option_copied, option_map};
ghost use Rattle.graphql_schema.specs.Types.{reference_to};
ghost use Rattle.graphql_occurrences.specs.DeclaredLookups.{declarations_of};
ghost use Rattle.graphql_occurrences.specs.DeclaredLookups as spec;
ghost use Rattle.graphql_occurrences.specs.Events.{
  asked,
  condition_around,
  selecting as around_selecting,
  set_around,
  top as around_top,
};
ghost use Rattle.graphql_occurrences.specs.Lent.{around_of, lent_input, literal_of};

use crate::place::InputPlace;
use crate::{SchemaType, TypeLiteral};
use graphql_schema::{MetaType, SchemaScalar};
use graphql_text::{Spanning, TextRef};

/// The types around a node of a document, by the path to it from its definition. A type that the
/// schema has not is `None`, and so is one of which the path tells nothing.
#[derive_where(Clone, Copy)]
pub struct Around<'a, S, C = <S as SchemaScalar>::Check> {
    /// The type of what is selected: of a field that of its values, of a fragment with a condition
    /// the condition. It may be one that the schema has not.
    pub current: Option<TypeLiteral<'a>>,

    /// The type that it is selected of.
    pub parent: Option<&'a MetaType<S, C>>,

    /// Where a value stands.
    pub input: Option<InputPlace<'a>>,
}

impl<'a, S, C> Around<'a, S, C> {
    /// No type is known.
    pub fn nowhere() -> Around<'a, S, C>
        ensures { around_of result ≡ around_top None }
    {
        Around {
            current: None,
            parent: None,
            input: None,
        }
    }

    /// The types around a definition, by the name of its type.
    pub fn top(name: Option<&'a str>) -> Around<'a, S, C>
        ensures { around_of result ≡ around_top (option_map (λ n. n.now) name.entry) }
    {
        let current = match name {
            Some(name) => Some(TypeLiteral::named(name)),
            None => None,
        };
        Around {
            current,
            parent: None,
            input: None,
        }
    }

    /// The same, and what is selected is of this type.
    pub fn selecting(self, current: Option<TypeLiteral<'a>>) -> Around<'a, S, C>
        ensures { around_of result
            ≡ around_selecting (around_of self.entry) (option_map literal_of current.entry) }
    {
        Around {
            current,
            parent: self.parent,
            input: None,
        }
    }

    /// The same, and a value stands here.
    pub fn asking(self, input: Option<InputPlace<'a>>) -> Around<'a, S, C>
        ensures { around_of result
            ≡ asked (around_of self.entry) (option_map lent_input input.entry) }
    {
        Around {
            current: self.current,
            parent: self.parent,
            input,
        }
    }

    /// The types inside a fragment with this condition, or the same without one.
    pub fn inside_condition(self, condition: &'a Option<Spanning<TextRef<'_>>>) -> Around<'a, S, C>
        ensures { around_of result ≡ condition_around (around_of self.entry) condition.now }
    {
        match condition {
            Some(name) => self.selecting(Some(TypeLiteral::named(name.item.as_str()))),
            None => self,
        }
    }

    /// The types inside a selection set.
    pub fn inside_set(self, schema: &'a SchemaType<S, C>) -> Around<'a, S, C>
        ensures { around_of result
            ≡ set_around (declarations_of schema.now) (around_of self.entry) }
    {
        Around {
            current: self.current,
            parent: referred(schema, self.current),
            input: None,
        }
    }
}

/// The type of the schema within every wrap of a reference.
fn referred<'a, S, C>(
    schema: &'a SchemaType<S, C>,
    literal: Option<TypeLiteral<'a>>,
) -> Option<&'a MetaType<S, C>>
    ensures { option_copied result
        ≡ spec.referred (declarations_of schema.now) (option_map literal_of literal.entry) }
{
    match literal {
        Some(literal) => schema.concrete_type_by_name(literal.name),
        None => None,
    }
}

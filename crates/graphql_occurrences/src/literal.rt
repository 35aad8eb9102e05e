//! References to types, lent.

ghost use Rattle.std.specs.Prelude.{◌≡◌};
ghost use Rattle.std.specs.Option.{option_map};
ghost use Rattle.graphql_schema.specs.Types.{reference_to};
ghost use Rattle.graphql_schema.specs.TypeTypes.{within_list};
ghost use Rattle.graphql_occurrences.specs.DeclaredLookups.{item_type};
ghost use Rattle.graphql_occurrences.specs.DeclaredLent.{literal_of};

use graphql_names::{Type, TypeModifier};
use graphql_text::{Text, TextRef};

/// A reference to a type, lent (GraphQL October 2021, 2.11 Type References).
#[derive(Clone, Copy)]
pub struct TypeLiteral<'a> {
    /// The name, within every wrap.
    pub name: &'a str,

    /// The wraps, the innermost first.
    pub modifiers: &'a [TypeModifier],
}

const NON_NULL: [TypeModifier; 1] = [TypeModifier::NonNull];

impl<'a> TypeLiteral<'a> {
    /// The reference, lent.
    pub fn of(reference: &'a Type<Text>) -> TypeLiteral<'a>
        ensures { literal_of result ≡ reference.now }
    {
        TypeLiteral {
            name: reference.name.as_str(),
            modifiers: reference.modifiers.as_slice(),
        }
    }

    /// The reference that a document holds, lent.
    pub fn of_document(reference: &'a Type<TextRef<'_>>) -> TypeLiteral<'a>
        ensures { literal_of result ≡ reference.now }
    {
        TypeLiteral {
            name: reference.name.as_str(),
            modifiers: reference.modifiers.as_slice(),
        }
    }

    /// The reference to the type of this name, without `null`.
    pub fn named(name: &'a str) -> TypeLiteral<'a>
        ensures { literal_of result ≡ reference_to name.now }
    {
        TypeLiteral {
            name,
            modifiers: &NON_NULL,
        }
    }

    /// The type of the items of a list, whether `null` is among the list's values or not. A type
    /// that is no list has none.
    pub fn items(self) -> Option<TypeLiteral<'a>>
        ensures { option_map literal_of result ≡ item_type (literal_of self.entry) }
    {
        match wraps_within(self.modifiers) {
            Some(modifiers) => Some(TypeLiteral {
                name: self.name,
                modifiers,
            }),
            None => None,
        }
    }
}

/// The wraps within the outermost list, if there is a list.
#[tactic(auto, using(graphql_schema::proofs::TypeTypes::one_more))]
fn wraps_within(modifiers: &[TypeModifier]) -> Option<&[TypeModifier]>
    ensures { option_map (λ m. m.now) result ≡ within_list modifiers.now }
{
    let mut left = modifiers;
    'wraps: while let Some((outermost, within)) = left.split_last() {
        match outermost {
            TypeModifier::List(_) => return Some(within),
            TypeModifier::NonNull => left = within,
        }
    }
    None
}

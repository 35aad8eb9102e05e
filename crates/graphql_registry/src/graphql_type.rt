//! Types of the program as types of a schema.

ghost use Rattle.graphql_text.specs.Memory.{Gives};
ghost use Rattle.graphql_schema.specs.Types.{reference_to};

mod containers;
mod pointers;
mod scalars;

use graphql_names::Type;
use graphql_text::Text;
use std::alloc::{AllocError, Global};

/// A type whose values are those of a type of a schema over the scalars `S` (GraphQL October 2021,
/// 3.4 Types). A type has no `null` among its values, but where it is an `Option` or a `Nullable`
/// (3.12 Non-Null).
pub trait GraphQLType<S> {
    ghost use Rattle.std.specs.Prelude.{◌≡◌, ℕ, List, Option, Some};
    ghost use Rattle.std.specs.Option.{option_map};
    ghost use Rattle.graphql_text.specs.Memory.{Gives};
    ghost use Rattle.graphql_schema.specs.Types.{TypeOf, reference_to};

    /// The name of the type, if it has one.
    ghost type_name: { Option (List ℕ) };

    /// The reference to the type.
    ghost type_reference: { TypeOf };

    /// The name of the type (3.4 Types). Lists and types with `null` have none.
    fn name() -> Option<&'static str>
        ensures { option_map (λ name. name.now) result ≡ type_name };

    /// The reference to the type (2.11 Type References). An error is want of memory.
    fn as_type(alloc: Global) -> Result<Type<Text>, AllocError>
        ensures { Gives result type_reference };

    /// The reference to a type that has a name is that name, without `null`.
    ghost named: { (name : List ℕ) → type_name ≡ Some name → type_reference ≡ reference_to name };
}

/// The type of this name, without `null`. An error is want of memory.
pub(crate) fn named_type(alloc: Global, name: &str) -> Result<Type<Text>, AllocError>
    ensures { Gives result (reference_to name.now) }
{
    Type::new(alloc, Text::from_str(alloc, name)?).wrap_non_null()
}

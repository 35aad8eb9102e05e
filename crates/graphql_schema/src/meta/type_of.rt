//! References to the types of metadata.

ghost use Rattle.std.specs.Prelude.{◌≡◌, [], ◌∷◌};
ghost use Rattle.graphql_text.specs.Memory.{Gives};
ghost use Rattle.graphql_names.specs.declared.type_modifier.TypeModifier.TheVariants as modifier;
ghost use Rattle.graphql_schema.specs.Types.{type_of};

use super::MetaType;
use graphql_names::Type;
use graphql_text::Text;
use std::alloc::{AllocError, Global};

impl<S, C> MetaType<S, C> {
    /// The reference to this type (GraphQL October 2021, 2.11 Type References), without `null`
    /// among its values but where the metadata adds it: a named type is `name!`, a list of `T` is
    /// `[T]!`. A placeholder is the reference that it holds. An error is want of memory.
    pub fn as_type(&self, alloc: Global) -> Result<Type<Text>, AllocError>
        ensures { Gives result (type_of self.now) }
    {
        match self {
            MetaType::Scalar(meta) => reference_to(alloc, &meta.name),
            MetaType::List(meta) => {
                let items = meta.of_type.clone()?;
                items.wrap_list(meta.expected_size)?.wrap_non_null()
            }
            MetaType::Nullable(meta) => Ok(meta.of_type.clone()?.nullable()),
            MetaType::Object(meta) => reference_to(alloc, &meta.name),
            MetaType::Enum(meta) => reference_to(alloc, &meta.name),
            MetaType::Interface(meta) => reference_to(alloc, &meta.name),
            MetaType::Union(meta) => reference_to(alloc, &meta.name),
            MetaType::InputObject(meta) => reference_to(alloc, &meta.name),
            MetaType::Placeholder(meta) => meta.of_type.clone(),
        }
    }
}

/// The type of this name, without `null`.
fn reference_to(alloc: Global, name: &Text) -> Result<Type<Text>, AllocError>
    ensures { Gives result (record { name = name.now; modifiers = modifier.NonNull ∷ [] }) }
{
    Type::new(alloc, name.clone()?).wrap_non_null()
}

//! The fields of objects and interfaces.

ghost use Rattle.std.specs.Prelude.{◌≡◌, ◌++◌, [], ◌∷◌, Some};
ghost use Rattle.graphql_text.specs.Memory.{Gives};
ghost use Rattle.graphql_schema.specs.Names.{is_reserved};
ghost use Rattle.graphql_schema.specs.Types.{arguments_of};
ghost use Rattle.graphql_schema.specs.declared.meta.deprecation.DeprecationStatus.TheVariants as status;

use super::names::is_reserved;
use super::{Argument, DeprecationStatus};
use graphql_names::Type;
use graphql_text::Text;
use graphql_values::{NamedItems, ScalarValue};
use std::alloc::{AllocError, Global};

/// A field of an object or an interface (GraphQL October 2021, 3.6 Objects).
#[derive(Drop)]
pub struct Field<S> {
    /// The name.
    pub name: Text,

    /// What it is for, in words.
    pub description: Option<Text>,

    /// The arguments, as they were declared, each found by its name. `None` is the same as no
    /// argument.
    pub arguments: Option<NamedItems<Argument<S>>>,

    /// The type of its values.
    pub field_type: Type<Text>,

    /// Whether it is deprecated.
    pub deprecation_status: DeprecationStatus,
}

impl<S> Field<S> {
    /// The same with this description.
    pub fn description(mut self, description: Text) -> Field<S>
        ensures { result ≡ record self { description = Some description } }
    {
        self.description = Some(description);
        self
    }

    /// The same with one more argument, behind the others. An error is want of memory.
    pub fn argument(self, alloc: Global, argument: Argument<S>) -> Result<Field<S>, AllocError>
    where
        S: Drop,
        ensures { Gives result
            (record self { arguments = Some (arguments_of self ++ argument ∷ []) }) }
    {
        let Field {
            name,
            description,
            arguments,
            field_type,
            deprecation_status,
        } = self;
        let mut arguments = arguments.unwrap_or(NamedItems::new(alloc));
        arguments.push(argument)?;
        Ok(Field {
            name,
            description,
            arguments: Some(arguments),
            field_type,
            deprecation_status,
        })
    }

    /// The same, deprecated, for this reason where one is given.
    pub fn deprecated(mut self, reason: Option<Text>) -> Field<S>
        ensures { result ≡ record self { deprecation_status = status.Deprecated reason } }
    {
        self.deprecation_status = DeprecationStatus::Deprecated(reason);
        self
    }

    /// Whether its name is one that the standard keeps for introspection: it begins with two
    /// underscores (GraphQL October 2021, 4 Introspection, Reserved Names).
    pub fn is_builtin(&self) -> bool
        ensures { result ≡ is_reserved self.now.name }
    {
        is_reserved(self.name.as_str())
    }
}

impl<S: ScalarValue + Drop> Clone for Field<S> {
    ghost is_clone = { λ field copy. copy ≡ field };

    /// The same field once more. Takes stack for each level that a default value of its arguments
    /// nests. An error is want of memory.
    fn clone(&self) -> Result<Field<S>, AllocError> {
        let name = self.name.clone()?;
        let description = self.description.clone()?;
        let arguments = copy_of_arguments(&self.arguments)?;
        let field_type = self.field_type.clone()?;
        let deprecation_status = self.deprecation_status.clone()?;
        Ok(Field {
            name,
            description,
            arguments,
            field_type,
            deprecation_status,
        })
    }
}

/// The same arguments once more.
fn copy_of_arguments<S: ScalarValue + Drop>(
    arguments: &Option<NamedItems<Argument<S>>>,
) -> Result<Option<NamedItems<Argument<S>>>, AllocError>
    ensures { Gives result arguments.now }
{
    match arguments {
        Some(arguments) => Ok(Some(arguments.clone()?)),
        None => Ok(None),
    }
}

//! The references, fields and arguments of types of the program.

ghost use Rattle.std.specs.Prelude.{Some};
ghost use Rattle.graphql_text.specs.Memory.{Gives};
ghost use Rattle.graphql_registry.specs.Registries.{declared_argument, declared_field};

use super::Registry;
use crate::graphql_type::GraphQLType;
use graphql_names::Type;
use graphql_schema::{Argument, DeprecationStatus, Field};
use graphql_text::Text;
use graphql_values::{FromInputValue, ToInputValue};
use std::alloc::{AllocError, Global};

impl<S, C> Registry<S, C> {
    /// The reference to the type (GraphQL October 2021, 2.11 Type References). The registry need
    /// not hold the type. An error is want of memory.
    pub fn get_type<T: GraphQLType<S>>(&self, alloc: Global) -> Result<Type<Text>, AllocError>
        ensures { Gives result T.type_reference }
    {
        <T as GraphQLType<S>>::as_type(alloc)
    }

    /// The field of this name whose values are those of the type (GraphQL October 2021, 3.6
    /// Objects), without arguments and not deprecated. An error is want of memory.
    pub fn field<T: GraphQLType<S>>(
        &self,
        alloc: Global,
        name: &str,
    ) -> Result<Field<S>, AllocError>
        ensures { Gives result (declared_field name.now T.type_reference) }
    {
        let name = Text::from_str(alloc, name)?;
        let field_type = self.get_type::<T>(alloc)?;
        Ok(Field {
            name,
            description: None,
            arguments: None,
            field_type,
            deprecation_status: DeprecationStatus::Current,
        })
    }

    /// The same as `field` gives. An error is want of memory.
    pub fn field_convert<T: GraphQLType<S>>(
        &self,
        alloc: Global,
        name: &str,
    ) -> Result<Field<S>, AllocError>
        ensures { Gives result (declared_field name.now T.type_reference) }
    {
        self.field::<T>(alloc, name)
    }

    /// The argument of this name whose values are those of the type (GraphQL October 2021, 3.6.1
    /// Field Arguments), without a default. An error is want of memory.
    pub fn arg<T: GraphQLType<S> + FromInputValue<S>>(
        &self,
        alloc: Global,
        name: &str,
    ) -> Result<Argument<S>, AllocError>
        ensures { Gives result (declared_argument name.now T.type_reference) }
    {
        let name = Text::from_str(alloc, name)?;
        Ok(Argument::new(name, self.get_type::<T>(alloc)?))
    }

    /// The argument of this name whose values are those of the type, with this one where none is
    /// given (GraphQL October 2021, 3.6.1 Field Arguments). An error is want of memory.
    pub fn arg_with_default<T: GraphQLType<S> + ToInputValue<S> + FromInputValue<S>>(
        &self,
        alloc: Global,
        name: &str,
        value: &T,
    ) -> Result<Argument<S>, AllocError>
    where
        S: Drop,
        ensures { Gives result (record (declared_argument name.now T.type_reference) {
          default_value = Some (T.input value.now);
        }) }
    {
        let argument = self.arg::<T>(alloc, name)?;
        Ok(argument.default_value(value.to_input_value(alloc)?))
    }
}

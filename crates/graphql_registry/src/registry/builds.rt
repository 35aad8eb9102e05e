//! The metadata of types, from what they are made of.

ghost use Rattle.std.specs.Prelude.{false, None, [], ◌++◌, ◌∷◌};
ghost use Rattle.graphql_text.specs.Memory.{Gives};
ghost use Rattle.graphql_registry.specs.Registries.{declared_field, typename_field};

use super::Registry;
use crate::graphql_type::GraphQLType;
use graphql_names::NamedItems;
use graphql_schema::{
    Argument, EnumMeta, EnumValue, Field, InputObjectMeta, InterfaceMeta, ListMeta, NullableMeta,
    ObjectMeta, ScalarMeta, UnionMeta,
};
use graphql_text::{Items, Text};
use std::alloc::{AllocError, Global};

impl<S, C> Registry<S, C> {
    /// The scalar of this name that accepts what `check` accepts (GraphQL October 2021, 3.5
    /// Scalars). An error is want of memory.
    pub fn build_scalar_type(
        &self,
        alloc: Global,
        name: &str,
        check: C,
    ) -> Result<ScalarMeta<C>, AllocError>
    where
        C: Drop,
        ensures { Gives result (record {
          name = name.now;
          description = None;
          specified_by_url = None;
          check = check;
        }) }
    {
        Ok(ScalarMeta::new(Text::from_str(alloc, name)?, check))
    }

    /// Lists of the type, of `expected_size` items where that is given (GraphQL October 2021, 3.11
    /// List). An error is want of memory.
    pub fn build_list_type<T: GraphQLType<S>>(
        &self,
        alloc: Global,
        expected_size: Option<usize>,
    ) -> Result<ListMeta, AllocError>
        ensures { Gives result
            (record { of_type = T.type_reference; expected_size = expected_size }) }
    {
        Ok(ListMeta::new(self.get_type::<T>(alloc)?, expected_size))
    }

    /// The type with `null` among its values (GraphQL October 2021, 3.12 Non-Null). An error is
    /// want of memory.
    pub fn build_nullable_type<T: GraphQLType<S>>(
        &self,
        alloc: Global,
    ) -> Result<NullableMeta, AllocError>
        ensures { Gives result (record { of_type = T.type_reference }) }
    {
        Ok(NullableMeta::new(self.get_type::<T>(alloc)?))
    }

    /// The object of this name and these fields, with `__typename: String!` behind them (GraphQL
    /// October 2021, 3.6 Objects, 4 Introspection, "Type Name Introspection"). It implements no
    /// interface. An error is want of memory.
    pub fn build_object_type(
        &self,
        alloc: Global,
        name: &str,
        fields: Items<Field<S>>,
    ) -> Result<ObjectMeta<S>, AllocError>
    where
        S: Drop,
        ensures { Gives result (record {
          name = name.now;
          description = None;
          fields = fields ++ typename_field ∷ [];
          interface_names = [];
        }) }
    {
        let fields = self.with_typename(alloc, fields)?;
        Ok(ObjectMeta::new(alloc, Text::from_str(alloc, name)?, fields))
    }

    /// The enum of this name and these values that accepts what `check` accepts (GraphQL October
    /// 2021, 3.9 Enums). An error is want of memory.
    pub fn build_enum_type(
        &self,
        alloc: Global,
        name: &str,
        values: Items<EnumValue>,
        check: C,
    ) -> Result<EnumMeta<C>, AllocError>
    where
        C: Drop,
        ensures { Gives result (record {
          name = name.now;
          description = None;
          values = values;
          check = check;
        }) }
    {
        let values = NamedItems::from_items(values)?;
        Ok(EnumMeta::new(Text::from_str(alloc, name)?, values, check))
    }

    /// The interface of this name and these fields, with `__typename: String!` behind them (GraphQL
    /// October 2021, 3.7 Interfaces, 4 Introspection, "Type Name Introspection"). It implements no
    /// interface. An error is want of memory.
    pub fn build_interface_type(
        &self,
        alloc: Global,
        name: &str,
        fields: Items<Field<S>>,
    ) -> Result<InterfaceMeta<S>, AllocError>
    where
        S: Drop,
        ensures { Gives result (record {
          name = name.now;
          description = None;
          fields = fields ++ typename_field ∷ [];
          interface_names = [];
        }) }
    {
        let fields = self.with_typename(alloc, fields)?;
        Ok(InterfaceMeta::new(alloc, Text::from_str(alloc, name)?, fields))
    }

    /// The union of this name and of the types of these names (GraphQL October 2021, 3.8 Unions).
    /// An error is want of memory.
    pub fn build_union_type(
        &self,
        alloc: Global,
        name: &str,
        of_type_names: Items<Text>,
    ) -> Result<UnionMeta, AllocError>
        ensures { Gives result (record {
          name = name.now;
          description = None;
          of_type_names = of_type_names;
        }) }
    {
        Ok(UnionMeta::new(Text::from_str(alloc, name)?, of_type_names))
    }

    /// The input object of this name and these fields that accepts what `check` accepts (GraphQL
    /// October 2021, 3.10 Input Objects). An error is want of memory.
    pub fn build_input_object_type(
        &self,
        alloc: Global,
        name: &str,
        input_fields: Items<Argument<S>>,
        check: C,
    ) -> Result<InputObjectMeta<S, C>, AllocError>
    where
        S: Drop,
        C: Drop,
        ensures { Gives result (record {
          name = name.now;
          description = None;
          input_fields = input_fields;
          check = check;
          exactly_one = false;
        }) }
    {
        let input_fields = NamedItems::from_items(input_fields)?;
        Ok(InputObjectMeta::new(Text::from_str(alloc, name)?, input_fields, check))
    }

    /// The fields with `__typename: String!` behind them, each found by its name.
    fn with_typename(
        &self,
        alloc: Global,
        mut fields: Items<Field<S>>,
    ) -> Result<NamedItems<Field<S>>, AllocError>
    where
        S: Drop,
        ensures { Gives result (fields ++ typename_field ∷ []) }
    {
        fields.push(self.field::<String>(alloc, "__typename")?)?;
        NamedItems::from_items(fields)
    }
}

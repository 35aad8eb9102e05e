//! The metadata of interfaces.

ghost use Rattle.std.specs.Prelude.{◌≡◌, [], Some, None};
ghost use Rattle.graphql_schema.specs.declared.meta.MetaType.TheVariants as meta;

use super::{Field, MetaType};
use graphql_scalars::ScalarValue;
use graphql_text::{Items, Text};
use graphql_values::NamedItems;
use std::alloc::{AllocError, Global};

/// What a schema says of an interface (GraphQL October 2021, 3.7 Interfaces).
#[derive(Drop)]
pub struct InterfaceMeta<S> {
    /// The name.
    pub name: Text,

    /// What it is for, in words.
    pub description: Option<Text>,

    /// The fields, as they were declared, each found by its name.
    pub fields: NamedItems<Field<S>>,

    /// The names of the interfaces that it implements, in order.
    pub interface_names: Items<Text>,
}

impl<S> InterfaceMeta<S> {
    /// The interface of this name and these fields, which implements no interface. Takes no memory.
    pub fn new(alloc: Global, name: Text, fields: NamedItems<Field<S>>) -> InterfaceMeta<S>
        ensures { result
            ≡ record { name = name; description = None; fields = fields; interface_names = [] } }
    {
        InterfaceMeta {
            name,
            description: None,
            fields,
            interface_names: Items::new(alloc),
        }
    }

    /// The same with this description.
    pub fn description(mut self, description: Text) -> InterfaceMeta<S>
        ensures { result ≡ record self { description = Some description } }
    {
        self.description = Some(description);
        self
    }

    /// The same with these as all the interfaces that it implements, by name.
    pub fn interfaces(mut self, names: Items<Text>) -> InterfaceMeta<S>
        ensures { result ≡ record self { interface_names = names } }
    {
        self.interface_names = names;
        self
    }

    /// It as the metadata of a type.
    pub fn into_meta<C>(self) -> MetaType<S, C>
        ensures { result ≡ meta.Interface self }
    {
        MetaType::Interface(self)
    }
}

impl<S: ScalarValue + Drop> Clone for InterfaceMeta<S> {
    ghost is_clone = { λ interface copy. copy ≡ interface };

    /// The same interface once more. Takes stack for each level that a default value of its fields'
    /// arguments nests. An error is want of memory.
    fn clone(&self) -> Result<InterfaceMeta<S>, AllocError> {
        let name = self.name.clone()?;
        let description = self.description.clone()?;
        let fields = self.fields.clone()?;
        let interface_names = self.interface_names.clone()?;
        Ok(InterfaceMeta {
            name,
            description,
            fields,
            interface_names,
        })
    }
}

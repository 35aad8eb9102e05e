//! Because of what requests can't be executed against a schema.

ghost use Rattle.std.specs.Prelude.{◌≡◌, ◌↔◌, IsNone, IfSome};
ghost use Rattle.std.specs.Option.{option_copied};
ghost use Rattle.graphql_schema.specs.Lookups.{type_named};
ghost use Rattle.graphql_schema.specs.Implementations.{IsExecutable};
ghost use Rattle.graphql_schema.specs.Promises as spec;
ghost use Rattle.graphql_schema.specs.Promises.{IsFirstBroken};
ghost use Rattle.graphql_schema.specs.Schemas.{roots_of};

use super::SchemaType;
use super::executable::lists_all;
use crate::{Field, MetaType};
use graphql_names::Named;
use graphql_text::{Text, TextRef};

/// A promise that a type makes by listing the name of an interface, and does not keep (GraphQL
/// October 2021, 3.6 Objects: Type Validation, IsValidImplementation).
#[derive(Debug, Drop)]
pub struct BrokenPromise<'s> {
    /// The name of the type.
    pub type_name: TextRef<'s>,

    /// The name that it lists among its interfaces.
    pub interface: TextRef<'s>,

    /// The name of the interface's first field that the type lacks in the promised form. `None`
    /// where no field is to blame: no interface has the name, or the type does not list each
    /// interface that this one lists.
    pub field: Option<TextRef<'s>>,
}

impl<S, C> SchemaType<S, C> {
    /// Because of which type, interface and field requests can't be executed against the schema
    /// (see `schema_is_executable`), or `None` where they can. It is the first one: of the first
    /// type, in the order of the names by bytes, that does not keep what it promises, the first
    /// name that it lists and does not keep, and the first field that it lacks.
    pub fn broken_promise(&self) -> Option<BrokenPromise<'_>>
        ensures executable { IsNone result ↔ IsExecutable self.now.types (roots_of self.now) }
        ensures first { IfSome result (IsFirstBroken self.now.types) }
    {
        self.first_broken()
    }

    /// The first promise that is not kept.
    fn first_broken(&self) -> Option<BrokenPromise<'_>>
        ensures { result ≡ spec.first_broken self.now.types }
    {
        let breaking = self.breaking_type()?;
        self.broken_by(breaking)
    }

    /// The first type that does not keep what it promises.
    fn breaking_type(&self) -> Option<&MetaType<S, C>>
        ensures { option_copied result ≡ spec.breaking_type self.now.types }
    {
        self.types
            .as_slice()
            .iter()
            .find(|meta| !self.keeps_interfaces(meta))
    }

    /// The first promise that a type does not keep.
    fn broken_by<'s>(&'s self, meta: &'s MetaType<S, C>) -> Option<BrokenPromise<'s>>
        ensures { result ≡ spec.broken_by self.now.types meta.now }
    {
        let name = self.unkept_name(meta)?.as_str();
        Some(BrokenPromise {
            type_name: TextRef::new(Named::name(meta)),
            interface: TextRef::new(name),
            field: self.lacking(meta, name),
        })
    }

    /// The first name that a type lists and does not keep.
    fn unkept_name<'s>(&self, meta: &'s MetaType<S, C>) -> Option<&'s Text>
        ensures { option_copied result ≡ spec.unkept_name self.now.types meta.now }
    {
        meta.interface_names()
            .iter()
            .find(|name| !self.keeps_named(meta, name.as_str()))
    }

    /// The name of the first field of the interface of this name that a type lacks, where it lists
    /// what that one lists.
    fn lacking(&self, meta: &MetaType<S, C>, name: &str) -> Option<TextRef<'_>>
        ensures { result
            ≡ spec.lacking self.now.types meta.now (type_named self.now.types name.now) }
    {
        match self.types.get(name)? {
            MetaType::Interface(promised)
                if lists_all(meta.interface_names(), promised.interface_names.as_slice()) => {
                self.lacked_field(meta.fields(), promised.fields.as_slice())
                    .map(|field| TextRef::new(field.name.as_str()))
            }
            _ => None,
        }
    }

    /// Of promised fields the first that is not among a type's own in the promised form.
    fn lacked_field<'s>(&self, own: &[Field<S>], promised: &'s [Field<S>]) -> Option<&'s Field<S>>
        ensures { option_copied result ≡ spec.lacked_field self.now.types own.now promised.now }
    {
        promised.iter().find(|field| !self.has_field(own, field))
    }
}

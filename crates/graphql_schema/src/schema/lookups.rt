//! What a schema tells of itself: its types, its roots and its directives by name.

ghost use Rattle.std.specs.Prelude.{◌≡◌, true, Some, IfSome};
ghost use Rattle.std.specs.List.{All};
ghost use Rattle.std.specs.Option.{option_map, option_copied, option_and_then, is_some};
ghost use Rattle.graphql_schema.specs.Lookups.{type_named, is_object};
ghost use Rattle.graphql_names.specs.Names.{named, passes, IsByName};
ghost use Rattle.graphql_schema.specs.Directives.{HaveInputTypes};

use super::SchemaType;
use crate::{DirectiveType, MetaType};
use graphql_text::Text;

impl<S, C> SchemaType<S, C> {
    /// What the schema is for, in words, where it says it (GraphQL October 2021, 3.2 Descriptions).
    pub fn description(&self) -> Option<&str>
        ensures { option_map (λ text. text.now) result ≡ self.now.description }
    {
        match &self.description {
            Some(text) => Some(text.as_str()),
            None => None,
        }
    }

    /// Gives the schema this description, in place of what it had.
    pub fn set_description(&mut self, description: Text)
        ensures described { self.new.description ≡ Some description }
        ensures others { (self.new.types ≡ self.old.types)
            × (self.new.query ≡ self.old.query)
            × (self.new.mutation ≡ self.old.mutation)
            × (self.new.subscription ≡ self.old.subscription)
            × (self.new.directives ≡ self.old.directives) }
    {
        self.description = Some(description);
    }

    /// The metadata of the type of this name (GraphQL October 2021, 3.3 Schema: all types have
    /// different names).
    pub fn concrete_type_by_name(&self, name: &str) -> Option<&MetaType<S, C>>
        ensures { option_copied result ≡ type_named self.now.types name.now }
    {
        self.types.get(name)
    }

    /// The metadata of the query root, an object (GraphQL October 2021, 3.3.1 Root Operation
    /// Types).
    pub fn concrete_query_type(&self) -> &MetaType<S, C>
        ensures query { type_named self.now.types self.now.query ≡ Some result.now }
        ensures object { is_object result.now ≡ true }
    {
        match self.types.get(self.query.as_str()) {
            Some(meta) => meta,
            None => unreachable!(),
        }
    }

    /// The name of the query root (GraphQL October 2021, 3.3.1 Root Operation Types).
    pub fn query_name(&self) -> &str
        ensures { result.now ≡ self.now.query }
    {
        self.query.as_str()
    }

    /// The name of the mutation root, if the schema has one (GraphQL October 2021, 3.3.1 Root
    /// Operation Types).
    pub fn mutation_name(&self) -> Option<&str>
        ensures { option_map (λ name. name.now) result ≡ self.now.mutation }
    {
        match &self.mutation {
            Some(name) => Some(name.as_str()),
            None => None,
        }
    }

    /// The metadata of the mutation root, an object, if the schema has one.
    pub fn concrete_mutation_type(&self) -> Option<&MetaType<S, C>>
        ensures root { option_copied result
            ≡ option_and_then (type_named self.now.types) self.now.mutation }
        ensures object { passes is_object (option_copied result) ≡ is_some self.now.mutation }
    {
        self.root(&self.mutation)
    }

    /// The metadata of the subscription root, an object, if the schema has one.
    pub fn concrete_subscription_type(&self) -> Option<&MetaType<S, C>>
        ensures root { option_copied result
            ≡ option_and_then (type_named self.now.types) self.now.subscription }
        ensures object { passes is_object (option_copied result) ≡ is_some self.now.subscription }
    {
        self.root(&self.subscription)
    }

    /// The metadata of the type that has the name, if one is given.
    fn root<'a>(&'a self, name: &'a Option<Text>) -> Option<&'a MetaType<S, C>>
        ensures { option_copied result ≡ option_and_then (type_named self.now.types) name.now }
    {
        match name {
            Some(name) => self.types.get(name.as_str()),
            None => None,
        }
    }

    /// The directive of this name, without its `@` (GraphQL October 2021, 3.13 Directives). The
    /// types of its arguments are input types of the schema.
    pub fn directive_by_name(&self, name: &str) -> Option<&DirectiveType<S>>
        ensures found { option_copied result
            ≡ named (λ directive. directive.name) self.now.directives name.now }
        ensures input_types { IfSome result
            (λ directive. HaveInputTypes self.now.types directive.now) }
    {
        self.directives.get(name)
    }

    /// The directives, each once, in the order of the bytes of their names. The types of their
    /// arguments are input types of the schema.
    pub fn directive_list(&self) -> &[DirectiveType<S>]
        ensures all { result.now ≡ self.now.directives }
        ensures by_name { IsByName (λ directive. directive.name) result.now }
        ensures input_types { All (HaveInputTypes self.now.types) result.now }
    {
        self.directives.as_slice()
    }
}

//! The validation layer of GraphQL: what a schema says of its types, and whether requests can be
//! executed against it (GraphQL October 2021, 3 Type System).
//!
//! This crate gives the layer one name, and asks all rules of a document in one call:
//!
//! - the metadata of types, fields, arguments and directives, of which a schema is made, those that
//!   are found by their names as [`NamedItems`];
//! - the checks by which scalars, enums and input objects accept or refuse values, and in
//!   [`scalar_checks`] those of the scalars that the standard has built in;
//! - [`SchemaType`], the schema itself, refused with a [`SchemaError`] where its types are at
//!   fault; the references to its types, each a [`TypeType`]; and [`RootNode`], what requests are
//!   executed over;
//! - [`validation_errors`], what all [`rules`] have against a document: none exactly where it is
//!   valid; [`request_errors`], the same of a request, where introspection may be disabled, and
//!   [`root_node_errors`], as a root node has it;
//!   and [`visit_all_rules`], the same over a context;
//! - [`first_stage_errors`] and [`visit_first_stage`], what all rules but the one that fields merge
//!   have against a document;
//! - [`Walk`], a walk over a document, which tells each [`Event`] with the types around it;
//! - [`visit`], which takes a [`Visitor`], or a list of them, over a document, and the
//!   [`ValidatorContext`], which keeps what they report;
//! - [`validate_literal_value`], which tells why a literal does not conform to a type;
//! - [`validate_input_values`], which tells which values of a request's variables an operation does
//!   not accept, and [`FinalVariables`], the values that they have in the end;
//! - [`RuleError`], what a rule has against a document;
//! - in [`laws`], what is proved of schemas, of visitors and of documents without a fault.
#![tactic(auto)]

mod all_rules;
mod first_stage;
mod introspection;
pub mod laws;
mod one_walk;
pub mod rules;

pub use all_rules::{request_errors, root_node_errors, validation_errors, visit_all_rules};
pub use first_stage::{first_stage_errors, visit_first_stage, visit_introspection_rule};
pub use graphql_document_walk::{Walk, visit};
pub use graphql_literal_checks::{Source, validate_literal_value, validate_value};
pub use graphql_names::NamedItems;
pub use graphql_occurrences::{
    Around, DeclaredArguments, Event, InputPlace, KnownField, Node, Owner, Seen, TypeLiteral,
};
pub use graphql_rule_errors::RuleError;
pub use graphql_schema::{
    Argument, Check, DeprecationStatus, DirectiveLocation, DirectiveType, EnumMeta, EnumValue,
    Field, InputObjectMeta, InterfaceMeta, ListMeta, MetaType, NullableMeta, ObjectMeta,
    PlaceholderMeta, RootNode, ScalarMeta, SchemaError, SchemaScalar, SchemaType, TypeCheck,
    TypeKind, TypeType, UnionMeta, scalar_checks,
};
pub use graphql_variable_checks::validate_input_values;
pub use graphql_visitors::{
    Local, LocalRule, MultiVisitorCons, MultiVisitorNil, Relational, RelationalRule,
    ValidatorContext, Visitor,
};
pub use graphql_written_out::FinalVariables;

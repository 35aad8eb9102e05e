//! Where in a file of a schema a fault stands.

use graphql_text::Text;

/// A field, or an argument of it.
#[derive(Debug, Drop)]
pub struct FieldPlace {
    /// The field's name.
    pub name: Text,

    /// The argument's name, where the fault is not the field's own.
    pub argument: Option<Text>,
}

/// Where in a file of a schema a fault stands.
#[derive(Debug, Drop)]
pub struct DeclarationPlace {
    /// The name of the type.
    pub type_name: Text,

    /// The field, where the fault is not the type's own.
    pub field: Option<FieldPlace>,
}

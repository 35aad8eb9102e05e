//! What a table knows of a schema's types.

use graphql_names::{Named, NamedItems};
use graphql_text::{Items, Text};

/// What a table knows of a field of an object or an interface.
#[derive(Drop)]
pub struct TableField {
    /// Its name.
    pub name: Text,

    /// The name of its type, within every wrap.
    pub of_type: Text,

    /// Whether that is no object, interface or union, so that texts are no links.
    pub is_leaf: bool,

    /// Whether its type is a scalar, non-null aside, so that a mutation may set it.
    pub is_settable: bool,
}

/// What a table knows of a type.
#[derive(Drop)]
pub struct TableType {
    /// Its name.
    pub name: Text,

    /// The fields of an object or an interface; of another type none.
    pub fields: NamedItems<TableField>,

    /// The names of the object types of which an object can stand at a place of it (GraphQL October
    /// 2021, 5.5.2.3 Fragment Spread Is Possible).
    pub possible: Items<Text>,
}

impl Named for TableField {
    ghost name_of = { λ field. field.name };

    fn name(&self) -> &str {
        self.name.as_str()
    }
}

impl Named for TableType {
    ghost name_of = { λ of_type. of_type.name };

    fn name(&self) -> &str {
        self.name.as_str()
    }
}

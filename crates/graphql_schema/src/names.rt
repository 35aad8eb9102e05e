//! The names by which types, their parts and directives are found.

ghost use Rattle.graphql_schema.specs.Types.{own_name};

use crate::directive::DirectiveType;
use crate::meta::{Argument, EnumValue, Field, MetaType};
use graphql_values::Named;

/// Metadata without a name, as those of a list, have the empty one.
impl<S, C> Named for MetaType<S, C> {
    ghost name_of = { own_name };

    fn name(&self) -> &str {
        match MetaType::name(self) {
            Some(name) => name,
            None => "",
        }
    }
}

impl<S> Named for Field<S> {
    ghost name_of = { λ field. field.name };

    fn name(&self) -> &str {
        self.name.as_str()
    }
}

impl<S> Named for Argument<S> {
    ghost name_of = { λ argument. argument.name };

    fn name(&self) -> &str {
        self.name.as_str()
    }
}

impl Named for EnumValue {
    ghost name_of = { λ value. value.name };

    fn name(&self) -> &str {
        self.name.as_str()
    }
}

impl<S> Named for DirectiveType<S> {
    ghost name_of = { λ directive. directive.name };

    fn name(&self) -> &str {
        self.name.as_str()
    }
}

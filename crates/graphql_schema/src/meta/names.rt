//! The names of introspection, and of the types that need no declaration.

ghost use Rattle.std.specs.Prelude.{◌≡◌};
ghost use Rattle.graphql_schema.specs.Names as spec;

/// Whether a name begins with two underscores.
pub fn is_reserved(name: &str) -> bool
    ensures { result ≡ spec.is_reserved name.now }
{
    name.starts_with("__")
}

/// Whether a type of this name needs no declaration.
pub fn is_builtin_type(name: &str) -> bool
    ensures { result ≡ spec.is_builtin_type name.now }
{
    is_reserved(name)
        | (name == "Int")
        | (name == "Float")
        | (name == "String")
        | (name == "Boolean")
        | (name == "ID")
        | (name == "_EmptyMutation")
        | (name == "_EmptySubscription")
}

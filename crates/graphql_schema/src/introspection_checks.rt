//! Which values the enums of introspection accept (GraphQL October 2021, 4.2 Schema Introspection).

/// The checks of the two enums of introspection. Each is asked of values that the enum declares
/// (GraphQL October 2021, 3.9 Enums: input coercion).
#[derive(Drop)]
pub struct IntrospectionChecks<C> {
    /// Which values `__TypeKind` accepts.
    pub type_kind: C,

    /// Which values `__DirectiveLocation` accepts.
    pub directive_location: C,
}

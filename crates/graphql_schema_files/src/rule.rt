//! What is asked of each declaration by itself.

/// What is asked of each declaration by itself.
#[derive(Clone, Copy)]
pub(crate) enum Rule {
    /// The names of types, fields and arguments are names (GraphQL October 2021, 2.1.9 Names).
    Names,

    /// The types of fields and arguments are type references (2.11 Type References).
    Types,

    /// Defaults are constant literals (2.9 Input Values).
    Defaults,
}

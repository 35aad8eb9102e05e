//! Where values come from.

/// Where a value comes from (GraphQL October 2021, 3.9 Enums: input coercion).
#[derive(Clone, Copy, Debug, PartialEq, Eq)]
pub enum Source {
    /// A document, as a literal: a text is no enum value.
    Literal,

    /// A request, as a variable's value: a text stands for the enum value of that name, since JSON
    /// has no enum values.
    Sent,
}

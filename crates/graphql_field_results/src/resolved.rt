//! What a resolver answers for a field.

use graphql_text::Items;

/// What a resolver gives for a field (GraphQL October 2021, 6.4.2 Value Resolution): a scalar, a
/// node of which fields can be asked, or lists of these. Which of them fits is decided by the type
/// that the schema declares for the field. It is let go by recursion, so it takes stack for each
/// level that lists nest in it; how deep they nest is the resolver's, and no request decides it.
#[derive(Drop)]
pub enum Resolved<S, N> {
    /// `null`
    Null,

    /// The value of a leaf.
    Scalar(S),

    /// A list, in order.
    List(Items<Resolved<S, N>>),

    /// What further fields are asked of.
    Node(N),
}

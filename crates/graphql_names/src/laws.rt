//! Laws of the definitions: each function's contract is a law, and its body does nothing.

ghost use Rattle.graphql_names.specs.Laws.{NamesAreTokens};

/// A text is a name exactly where its tokens are that name and the end.
pub fn names_are_tokens()
    ensures { NamesAreTokens }
{}

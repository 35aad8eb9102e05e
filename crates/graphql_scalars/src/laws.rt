//! Laws of the definitions: each function's contract is a law, and its body does nothing.

ghost use Rattle.graphql_scalars.specs.Laws.{FirstBadEscapeIsTold, IsReadBack};
ghost use Rattle.graphql_scalars.specs.Laws.{StringsMeanTheirPieces};

/// A string token that the lexical grammar spells is read, as the characters that its pieces stand
/// for: none of the lexer's is refused.
pub fn strings_mean_their_pieces()
    ensures { StringsMeanTheirPieces }
{}

/// A string token is refused exactly where an escape in it is bad, and the refusal tells the first
/// bad one from the left: what stands before it is read.
pub fn first_bad_escape_is_told()
    ensures { FirstBadEscapeIsTold }
{}

/// The text of an integer is read as that integer.
pub fn integers_read_back(_integer: i32)
    ensures { IsReadBack _integer }
{}

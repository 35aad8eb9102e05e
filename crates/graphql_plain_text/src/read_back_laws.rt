//! Laws of the definitions: each function's contract is a law, and its body does nothing.

ghost use Rattle.graphql_plain_text.specs.ReadBackLaws.{
  PartsAreTokens,
  ClosedTokensEnd,
  ShownSpells,
  ShownIsFound,
  ShownIsReadBack,
  SameWithoutPlaces,
  WrittenSpells,
  WrittenIsFound,
  WrittenIsReadBack,
};

/// The tokens of a text that is written in parts, each of blanks and the characters of a token, are
/// those of its parts (GraphQL October 2021, 2.1.6 Lexical Tokens).
pub fn parts_are_tokens()
    ensures { PartsAreTokens }
{}

/// A token ends where no letter, digit, underscore or point follows.
pub fn closed_tokens_end()
    ensures { ClosedTokensEnd }
{}

/// The tokens of what an input value is shown as spell that value, places aside, and no other,
/// where its names are names, its enums none of `true`, `false` and `null`, its integers have 32
/// bits, and no quote, backslash or control but a tab is in its texts (GraphQL October 2021, 2.9
/// Input Values).
pub fn shown_spells()
    ensures { ShownSpells }
{}

/// Whatever is found at the start of what such a value is shown as is that value, places aside,
/// with nothing left behind it but the end.
pub fn shown_is_found()
    ensures { ShownIsFound }
{}

/// What `parse_value_literal` ensures at the start of what such a value is shown as: it gives that
/// value, places aside, and leaves nothing but the end. Its only error is want of memory.
pub fn shown_is_read_back()
    ensures { ShownIsReadBack }
{}

/// Values that are alike once their places are left out are the same, as `unlocated_eq` compares
/// them.
pub fn same_without_places<S: Eq>()
    ensures { SameWithoutPlaces S.eq }
{}

/// The tokens of what a type is displayed as spell that type, and no other, where its name is a
/// name, no `!` stands behind another one, and no length of a list is expected (GraphQL October
/// 2021, 2.11 Type References).
pub fn written_spells()
    ensures { WrittenSpells }
{}

/// The longest type that is found at the start of what such a type is displayed as is that type,
/// with nothing left behind it but the end.
pub fn written_is_found()
    ensures { WrittenIsFound }
{}

/// What `parse_type` ensures at the start of what such a type is displayed as: it gives that type
/// and leaves nothing but the end. Its only error is want of memory.
pub fn written_is_read_back()
    ensures { WrittenIsReadBack }
{}

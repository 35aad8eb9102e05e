//! Laws of the definitions: each function's contract is a law, and its body does nothing.

ghost use Rattle.graphql_lexer.specs.Laws.{ReadingIsDivision, ReadingIsBreak, OneList, NotBoth};
ghost use Rattle.graphql_lexer.specs.Laws.{OneFault, EitherWay, FewTokens, SpansInOrder};
ghost use Rattle.graphql_lexer.specs.Laws.{PlacesArePositions, FaultIsPosition, SlicesSpell};
ghost use Rattle.graphql_lexer.specs.Laws.{SourcesAreSlices, TokensAreWide, TokensInALine};
ghost use Rattle.graphql_lexer.specs.Laws.{DifferInPlaces, SameOneByOne, NothingMore};

/// What is read of a text, character by character, are the tokens into which the lexical grammar
/// divides it, and no other list is.
pub fn reading_is_division()
    ensures { ReadingIsDivision }
{}

/// The fault at which reading stops is the one at which the grammar's division of the text ends,
/// and no other is.
pub fn reading_is_break()
    ensures { ReadingIsBreak }
{}

/// The grammar divides a text into one list of tokens at most.
pub fn one_list()
    ensures { OneList }
{}

/// A text that the grammar divides into tokens has no fault.
pub fn not_both()
    ensures { NotBoth }
{}

/// A text has one fault at most.
pub fn one_fault()
    ensures { OneFault }
{}

/// Each text is divided into tokens or has a fault.
pub fn either_way()
    ensures { EitherWay }
{}

/// A text of n characters has at most n + 1 tokens.
pub fn few_tokens()
    ensures { FewTokens }
{}

/// Spans come in order and do not overlap, and each but that of the text's end is wider than
/// nothing.
pub fn spans_in_order()
    ensures { SpansInOrder }
{}

/// Each place of a token is the position of its index in the whole text.
pub fn places_are_positions()
    ensures { PlacesArePositions }
{}

/// The place of a fault is the position of its index in the whole text.
pub fn fault_is_position()
    ensures { FaultIsPosition }
{}

/// Each token is spelled by the characters between its places.
pub fn slices_spell()
    ensures { SlicesSpell }
{}

/// The source text of a token, a punctuator's too, is the slice of the text between its places.
pub fn sources_are_slices()
    ensures { SourcesAreSlices }
{}

/// A token is at least one character wide, but for the end of the text.
pub fn tokens_are_wide()
    ensures { TokensAreWide }
{}

/// A token ends in the line where it starts.
pub fn tokens_in_a_line()
    ensures { TokensInALine }
{}

/// Two texts with the same kinds and texts of tokens differ in places alone.
pub fn differ_in_places()
    ensures { DifferInPlaces }
{}

/// A lexer that is asked until it has done gives, one by one, the tokens of the text, or some
/// of them and its first fault, want of memory aside.
pub fn same_one_by_one()
    ensures { SameOneByOne }
{}

/// A lexer that has done gives nothing more.
pub fn nothing_more()
    ensures { NothingMore }
{}

//! Texts of the same tokens.

ghost use Rattle.std.specs.Prelude.{◌≡◌, ◌↔◌, IfOk, IsTrue};
ghost use Rattle.std.specs.Str.{chars};
ghost use Rattle.graphql_grammar.specs.Alike.{SameTokens};
ghost use Rattle.graphql_language.specs.Alike.{AreAlike};
ghost use Rattle.graphql_stores_tests.specs.Stored.{AreAllowedAlike};

use graphql_executor::Meaning;
use graphql_lexer::laws::one_list;
use graphql_lexer::lex_all;
use graphql_schema::RootNode;
use graphql_stores::laws::same_tokens_are_allowed_alike;
use graphql_text::{LexerError, Spanning, Token};
use graphql_values::DefaultScalarValue;
use std::alloc::Global;

/// Whether two tokens are the same, wherever they stand.
fn have_one_item(one: &Spanning<Token<'_>>, other: &Spanning<Token<'_>>) -> bool
    ensures { IsTrue result ↔ (one.now.item ≡ other.now.item) }
{
    one.item == other.item
}

/// Whether tokens are the same one by one, wherever they stand.
fn have_same_items(tokens: &[Spanning<Token<'_>>], others: &[Spanning<Token<'_>>]) -> bool
    ensures { IsTrue result ↔ SameTokens tokens.now others.now }
{
    if tokens.len() != others.len() {
        return false;
    }
    for (place, token) in tokens.iter().enumerate() {
        if !have_one_item(token, &others[place]) {
            return false;
        }
    }
    true
}

/// Whether two texts have the same tokens, whatever their blanks, commas and comments. An error is
/// that of the first text that is none of tokens, or want of memory.
pub fn have_same_tokens(alloc: Global, one: &str, other: &str) -> Result<bool, Spanning<LexerError>>
    ensures { IfOk result (λ same. IsTrue same ↔ AreAlike (chars one.now) (chars other.now)) }
{
    one_list();
    let tokens = lex_all(alloc, one)?;
    let others = lex_all(alloc, other)?;
    Ok(have_same_items(tokens.as_slice(), others.as_slice()))
}

/// Whether two texts have the same tokens. Where they have, a store allows requests of them alike,
/// whatever it holds: with one operation name and the same values for variables, both or neither.
/// An error is as [`have_same_tokens`] has it.
pub fn are_allowed_alike(
    alloc: Global,
    root_node: &RootNode<DefaultScalarValue>,
    one: &str,
    other: &str,
) -> Result<bool, Spanning<LexerError>>
    ensures { IfOk result (λ same. IsTrue same
        → AreAllowedAlike ⟦<DefaultScalarValue as Meaning>⟧.meaning root_node.now one.now
        other.now) }
{
    same_tokens_are_allowed_alike(root_node);
    have_same_tokens(alloc, one, other)
}

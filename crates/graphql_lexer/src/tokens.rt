//! One token of a text, and what stands before it.

ghost use Rattle.std.specs.Prelude.{◌≡◌};
ghost use Rattle.std.specs.Str.{chars};
ghost use Rattle.graphql_text.specs.Reading.{place_of, IsTail, IsMemory};
ghost use Rattle.graphql_text.specs.Memory.{MeetsBy};
ghost use Rattle.graphql_text.specs.Tokens.{name_from, punctuator_of, point, ellipsis, token};
ghost use Rattle.graphql_text.specs.Tokens.{ahead, cut, is_end};

use crate::number::number;
use crate::scan::{between, is_in, past};
use crate::string_token::string;
use graphql_text::{Class, Cursor, LexerError, SourcePosition, Spanning, Token};
use std::alloc::Global;

/// The name that begins at `cursor`, with its first character before `next`.
#[tactic(auto, unfolding(graphql_text::specs::Tokens::name_from))]
fn name<'a>(cursor: Cursor<'a>, next: Cursor<'a>) -> (Token<'a>, Cursor<'a>)
    requires { IsTail (chars cursor.rest.now) (chars next.rest.now) }
    ensures { (result.0, place_of result.1)
        ≡ name_from (place_of cursor.entry) (place_of next.entry) }
{
    let end = past(Class::NameContinue, next);
    (Token::Name(between(cursor.rest, end.rest)), end)
}

/// The punctuator of one character.
fn punctuator<'a>(c: char) -> Option<Token<'a>>
    ensures { result ≡ punctuator_of c }
{
    match c {
        '!' => Some(Token::ExclamationMark),
        '$' => Some(Token::Dollar),
        '(' => Some(Token::ParenOpen),
        ')' => Some(Token::ParenClose),
        '[' => Some(Token::BracketOpen),
        ']' => Some(Token::BracketClose),
        '{' => Some(Token::CurlyOpen),
        '}' => Some(Token::CurlyClose),
        ':' => Some(Token::Colon),
        '=' => Some(Token::Equals),
        '@' => Some(Token::At),
        '|' => Some(Token::Pipe),
        _ => None,
    }
}

/// The place behind a point, of three that begin at `first`.
#[tactic(auto, unfolding(graphql_text::specs::Tokens::point))]
fn point<'a>(first: SourcePosition, cursor: Cursor<'a>) -> Result<Cursor<'a>, Spanning<LexerError>>
    ensures { MeetsBy place_of IsMemory result (point first (place_of cursor.entry)) }
{
    match cursor.next() {
        None => Err(Spanning::zero_width(cursor.at, LexerError::UnexpectedEndOfFile)),
        Some(('.', next)) => Ok(next),
        Some(_) => Err(Spanning::zero_width(first, LexerError::UnexpectedCharacter('.'))),
    }
}

/// The three points that begin here.
#[tactic(auto, unfolding(graphql_text::specs::Tokens::ellipsis))]
fn ellipsis<'a>(cursor: Cursor<'a>) -> Result<(Token<'a>, Cursor<'a>), Spanning<LexerError>>
    ensures { MeetsBy (λ r. (r.0, place_of r.1)) IsMemory result
        (ellipsis (place_of cursor.entry)) }
{
    let second = point(cursor.at, cursor)?;
    let third = point(cursor.at, second)?;
    let end = point(cursor.at, third)?;
    Ok((Token::Ellipsis, end))
}

/// The token that begins here.
#[tactic(auto, unfolding(graphql_text::specs::Tokens::token))]
pub(crate) fn token<'a>(
    alloc: Global,
    cursor: Cursor<'a>,
) -> Result<(Token<'a>, Cursor<'a>), Spanning<LexerError>>
    ensures { MeetsBy (λ r. (r.0, place_of r.1)) IsMemory result (token (place_of cursor.entry)) }
{
    let Some((c, next)) = cursor.next() else {
        return Ok((Token::EndOfFile, cursor));
    };
    if is_in(Class::NameStart, c) {
        return Ok(name(cursor, next));
    }
    if c.is_ascii_digit() || c == '-' {
        return number(cursor);
    }
    if c == '.' {
        return ellipsis(cursor);
    }
    if c == '"' {
        return string(alloc, next);
    }
    match punctuator(c) {
        Some(token) => Ok((token, next)),
        None => Err(Spanning::zero_width(cursor.at, LexerError::UnknownCharacter(c))),
    }
}

/// The place behind what is ignored: white space, line ends, commas, comments (2.1.7).
#[tactic(auto, unfolding(graphql_text::specs::Tokens::ahead))]
pub(crate) fn ahead<'a>(cursor: Cursor<'a>) -> Cursor<'a>
    ensures { place_of result ≡ ahead (place_of cursor.entry) }
{
    let mut end = cursor;
    let mut is_comment = false;
    while let Some((c, next)) = end.next() {
        is_comment = (is_comment && is_in(Class::Comment, c)) || c == '#';
        if !is_comment && !is_in(Class::Ignored, c) {
            return end;
        }
        end = next;
    }
    end
}

/// The next token, with its part of the text, and the place behind it.
#[tactic(auto, unfolding(graphql_text::specs::Tokens::cut))]
pub(crate) fn cut<'a>(
    alloc: Global,
    cursor: Cursor<'a>,
) -> Result<(Spanning<Token<'a>>, Cursor<'a>), Spanning<LexerError>>
    ensures { MeetsBy (λ r. (r.0, place_of r.1)) IsMemory result (cut (place_of cursor.entry)) }
{
    let start = ahead(cursor);
    let (item, end) = token(alloc, start)?;
    Ok((Spanning::start_end(start.at, end.at, item), end))
}

/// Whether a token is the end of the text.
pub(crate) fn is_end(token: &Token) -> bool
    ensures { result ≡ is_end token.now }
{
    matches!(token, Token::EndOfFile)
}

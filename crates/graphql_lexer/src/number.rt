//! Numbers.

ghost use Rattle.graphql_text.specs.Reading.{place_of, IsMemory};
ghost use Rattle.graphql_text.specs.Memory.{MeetsBy};
ghost use Rattle.graphql_text.specs.Numbers.{digits, no_digit, whole, fraction, exponent, number};

use crate::scan::{begins, between, is_in, past, past_one};
use graphql_text::{Class, Cursor, LexerError, ScalarToken, Spanning, Token};

/// The place behind one digit or more.
#[tactic(auto, unfolding(graphql_text::specs::Numbers::digits))]
fn digits<'a>(cursor: Cursor<'a>) -> Result<Cursor<'a>, Spanning<LexerError>>
    ensures { MeetsBy place_of IsMemory result (digits (place_of cursor.entry)) }
{
    match cursor.next() {
        None => Err(Spanning::zero_width(cursor.at, LexerError::UnexpectedEndOfFile)),
        Some((c, next)) => {
            if is_in(Class::Digit, c) {
                Ok(past(Class::Digit, next))
            } else {
                Err(Spanning::zero_width(cursor.at, LexerError::UnexpectedCharacter(c)))
            }
        }
    }
}

/// This place, if no digit comes next.
#[tactic(auto, unfolding(graphql_text::specs::Numbers::no_digit))]
fn no_digit<'a>(cursor: Cursor<'a>) -> Result<Cursor<'a>, Spanning<LexerError>>
    ensures { MeetsBy place_of IsMemory result (no_digit (place_of cursor.entry)) }
{
    match cursor.next() {
        Some((c, _)) if is_in(Class::Digit, c) => Err(Spanning::zero_width(
            cursor.at,
            LexerError::UnexpectedCharacter(c),
        )),
        _ => Ok(cursor),
    }
}

/// The place behind a 0, or behind digits that begin with another one.
#[tactic(auto, unfolding(graphql_text::specs::Numbers::whole))]
fn whole<'a>(cursor: Cursor<'a>) -> Result<Cursor<'a>, Spanning<LexerError>>
    ensures { MeetsBy place_of IsMemory result (whole (place_of cursor.entry)) }
{
    match cursor.next() {
        None => Err(Spanning::zero_width(cursor.at, LexerError::UnexpectedEndOfFile)),
        Some((c, next)) => {
            if c == '0' {
                no_digit(next)
            } else {
                digits(cursor)
            }
        }
    }
}

/// The place behind a point and its digits, if a point comes next.
#[tactic(auto, unfolding(graphql_text::specs::Numbers::fraction))]
fn fraction<'a>(cursor: Cursor<'a>) -> Result<Cursor<'a>, Spanning<LexerError>>
    ensures { MeetsBy place_of IsMemory result (fraction (place_of cursor.entry)) }
{
    if begins(Class::Point, cursor) {
        digits(past_one(Class::Point, cursor))
    } else {
        Ok(cursor)
    }
}

/// The place behind an exponent, if one begins here.
#[tactic(auto, unfolding(graphql_text::specs::Numbers::exponent))]
fn exponent<'a>(cursor: Cursor<'a>) -> Result<Cursor<'a>, Spanning<LexerError>>
    ensures { MeetsBy place_of IsMemory result (exponent (place_of cursor.entry)) }
{
    if begins(Class::Exponent, cursor) {
        digits(past_one(Class::Sign, past_one(Class::Exponent, cursor)))
    } else {
        Ok(cursor)
    }
}

/// The number that begins here, the longest that does.
#[tactic(auto, unfolding(graphql_text::specs::Numbers::number))]
pub(crate) fn number<'a>(
    cursor: Cursor<'a>,
) -> Result<(Token<'a>, Cursor<'a>), Spanning<LexerError>>
    ensures { MeetsBy (λ r. (r.0, place_of r.1)) IsMemory result (number (place_of cursor.entry)) }
{
    let whole = whole(past_one(Class::Minus, cursor))?;
    let end = exponent(fraction(whole)?)?;
    let text = between(cursor.rest, end.rest);
    let is_float = begins(Class::Point, whole) || begins(Class::Exponent, whole);
    let token = if is_float {
        ScalarToken::Float(text)
    } else {
        ScalarToken::Int(text)
    };
    Ok((Token::Scalar(token), end))
}

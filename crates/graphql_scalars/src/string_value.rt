//! What strings stand for.

ghost use Rattle.std.specs.Prelude.{◌≡◌, ◌<◌, ◌∷◌, [], length, drop, encode_utf8_all, Some, None};
ghost use Rattle.std.specs.Prelude.{MatchOption, IfSome, IfOk};
ghost use Rattle.std.specs.Str.{chars};
ghost use Rattle.graphql_text.specs.Memory.{Gives, Meets, MeetsBy, UnlessMemory};
ghost use Rattle.graphql_scalars.specs.Reading.{IsMemory};
ghost use Rattle.graphql_scalars.specs.StringValue as spec;

use graphql_text::{LexerError, ParseError, Text, first_character};
use std::alloc::{AllocError, Global};

/// The character that a backslash and this one stand for, the code's `u` aside.
fn escaped_character(c: char) -> Option<char>
    ensures { result ≡ spec.escaped_character c }
{
    match c {
        '"' | '/' | '\\' => Some(c),
        'b' => Some('\u{8}'),
        'f' => Some('\u{C}'),
        'n' => Some('\n'),
        'r' => Some('\r'),
        't' => Some('\t'),
        _ => None,
    }
}

/// The number that a hexadecimal digit writes.
#[tactic(auto, unfolding(crate::specs::StringValue::hex_digit))]
fn hex_digit(c: char) -> Option<u32>
    ensures value { result ≡ spec.hex_digit c }
    ensures bound { IfSome result (λ n. n < 16) }
{
    if c.is_ascii_hexdigit() {
        c.to_digit(16)
    } else {
        None
    }
}

/// The character of a code, unless the code is half of a pair.
#[tactic(auto, unfolding(crate::specs::StringValue::character))]
fn character(code: u32) -> Option<char>
    ensures { result ≡ spec.character code }
{
    char::from_u32(code)
}

/// The character of four hexadecimal digits; none where one is no such digit, or they write half of
/// a pair.
fn code_character(a: char, b: char, c: char, d: char) -> Option<char>
    ensures { result ≡ spec.code_character a b c d }
{
    let Some(w) = hex_digit(a) else { return None };
    let Some(x) = hex_digit(b) else { return None };
    let Some(y) = hex_digit(c) else { return None };
    let Some(z) = hex_digit(d) else { return None };
    character(4096 * w + 256 * x + 16 * y + z)
}

/// A backslash, `u` and the letters and digits, at most four, that come next.
fn code_letters(alloc: Global, text: &str) -> Result<Text, AllocError>
    ensures { Gives result (92 ∷ 117 ∷ encode_utf8_all (spec.letters 4 (chars text.now))) }
{
    let mut escape = Text::from_str(alloc, "\\u")?;
    let mut rest = text;
    'letters: for _letter in 0..4u8 {
        let Some((letter, behind)) = first_character(rest) else {
            return Ok(escape);
        };
        if !letter.is_ascii_alphanumeric() {
            return Ok(escape);
        }
        escape.push(letter)?;
        rest = behind;
    }
    Ok(escape)
}

/// The refusal of the code that stands behind a backslash and `u` at the head of a text.
fn unknown_code(alloc: Global, text: &str) -> ParseError
    ensures { UnlessMemory IsMemory result
        (result ≡ spec.unknown_escape (117 ∷ spec.letters 4 (chars text.now))) }
{
    match code_letters(alloc, text) {
        Ok(escape) => ParseError::LexerError(LexerError::UnknownEscapeSequence(escape)),
        Err(_) => ParseError::Memory,
    }
}

/// The refusal of a backslash before this character.
fn unknown_character(alloc: Global, character: char) -> ParseError
    ensures { UnlessMemory IsMemory result (result ≡ spec.unknown_escape (character ∷ [])) }
{
    let mut escape = Text::new(alloc);
    match escape.push('\\') {
        Ok(()) => {}
        Err(_) => return ParseError::Memory,
    }
    match escape.push(character) {
        Ok(()) => ParseError::LexerError(LexerError::UnknownEscapeSequence(escape)),
        Err(_) => ParseError::Memory,
    }
}

/// The character of four hexadecimal digits at the head of a text, and what follows them; none
/// where they are missing or write half of a pair.
fn code_at(text: &str) -> Option<(char, &str)>
    ensures code { MatchOption result (spec.code_at (chars text.now) ≡ None) (λ p.
        (spec.code_at (chars text.now) ≡ Some p.0) × (chars p.1.now ≡ drop 4 (chars text.now))) }
    ensures shorter { IfSome result (λ p. length p.1.now < length text.now) }
{
    let (a, text) = first_character(text)?;
    let (b, text) = first_character(text)?;
    let (c, text) = first_character(text)?;
    let (d, text) = first_character(text)?;
    let character = code_character(a, b, c, d)?;
    Some((character, text))
}

/// The character of the escape whose backslash stands before a text, and what follows the escape.
#[tactic(auto, unfolding(crate::specs::StringValue::escape, crate::specs::StringValue::escape_and_rest))]
fn escape<'a>(alloc: Global, text: &'a str) -> Result<(char, &'a str), ParseError>
    ensures escape { MeetsBy (λ p. (p.0, chars p.1.now)) IsMemory result
        (spec.escape_and_rest (chars text.now)) }
    ensures shorter { IfOk result (λ p. length p.1.now < length text.now) }
{
    let Some((first, rest)) = first_character(text) else {
        return Err(ParseError::LexerError(LexerError::UnterminatedString));
    };
    if first == 'u' {
        match code_at(rest) {
            Some(found) => Ok(found),
            None => Err(unknown_code(alloc, rest)),
        }
    } else {
        match escaped_character(first) {
            Some(character) => Ok((character, rest)),
            None => Err(unknown_character(alloc, first)),
        }
    }
}

/// The text that the source text of a string, without its quotes, stands for (GraphQL October 2021,
/// 2.9.4 String Value). An error is a bad escape, or want of memory.
#[tactic(auto, unfolding(crate::specs::StringValue::string_value))]
pub(crate) fn string_value(alloc: Global, text: &str) -> Result<Text, ParseError>
    ensures { Meets IsMemory result (spec.string_value text.now) }
{
    let mut value = Text::new(alloc);
    let mut rest = text;
    'characters: while let Some((character, behind)) = first_character(rest) {
        if character == '\\' {
            match escape(alloc, behind) {
                Ok((meant, past)) => {
                    value.push(meant)?;
                    rest = past;
                }
                Err(refusal) => return Err(refusal),
            }
        } else {
            value.push(character)?;
            rest = behind;
        }
    }
    Ok(value)
}

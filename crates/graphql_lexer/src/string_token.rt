//! Strings.

ghost use Rattle.std.specs.Prelude.{◌≡◌, ◌∷◌, ◌<◌, IfOk, option_map};
ghost use Rattle.std.specs.Str.{chars};
ghost use Rattle.graphql_text.specs.Reading.{place_of, between, IsTail, IsMemory};
ghost use Rattle.graphql_text.specs.Memory.{UnlessMemory, MeetsBy};
ghost use Rattle.graphql_text.specs.Strings.{is_escape, is_code, bad_escape, turn_plain};
ghost use Rattle.graphql_text.specs.Strings.{turn_escape, turn_code, turn, string_from, plain};
ghost use Rattle.graphql_text.specs.Strings.{string};
ghost use Rattle.graphql_lexer.specs.Modes.{mode_of, IsModeAt};

use crate::scan::{between, past_one};
use graphql_text::{
    Class, Cursor, LexerError, ScalarToken, SourcePosition, Spanning, Text, TextRef, Token,
};
use std::alloc::{AllocError, Global};

/// Where a string goes on: in no escape, behind an escape's backslash, or behind some of the
/// digits of a code, with the place behind its backslash.
#[derive(Clone, Copy, Debug)]
enum Mode<'a> {
    Plain,
    Escape,
    Code(Cursor<'a>, u8),
}

/// Whether a backslash before this character makes an escape, a code's `u` aside.
fn is_escape(c: char) -> bool
    ensures { result ≡ is_escape c }
{
    c == '"' || c == '/' || c == '\\' || c == 'n' || c == 'r' || c == 't' || c == 'f' || c == 'b'
}

/// Whether four hexadecimal digits that give a character stand behind the next one.
#[tactic(auto, unfolding(graphql_text::specs::Strings::is_code))]
fn is_code(text: Cursor) -> bool
    ensures { result ≡ is_code (chars text.entry.rest.now) }
{
    let Some((_, text)) = text.next() else {
        return false
    };
    let Some((a, text)) = text.next() else {
        return false
    };
    let Some((b, text)) = text.next() else {
        return false
    };
    let Some((c, text)) = text.next() else {
        return false
    };
    let Some((d, _)) = text.next() else {
        return false
    };
    a.is_ascii_hexdigit()
        && b.is_ascii_hexdigit()
        && c.is_ascii_hexdigit()
        && d.is_ascii_hexdigit()
        && !((a == 'D' || a == 'd') && b > '7')
}

/// A text behind a backslash.
fn with_backslash(alloc: Global, text: TextRef) -> Result<Text, AllocError>
    ensures { IfOk result (λ t. t ≡ 92 ∷ text.entry) }
{
    let mut out = String::new(alloc);
    out.push_str("\\")?;
    out.push_str(text.as_str())?;
    Ok(Text::from(out))
}

/// The refusal of the escape that stands between two places, behind its backslash.
fn bad_escape(alloc: Global, from: Cursor, end: Cursor) -> Spanning<LexerError>
    requires { IsTail (chars from.rest.now) (chars end.rest.now) }
    ensures place { result.span ≡ record { start = from.entry.at; end = from.entry.at } }
    ensures item { UnlessMemory IsMemory result
        (result.item ≡ bad_escape (chars from.entry.rest.now) (chars end.entry.rest.now)) }
{
    let item = match with_backslash(alloc, between(from.rest, end.rest)) {
        Ok(text) => LexerError::UnknownEscapeSequence(text),
        Err(_) => LexerError::Memory,
    };
    Spanning::zero_width(from.at, item)
}

/// How a string goes on behind a character outside an escape; None: it ends before it.
#[tactic(auto, unfolding(graphql_text::specs::Strings::turn_plain))]
fn turn_plain<'a>(at: SourcePosition, c: char) -> Result<Option<Mode<'a>>, Spanning<LexerError>>
    ensures { MeetsBy (option_map mode_of) IsMemory result (turn_plain at c) }
{
    match c {
        '"' => Ok(None),
        '\\' => Ok(Some(Mode::Escape)),
        '\n' | '\r' => Err(Spanning::zero_width(at, LexerError::UnterminatedString)),
        _ if c < ' ' && c != '\t' => Err(Spanning::zero_width(
            at,
            LexerError::UnknownCharacterInString(c),
        )),
        _ => Ok(Some(Mode::Plain)),
    }
}

/// How a string goes on behind the character after a backslash.
#[tactic(auto, unfolding(graphql_text::specs::Strings::turn_escape))]
fn turn_escape<'a>(
    alloc: Global,
    here: Cursor<'a>,
    c: char,
    next: Cursor<'a>,
) -> Result<Option<Mode<'a>>, Spanning<LexerError>>
    requires { chars here.rest.now ≡ c ∷ chars next.rest.now }
    ensures { MeetsBy (option_map mode_of) IsMemory result
        (turn_escape here.entry.at c (chars next.entry.rest.now)) }
{
    if is_escape(c) {
        Ok(Some(Mode::Plain))
    } else if c == 'u' {
        Ok(Some(Mode::Code(here, 0)))
    } else {
        Err(bad_escape(alloc, here, next))
    }
}

/// How a string goes on behind the character after `u` and `n` letters or digits.
#[tactic(auto, unfolding(graphql_text::specs::Strings::turn_code))]
fn turn_code<'a>(
    alloc: Global,
    from: Cursor<'a>,
    n: u8,
    here: Cursor<'a>,
    c: char,
    next: Cursor<'a>,
) -> Result<Option<Mode<'a>>, Spanning<LexerError>>
    requires tail { IsTail (chars from.rest.now) (chars here.rest.now) }
    requires next { chars here.rest.now ≡ c ∷ chars next.rest.now }
    ensures { MeetsBy (option_map mode_of) IsMemory result
        (turn_code (place_of from.entry) n c (chars next.entry.rest.now)) }
{
    if !c.is_ascii_alphanumeric() {
        Err(bad_escape(alloc, from, here))
    } else if n < 3 {
        Ok(Some(Mode::Code(from, n + 1)))
    } else if is_code(from) {
        Ok(Some(Mode::Plain))
    } else {
        Err(bad_escape(alloc, from, next))
    }
}

/// How a string goes on behind a character; None: it ends before it.
#[tactic(auto, unfolding(graphql_text::specs::Strings::turn))]
fn turn<'a>(
    alloc: Global,
    mode: Mode<'a>,
    here: Cursor<'a>,
    c: char,
    next: Cursor<'a>,
) -> Result<Option<Mode<'a>>, Spanning<LexerError>>
    requires tail { IsModeAt (mode_of mode) (chars here.rest.now) }
    requires next { chars here.rest.now ≡ c ∷ chars next.rest.now }
    ensures { MeetsBy (option_map mode_of) IsMemory result
        (turn (mode_of mode.entry) here.entry.at c (chars next.entry.rest.now)) }
{
    match mode {
        Mode::Plain => turn_plain(here.at, c),
        Mode::Escape => turn_escape(alloc, here, c, next),
        Mode::Code(from, n) => turn_code(alloc, from, n, here, c, next),
    }
}

/// The place of the closing quote.
fn closing<'a>(alloc: Global, start: Cursor<'a>) -> Result<Cursor<'a>, Spanning<LexerError>>
    ensures { MeetsBy place_of IsMemory result
        (string_from plain start.entry.at (chars start.entry.rest.now)) }
{
    let mut here = start;
    let mut mode = Mode::Plain;
    'chars: while let Some((c, next)) = here.next() {
        match turn(alloc, mode, here, c, next)? {
            None => return Ok(here),
            Some(behind) => mode = behind,
        }
        here = next;
    }
    Err(Spanning::zero_width(here.at, LexerError::UnterminatedString))
}

/// The string whose text begins here, behind its quote.
#[tactic(auto, unfolding(graphql_text::specs::Strings::string))]
pub(crate) fn string<'a>(
    alloc: Global,
    start: Cursor<'a>,
) -> Result<(Token<'a>, Cursor<'a>), Spanning<LexerError>>
    ensures { MeetsBy (λ r. (r.0, place_of r.1)) IsMemory result (string (place_of start.entry)) }
{
    let end = closing(alloc, start)?;
    let text = between(start.rest, end.rest);
    Ok((
        Token::Scalar(ScalarToken::String(text)),
        past_one(Class::Quote, end),
    ))
}

//! Kinds of characters, and the places behind some of a kind.

ghost use Rattle.std.specs.Prelude.{◌≡◌, encode_utf8_all};
ghost use Rattle.std.specs.Str.{chars};
ghost use Rattle.graphql_text.specs.Reading.{place_of, is_in, past, begins, past_one, between};
ghost use Rattle.graphql_text.specs.Reading.{IsTail};

use graphql_text::{Class, Cursor, TextRef, continues_name};

/// Whether a character is of a kind.
pub(crate) fn is_in(class: Class, c: char) -> bool
    ensures { result ≡ is_in class c }
{
    match class {
        Class::NameStart => c == '_' || c.is_ascii_alphabetic(),
        Class::NameContinue => continues_name(c),
        Class::Digit => c.is_ascii_digit(),
        Class::Minus => c == '-',
        Class::Quote => c == '"',
        Class::Point => c == '.',
        Class::Exponent => c == 'e' || c == 'E',
        Class::Sign => c == '+' || c == '-',
        Class::Ignored => c == ' '
            || c == '\t'
            || c == '\n'
            || c == '\r'
            || c == ','
            || c == '\u{FEFF}',
        Class::Comment => c >= ' ' || c == '\t',
    }
}

/// The place behind the characters of a kind.
pub(crate) fn past<'a>(class: Class, cursor: Cursor<'a>) -> Cursor<'a>
    ensures { place_of result ≡ past class cursor.entry.at (chars cursor.entry.rest.now) }
{
    let mut end = cursor;
    while let Some((c, next)) = end.next() {
        if !is_in(class, c) {
            return end;
        }
        end = next;
    }
    end
}

/// Whether a character of a kind comes next.
#[tactic(auto, unfolding(graphql_text::specs::Reading::begins))]
pub(crate) fn begins(class: Class, cursor: Cursor) -> bool
    ensures { result ≡ begins class (place_of cursor.entry) }
{
    match cursor.next() {
        Some((c, _)) => is_in(class, c),
        None => false,
    }
}

/// The place behind one character of a kind, if it comes next.
#[tactic(auto, unfolding(graphql_text::specs::Reading::past_one))]
pub(crate) fn past_one<'a>(class: Class, cursor: Cursor<'a>) -> Cursor<'a>
    ensures { place_of result ≡ past_one class (place_of cursor.entry) }
{
    match cursor.next() {
        Some((c, next)) => { if is_in(class, c) { next } else { cursor } }
        None => cursor,
    }
}

/// What stands in a text before its tail.
pub(crate) fn between<'a>(whole: &'a str, rest: &str) -> TextRef<'a>
    requires { IsTail (chars whole.now) (chars rest.now) }
    ensures { result ≡ encode_utf8_all (between (chars whole.now) (chars rest.now)) }
{
    let front = &whole[..whole.len() - rest.len()];
    TextRef::new(front)
}

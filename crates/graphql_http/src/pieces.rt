//! The parts of a field's value: elements of lists, parameters, quoted strings (RFC 9110, 5.6).

ghost use Rattle.std.specs.Prelude.{◌≡◌, ◌<◌, ◌≤◌, [], length, reverse, MatchOption};
ghost use Rattle.httparse.specs.Grammar.{skip_ows, trim_ows};
ghost use Rattle.graphql_http.specs.Pieces as spec;

use httparse::is_space_or_tab;

/// Where a byte of a field's value stands (RFC 9110, 5.6.4 Quoted Strings).
#[derive(Clone, Copy, Debug, PartialEq, Eq)]
pub(crate) enum Quoting {
    /// Outside quoted strings.
    Outside,
    /// In a quoted string.
    Inside,
    /// In a quoted string, behind a backslash.
    Escaped,
}

impl Quoting {
    /// Whether this byte is a separator that ends a piece.
    fn ends(self, separator: u8, byte: u8) -> bool
        ensures { result ≡ spec.ends self separator byte }
    {
        match self {
            Quoting::Outside => byte == separator,
            Quoting::Inside | Quoting::Escaped => false,
        }
    }

    /// Where the byte behind this one stands.
    fn after(self, byte: u8) -> Quoting
        ensures { result ≡ spec.after self byte }
    {
        match self {
            Quoting::Outside if byte == b'"' => Quoting::Inside,
            Quoting::Outside => Quoting::Outside,
            Quoting::Inside if byte == b'"' => Quoting::Outside,
            Quoting::Inside if byte == b'\\' => Quoting::Escaped,
            Quoting::Inside | Quoting::Escaped => Quoting::Inside,
        }
    }
}

/// How many bytes come before the first separator that stands outside quoted strings: all of them
/// where there is none.
fn end_of_piece(separator: u8, text: &[u8]) -> usize
    ensures end { result ≡ spec.end_from spec.Outside separator text.now }
    ensures within { result ≤ length text.now }
{
    let mut quoting = Quoting::Outside;
    let mut end = 0;
    'bytes: while end < text.len() {
        let byte = text[end];
        if quoting.ends(separator, byte) {
            return end;
        }
        quoting = quoting.after(byte);
        end += 1;
    }
    end
}

/// The bytes before the first separator that stands outside quoted strings, and those behind it.
pub(crate) fn split_once(text: &[u8], separator: u8) -> (&[u8], &[u8])
    ensures before { result.0.now ≡ spec.first_piece separator text.now }
    ensures after { result.1.now ≡ spec.behind_first separator text.now }
    ensures fewer { 0 < length text.now → length result.1.now < length text.now }
{
    let end = end_of_piece(separator, text);
    if end < text.len() {
        (&text[..end], &text[end + 1..])
    } else {
        (text, &[])
    }
}

/// The first piece of a text that is not empty, and what stands behind its separator; none where
/// there is no such piece.
pub(crate) fn next_piece(text: &[u8], separator: u8) -> Option<(&[u8], &[u8])>
    ensures { MatchOption result (spec.pieces separator text.now ≡ [])
        (λ next. spec.IsNextPiece separator text.now next.0.now next.1.now) }
{
    let mut rest = text;
    'pieces: while !rest.is_empty() {
        let (piece, others) = split_once(rest, separator);
        if !piece.is_empty() {
            return Some((piece, others));
        }
        rest = others;
    }
    None
}

/// The text without blanks at its front.
fn trim_start(mut text: &[u8]) -> &[u8]
    ensures { result.now ≡ skip_ows text.now }
{
    while let [first, rest @ ..] = text
        && is_space_or_tab(*first)
    {
        text = rest;
    }
    text
}

/// The text without blanks at its end.
fn trim_end(mut text: &[u8]) -> &[u8]
    ensures { result.now ≡ reverse (skip_ows (reverse text.now)) }
{
    while let [rest @ .., last] = text
        && is_space_or_tab(*last)
    {
        text = rest;
    }
    text
}

/// The text without blanks at its ends (RFC 9110, 5.6.3 Whitespace).
pub(crate) fn trim(text: &[u8]) -> &[u8]
    ensures { result.now ≡ trim_ows text.now }
{
    trim_end(trim_start(text))
}

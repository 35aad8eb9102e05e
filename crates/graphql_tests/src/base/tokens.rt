//! Tests of what no clause says: printed texts, and the rows of the lexical grammar by name.

use crate::told::check;
use graphql_lexer::{Lexer, lex_all};
use graphql_text::{LexerResult, ParseError, SourcePosition, Span, Spanning, TextRef, Token};
use std::alloc::{AllocError, Global};
use std::fmt::Debug;

/// Writes a token as `KIND index:line:column-index:line:column`, and a line end.
fn write_token(out: &mut String, token: &Spanning<Token>) -> Result<(), AllocError> {
    write_place(out, &token.item, token.start())?;
    let end = token.end();
    let to = end.index();
    writeln!(out, "-{to}:{end}")
}

/// Writes what stands at a place as `KIND index:line:column`.
fn write_place<T: Debug>(
    out: &mut String,
    item: &T,
    place: SourcePosition,
) -> Result<(), AllocError> {
    let index = place.index();
    write!(out, "{item:?} {index}:{place}")
}

/// Writes an answer of a `Lexer`, a token with a line end.
fn write_answer(out: &mut String, answer: &LexerResult) -> Result<(), AllocError> {
    match answer {
        Ok(token) => write_token(out, token),
        Err(fault) => write_place(out, &fault.item, fault.start()),
    }
}

/// Writes tokens, each a line.
fn write_tokens(out: &mut String, tokens: &[Spanning<Token>]) -> Result<(), AllocError> {
    for token in tokens {
        write_token(out, token)?;
    }
    Ok(())
}

/// Writes what `lex_all` answers.
fn write_all(out: &mut String, alloc: Global, text: &str) -> Result<(), AllocError> {
    match lex_all(alloc, text) {
        Ok(tokens) => write_tokens(out, tokens.as_slice()),
        Err(fault) => write_place(out, &fault.item, fault.start()),
    }
}

/// What `lex_all` answers.
fn all(alloc: Global, text: &str) -> Result<String, AllocError> {
    let mut out = String::new(alloc);
    write_all(&mut out, alloc, text)?;
    Ok(out)
}

/// What a `Lexer` gives one by one.
fn each(alloc: Global, text: &str) -> Result<String, AllocError> {
    let mut out = String::new(alloc);
    for answer in Lexer::new(alloc, text) {
        write_answer(&mut out, &answer)?;
    }
    Ok(out)
}

/// The refusal of the first of some tokens.
fn unexpected(alloc: Global, tokens: &[Spanning<Token>]) -> Result<String, AllocError> {
    match tokens.first() {
        Some(first) => ParseError::unexpected_token(alloc, &first.item)?.to_string(alloc),
        None => String::from_str(alloc, "no token"),
    }
}

/// Why a text is refused whose end was to come: its first token, or its fault.
fn refusal(alloc: Global, text: &str) -> Result<String, AllocError> {
    match lex_all(alloc, text) {
        Ok(tokens) => unexpected(alloc, tokens.as_slice()),
        Err(fault) => fault.item.to_string(alloc),
    }
}

const ROWS: [(&str, &str); 46] = [
    // Punctuators.
    (
        "!$()[]{}",
        "ExclamationMark 0:0:0-1:0:1\nDollar 1:0:1-2:0:2\nParenOpen 2:0:2-3:0:3\nParenClose 3:0:3-4:0:4\nBracketOpen 4:0:4-5:0:5\nBracketClose 5:0:5-6:0:6\nCurlyOpen 6:0:6-7:0:7\nCurlyClose 7:0:7-8:0:8\nEndOfFile 8:0:8-8:0:8\n",
    ),
    (
        "...:=@|",
        "Ellipsis 0:0:0-3:0:3\nColon 3:0:3-4:0:4\nEquals 4:0:4-5:0:5\nAt 5:0:5-6:0:6\nPipe 6:0:6-7:0:7\nEndOfFile 7:0:7-7:0:7\n",
    ),
    // Names and numbers.
    (
        "a\n_B9",
        "Name(\"a\") 0:0:0-1:0:1\nName(\"_B9\") 2:1:0-5:1:3\nEndOfFile 5:1:3-5:1:3\n",
    ),
    (
        "0 -0 -12",
        "Scalar(Int(\"0\")) 0:0:0-1:0:1\nScalar(Int(\"-0\")) 2:0:2-4:0:4\nScalar(Int(\"-12\")) 5:0:5-8:0:8\nEndOfFile 8:0:8-8:0:8\n",
    ),
    (
        "1.50 -2E9 0.1e-3",
        "Scalar(Float(\"1.50\")) 0:0:0-4:0:4\nScalar(Float(\"-2E9\")) 5:0:5-9:0:9\nScalar(Float(\"0.1e-3\")) 10:0:10-16:0:16\nEndOfFile 16:0:16-16:0:16\n",
    ),
    (
        "123abc",
        "Scalar(Int(\"123\")) 0:0:0-3:0:3\nName(\"abc\") 3:0:3-6:0:6\nEndOfFile 6:0:6-6:0:6\n",
    ),
    (
        "1e5e3",
        "Scalar(Float(\"1e5\")) 0:0:0-3:0:3\nName(\"e3\") 3:0:3-5:0:5\nEndOfFile 5:0:5-5:0:5\n",
    ),
    // Strings.
    (
        "\"\" \"a\"",
        "Scalar(String(\"\")) 0:0:0-2:0:2\nScalar(String(\"a\")) 3:0:3-6:0:6\nEndOfFile 6:0:6-6:0:6\n",
    ),
    (
        "\"slashes \\\\ \\/\"",
        "Scalar(String(\"slashes \\\\\\\\ \\\\/\")) 0:0:0-15:0:15\nEndOfFile 15:0:15-15:0:15\n",
    ),
    (
        "\"\\u00e9\\n\\t\\\"\"",
        "Scalar(String(\"\\\\u00e9\\\\n\\\\t\\\\\\\"\")) 0:0:0-14:0:14\nEndOfFile 14:0:14-14:0:14\n",
    ),
    // A wide character counts once.
    (
        "\"é\" a",
        "Scalar(String(\"é\")) 0:0:0-3:0:3\nName(\"a\") 4:0:4-5:0:5\nEndOfFile 5:0:5-5:0:5\n",
    ),
    (
        "\"😀\" a",
        "Scalar(String(\"😀\")) 0:0:0-3:0:3\nName(\"a\") 4:0:4-5:0:5\nEndOfFile 5:0:5-5:0:5\n",
    ),
    (
        "#é😀\n a",
        "Name(\"a\") 5:1:1-6:1:2\nEndOfFile 6:1:2-6:1:2\n",
    ),
    // Nothing but what is ignored.
    ("", "EndOfFile 0:0:0-0:0:0\n"),
    (" \t\r\n,\u{FEFF}#c", "EndOfFile 8:1:4-8:1:4\n"),
    ("#a\r#b\n\n", "EndOfFile 7:2:0-7:2:0\n"),
    // Faults of characters and points.
    ("\"é\" ?", "UnknownCharacter('?') 4:0:4"),
    ("#😀\n?", "UnknownCharacter('?') 3:1:0"),
    ("é", "UnknownCharacter('é') 0:0:0"),
    ("#c\u{1}", "UnknownCharacter('\\u{1}') 2:0:2"),
    ("a .. b", "UnexpectedCharacter('.') 2:0:2"),
    ("\n.b", "UnexpectedCharacter('.') 1:1:0"),
    (".", "UnexpectedEndOfFile 1:0:1"),
    ("..", "UnexpectedEndOfFile 2:0:2"),
    // Faults of numbers.
    ("-", "UnexpectedEndOfFile 1:0:1"),
    ("-a", "UnexpectedCharacter('a') 1:0:1"),
    ("1.", "UnexpectedEndOfFile 2:0:2"),
    ("1.é", "UnexpectedCharacter('é') 2:0:2"),
    ("1e", "UnexpectedEndOfFile 2:0:2"),
    ("1e+", "UnexpectedEndOfFile 3:0:3"),
    ("1e+x", "UnexpectedCharacter('x') 3:0:3"),
    ("01", "UnexpectedCharacter('1') 1:0:1"),
    ("-00", "UnexpectedCharacter('0') 2:0:2"),
    // Faults of strings.
    ("\"é\n\"", "UnterminatedString 2:0:2"),
    ("\"😀\r", "UnterminatedString 2:0:2"),
    ("\n\"é", "UnterminatedString 3:1:2"),
    ("\"\\", "UnterminatedString 2:0:2"),
    ("\"\\u12", "UnterminatedString 5:0:5"),
    ("\"é\u{1}\"", "UnknownCharacterInString('\\u{1}') 2:0:2"),
    // Faults of escapes.
    ("\"é\\x\"", "UnknownEscapeSequence(\"\\\\x\") 3:0:3"),
    ("\"\\uD800\"", "UnknownEscapeSequence(\"\\\\uD800\") 2:0:2"),
    ("\"\\udfff\"", "UnknownEscapeSequence(\"\\\\udfff\") 2:0:2"),
    ("\"\\u12x4\"", "UnknownEscapeSequence(\"\\\\u12x4\") 2:0:2"),
    ("\"😀\\u1\"", "UnknownEscapeSequence(\"\\\\u1\") 3:0:3"),
    ("\n\"\\u😀\"", "UnknownEscapeSequence(\"\\\\u\") 3:1:2"),
    ("\"\\\n\"", "UnknownEscapeSequence(\"\\\\\\n\") 2:0:2"),
];

#[test]
fn rows(rt: HostRuntime) {
    for row in &ROWS {
        check(&rt, all(rt.alloc(), row.0), row.1);
    }
}

const ROWS_ONE_BY_ONE: [(&str, &str); 2] = [
    (
        "a\n!",
        "Name(\"a\") 0:0:0-1:0:1\nExclamationMark 2:1:0-3:1:1\nEndOfFile 3:1:1-3:1:1\n",
    ),
    (
        "a ? b ?",
        "Name(\"a\") 0:0:0-1:0:1\nUnknownCharacter('?') 2:0:2",
    ),
];

#[test]
fn one_by_one(rt: HostRuntime) {
    for row in &ROWS_ONE_BY_ONE {
        check(&rt, each(rt.alloc(), row.0), row.1);
    }
}

#[test]
fn nothing_comes_after_a_fault(rt: HostRuntime) {
    let mut lexer = Lexer::new(rt.alloc(), "?");
    assert!(rt; matches!(lexer.next(), Some(Err(_))));
    assert!(rt; lexer.next().is_none() && lexer.next().is_none());
}

#[test]
fn spans(rt: HostRuntime) {
    let place = SourcePosition::new(5, 1, 2);
    assert!(rt; SourcePosition::new_origin() < place && SourcePosition::new(5, 0, 9) < place);
    let one = Spanning::single_width(place, 7u8);
    assert!(rt; one.end() == SourcePosition::new(6, 1, 3));
    let doubled = one.map(|n| u16::from(n) * 2);
    assert!(rt; doubled.item == 14 && *doubled.as_ref().item == 14);
    let large = doubled.and_then(|n| if n > 20 { Some(n) } else { None });
    assert!(rt; large.is_none());
}

/// The part in which two values stand, one without a place.
fn part_of_two(alloc: Global, place: SourcePosition) -> Result<Option<Span>, AllocError> {
    let values = vec![in alloc; Spanning::unlocated(1u8), Spanning::zero_width(place, 2u8)]?;
    Ok(Spanning::spanning(values).map(|whole| whole.span))
}

#[test]
fn spans_of_lists(rt: HostRuntime) {
    let place = SourcePosition::new(5, 1, 2);
    let start = SourcePosition::new_origin();
    let part = part_of_two(rt.alloc(), place).expect(&rt, "memory");
    assert!(rt; part == Some(Span { start, end: place }));
    let seven = Spanning::zero_width(place, 7u8);
    check(&rt, seven.to_string(rt.alloc()), "7. At 1:2");
}

/// A text that is lent, and how long it is, if it and its copy are the same.
fn lent(alloc: Global) -> Result<String, AllocError> {
    let text = TextRef::new("aé");
    let same = text == TextRef::from("aé") && text.copied() == text.clone()? && text.is("aé");
    let length = text.len();
    let empty = text.is_empty();
    format!(in alloc; "{text} {text:?} {same} {length} {empty}")
}

#[test]
fn borrowed_texts(rt: HostRuntime) {
    let told = lent(rt.alloc());
    check(&rt, told, "aé \"aé\" true 3 false");
}

const REFUSALS: [(&str, &str); 9] = [
    ("hero", "Unexpected \"hero\""),
    ("...", "Unexpected \"...\""),
    ("}", "Unexpected \"}\""),
    ("-12.5e+3", "Unexpected \"-12.5e+3\""),
    (r#""a\"b""#, r#"Unexpected ""a\"b"""#),
    ("2147483648", "Unexpected \"2147483648\""),
    ("\n ?", "Unknown character \"?\""),
    ("\"\u{1}\"", "Unknown character \"\u{1}\" in string literal"),
    ("\"", "Unterminated string literal"),
];

#[test]
fn refusals(rt: HostRuntime) {
    for row in &REFUSALS {
        check(&rt, refusal(rt.alloc(), row.0), row.1);
    }
}

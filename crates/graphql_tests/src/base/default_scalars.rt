ghost use Rattle.std.specs.Prelude.{◌≡◌, IfOk};

use crate::told::check;
use graphql_scalars::{DefaultScalarValue, ParseScalarResult, ParseScalarValue, ScalarValue};
use graphql_text::{ScalarToken, Text, TextRef};
use std::alloc::{AllocError, Global};

/// The same scalar of any schema once more.
fn copied<S: ScalarValue>(scalar: &S) -> Result<S, AllocError>
    ensures { IfOk result (λ copy. copy ≡ scalar.now) }
{
    scalar.clone()
}

/// What is read, or its refusal, in words.
fn reading_text(
    alloc: Global,
    answer: ParseScalarResult<DefaultScalarValue>,
) -> Result<String, AllocError> {
    match answer {
        Ok(DefaultScalarValue::Int(value)) => format!(in alloc; "{value}"),
        Ok(DefaultScalarValue::String(text)) => format!(in alloc; "<{text}>"),
        Ok(DefaultScalarValue::Boolean(value)) => format!(in alloc; "{value}"),
        Err(refusal) => format!(in alloc; "{refusal}"),
    }
}

/// What a token reads at a type, in words.
fn reading<T: ParseScalarValue<DefaultScalarValue>>(
    alloc: Global,
    token: &ScalarToken<'_>,
) -> Result<String, AllocError> {
    reading_text(alloc, T::from_str(alloc, token))
}

/// What a string reads, in words.
fn string_reading(alloc: Global, text: &str) -> Result<String, AllocError> {
    let token = ScalarToken::String(TextRef::new(text));
    reading::<DefaultScalarValue>(alloc, &token)
}

/// Strings as they stand, and what is read, or the refusal.
const STRINGS: [(&str, &str); 18] = [
    (r"simple", "<simple>"),
    (r" white space ", "< white space >"),
    (r#"quote \""#, "<quote \">"),
    (r"slashes \\ \/", r"<slashes \ />"),
    (r"escaped \n\r\b\t\f", "<escaped \n\r\u{8}\t\u{C}>"),
    (
        r"unicode \u1234\u5678\u90AB\uCDEF",
        "<unicode \u{1234}\u{5678}\u{90AB}\u{CDEF}>",
    ),
    (r"\u00e9\u00E9x", "<\u{E9}\u{E9}x>"),
    ("a\nb\u{1}é", "<a\nb\u{1}é>"),
    ("", "<>"),
    (r"\uD800", r#"Unknown escape sequence "\uD800" in string"#),
    (r"\udfff", r#"Unknown escape sequence "\udfff" in string"#),
    (r"\u12", r#"Unknown escape sequence "\u12" in string"#),
    (r"\u12-34", r#"Unknown escape sequence "\u12" in string"#),
    (r"\u1XYZ9", r#"Unknown escape sequence "\u1XYZ" in string"#),
    (r"\u", r#"Unknown escape sequence "\u" in string"#),
    (r"\x", r#"Unknown escape sequence "\x" in string"#),
    (r"\é", r#"Unknown escape sequence "\é" in string"#),
    (r"end \", "Unterminated string literal"),
];

#[test]
fn strings_are_decoded(rt: HostRuntime) {
    for row in &STRINGS {
        check(&rt, string_reading(rt.alloc(), row.0), row.1);
    }
}

/// What an integer reads, in words.
fn integer_reading(alloc: Global, text: &str) -> Result<String, AllocError> {
    let token = ScalarToken::Int(TextRef::new(text));
    reading::<DefaultScalarValue>(alloc, &token)
}

/// Integers as they stand, and what is read, or the refusal.
const INTEGERS: [(&str, &str); 9] = [
    ("0", "0"),
    ("-0", "0"),
    ("2147483647", "2147483647"),
    ("-2147483648", "-2147483648"),
    ("2147483648", "Unexpected \"2147483648\""),
    ("-2147483649", "Unexpected \"-2147483649\""),
    ("+1", "Unexpected \"+1\""),
    ("-", "Unexpected \"-\""),
    ("", "Unexpected \"\""),
];

#[test]
fn integers_have_32_bits(rt: HostRuntime) {
    for row in &INTEGERS {
        check(&rt, integer_reading(rt.alloc(), row.0), row.1);
    }
}

#[test]
fn each_type_reads_its_own(rt: HostRuntime) {
    let alloc = rt.alloc();
    let int = ScalarToken::Int(TextRef::new("5"));
    let float = ScalarToken::Float(TextRef::new("5.5"));
    let text = ScalarToken::String(TextRef::new("a"));
    check(
        &rt,
        reading::<DefaultScalarValue>(alloc, &float),
        "There needs to be a Float type",
    );
    check(&rt, reading::<i32>(alloc, &int), "5");
    check(&rt, reading::<i32>(alloc, &float), "Unexpected \"5.5\"");
    check(&rt, reading::<i32>(alloc, &text), "Unexpected \"\"a\"\"");
    check(&rt, reading::<String>(alloc, &text), "<a>");
    check(&rt, reading::<String>(alloc, &int), "Unexpected \"5\"");
    check(&rt, reading::<bool>(alloc, &text), "Unexpected \"\"a\"\"");
}

/// The copy of a text's scalar, as `{:?}` writes it.
fn copy_text(alloc: Global) -> Result<String, AllocError> {
    let text = DefaultScalarValue::from(Text::from_str(alloc, "a")?);
    let copy = copied(&text)?;
    format!(in alloc; "{copy:?}")
}

#[test]
fn scalars_are_copied(rt: HostRuntime) {
    let told = copy_text(rt.alloc());
    check(&rt, told, "String(\"a\")");
}

use crate::language::documents::{DOCUMENTS, parsed};
use crate::language::told::check;
use graphql_language::{
    DefaultScalarValue, Lexer, LexerResult, ParseError, Parser, Span, TokenRecords,
    parse_document_records, token_texts,
};
use graphql_text::{SourcePosition, Spanning, Token};
use std::alloc::Global;
use std::test::Fail;

/// Texts in which bytes and characters differ, in strings and in comments, and what the standard
/// ignores stands between the tokens; then those of worked requests and their plain texts, literals,
/// and texts that are no documents, two of them with a fault.
const TEXTS: &[&str] = &[
    "",
    " \t\r\n,# a comment",
    "{a(b:\"é\"),c(d:\"😀\")}",
    "# é\n{ a # 😀 \"\n b }",
    "# é😀\n{ a(b: \"😀é\") # 😀 é\n, c(d: \"é\", e: \"😀\") }",
    "\u{FEFF}{ a(b: \"\\\"\\u00e9é😀\\n\", c: -1.5e3) ... @d }",
    "\"\"\"é\"\"😀\"",
    "[1 2.0 -3e1 \"\" a_1 $ ! ( ) ] { } : = @ | ...",
    "query Q($x: [Int!]! = [1, 2] @d) { a: b(c: $x, d: {e: \"é\"}) { ...F } }\nfragment F on T { c }",
    "{ hero { name } }",
    "{ hero { ...F friend { name } } } fragment F on Human { id friend { id } }",
    "query { hero { ... on Human { id friend { id } } friend { name } } }",
    "query Q($x: Boolean!) { hero { name @include(if: $x) } }",
    "query Q { hero { name @ skip ( if : true ) } }",
    "query Q($x: Boolean = true) { hero { name @include(if: $x) } }",
    "{ hero { __typename: name ... on Human { id @skip(if: true) } } }",
    "query { hero { __typename : name ... on Human { id @ skip ( if : true ) } } }",
    "mutation M($n: String!, $x: Boolean!) { rename(id: \"h2\", name: $n) @include(if: $x) { id } }",
    "mutation M ( $ n : String ! ) { rename ( id : \"h2\" name : $ n ) @ skip ( if : true ) { id } }",
    "mutation { rename(id: \"h1\", name: \"Eve\") { name } }",
    "mutation { rename(id: \"h1\", name: \"Eve\") { id } rename(id: \"h1\", name: \"Eve\") { name } }",
    "{ hero { friend { id } friend { name } } }",
    "{ hero {",
    "{ } %",
    "{ hero { x: name x: id } }",
    "query A { hero { id } } query B { hero { name } }",
    "{ hero { ...A ...A } } fragment A on Human { ...B ...B } fragment B on Human { id }",
    "subscription { x }",
    "{ __type(name: \"Human\") { kind name fields { name } } }",
    "[1, 2, null]",
    "\"slashes \\\\ \\/\"",
    "\"\\uD800\"",
    "42_Foo",
    "{\"int\": 1, \"null\": null, \"string\": \"foo\"}",
    "{ hero(first: 2147483648) { id } }",
    "{ hero(first: 1.5) { id } }",
    "{ hero { id @include(if: true) name @include(if: false) appearsIn @skip(if: true) height @skip(if: false) } }",
];

/// The answer of a lexer that gives this token.
fn lexed(token: Option<Spanning<Token<'_>>>) -> Option<LexerResult<'_>> {
    match token {
        Some(token) => Some(Ok(token)),
        None => None,
    }
}

/// Whether records give the tokens that a lexer gives, each with its text and at its place.
fn are_as_lexed(records: &TokenRecords<'_>, mut lexer: Lexer<'_>) -> bool {
    for index in 0..records.len() {
        if lexer.next() != lexed(records.get(index)) {
            return false;
        }
    }
    let end = Spanning::new(records.finish(), Token::EndOfFile);
    lexer.next() == lexed(Some(end)) && records.get(records.len()).is_none()
}

/// The fault at which the tokens of a text end, if not at its end.
fn fault_of(alloc: Global, text: &str) -> Option<Spanning<ParseError>> {
    for answer in Lexer::new(alloc, text) {
        if let Err(fault) = answer {
            return Some(fault.map(ParseError::LexerError));
        }
    }
    None
}

/// Whether the records of a text give the tokens that its lexer gives, or are refused for the fault
/// at which those end.
fn is_as_lexed(alloc: Global, text: &str) -> bool {
    match TokenRecords::new(alloc, text) {
        Ok(records) => are_as_lexed(&records, Lexer::new(alloc, text)),
        Err(fault) => fault_of(alloc, text) == Some(fault),
    }
}

#[test]
fn records_are_as_lexed(rt: HostRuntime) {
    for text in TEXTS {
        let same = is_as_lexed(rt.alloc(), text);
        assert!(rt; same);
    }
    for text in DOCUMENTS {
        let same = is_as_lexed(rt.alloc(), text);
        assert!(rt; same);
    }
}

/// The source texts of the tokens between two characters of a text, parted by spaces.
fn texts_between(alloc: Global, text: &str, start: usize, end: usize) -> Result<String, Fail> {
    let span = Span {
        start: SourcePosition::new(start, 0, start),
        end: SourcePosition::new(end, 0, end),
    };
    let mut told = String::new(alloc);
    for found in token_texts(alloc, text, span)?.as_slice() {
        told.push_str(found.text.as_str())?;
        told.push_str(" ")?;
    }
    Ok(told)
}

#[test]
fn texts_within_a_part(rt: HostRuntime) -> Result<(), Fail> {
    let alloc = rt.alloc();
    let text = "{a(b:\"é\\n\"),c(d:\"😀\")}";
    check(
        &rt,
        texts_between(alloc, text, 0, 21),
        "{ a ( b : \"é\\n\" ) c ( d : \"😀\" ) } ",
    )?;
    check(
        &rt,
        texts_between(alloc, text, 5, 19),
        "\"é\\n\" ) c ( d : \"😀\" ",
    )?;
    check(&rt, texts_between(alloc, text, 6, 18), ") c ( d : ")?;
    check(&rt, texts_between(alloc, text, 11, 12), "")
}

/// Whether records give the tree that their text gives, and a parser that begins with its first
/// token.
fn is_parsed_alike(alloc: Global, text: &str) -> Result<bool, Fail> {
    let records = TokenRecords::new(alloc, text)?;
    let lent = parse_document_records::<DefaultScalarValue>(alloc, &records)?;
    let own = parsed(alloc, text)?;
    let told = format!(in alloc; "{lent:?}")?;
    let again = format!(in alloc; "{own:?}")?;
    let parser = Parser::from_records(alloc, &records);
    Ok(told == again && Some(parser.peek()) == records.get(0))
}

#[test]
fn records_are_parsed(rt: HostRuntime) -> Result<(), Fail> {
    for text in DOCUMENTS {
        let alike = is_parsed_alike(rt.alloc(), text)?;
        assert!(rt; alike);
    }
    Ok(())
}

use crate::language::told::check;
use graphql_grammar::{Cursor, Fault, Kind, keep};
use graphql_text::{Items, SourcePosition, TextRef};
use std::alloc::Global;
use std::test::Fail;

/// The names between the next `{` and its `}`.
fn names_in_braces<'a>(
    alloc: Global,
    cursor: &mut Cursor<'a>,
) -> Result<Items<TextRef<'a>>, Fault> {
    let mut found = Items::new(alloc);
    cursor.expect(alloc, Kind::CurlyOpen)?;
    for _turn in 0..cursor.left() {
        if cursor.eat(Kind::CurlyClose) {
            return Ok(found);
        }
        keep(&mut found, cursor.name(alloc)?)?;
    }
    Err(cursor.refuse(alloc))
}

/// The names between the next `{` and its `}`, at their place, printed.
fn printed_names(alloc: Global, cursor: &mut Cursor<'_>) -> Result<String, Fail> {
    let start = cursor.start();
    let names = names_in_braces(alloc, cursor)?;
    let placed = cursor.closed(start, names);
    Ok(format!(in alloc; "{placed:?}")?)
}

/// The names that are read, and whether the cursor then stands behind them.
fn names_read(alloc: Global) -> Result<String, Fail> {
    let mut cursor = Cursor::new(alloc, " { on\nb } $")?;
    let names = printed_names(alloc, &mut cursor)?;
    let ended = cursor.end() == SourcePosition::new(9, 1, 3) && cursor.kind() == Kind::Dollar;
    Ok(format!(in alloc; "{names} {ended}")?)
}

/// What a cursor refuses at the second token and at the end, if it refused the first.
fn refusals(alloc: Global) -> Result<String, Fail> {
    let mut cursor = Cursor::new(alloc, "on \"a\\n\"")?;
    let refused = cursor.fragment_name(alloc).is_err();
    cursor.advance();
    let second = cursor.refuse(alloc);
    cursor.advance();
    let last = cursor.refuse(alloc);
    Ok(format!(in alloc; "{refused} {second} {last}")?)
}

/// Why a text has no cursor.
fn refusal(alloc: Global, text: &str) -> Result<String, Fail> {
    match Cursor::new(alloc, text) {
        Ok(_) => Ok(String::from_str(alloc, "no refusal")?),
        Err(fault) => Ok(fault.to_string(alloc)?),
    }
}

#[test]
fn reads_and_refuses(rt: HostRuntime) -> Result<(), Fail> {
    let alloc = rt.alloc();
    check(
        &rt,
        names_read(alloc),
        "Spanning { item: [\"on\", \"b\"], span: Span { start: SourcePosition { index: 1, line: 0, column: 1 }, end: SourcePosition { index: 9, line: 1, column: 3 } } } true",
    )?;
    check(
        &rt,
        refusals(alloc),
        "true Unexpected \"\"a\\n\"\". At 0:3 Unexpected end of input. At 0:8",
    )?;
    check(
        &rt,
        refusal(alloc, "a ?"),
        "Unknown character \"?\". At 0:2",
    )
}

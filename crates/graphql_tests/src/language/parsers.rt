ghost use Rattle.std.specs.Prelude.{◌≡◌, ◌<◌, IfOk, None, OnOk};
ghost use Rattle.graphql_text.specs.declared.token.Token.TheVariants as token;
ghost use Rattle.graphql_grammar.specs.Input.{left};
ghost use Rattle.graphql_language.specs.Leaves.{LeavesBehind};
ghost use Rattle.graphql_language.specs.Parser.{Calls, NextName};
ghost use Rattle.graphql_language.specs.SpelledLists.{InFront, ListOf};
ghost use Rattle.graphql_tests.specs.SpelledNames.{NameAt};

use crate::language::told::check;
use graphql_grammar::Fault;
use graphql_language::Parser;
use graphql_language::laws::{Production, lists_are_spelled, lists_leave_the_rest};
use graphql_text::{Items, ParseResult, SourcePosition, Spanning, TextRef, Token};
use std::alloc::{AllocError, Global};
use std::test::Fail;

/// Whether each token of `a ( $ )` is read, or skipped, where it stands.
fn each_is_read(parser: &mut Parser<'_>) -> Result<bool, Fault> {
    let named = parser.expect_name()?.item.is("a");
    let none = parser.skip(&Token::Dollar)?.is_none();
    let opened = parser.expect(&Token::ParenOpen)?.start() == SourcePosition::new(2, 0, 2);
    let some = parser.skip(&Token::Dollar)?.is_some();
    let closed = parser.next_token()?.item == Token::ParenClose;
    let ended = parser.peek().item == Token::EndOfFile;
    Ok(named && none && opened && some && closed && ended)
}

/// Whether each token of that text is read.
fn text_is_read(alloc: Global) -> Result<bool, Fault> {
    let mut parser = Parser::new(alloc, "a ( $ )")?;
    each_is_read(&mut parser)
}

/// A name, as an item of a list.
fn name<'a>(parser: &mut Parser<'a>) -> ParseResult<TextRef<'a>>
    ensures calls { Calls NextName parser.old result parser.new }
    ensures fewer { OnOk result (left parser.new.input < left parser.old.input) }
{
    parser.expect_name()
}

/// Names, each at its place.
struct Names;

impl<'a> Production<Spanning<TextRef<'a>>> for Names {
    ghost spells = { NameAt };
}

/// Names between brackets: what the tokens from the one bracket to the other spell, behind which
/// the parser stands then, or before the token that is wrong.
fn names_read<'a, F: Fn(&mut Parser<'a>) -> ParseResult<TextRef<'a>>>(
    parser: &mut Parser<'a>,
    name: F,
) -> ParseResult<Items<Spanning<TextRef<'a>>>>
    requires fresh { parser.old.refused ≡ None }
    requires callable { (p : _) → F.pre name p }
    requires reads { (p q : _) (r : _) → F.post name p r q → Calls NextName p.now r q.now }
    requires fewer { (p q : _) (r : _) → F.post name p r q
        → OnOk r (left q.now.input < left p.now.input) }
    ensures spelled { IfOk result (λ names. InFront (ListOf token.BracketOpen token.BracketClose
        NameAt) parser.old.input names parser.new.input) }
    ensures leaves { LeavesBehind parser.old.input result parser.new }
{
    lists_are_spelled::<Spanning<TextRef<'a>>, F, Names>();
    lists_leave_the_rest::<Spanning<TextRef<'a>>, F>();
    parser.delimited_list(&Token::BracketOpen, name, &Token::BracketClose)
}

/// Whether two items in braces are read at their place.
fn braces_are_read(parser: &mut Parser<'_>) -> Result<bool, Fault> {
    let list = parser.delimited_nonempty_list(&Token::CurlyOpen, name, &Token::CurlyClose)?;
    let placed = list.start() == SourcePosition::new(3, 0, 3)
        && list.end() == SourcePosition::new(8, 0, 8);
    Ok(placed && list.item.len() == 2)
}

/// How many items a list in brackets has.
fn brackets_read(parser: &mut Parser<'_>) -> Result<usize, Fault>
    requires { parser.old.refused ≡ None }
{
    let list = names_read(parser, name)?;
    Ok(list.item.len())
}

/// How many items a list in parentheses has.
fn parentheses_read(parser: &mut Parser<'_>) -> Result<usize, Fault> {
    let list = parser.unlocated_delimited_nonempty_list(
        &Token::ParenOpen,
        name,
        &Token::ParenClose,
    )?;
    Ok(list.item.len())
}

/// Whether the three lists of `[] {a b} (c)` are read.
fn lists_are_read(alloc: Global) -> Result<bool, Fault> {
    let mut parser = Parser::new(alloc, "[] {a b} (c)")?;
    let none = brackets_read(&mut parser)?;
    let two = braces_are_read(&mut parser)?;
    let one = parentheses_read(&mut parser)?;
    Ok(none == 0 && two && one == 1)
}

#[test]
fn reads_tokens_and_lists(rt: HostRuntime) -> Result<(), Fault> {
    let is_read = text_is_read(rt.alloc())?;
    assert!(rt; is_read);
    let are_read = lists_are_read(rt.alloc())?;
    assert!(rt; are_read);
    Ok(())
}

/// A refusal, printed.
fn refusal<T: Drop>(alloc: Global, answer: Result<T, Fault>) -> Result<String, AllocError> {
    match answer {
        Ok(_) => String::from_str(alloc, "no refusal"),
        Err(fault) => fault.to_string(alloc),
    }
}

/// What is refused at a token and again there, where it stands.
fn refused_again(alloc: Global) -> Result<String, Fail> {
    let mut parser = Parser::new(alloc, "a\n \"b\" c")?;
    parser.next_token()?;
    let first = parser.expect_name().is_err();
    let again = refusal(alloc, parser.next_token())?;
    let place = parser.peek().start();
    Ok(format!(in alloc; "{first} {again} {place}")?)
}

/// What is refused in a list, and then at its place.
fn refused_list(alloc: Global) -> Result<String, Fail> {
    let mut parser = Parser::new(alloc, "{a $}")?;
    let list = parser.delimited_list(&Token::CurlyOpen, name, &Token::CurlyClose);
    let first = refusal(alloc, list)?;
    let again = refusal(alloc, parser.skip(&Token::Dollar))?;
    Ok(format!(in alloc; "{first} {again}")?)
}

#[test]
fn refuses_again(rt: HostRuntime) -> Result<(), Fail> {
    let alloc = rt.alloc();
    check(
        &rt,
        refused_again(alloc),
        "true Unexpected \"\"b\"\". At 1:1 1:1",
    )?;
    check(
        &rt,
        refused_list(alloc),
        "Unexpected \"$\". At 0:3 Unexpected \"$\". At 0:3",
    )
}

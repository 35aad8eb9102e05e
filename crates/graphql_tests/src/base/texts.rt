ghost use Rattle.std.specs.Prelude.{◌≡◌, ◌++◌, IfOk, OnOk, OnErr};

use crate::told::check;
use graphql_text::{Items, Text};
use std::alloc::{AllocError, Global};
use std::collections::HashMap;
use std::fmt::Write;
use std::process::Abort;

/// A struct whose clone is the same value, by its parts.
#[derive(Clone, Debug, PartialEq, Eq, Drop)]
struct Named {
    name: Text,
    parts: Items<Text>,
}

fn second(named: &Named) -> Result<Named, AllocError>
    ensures { IfOk result (λ copy. copy ≡ named.now) }
{
    let copy = named.clone()?;
    Ok(copy)
}

/// Adds one text and then another; where memory is wanting at the second, the first stays.
fn push_both(text: &mut Text, first: &str, last: &str) -> Result<(), AllocError>
    ensures { OnOk result (text.new ≡ text.old ++ first.now ++ last.now) }
{
    text.push_str(first)?;
    text.push_str(last)
}

/// Adds two texts, a character and a number.
fn grow(rt: &impl Abort, text: &mut Text) {
    push_both(text, "na", "me").expect(rt, "memory");
    text.push('é').expect(rt, "memory");
    write!(text, "{}", 12).expect(rt, "memory");
}

/// A text that has grown, as a string, whether it is that text, how long it is, and whether it is
/// empty once it is cleared.
fn grown(rt: &impl Abort, alloc: Global) -> Result<String, AllocError> {
    let mut text = Text::new(alloc);
    grow(rt, &mut text);
    let kept = text.clone()?.into_string();
    let same = text.is("nameé12");
    let length = text.len();
    text.clear();
    let empty = text.is_empty();
    format!(in alloc; "{kept} {same} {length} {empty}")
}

#[test]
fn grows(rt: HostRuntime) {
    let told = grown(&rt, rt.alloc());
    check(&rt, told, "nameé12 true 8 true");
}

/// A text as it is, padded, and quoted.
fn shown(alloc: Global, text: &str) -> Result<String, AllocError> {
    let text = Text::from_str(alloc, text)?;
    format!(in alloc; "<{text:>6}> {text:?}")
}

/// What a map that has one at this key has at the other.
fn found(alloc: Global, key: Text, other: &Text) -> Result<Option<u8>, AllocError> {
    let mut map = HashMap::new(alloc);
    map.insert(key, 1u8)?;
    Ok(map.get(other).copied())
}

/// How two texts compare, whether the last is greater, and what a map of the first has at the last.
fn compared(alloc: Global, first: &str, last: &str) -> Result<String, AllocError> {
    let first = Text::from_str(alloc, first)?;
    let last = Text::from_str(alloc, last)?;
    let order = first.cmp(&last);
    let greater = last > first;
    let found = found(alloc, first, &last)?;
    format!(in alloc; "{order:?} {greater} {found:?}")
}

/// A name with one part.
fn with_one_part(alloc: Global) -> Result<Named, AllocError> {
    let mut parts = Items::new(alloc);
    parts.push(Text::from_str(alloc, "x")?)?;
    let name = Text::from(String::from_str(alloc, "n")?);
    Ok(Named { name, parts })
}

/// Whether the clone of a name with one part is equal to it, and the clone.
fn cloned(alloc: Global) -> Result<String, AllocError> {
    let named = with_one_part(alloc)?;
    let copy = second(&named)?;
    let same = copy == named;
    format!(in alloc; "{same} {copy:?}")
}

#[test]
fn texts_are_told(rt: HostRuntime) {
    let alloc = rt.alloc();
    let clone = "true Named { name: \"n\", parts: [\"x\"] }";
    check(&rt, shown(alloc, "a\"é\n"), "<  a\"é\n> \"a\\\"é\\n\"");
    check(&rt, compared(alloc, "a", "a"), "Equal false Some(1)");
    check(&rt, compared(alloc, "a", "ab"), "Less true None");
    check(&rt, cloned(alloc), clone);
}

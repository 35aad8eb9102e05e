//! What a field is answered, in short.

ghost use Rattle.std.specs.Prelude.{◌≡◌, [], map, IfOk, OnOk};
ghost use Rattle.std.specs.Option.{option_map};
ghost use Rattle.graphql_text.specs.Memory.{Gives};
ghost use Rattle.graphql_resolvers.specs.Refusals.{text_pair};
ghost use Rattle.graphql_output_values.specs.Objects.{with_field, with_fields};
ghost use Rattle.graphql_resolvers.specs.Answers.{pair_of};
ghost use Rattle.graphql_resolvers.specs.Answers as spec;
ghost use Rattle.graphql_resolvers.specs.Answers.{Answers};

use crate::answer::{Answer, Reply};
use crate::failure::Failure;
use graphql_field_results::{FieldError, Resolved};
use graphql_output_values::{Key, Object, Value};
use graphql_scalars::DefaultScalarValue;
use graphql_text::{Items, Text};
use std::alloc::{AllocError, Global};

/// The answer `null`. It takes no memory.
pub fn null<N>() -> Answer<N>
    ensures answers { Answers spec.null result }
    ensures at_once { result ≡ spec.at_once spec.null }
{
    Ok(Reply {
        resolved: Resolved::Null,
    })
}

/// A text as a leaf. An error is want of memory.
fn leaf<N>(alloc: Global, words: &str) -> Result<Resolved<DefaultScalarValue, N>, AllocError>
    ensures { Gives result (spec.leaf words.now) }
{
    let text = Text::from_str(alloc, words)?;
    Ok(Resolved::Scalar(DefaultScalarValue::String(text)))
}

/// A text, which is also the name of an enum value. Its only error is want of memory.
pub fn text<N>(alloc: Global, words: &str) -> Answer<N>
    ensures { Answers (spec.text words.now) result }
{
    let resolved = leaf(alloc, words)?;
    Ok(Reply { resolved })
}

/// A text, if there is one. Its only error is want of memory.
pub fn text_or_null<N>(alloc: Global, words: Option<&str>) -> Answer<N>
    ensures { Answers (spec.text_or_null (option_map (λ text. text.now) words.entry)) result }
{
    match words {
        Some(words) => text(alloc, words),
        None => Ok(Reply {
            resolved: Resolved::Null,
        }),
    }
}

/// An integer. It takes no memory.
pub fn int<N>(value: i32) -> Answer<N>
    ensures answers { Answers (spec.int value) result }
    ensures at_once { result ≡ spec.at_once (spec.int value) }
{
    Ok(Reply {
        resolved: Resolved::Scalar(DefaultScalarValue::Int(value)),
    })
}

/// `true` or `false`. It takes no memory.
pub fn boolean<N>(value: bool) -> Answer<N>
    ensures answers { Answers (spec.boolean value) result }
    ensures at_once { result ≡ spec.at_once (spec.boolean value) }
{
    Ok(Reply {
        resolved: Resolved::Scalar(DefaultScalarValue::Boolean(value)),
    })
}

/// A node. It takes no memory.
pub fn node<N>(node: N) -> Answer<N>
    ensures answers { Answers (spec.node node) result }
    ensures at_once { result ≡ spec.at_once (spec.node node) }
{
    Ok(Reply {
        resolved: Resolved::Node(node),
    })
}

/// A node, if there is one. It takes no memory.
pub fn node_or_null<N>(node: Option<N>) -> Answer<N>
    ensures answers { Answers (spec.node_or_null node) result }
    ensures at_once { result ≡ spec.at_once (spec.node_or_null node) }
{
    match node {
        Some(node) => Ok(Reply {
            resolved: Resolved::Node(node),
        }),
        None => Ok(Reply {
            resolved: Resolved::Null,
        }),
    }
}

/// The error of a field, by its reason; or want of memory.
pub fn fails<N>(alloc: Global, reason: &str) -> Answer<N>
    ensures { Answers (spec.fails reason.now) result }
{
    let text = Text::from_str(alloc, reason)?;
    Err(Failure::Error(FieldError::of(text)))
}

/// Puts a text under its key. An error is want of memory: the object stays.
fn put_text(
    alloc: Global,
    object: &mut Object<DefaultScalarValue>,
    pair: &(&str, &str),
) -> Result<(), AllocError>
    ensures { OnOk result (object.new.fields
        ≡ with_field object.old.fields (pair_of pair.now).0 (pair_of pair.now).1) }
{
    let key = Key::from_str(alloc, pair.0)?;
    let text = Text::from_str(alloc, pair.1)?;
    object.add_field(key, Value::Scalar(DefaultScalarValue::String(text)))?;
    Ok(())
}

/// Texts under their keys, in order; of a key that stands twice the last text. An error is want of
/// memory.
fn texts_under(
    alloc: Global,
    pairs: &[(&str, &str)],
) -> Result<Object<DefaultScalarValue>, AllocError>
    ensures { IfOk result (λ object. object.fields
        ≡ with_fields [] (map text_pair (map (λ p. (p.0.now, p.1.now)) pairs.now))) }
{
    let mut object = Object::with_capacity(alloc, pairs.len())?;
    'pairs: for pair in pairs {
        put_text(alloc, &mut object, pair)?;
    }
    Ok(object)
}

/// The error of a field, by its reason, with texts beside it under their keys, as `("code",
/// "NOT_FOUND")`, which are told as its `extensions` (GraphQL October 2021, 7.1.2 Errors); or want
/// of memory.
pub fn fails_with<N>(alloc: Global, reason: &str, beside: &[(&str, &str)]) -> Answer<N>
    ensures { Answers (spec.fails_with reason.now (map (λ p. (p.0.now, p.1.now)) beside.now))
        result }
{
    let text = Text::from_str(alloc, reason)?;
    let beside = Value::Object(texts_under(alloc, beside)?);
    Err(Failure::Error(FieldError::with_extensions(text, beside)))
}

/// A list of texts, in order, which are also the names of enum values. Its only error is want of
/// memory.
pub fn texts<N: Drop>(alloc: Global, words: &[&str]) -> Answer<N>
    ensures { Answers (spec.texts (map (λ text. text.now) words.now)) result }
{
    let mut items = Items::with_capacity(alloc, words.len())?;
    'words: for word in words {
        items.push(leaf(alloc, word)?)?;
    }
    Ok(Reply {
        resolved: Resolved::List(items),
    })
}

/// A list of nodes, in order. Its only error is want of memory.
pub fn nodes<N: Copy + Drop>(alloc: Global, nodes: &[N]) -> Answer<N>
    ensures { Answers (spec.nodes nodes.now) result }
{
    let mut items = Items::with_capacity(alloc, nodes.len())?;
    'nodes: for node in nodes {
        items.push(Resolved::Node(*node))?;
    }
    Ok(Reply {
        resolved: Resolved::List(items),
    })
}

/// The list of what each of these is answered, in order; where one of them has an error, the first
/// error is the field's. Want of memory is an error too.
pub fn each<T, N: Drop, F: Fn(&T) -> Answer<N> + Drop>(
    alloc: Global,
    items: &[T],
    answer: F,
) -> Answer<N>
    requires { F.IsAlwaysCallable answer }
    ensures { (wanted : T → spec.Answer N) → spec.AnswersBy wanted (F.post answer)
        → Answers (spec.each wanted items.now) result }
{
    let mut answers = Items::with_capacity(alloc, items.len())?;
    'items: for item in items {
        answers.push(answer(item)?.resolved)?;
    }
    Ok(Reply {
        resolved: Resolved::List(answers),
    })
}

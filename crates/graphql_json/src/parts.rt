//! Texts and lists under the keys of a JSON object.

ghost use Rattle.std.specs.Prelude.{◌≡◌, option_map};
ghost use Rattle.graphql_text.specs.Memory.{Gives};
ghost use Rattle.serde_json.specs.View.{items_view, view};
ghost use Rattle.graphql_json.specs.Parts as spec;

use graphql_text::{Items, TextRef};
use serde_json::Value;
use std::alloc::{AllocError, Global};

/// The text that JSON is, if it is one.
fn text_of(json: &Value) -> Option<TextRef<'_>>
    ensures { result ≡ spec.text_of (view json.now) }
{
    match json.as_str() {
        Some(text) => Some(TextRef::new(text)),
        None => None,
    }
}

/// The text under a key, if one stands there.
pub fn text_at<'a>(json: &'a Value, key: &str) -> Option<TextRef<'a>>
    ensures { result ≡ spec.text_at key.now (view json.now) }
{
    match json.get(key) {
        Some(value) => text_of(value),
        None => None,
    }
}

/// The text under a key, where one may be missing; `None` where something else stands there.
pub fn text_if<'a>(json: &'a Value, key: &str) -> Option<Option<TextRef<'a>>>
    ensures { result ≡ spec.text_if key.now (view json.now) }
{
    match json.get(key) {
        Some(value) => match text_of(value) {
            Some(text) => Some(Some(text)),
            None => None,
        },
        None => Some(None),
    }
}

/// The list under a key, if one stands there.
pub fn list_at<'a>(json: &'a Value, key: &str) -> Option<&'a Vec<Value>>
    ensures { option_map (λ items. items_view items.now.items) result
        ≡ spec.array_at key.now (view json.now) }
{
    match json.get(key) {
        Some(value) => value.as_array(),
        None => None,
    }
}

/// The texts that these are, if each is one. An error is want of memory.
fn texts_of<'a>(alloc: Global, items: &'a [Value]) -> Result<Option<Items<TextRef<'a>>>, AllocError>
    ensures { Gives result (spec.each_read spec.text_of (items_view items.now)) }
{
    let mut texts = Items::with_capacity(alloc, items.len())?;
    'items: for item in items {
        match text_of(item) {
            Some(text) => texts.push(text)?,
            None => return Ok(None),
        }
    }
    Ok(Some(texts))
}

/// The texts of the list under a key, if one of texts stands there. An error is want of memory.
pub fn texts_at<'a>(
    alloc: Global,
    json: &'a Value,
    key: &str,
) -> Result<Option<Items<TextRef<'a>>>, AllocError>
    ensures { Gives result (spec.list_at spec.text_of key.now (view json.now)) }
{
    match list_at(json, key) {
        Some(items) => texts_of(alloc, items.as_slice()),
        None => Ok(None),
    }
}

/// The texts of the list under a key, where one may be missing, which is the same as no text;
/// `None` where something else stands there. An error is want of memory.
pub fn texts_if<'a>(
    alloc: Global,
    json: &'a Value,
    key: &str,
) -> Result<Option<Items<TextRef<'a>>>, AllocError>
    ensures { Gives result (spec.list_if spec.text_of key.now (view json.now)) }
{
    match json.get(key) {
        Some(value) => match value.as_array() {
            Some(items) => texts_of(alloc, items.as_slice()),
            None => Ok(None),
        },
        None => Ok(Some(Items::new(alloc))),
    }
}

//! Where fields stand.

ghost use Rattle.std.specs.Prelude.{◌≡◌};
ghost use Rattle.std.specs.Option.{option_copied};
ghost use Rattle.graphql_text.specs.Memory.{Gives};
ghost use Rattle.graphql_execution_walk.specs.FieldPaths.{keys_of, own_key, start_of_path};

use graphql_text::{Items, SourcePosition, Text, TextRef};
use std::alloc::{AllocError, Global};

/// Where a field stands (GraphQL October 2021, 7.1.2 Errors): in the request's text, and in the
/// data by the response keys from its root down to the field. It is lent, so that a field takes no
/// memory for it.
#[derive(Clone, Copy)]
pub enum FieldPath<'p> {
    /// At the root of the data, which is where the operation starts.
    Root(SourcePosition),

    /// A field below another one: its response key, its start, and where that other one stands.
    Field(&'p str, SourcePosition, &'p FieldPath<'p>),

    /// A field by all the keys that lead to it, the last of which is its own, and its start.
    Keys(&'p [TextRef<'p>], SourcePosition),
}

impl<'p> FieldPath<'p> {
    /// Where the field starts.
    pub fn location(&self) -> &SourcePosition
        ensures { result.now ≡ start_of_path self.now }
    {
        match self {
            FieldPath::Root(place) => place,
            FieldPath::Field(_, place, _) => place,
            FieldPath::Keys(_, place) => place,
        }
    }

    /// The field's own response key, the last of those that lead to it; `None` at the root.
    pub fn key(&self) -> Option<&'p str>
        ensures { option_copied result ≡ own_key self.now }
    {
        match *self {
            FieldPath::Root(_) => None,
            FieldPath::Field(key, _, _) => Some(key),
            FieldPath::Keys(keys, _) => match keys.last() {
                Some(key) => Some(key.as_str()),
                None => None,
            },
        }
    }

    /// The response keys from the root of the data down to the field, lent. It takes stack for each
    /// `Field` above it. An error is want of memory.
    pub fn lent_keys(&self, alloc: Global) -> Result<Items<TextRef<'p>>, AllocError>
        ensures { Gives result (keys_of self.now) }
    {
        match self {
            FieldPath::Root(_) => Ok(Items::new(alloc)),
            FieldPath::Field(key, _, above) => {
                let mut keys = above.lent_keys(alloc)?;
                keys.push(TextRef::new(key))?;
                Ok(keys)
            }
            FieldPath::Keys(keys, _) => keys_again(alloc, keys),
        }
    }

    /// The same keys, as texts of their own. An error is want of memory.
    pub fn keys(&self, alloc: Global) -> Result<Items<Text>, AllocError>
        ensures { Gives result (keys_of self.now) }
    {
        let keys = self.lent_keys(alloc)?;
        copied_keys(alloc, keys.as_slice())
    }
}

/// The keys, lent once more. An error is want of memory.
fn keys_again<'p>(alloc: Global, keys: &[TextRef<'p>]) -> Result<Items<TextRef<'p>>, AllocError>
    ensures { Gives result keys.now }
{
    let mut path = Items::with_capacity(alloc, keys.len())?;
    for key in keys {
        path.push(key.copied())?;
    }
    Ok(path)
}

/// The keys, as texts of their own. An error is want of memory.
pub(crate) fn copied_keys(alloc: Global, keys: &[TextRef<'_>]) -> Result<Items<Text>, AllocError>
    ensures { Gives result keys.now }
{
    let mut path = Items::with_capacity(alloc, keys.len())?;
    for key in keys {
        path.push(Text::from_str(alloc, key.as_str())?)?;
    }
    Ok(path)
}

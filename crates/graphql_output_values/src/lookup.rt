//! Values looked up by their keys, where many are in one object.

ghost use Rattle.std.specs.Prelude.{◌≡◌, IfOk, is_some};
ghost use Rattle.std.specs.Option.{option_copied};
ghost use Rattle.graphql_output_values.specs.Lookups.{IsLookupOf, IsIndex, value_under};

use crate::object::Object;
use crate::value::Value;
use std::alloc::AllocError;
use std::collections::HashMap;

/// As many fields as are gone through for each key rather than put into an index.
const FEW_FIELDS: usize = 8;

/// Where values are found by their keys in one object.
#[derive(Drop)]
pub(crate) enum Lookup<'a, S> {
    /// The values by their keys.
    Index(HashMap<&'a str, &'a Value<S>>),

    /// The object itself, whose fields are gone through.
    Scan(&'a Object<S>),
}

impl<'a, S> Lookup<'a, S> {
    /// Of an object: an index where it has more than a few fields and there is memory for one, else
    /// a scan.
    pub(crate) fn new(object: &'a Object<S>) -> Lookup<'a, S>
        ensures { IsLookupOf result object.now.fields }
    {
        if object.field_count() <= FEW_FIELDS {
            return Lookup::Scan(object);
        }
        match index_of(object) {
            Ok(values) => Lookup::Index(values),
            Err(_) => Lookup::Scan(object),
        }
    }

    /// The value of the field of this key, if there is one.
    pub(crate) fn get(&self, key: &str) -> Option<&'a Value<S>>
        ensures { option_copied result ≡ value_under self.now key.now }
    {
        match self {
            Lookup::Index(values) => match values.get(key) {
                Some(value) => Some(*value),
                None => None,
            },
            Lookup::Scan(object) => object.get_field_value(key),
        }
    }

    /// Whether there is a field of this key.
    pub(crate) fn contains(&self, key: &str) -> bool
        ensures { result ≡ is_some (value_under self.now key.now) }
    {
        self.get(key).is_some()
    }
}

/// The values of an object by their keys: of fields of one key, the first one's. An error is want
/// of memory.
fn index_of<'a, S>(object: &'a Object<S>) -> Result<HashMap<&'a str, &'a Value<S>>, AllocError>
    ensures { IfOk result (λ values. IsIndex values object.now.fields) }
{
    let fields = object.as_slice();
    let mut values = HashMap::with_capacity(*object.fields.allocator(), fields.len())?;
    let mut left = fields.len();
    'fields: while left > 0 {
        left -= 1;
        let field = &fields[left];
        let _ = values.insert(field.0.as_str(), &field.1)?;
    }
    Ok(values)
}

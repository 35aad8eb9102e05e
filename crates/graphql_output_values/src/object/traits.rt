ghost use Rattle.std.specs.Prelude.{◌≡◌, [], ◌^◌, ◌<◌, length};
ghost use Rattle.std.specs.Slice.Iter.{iter_rest, iter_steps};
ghost use Rattle.std.specs.Iterator.Runs.{EveryRun, ItemsMapTo, ItemsAre};
ghost use Rattle.std.specs.Vec.Iter.{into_iter_items, into_iter_len, into_iter_steps};
ghost use Rattle.std.specs.declared.alloc.Global.{Global};
ghost use Rattle.graphql_output_values.specs.declared.key.Key.{Key};
ghost use Rattle.graphql_output_values.specs.declared.value.Value.{Value};
ghost use Rattle.graphql_output_values.specs.Objects.{with_fields};

use super::Object;
use crate::key::Key;
use crate::value::Value;
use graphql_text::Items;
use std::alloc::{AllocError, Global};
use std::slice::Iter;
use std::vec::IntoIter;

// The fields in order, each its key and its value.
impl<S: Drop> IntoIterator for Object<S> {
    type Item = (Key, Value<S>);

    type IntoIter = IntoIter<(Key, Value<S>), Global>;

    ghost into_iter_gives = { λ object r. (into_iter_items r ≡ object.fields)
        × (into_iter_len r ≡ length object.fields)
        × (into_iter_len r < 2 ^ 64)
        × EveryRun (into_iter_steps {X = Key × Value S} {Z = Global})
        (λ p. ItemsAre p (into_iter_items p.from)) };

    fn into_iter(self) -> IntoIter<(Key, Value<S>), Global> {
        self.fields.into_iter()
    }
}

impl<'a, S> IntoIterator for &'a Object<S> {
    type Item = &'a (Key, Value<S>);

    type IntoIter = Iter<'a, (Key, Value<S>)>;

    ghost into_iter_gives = { λ object r. (iter_rest r ≡ object.now.fields)
        × (length (iter_rest r) < 2 ^ 64)
        × EveryRun (iter_steps {A = Key × Value S})
        (λ p. ItemsMapTo p (λ y. y.now) (iter_rest p.from)) };

    fn into_iter(self) -> Iter<'a, (Key, Value<S>)> {
        self.iter()
    }
}

// Each pair is put in turn: of pairs of one key the last is the value, at the place of the first.
// So it takes the square of their number, where `from_distinct` looks for no key. The laws
// `made_distinct` and `made_distinct_throughout` speak of the keys.
impl<S: Drop> FromIterator<(Key, Value<S>)> for Object<S> {
    type Alloc = Global;

    ghost from_iter_gives = { λ pairs made. made.fields ≡ with_fields [] pairs };

    fn from_iter<U: IntoIterator<Item = (Key, Value<S>)>>(
        alloc: Global,
        pairs: U,
    ) -> Result<Object<S>, AllocError> {
        let mut object = Object {
            fields: Items::new(alloc),
        };
        for pair in pairs {
            let (key, value) = pair;
            let _ = object.add_field(key, value)?;
        }
        Ok(object)
    }
}

//! Values, as an execution answers them.

ghost use Rattle.std.specs.Prelude.{◌≡◌, IsTrue, ◌↔◌, List, map};
ghost use Rattle.std.specs.Borrow.{sem};
ghost use Rattle.std.specs.Option.{option_copied, option_copied_mut};
ghost use Rattle.graphql_text.specs.Memory.{Gives};
ghost use Rattle.graphql_output_values.specs.Lending.{LendsObject};
ghost use Rattle.graphql_output_values.specs.Values.{Holds, Turns, map_field, map_scalars};
ghost use Rattle.graphql_output_values.specs.declared.value.Value.TheVariants as value;

mod let_go;

use crate::key::Key;
use crate::object::Object;
use graphql_scalars::DefaultScalarValue;
use graphql_text::Items;
use std::alloc::AllocError;

/// A value that a field, or a whole operation, answers (GraphQL October 2021, 7.1 Response Format).
#[cycle(values)]
#[derive(Debug)]
pub enum Value<S = DefaultScalarValue> {
    /// `null`
    Null,

    /// A number, a string or a boolean.
    Scalar(S),

    /// A list of values, in order.
    List(Items<Value<S>>),

    /// Fields with their values, in order.
    Object(Object<S>),
}

impl<S> Value<S> {
    /// The value `null`.
    pub fn null() -> Value<S>
        ensures { result ≡ value.Null }
    {
        Value::Null
    }

    /// The value of the scalar that `scalar` converts to, or is.
    pub fn scalar<T: Into<S>>(scalar: T) -> Value<S>
        ensures { (s : S) × T.converts scalar s × (result ≡ value.Scalar s) }
    {
        Value::Scalar(scalar.into())
    }

    /// The list of these values. Takes no memory. The law `distinct_by_forms` speaks of the keys in
    /// it.
    pub fn list(items: Items<Value<S>>) -> Value<S>
        ensures { result ≡ value.List items }
    {
        Value::List(items)
    }

    /// The value of this object. Takes no memory. The law `distinct_by_forms` speaks of the keys in
    /// it.
    pub fn object(object: Object<S>) -> Value<S>
        ensures { result ≡ value.Object object }
    {
        Value::Object(object)
    }

    /// Whether this is `null`.
    pub fn is_null(&self) -> bool
        ensures { IsTrue result ↔ (self.now ≡ value.Null) }
    {
        match self {
            Value::Null => true,
            _ => false,
        }
    }

    /// The object that this is, if it is one.
    pub fn as_object_value(&self) -> Option<&Object<S>>
        ensures { Holds value.Object self.now (option_copied result) }
    {
        match self {
            Value::Object(object) => Some(object),
            _ => None,
        }
    }

    /// The object that this is, if it is one.
    pub fn into_object(self) -> Option<Object<S>>
    where
        S: Drop,
        ensures { Holds value.Object self result }
    {
        match self {
            Value::Object(object) => Some(object),
            _ => None,
        }
    }

    /// The object that this is, if it is one, to be written to.
    pub fn as_mut_object_value(&mut self) -> Option<&mut Object<S>>
        ensures* writes_back { sem 𝓛 (LendsObject S.row self.entry result) }
        ensures value { Holds value.Object self.old (option_copied_mut result) }
    {
        match self {
            Value::Object(object) => Some(object),
            _ => None,
        }
    }

    /// The items of the list that this is, if it is one.
    pub fn as_list_value(&self) -> Option<&[Value<S>]>
        ensures { Holds value.List self.now (option_copied result) }
    {
        match self {
            Value::List(items) => Some(items.as_slice()),
            _ => None,
        }
    }

    /// The scalar that this is, if it is one.
    pub fn as_scalar(&self) -> Option<&S>
        ensures { Holds value.Scalar self.now (option_copied result) }
    {
        match self {
            Value::Scalar(scalar) => Some(scalar),
            _ => None,
        }
    }

    /// The value of the same shape with each scalar mapped. An error is want of memory. It takes
    /// stack for each level of the value. Keys stay as they are, which is the law
    /// `mapped_keeps_keys`.
    pub fn map_scalar_value<T: Drop, F: Fn(S) -> T + Drop>(
        self,
        turn: F,
    ) -> Result<Value<T>, AllocError>
    where
        S: Drop,
        requires { (s : S) → F.pre turn s }
        ensures { (f : S → T) → Turns (F.post turn) f → Gives result (map_scalars f self) }
    {
        self.mapped(&turn)
    }
}

impl<S: Drop> Value<S> {
    /// The value with each scalar mapped. An error is want of memory. It calls itself for each
    /// level.
    #[cycle(map_scalars)]
    fn mapped<T: Drop, F: Fn(S) -> T>(self, turn: &F) -> Result<Value<T>, AllocError>
        requires { (s : S) → F.pre turn.now s }
        ensures { (f : S → T) → Turns (F.post turn.now) f → Gives result (map_scalars f self) }
    {
        match self {
            Value::Null => Ok(Value::Null),
            Value::Scalar(scalar) => Ok(Value::Scalar(turn(scalar))),
            Value::List(items) => Ok(Value::List(Value::map_items(items, turn)?)),
            Value::Object(object) => {
                let fields = Value::map_fields(object.fields, turn)?;
                Ok(Value::Object(Object { fields }))
            }
        }
    }

    /// The values with each scalar mapped, in order.
    #[cycle(map_scalars)]
    fn map_items<T: Drop, F: Fn(S) -> T>(
        items: Items<Value<S>>,
        turn: &F,
    ) -> Result<Items<Value<T>>, AllocError>
        requires { (s : S) → F.pre turn.now s }
        ensures { (f : S → T) → Turns (F.post turn.now) f
            → Gives result (map (map_scalars f) items) }
    {
        let mut all = Items::with_capacity(*items.allocator(), items.len())?;
        for item in items {
            all.push(item.mapped(turn)?)?;
        }
        Ok(all)
    }

    /// The fields with each scalar mapped, in order.
    #[cycle(map_scalars)]
    fn map_fields<T: Drop, F: Fn(S) -> T>(
        fields: Items<(Key, Value<S>)>,
        turn: &F,
    ) -> Result<Items<(Key, Value<T>)>, AllocError>
        requires { (s : S) → F.pre turn.now s }
        ensures { (f : S → T) → Turns (F.post turn.now) f
            → Gives result (map (map_field f) fields) }
    {
        let mut all = Items::with_capacity(*fields.allocator(), fields.len())?;
        for field in fields {
            let (key, value) = field;
            all.push((key, value.mapped(turn)?))?;
        }
        Ok(all)
    }
}

/// A loop, which takes no memory, and no more stack however deep the value is. It ends since each
/// turn lets one go of the values that stand in this one, itself among them.
impl<S: Drop> Drop for Value<S> {
    fn drop(mut self) {
        'values: while let Some(others) = self.let_one_go() {
            self = others;
        }
    }
}

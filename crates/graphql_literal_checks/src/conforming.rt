//! Whether a value conforms to a type, by a loop over what is open.

ghost use Rattle.std.specs.Prelude.{◌≡◌, ◌<◌, ◌+◌, ◌*◌, OnOk};
ghost use Rattle.graphql_text.specs.Memory.{Told};
ghost use Rattle.graphql_values.specs.Counts.{value_count};
ghost use Rattle.graphql_literal_checks.specs.Conforms.{Conforms};
ghost use Rattle.graphql_literal_checks.specs.Judged.{AloneFits, FieldFits, IsMemory, IsObject};
ghost use Rattle.graphql_literal_checks.specs.Judged.{ListFits, ObjectFits, are_constant};
ghost use Rattle.graphql_literal_checks.specs.Judged.{is_constant, lent};
ghost use Rattle.graphql_literal_checks.specs.OpenValues.{ListOwes, ObjectOwes, LeavesAsked, Owes};
ghost use Rattle.graphql_literal_checks.specs.OpenValues.{all_left, fields_left, items_left};
ghost use Rattle.graphql_literal_checks.specs.OpenValues.{left_in, list_constant, object_constant};
ghost use Rattle.graphql_literal_checks.specs.OpenValues.{stays_constant};

use crate::input_fields::declared_field;
use crate::judging::{judge_enum, judge_scalar, judge_whole, no_list, one_if_asked};
use crate::misfit::Misfit;
use crate::open_values::{Open, OpenList, OpenObject, Pair, add};
use crate::reasons::{invalid_value, null_given, unknown_field, wrong_size};
use crate::source::Source;
use crate::wraps::{allows, list_within, size_but_one};
use graphql_names::BorrowedType;
use graphql_schema::{InputObjectMeta, Meaning, MetaType, SchemaScalar, SchemaType};
use graphql_text::{Items, Spanning, TextRef};
use graphql_values::InputValue;
use std::alloc::Global;

/// What values are judged by: the types of a schema, and where the values come from.
#[derive(Drop)]
pub(crate) struct Judge<'a, S, C = <S as SchemaScalar>::Check> {
    pub(crate) alloc: Global,
    pub(crate) schema: &'a SchemaType<S, C>,
    pub(crate) source: Source,
}

impl<'a, S: SchemaScalar> Judge<'a, S> {
    /// Whether the value conforms to the type: `Ok` where it does. What is yet to be judged of the
    /// lists and objects around a part stands on the heap, so a deep value takes no more stack.
    pub(crate) fn judge(
        &self,
        asked: &BorrowedType<'a>,
        value: &'a InputValue<S>,
    ) -> Result<(), Misfit>
        ensures { Told IsMemory result (Conforms ⟦<S as Meaning>⟧.meaning self.now.schema.now.types
            self.now.source (lent asked.now) value.now) }
    {
        let mut opened: Items<Open<'a, S>> = Items::new(self.alloc);
        let mut constant = self.enter(&mut opened, asked, value)?;
        'values: while let Some(innermost) = opened.pop() {
            match self.resume(&mut opened, innermost, constant) {
                Ok(told) => constant = told,
                Err(misfit) => return Err(misfit.within(self.alloc, opened.as_slice())),
            }
        }
        Ok(())
    }

    /// Begins with a value: opens it where it has parts that are yet to be judged, and judges it
    /// whole otherwise. `Ok` tells whether no variable stands in what was judged.
    fn enter(
        &self,
        opened: &mut Items<Open<'a, S>>,
        asked: &BorrowedType<'a>,
        value: &'a InputValue<S>,
    ) -> Result<bool, Misfit>
        ensures fits { LeavesAsked ⟦<S as Meaning>⟧.meaning self.now.schema.now.types
            self.now.source (Conforms ⟦<S as Meaning>⟧.meaning self.now.schema.now.types
            self.now.source
            (lent asked.now) value.now) (is_constant value.now) result opened.old opened.new }
        ensures ends { OnOk result
            (all_left opened.new < all_left opened.old + 2 * value_count value.now) }
    {
        match value {
            InputValue::Null => {
                if asked.is_non_null() {
                    Err(null_given(self.alloc, asked))
                } else {
                    Ok(true)
                }
            }
            InputValue::Variable(_) => Ok(false),
            InputValue::List(items) => self.enter_list(opened, asked, items.as_slice(), value),
            _ => self.enter_alone(opened, asked, value),
        }
    }

    /// Opens a list: the type is a list of so many items.
    fn enter_list(
        &self,
        opened: &mut Items<Open<'a, S>>,
        asked: &BorrowedType<'a>,
        items: &'a [Spanning<InputValue<S>>],
        value: &InputValue<S>,
    ) -> Result<bool, Misfit>
        ensures fits { LeavesAsked ⟦<S as Meaning>⟧.meaning self.now.schema.now.types
            self.now.source (ListFits ⟦<S as Meaning>⟧.meaning self.now.schema.now.types
            self.now.source
            (lent asked.now) items.now) (are_constant items.now) result opened.old opened.new }
        ensures ends { OnOk result
            (all_left opened.new ≡ all_left opened.old + items_left items.now) }
    {
        match list_within(asked.modifiers) {
            Some((size, modifiers)) => {
                if !allows(size, items.len()) {
                    return Err(wrong_size(self.alloc, size.unwrap_or(1), items.len()));
                }
                let within = BorrowedType {
                    name: asked.name.copied(),
                    modifiers,
                };
                add(
                    opened,
                    Open::List(OpenList {
                        asked: within,
                        rest: items,
                        constant: true,
                    }),
                )?;
                Ok(true)
            }
            None => Err(no_list(self.alloc, self.schema, asked, value)),
        }
    }

    /// Begins with a value that is no list: it may stand as the one item of each list, and is of
    /// the named type.
    fn enter_alone(
        &self,
        opened: &mut Items<Open<'a, S>>,
        asked: &BorrowedType<'a>,
        value: &'a InputValue<S>,
    ) -> Result<bool, Misfit>
        ensures fits { LeavesAsked ⟦<S as Meaning>⟧.meaning self.now.schema.now.types
            self.now.source (AloneFits ⟦<S as Meaning>⟧.meaning self.now.schema.now.types
            self.now.source
            (lent asked.now) value.now) (is_constant value.now) result opened.old opened.new }
        ensures ends { OnOk result
            (all_left opened.new < all_left opened.old + 2 * value_count value.now) }
    {
        if let Some(size) = size_but_one(asked.modifiers) {
            return Err(wrong_size(self.alloc, size, 1));
        }
        let type_name = asked.name.as_str();
        match self.schema.concrete_type_by_name(type_name) {
            Some(MetaType::Scalar(meta)) => judge_scalar(self.alloc, meta, value),
            Some(MetaType::Enum(meta)) => judge_enum(self.alloc, self.source, meta, value),
            Some(MetaType::InputObject(meta)) => self.enter_object(opened, meta, value),
            _ => Err(invalid_value(self.alloc, type_name, value)),
        }
    }

    /// Opens an object of an input object's fields (3.10 Input Objects). That not exactly one is
    /// given where exactly one is asked for is told before what is wrong with their values.
    fn enter_object(
        &self,
        opened: &mut Items<Open<'a, S>>,
        meta: &'a InputObjectMeta<S, S::Check>,
        value: &'a InputValue<S>,
    ) -> Result<bool, Misfit>
        ensures fits { LeavesAsked ⟦<S as Meaning>⟧.meaning self.now.schema.now.types
            self.now.source (IsObject (ObjectFits ⟦<S as Meaning>⟧.meaning self.now.schema.now.types
            self.now.source
            meta.now) value.now) (is_constant value.now) result opened.old opened.new }
        ensures ends { OnOk result
            (all_left opened.new < all_left opened.old + 2 * value_count value.now) }
    {
        match value {
            InputValue::Object(fields) => {
                let pairs = fields.as_slice();
                if let Err(misfit) = one_if_asked(self.alloc, meta, pairs) {
                    return Err(misfit);
                }
                add(
                    opened,
                    Open::Object(OpenObject {
                        meta,
                        value,
                        pairs,
                        rest: pairs,
                        field: None,
                        constant: true,
                    }),
                )?;
                Ok(true)
            }
            _ => Err(invalid_value(self.alloc, meta.name.as_str(), value)),
        }
    }

    /// Goes on with the innermost list or object that is open. It is told whether no variable stood
    /// in its part that was judged, and `Ok` tells the same of what was judged then.
    fn resume(
        &self,
        opened: &mut Items<Open<'a, S>>,
        innermost: Open<'a, S>,
        constant: bool,
    ) -> Result<bool, Misfit>
        ensures fits { LeavesAsked ⟦<S as Meaning>⟧.meaning self.now.schema.now.types
            self.now.source (Owes ⟦<S as Meaning>⟧.meaning self.now.schema.now.types
            self.now.source constant
            innermost.entry) (stays_constant constant innermost.entry) result opened.old
            opened.new }
        ensures ends { OnOk result
            (all_left opened.new < all_left opened.old + left_in innermost.entry) }
    {
        match innermost {
            Open::List(list) => self.next_item(opened, list, constant),
            Open::Object(object) => self.next_field(opened, object, constant),
        }
    }

    /// Begins with the next item of a list, or ends the list where there is none.
    fn next_item(
        &self,
        opened: &mut Items<Open<'a, S>>,
        list: OpenList<'a, S>,
        constant: bool,
    ) -> Result<bool, Misfit>
        ensures fits { LeavesAsked ⟦<S as Meaning>⟧.meaning self.now.schema.now.types
            self.now.source (ListOwes ⟦<S as Meaning>⟧.meaning self.now.schema.now.types
            self.now.source list.entry)
            (list_constant constant list.entry) result opened.old opened.new }
        ensures ends { OnOk result
            (all_left opened.new < all_left opened.old + items_left list.entry.rest.now) }
    {
        let constant = list.constant & constant;
        match list.rest.split_first() {
            None => Ok(constant),
            Some((item, rest)) => {
                let asked = BorrowedType {
                    name: list.asked.name.copied(),
                    modifiers: list.asked.modifiers,
                };
                add(
                    opened,
                    Open::List(OpenList {
                        asked: list.asked,
                        rest,
                        constant,
                    }),
                )?;
                self.enter(opened, &asked, &item.item)
            }
        }
    }

    /// Begins with the next field of an object, or ends the object where there is none.
    fn next_field(
        &self,
        opened: &mut Items<Open<'a, S>>,
        object: OpenObject<'a, S>,
        constant: bool,
    ) -> Result<bool, Misfit>
        ensures fits { LeavesAsked ⟦<S as Meaning>⟧.meaning self.now.schema.now.types
            self.now.source (ObjectOwes ⟦<S as Meaning>⟧.meaning self.now.schema.now.types
            self.now.source constant
            object.entry) (object_constant constant object.entry) result opened.old opened.new }
        ensures ends { OnOk result
            (all_left opened.new < all_left opened.old + fields_left object.entry.rest.now) }
    {
        let constant = object.constant & constant;
        match object.rest.split_first() {
            None => judge_whole(
                self.alloc,
                object.meta,
                object.pairs,
                object.value,
                constant,
            ),
            Some((field, rest)) => self.enter_field(
                opened,
                OpenObject {
                    meta: object.meta,
                    value: object.value,
                    pairs: object.pairs,
                    rest,
                    field: Some(TextRef::new(field.0.item.as_str())),
                    constant,
                },
                field,
            ),
        }
    }

    /// Begins with a field of an object, of which the other fields are yet to be judged: the field
    /// is declared (5.6.2 Input Object Field Names).
    fn enter_field(
        &self,
        opened: &mut Items<Open<'a, S>>,
        object: OpenObject<'a, S>,
        field: &'a Pair<S>,
    ) -> Result<bool, Misfit>
        ensures fits { LeavesAsked ⟦<S as Meaning>⟧.meaning self.now.schema.now.types
            self.now.source (FieldFits ⟦<S as Meaning>⟧.meaning self.now.schema.now.types
            self.now.source object.entry.meta.now.input_fields field.now.0.item field.now.1.item
            × ObjectOwes ⟦<S as Meaning>⟧.meaning self.now.schema.now.types
            self.now.source (is_constant field.now.1.item) object.entry)
            (object_constant (is_constant field.now.1.item) object.entry) result opened.old
            opened.new }
        ensures ends { OnOk result (all_left opened.new < all_left opened.old
            + fields_left object.entry.rest.now + 2 * value_count field.now.1.item) }
    {
        let name = field.0.item.as_str();
        match declared_field(object.meta, name) {
            None => Err(unknown_field(self.alloc, name, object.meta.name.as_str())),
            Some(declared) => {
                add(opened, Open::Object(object))?;
                self.enter(opened, &declared.arg_type.borrowed(), &field.1.item)
            }
        }
    }
}

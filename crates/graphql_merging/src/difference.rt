//! Whether two fields of one response key agree.

ghost use Rattle.std.specs.Prelude.{◌≡◌, ◌↔◌, IfOk, IsTrue, List, ◌||◌};
ghost use Rattle.graphql_occurrences.specs.DeclaredLent.{literal_of};
ghost use Rattle.graphql_tree.specs.declared.document.Fragment.{Fragment};
ghost use Rattle.graphql_tree.specs.Documents.{arguments_in as arguments_given};
ghost use Rattle.graphql_merging.specs.Members.{declared, declared_type};
ghost use Rattle.graphql_merging.specs.Merging.{SameShape, SameShapes, apart, SameArguments};
ghost use Rattle.graphql_merging.specs.Selected.{member_of};
ghost use Rattle.graphql_merging.specs.Told.{Differs, DiffersAsWritten};

use crate::arguments::same_arguments;
use crate::declarations::{are_different_objects, declared_type, is_leaf};
use crate::selected::SelectedField;
use crate::wraps::same_wraps;
use graphql_occurrences::TypeLiteral;
use graphql_schema::{MetaType, SchemaType};
use graphql_tree::{Field, arguments_in};
use std::alloc::{AllocError, Global};

/// What two fields do not have alike, in the order in which it is asked: names come before
/// arguments, and these before types.
#[derive(Clone, Copy, Debug, PartialEq, Eq, PartialOrd, Ord)]
pub enum Difference {
    /// The names of the fields.
    Names,

    /// The arguments.
    Arguments,

    /// The shapes of their types.
    Types,
}

/// Whether the types have one shape.
fn same_shape<S, C>(
    schema: &SchemaType<S, C>,
    left: TypeLiteral<'_>,
    right: TypeLiteral<'_>,
) -> bool
    ensures { IsTrue result
        ↔ SameShape schema.now.types (literal_of left.entry) (literal_of right.entry) }
{
    if !same_wraps(left.modifiers, right.modifiers) {
        return false;
    }
    if is_leaf(schema, left.name) || is_leaf(schema, right.name) {
        return left.name == right.name;
    }
    true
}

/// Whether the fields of these names have one shape, as far as they are declared.
fn same_shapes<S, C>(
    schema: &SchemaType<S, C>,
    left: &MetaType<S, C>,
    name: &str,
    right: &MetaType<S, C>,
    other: &str,
) -> bool
    ensures { IsTrue result
        ↔ SameShapes schema.now.types (declared_type left.now name.now)
        (declared_type right.now other.now) }
{
    let Some(one) = declared_type(left, name) else {
        return true;
    };
    let Some(another) = declared_type(right, other) else {
        return true;
    };
    same_shape(schema, one, another)
}

/// Whether of two fields shapes alone are asked.
pub fn is_excused<S, C>(
    around: bool,
    left: &SelectedField<'_, '_, S, C>,
    right: &SelectedField<'_, '_, S, C>,
) -> bool
    ensures { (fragments : List (Fragment S))
        → result ≡ (around || apart (member_of fragments left.now)
        (member_of fragments right.now)) }
{
    around || are_different_objects(left.parent, right.parent)
}

/// What two fields do not have alike of their names and arguments, where these are asked. An error
/// is want of memory.
fn written_difference<S: PartialEq>(
    alloc: Global,
    excused: bool,
    left: &Field<'_, S>,
    right: &Field<'_, S>,
) -> Result<Option<Difference>, AllocError>
    ensures { IfOk result (DiffersAsWritten S.eq excused left.now.name.item right.now.name.item
        (arguments_given left.now.arguments) (arguments_given right.now.arguments)) }
{
    if excused {
        return Ok(None);
    }
    if left.name.item.as_str() != right.name.item.as_str() {
        return Ok(Some(Difference::Names));
    }
    let same = same_arguments(
        alloc,
        arguments_in(&left.arguments),
        arguments_in(&right.arguments),
    )?;
    if !same {
        return Ok(Some(Difference::Arguments));
    }
    Ok(None)
}

/// What two fields of one response key do not have alike, if anything: their names, then their
/// arguments, then the shapes of their types (GraphQL October 2021, 5.3.2 Field Selection Merging).
/// `around`: whether fields around them have parents that are different object types; below such
/// fields, and of fields with such parents, shapes alone are asked. An error is want of memory.
pub fn first_difference<S: PartialEq, C>(
    alloc: Global,
    schema: &SchemaType<S, C>,
    around: bool,
    left: &SelectedField<'_, '_, S, C>,
    right: &SelectedField<'_, '_, S, C>,
) -> Result<Option<Difference>, AllocError>
    ensures { IfOk result (λ difference. (fragments : List (Fragment S))
        → Differs S.eq
        schema.now.types around (member_of fragments left.now)
        (member_of fragments right.now) difference) }
{
    let excused = is_excused(around, left, right);
    let written = written_difference(alloc, excused, &left.field.item, &right.field.item)?;
    match written {
        Some(difference) => Ok(Some(difference)),
        None => {
            let name = left.field.item.name.item.as_str();
            let other = right.field.item.name.item.as_str();
            if same_shapes(schema, left.parent, name, right.parent, other) {
                Ok(None)
            } else {
                Ok(Some(Difference::Types))
            }
        }
    }
}

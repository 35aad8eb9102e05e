//! What is known of fields of an object type, whichever object of it they are asked of.

ghost use Rattle.std.specs.Prelude.{◌≡◌, IfOk, IfSome, Some, false};
ghost use Rattle.std.specs.Option.{option_copied, option_map, option_map_or};
ghost use Rattle.graphql_arguments.specs.GivenValues.{arguments_told};
ghost use Rattle.graphql_occurrences.specs.DeclaredLent.{literal_of};
ghost use Rattle.graphql_text.specs.Memory.{Gives, GivesBy};
ghost use Rattle.graphql_written_out.specs.Written.{head_of};
ghost use Rattle.graphql_execution_walk.specs.Engines.{arguments_given};
ghost use Rattle.graphql_execution_walk.specs.FieldDeclarations as spec;
ghost use Rattle.graphql_execution_walk.specs.Prepared.{ArePrepared, IsPrepared, Prepares};
ghost use Rattle.graphql_execution_walk.specs.Prepared.{asked_in, prepared_at};

use crate::asking::arguments_of;
use crate::fields::{declared_type, is_leaf};
use crate::shared::Shared;
use graphql_arguments::Arguments;
use graphql_collect::Group;
use graphql_collected::Request;
use graphql_occurrences::TypeLiteral;
use graphql_schema::{SchemaScalar, SchemaType};
use graphql_text::{Items, Spanning};
use graphql_tree::Field;
use std::alloc::{AllocError, Global};

/// What is known of a field of an object type.
#[derive(Clone, Copy)]
pub(crate) struct Prepared<'d> {
    /// The type that the schema declares for it.
    pub declared: TypeLiteral<'d>,

    /// Whether that is a scalar or an enum, its wraps aside.
    pub is_leaf: bool,

    /// Whether none of its arguments has a value.
    pub is_bare: bool,
}

/// What is known of the first fields of groups, which several objects hold.
pub(crate) type SharedPrepared<'d> = Shared<Items<Prepared<'d>>>;

/// What is known of the first field of a group, for the object type of this name; `None` where the
/// schema does not declare that field. An error is want of memory.
fn prepared_field<'d, 'a, S: SchemaScalar + Drop>(
    alloc: Global,
    request: &'d Request<'d, 'a, S>,
    object: &str,
    group: &Group<'d, 'a, S>,
) -> Result<Option<Prepared<'d>>, AllocError>
    ensures { IfOk result
        (λ prepared. IfSome prepared (IsPrepared (asked_in request.now) object.now group.now)) }
{
    let Some(first) = group.1.first() else {
        return Ok(None);
    };
    let field: &'d Spanning<Field<'a, S>> = first.field;
    let name = field.item.name.item.as_str();
    let Some(declared) = declared_type(request.schema, object, name) else {
        return Ok(None);
    };
    let is_leaf = is_leaf(request.schema, declared.name);
    let arguments = arguments_of(alloc, request, object, field)?;
    Ok(Some(Prepared {
        declared,
        is_leaf,
        is_bare: arguments.is_empty(),
    }))
}

/// What is known of the first fields of groups, for the object type of this name: of all of them
/// where the schema declares all, as it does in a valid document, else of those before the first
/// that it does not declare. An error is want of memory.
pub(crate) fn prepared_fields<'d, 'a, S: SchemaScalar + Drop>(
    alloc: Global,
    request: &'d Request<'d, 'a, S>,
    object: &str,
    groups: &[Group<'d, 'a, S>],
) -> Result<Items<Prepared<'d>>, AllocError>
    ensures { IfOk result (ArePrepared (asked_in request.now) object.now groups.now) }
{
    let mut all = Items::with_capacity(alloc, groups.len())?;
    'groups: for group in groups {
        let Some(prepared) = prepared_field(alloc, request, object, group)? else {
            return Ok(all);
        };
        all.push(prepared)?;
    }
    Ok(all)
}

/// The same, with one owner more. An error says that there are too many.
pub(crate) fn prepared_again<'d>(
    prepared: &Option<SharedPrepared<'d>>,
) -> Result<Option<SharedPrepared<'d>>, AllocError>
    ensures { Gives result prepared.now }
{
    match prepared {
        None => Ok(None),
        Some(prepared) => Ok(Some(prepared.again()?)),
    }
}

/// What is known of the first field of the group at this place, from zero.
pub(crate) fn prepared_at<'p, 'd>(
    prepared: &'p Option<SharedPrepared<'d>>,
    place: usize,
) -> Option<&'p Prepared<'d>>
    ensures { option_copied result ≡ prepared_at prepared.now place }
{
    match prepared {
        None => None,
        Some(prepared) => prepared.get().get(place),
    }
}

/// Whether a field's type is a scalar or an enum, where that is known.
pub(crate) fn leaf_told(prepared: Option<&Prepared<'_>>) -> Option<bool>
    ensures { result ≡ option_map (λ known. known.now.is_leaf) prepared.entry }
{
    match prepared {
        Some(prepared) => Some(prepared.is_leaf),
        None => None,
    }
}

/// Whether none of a field's arguments has a value, where that is known.
fn is_bare(prepared: Option<&Prepared<'_>>) -> bool
    ensures { result ≡ option_map_or (λ known. known.now.is_bare) prepared.entry false }
{
    match prepared {
        Some(prepared) => prepared.is_bare,
        None => false,
    }
}

/// The argument values of a field of the object type of this name, of which something may be known.
/// An error is want of memory.
pub(crate) fn arguments_at<'p, 'a, S: SchemaScalar + Drop>(
    alloc: Global,
    request: &'p Request<'p, 'a, S>,
    object: &str,
    field: &'p Spanning<Field<'a, S>>,
    prepared: Option<&Prepared<'_>>,
) -> Result<Arguments<'p, S>, AllocError>
    requires { IfSome prepared
        (λ known. Prepares (asked_in request.now) object.now (head_of field.now) known.now) }
    ensures { GivesBy arguments_told result
        (arguments_given request.now object.now (head_of field.now)) }
{
    if is_bare(prepared) {
        return Arguments::new(alloc, &[], &[], &request.variables);
    }
    arguments_of(alloc, request, object, field)
}

/// The type that the schema declares for a field of the object type of this name.
pub(crate) fn declared_at<'d, S, C>(
    schema: &'d SchemaType<S, C>,
    object: &str,
    name: &str,
    prepared: Option<&Prepared<'d>>,
) -> Option<TypeLiteral<'d>>
    requires { IfSome prepared (λ known. spec.declared_type schema.now.types object.now name.now
        ≡ Some (literal_of known.now.declared)) }
    ensures { option_map literal_of result
        ≡ spec.declared_type schema.now.types object.now name.now }
{
    match prepared {
        Some(prepared) => Some(prepared.declared),
        None => declared_type(schema, object, name),
    }
}

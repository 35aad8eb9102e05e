//! Which member of a file of a schema has not its shape.

ghost use Rattle.std.specs.Prelude.{◌≡◌};
ghost use Rattle.graphql_text.specs.Memory.{Gives};
ghost use Rattle.serde_json.specs.View.{items_view, view};
ghost use Rattle.graphql_schema_files.specs.ShapeFaults as spec;
ghost use Rattle.graphql_schema_files.specs.declared.wanted.Member.TheVariants as member;

use crate::drafts::DraftKind;
use crate::reading::json_of;
use crate::schema_file_error::SchemaFileError;
use crate::shapes::kind_in;
use crate::wanted::{Member, ShapeFault, Wanted};
use graphql_json::{list_at, text_at, text_if};
use serde_json::Value;
use std::alloc::{AllocError, Global};

/// The name of a member.
pub(crate) fn key_of(member: Member) -> &'static str
    ensures { result.now ≡ spec.key_of member }
{
    match member {
        Member::Query => "query",
        Member::Mutation => "mutation",
        Member::Types => "types",
        Member::Kind => "kind",
        Member::Name => "name",
        Member::Fields => "fields",
        Member::Interfaces => "interfaces",
        Member::Members => "members",
        Member::TypeText => "type",
        Member::Arguments => "args",
        Member::DefaultText => "default",
    }
}

/// This itself is something else than is wanted.
fn here(wanted: Wanted) -> ShapeFault
    ensures { result ≡ spec.here wanted }
{
    ShapeFault {
        type_index: None,
        field_index: None,
        argument_index: None,
        member: None,
        name_index: None,
        wanted,
    }
}

/// The member is missing, or something else than is wanted.
fn at_member(member: Member, wanted: Wanted) -> ShapeFault
    ensures { result ≡ spec.at_member member wanted }
{
    ShapeFault {
        type_index: None,
        field_index: None,
        argument_index: None,
        member: Some(member),
        name_index: None,
        wanted,
    }
}

/// The fault of what has to be an object.
fn object_fault(json: &Value) -> Option<ShapeFault>
    ensures { result ≡ spec.object_fault (view json.now) }
{
    (!json.is_object()).then_some(here(Wanted::Object))
}

/// The fault of what has to be the name of a type.
fn name_fault(json: &Value) -> Option<ShapeFault>
    ensures { result ≡ spec.name_fault (view json.now) }
{
    (!json.is_string()).then_some(here(Wanted::Text))
}

/// The fault of a text that must stand under a key.
fn text_fault(json: &Value, member: Member) -> Option<ShapeFault>
    ensures { result ≡ spec.text_fault member (view json.now) }
{
    let text = text_at(json, key_of(member));
    text.is_none().then_some(at_member(member, Wanted::Text))
}

/// The fault of a text that may be missing.
fn text_if_fault(json: &Value, member: Member) -> Option<ShapeFault>
    ensures { result ≡ spec.text_if_fault member (view json.now) }
{
    let text = text_if(json, key_of(member));
    text.is_none().then_some(at_member(member, Wanted::Text))
}

/// The fault of an argument.
fn argument_fault(json: &Value) -> Option<ShapeFault>
    ensures { result ≡ spec.argument_fault (view json.now) }
{
    let texts = text_fault(json, Member::TypeText).or(text_if_fault(json, Member::DefaultText));
    object_fault(json).or(text_fault(json, Member::Name).or(texts))
}

/// The fault of the first of these arguments that has one.
fn first_argument(items: &[Value]) -> Option<ShapeFault>
    ensures { result
        ≡ spec.first_fault spec.in_argument spec.argument_fault 0 (items_view items.now) }
{
    'items: for (place, item) in items.iter().enumerate() {
        match argument_fault(item) {
            Some(fault) => {
                return Some(ShapeFault {
                    type_index: None,
                    field_index: None,
                    argument_index: Some(place),
                    ..fault
                });
            }
            None => {}
        }
    }
    None
}

/// The fault of a field's arguments, which it may lack.
fn arguments_fault(json: &Value) -> Option<ShapeFault>
    ensures { result
        ≡ spec.list_if_fault spec.in_argument spec.argument_fault member.Arguments
        (view json.now) }
{
    match json.get("args") {
        Some(value) => match value.as_array() {
            Some(items) => first_argument(items.as_slice()),
            None => Some(at_member(Member::Arguments, Wanted::List)),
        },
        None => None,
    }
}

/// The fault of a field.
fn field_fault(json: &Value) -> Option<ShapeFault>
    ensures { result ≡ spec.field_fault (view json.now) }
{
    let parts = text_fault(json, Member::TypeText).or(arguments_fault(json));
    object_fault(json).or(text_fault(json, Member::Name).or(parts))
}

/// The fault of the first of these fields that has one.
fn first_field(items: &[Value]) -> Option<ShapeFault>
    ensures { result
        ≡ spec.first_fault spec.in_field spec.field_fault 0 (items_view items.now) }
{
    'items: for (place, item) in items.iter().enumerate() {
        match field_fault(item) {
            Some(fault) => {
                return Some(ShapeFault {
                    type_index: None,
                    field_index: Some(place),
                    ..fault
                });
            }
            None => {}
        }
    }
    None
}

/// The fault of the fields of a type of this kind. A union has none.
fn fields_fault(kind: DraftKind, json: &Value) -> Option<ShapeFault>
    ensures { result ≡ spec.fields_fault kind (view json.now) }
{
    if let DraftKind::Union = kind {
        return None;
    }
    match list_at(json, "fields") {
        Some(items) => first_field(items.as_slice()),
        None => Some(at_member(Member::Fields, Wanted::List)),
    }
}

/// The fault of the first of the names in a member's list that has one.
fn first_name(member: Member, items: &[Value]) -> Option<ShapeFault>
    ensures { result
        ≡ spec.first_fault (spec.in_names member) spec.name_fault 0 (items_view items.now) }
{
    'items: for (place, item) in items.iter().enumerate() {
        match name_fault(item) {
            Some(fault) => {
                return Some(ShapeFault {
                    type_index: None,
                    field_index: None,
                    argument_index: None,
                    member: Some(member),
                    name_index: Some(place),
                    wanted: fault.wanted,
                });
            }
            None => {}
        }
    }
    None
}

/// The fault of the interfaces of a type, which it may lack.
fn interfaces_fault(json: &Value) -> Option<ShapeFault>
    ensures { result
        ≡ spec.list_if_fault (spec.in_names member.Interfaces) spec.name_fault member.Interfaces
        (view json.now) }
{
    match json.get("interfaces") {
        Some(value) => match value.as_array() {
            Some(items) => first_name(Member::Interfaces, items.as_slice()),
            None => Some(at_member(Member::Interfaces, Wanted::List)),
        },
        None => None,
    }
}

/// The fault of the members of a union.
fn members_fault(json: &Value) -> Option<ShapeFault>
    ensures { result
        ≡ spec.list_fault (spec.in_names member.Members) spec.name_fault member.Members
        (view json.now) }
{
    match list_at(json, "members") {
        Some(items) => first_name(Member::Members, items.as_slice()),
        None => Some(at_member(Member::Members, Wanted::List)),
    }
}

/// The fault of the names that a type of this kind lists.
fn listed_fault(kind: DraftKind, json: &Value) -> Option<ShapeFault>
    ensures { result ≡ spec.listed_fault kind (view json.now) }
{
    match kind {
        DraftKind::Union => members_fault(json),
        DraftKind::Object | DraftKind::Interface => interfaces_fault(json),
    }
}

/// The fault of what its kind asks of a type, where it has one.
fn parts_fault(kind: Option<DraftKind>, json: &Value) -> Option<ShapeFault>
    ensures { result ≡ spec.parts_fault kind (view json.now) }
{
    match kind {
        Some(kind) => {
            let parts = fields_fault(kind, json).or(listed_fault(kind, json));
            text_fault(json, Member::Name).or(parts)
        }
        None => Some(at_member(Member::Kind, Wanted::Kind)),
    }
}

/// The fault of a type.
fn type_fault(json: &Value) -> Option<ShapeFault>
    ensures { result ≡ spec.type_fault (view json.now) }
{
    object_fault(json).or(parts_fault(kind_in(json), json))
}

/// The fault of the first of these types that has one.
fn first_type(items: &[Value]) -> Option<ShapeFault>
    ensures { result
        ≡ spec.first_fault spec.in_type spec.type_fault 0 (items_view items.now) }
{
    'items: for (place, item) in items.iter().enumerate() {
        match type_fault(item) {
            Some(fault) => {
                return Some(ShapeFault {
                    type_index: Some(place),
                    ..fault
                });
            }
            None => {}
        }
    }
    None
}

/// The fault of a file's types.
fn types_fault(json: &Value) -> Option<ShapeFault>
    ensures { result
        ≡ spec.list_fault spec.in_type spec.type_fault member.Types (view json.now) }
{
    match list_at(json, "types") {
        Some(items) => first_type(items.as_slice()),
        None => Some(at_member(Member::Types, Wanted::List)),
    }
}

/// The fault of a file that is JSON.
fn file_fault(json: &Value) -> Option<ShapeFault>
    ensures { result ≡ spec.file_fault (view json.now) }
{
    let parts = text_if_fault(json, Member::Mutation).or(types_fault(json));
    object_fault(json).or(text_fault(json, Member::Query).or(parts))
}

/// Which member of a file has not the shape of a schema's, and what is wanted there: the first,
/// where the members of an object are looked at in the order in which
/// [`SchemaFile::read`](crate::SchemaFile::read) names them, and the items of a list in theirs. The
/// file is refused with [`SchemaFileError::BadShape`] exactly where there is one.
///
/// `None` where the file has the shape, and where it is no JSON. The only error is want of memory,
/// which tells nothing of the file.
#[tactic(auto, using(crate::proofs::ShapeFaults::no_shape))]
pub fn shape_fault(alloc: Global, bytes: &[u8]) -> Result<Option<ShapeFault>, AllocError>
    ensures { Gives result (spec.fault_in bytes.now) }
{
    match json_of(alloc, bytes) {
        Ok(json) => Ok(file_fault(&json)),
        Err(SchemaFileError::Memory) => Err(AllocError),
        Err(_) => Ok(None),
    }
}

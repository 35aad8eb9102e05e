//! References to types that do not meet what is asked of them.

ghost use Rattle.std.specs.Prelude.{map, ◌||◌};
ghost use Rattle.std.specs.List.{flat_map};
ghost use Rattle.graphql_schema.specs.Types.{arguments_of, input_fields_of};
ghost use Rattle.graphql_schema.specs.Lookups.{argument_type_name, input_names, references_of};
ghost use Rattle.graphql_names.specs.Names.{Finds};
ghost use Rattle.graphql_schema.specs.Demands.{references_asked, misses, is_referred};
ghost use Rattle.graphql_schema.specs.declared.faults.demand.Demand.TheVariants as demand;

use super::demand::{Demand, is_unmet};
use super::parts::Reference;
use crate::{Field, MetaType};
use graphql_names::NameMap;

/// The name by which one of the items refers to a type that is not what is asked for.
fn unmet_among<'a, T: Reference, S, C>(
    wanted: Demand,
    types: &NameMap<MetaType<S, C>>,
    items: &'a [T],
) -> Option<&'a str>
    ensures { Finds (misses wanted types.now (map T.reference_of items.now)) result }
{
    'items: for item in items {
        let name = item.reference();
        if is_unmet(wanted, types.get(name)) {
            return Some(name);
        }
    }
    None
}

/// The name of a type of an argument of the fields that is not what is asked for.
fn unmet_argument<'a, S, C>(
    wanted: Demand,
    types: &NameMap<MetaType<S, C>>,
    fields: &'a [Field<S>],
) -> Option<&'a str>
    ensures { Finds (misses wanted types.now
        (flat_map (λ field. map argument_type_name (arguments_of field)) fields.now)) result }
{
    'fields: for field in fields {
        if let Some(name) = unmet_among(wanted, types, field.arguments()) {
            return Some(name);
        }
    }
    None
}

/// The name of a type of an argument or an input field that is not what is asked for.
fn unmet_input<'a, S, C>(
    wanted: Demand,
    types: &NameMap<MetaType<S, C>>,
    meta: &'a MetaType<S, C>,
) -> Option<&'a str>
    ensures { Finds (misses wanted types.now (input_names meta.now)) result }
{
    if let Some(name) = unmet_argument(wanted, types, meta.fields()) {
        return Some(name);
    }
    unmet_among(wanted, types, meta.input_fields())
}

/// The name of a type that is not what is asked for, among all to which a type refers.
fn unmet_anywhere<'a, S, C>(
    wanted: Demand,
    types: &NameMap<MetaType<S, C>>,
    meta: &'a MetaType<S, C>,
) -> Option<&'a str>
    ensures { Finds (misses wanted types.now (references_of meta.now)) result }
{
    if let Some(name) = unmet_among(wanted, types, meta.fields()) {
        return Some(name);
    }
    if let Some(name) = unmet_input(wanted, types, meta) {
        return Some(name);
    }
    if let Some(name) = unmet_among(wanted, types, meta.member_names()) {
        return Some(name);
    }
    unmet_among(wanted, types, meta.interface_names())
}

/// The name of a type that is not what is asked for, among the references of which that is asked.
fn unmet_within<'a, S, C>(
    wanted: Demand,
    types: &NameMap<MetaType<S, C>>,
    meta: &'a MetaType<S, C>,
) -> Option<&'a str>
    ensures { Finds (misses wanted types.now (references_asked wanted meta.now)) result }
{
    match wanted {
        Demand::Known => unmet_anywhere(wanted, types, meta),
        Demand::Output => unmet_among(wanted, types, meta.fields()),
        Demand::Input => unmet_input(wanted, types, meta),
        Demand::Object => unmet_among(wanted, types, meta.member_names()),
        Demand::Interface => unmet_among(wanted, types, meta.interface_names()),
        Demand::Scalar => None,
    }
}

/// The name of a type that is not what is asked for, among the references of all types of which
/// that is asked.
pub(super) fn unmet_reference<S, C>(wanted: Demand, types: &NameMap<MetaType<S, C>>) -> Option<&str>
    ensures { Finds (is_referred wanted types.now) result }
{
    'types: for meta in types.as_slice() {
        if let Some(name) = unmet_within(wanted, types, meta) {
            return Some(name);
        }
    }
    None
}

/// The name of a member of a union that is no object, or of a listed interface that is none.
pub(super) fn bad_member<S, C>(types: &NameMap<MetaType<S, C>>) -> Option<&str>
    ensures { Finds (λ name. is_referred demand.Object types.now name
        || is_referred demand.Interface types.now name) result }
{
    if let Some(name) = unmet_reference(Demand::Object, types) {
        return Some(name);
    }
    unmet_reference(Demand::Interface, types)
}

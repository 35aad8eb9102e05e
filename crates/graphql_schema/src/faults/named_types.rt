//! The types that each schema has, and the roots.

ghost use Rattle.std.specs.Prelude.{◌||◌, [], ◌∷◌, codes};
ghost use Rattle.std.specs.Option.{option_to_list};
ghost use Rattle.graphql_names.specs.Names.{Finds};
ghost use Rattle.graphql_schema.specs.Faults.{Roots, root_names};
ghost use Rattle.graphql_schema.specs.Demands.{misses};
ghost use Rattle.graphql_schema.specs.declared.faults.demand.Demand.TheVariants as demand;

use super::demand::{Demand, is_unmet};
use crate::MetaType;
use graphql_names::NameMap;
use graphql_text::Text;

/// One of the objects `__Schema` and `__Type` or of the scalars `String` and `Boolean` that is
/// missing.
pub(super) fn missing_builtin<S, C>(types: &NameMap<MetaType<S, C>>) -> Option<&'static str>
    ensures { Finds
        (λ name. misses demand.Object types.now (codes "__Schema" ∷ codes "__Type" ∷ []) name
        || misses demand.Scalar types.now (codes "String" ∷ codes "Boolean" ∷ []) name) result }
{
    if is_unmet(Demand::Object, types.get("__Schema")) {
        return Some("__Schema");
    }
    if is_unmet(Demand::Object, types.get("__Type")) {
        return Some("__Type");
    }
    if is_unmet(Demand::Scalar, types.get("String")) {
        return Some("String");
    }
    if is_unmet(Demand::Scalar, types.get("Boolean")) {
        return Some("Boolean");
    }
    None
}

/// The name of a root that may not be there, if it is, and no object has it.
fn bad_optional_root<'a, S, C>(
    types: &NameMap<MetaType<S, C>>,
    root: &'a Option<Text>,
) -> Option<&'a str>
    ensures { Finds (misses demand.Object types.now (option_to_list root.now)) result }
{
    match root {
        Some(name) if is_unmet(Demand::Object, types.get(name.as_str())) => Some(name.as_str()),
        _ => None,
    }
}

/// The name of a root that no object has (GraphQL October 2021, 3.3.1 Root Operation Types).
pub(super) fn bad_root<'a, S, C>(
    types: &NameMap<MetaType<S, C>>,
    query: &'a Text,
    mutation: &'a Option<Text>,
    subscription: &'a Option<Text>,
) -> Option<&'a str>
    ensures { let roots : Roots =
        record { query = query.now; mutation = mutation.now; subscription = subscription.now } in
        Finds (misses demand.Object types.now (root_names roots)) result }
{
    if is_unmet(Demand::Object, types.get(query.as_str())) {
        return Some(query.as_str());
    }
    if let Some(name) = bad_optional_root(types, mutation) {
        return Some(name);
    }
    bad_optional_root(types, subscription)
}

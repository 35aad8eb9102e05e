//! Which types selections are made of, and which stand without any.

ghost use Rattle.std.specs.Prelude.{◌≡◌};
ghost use Rattle.graphql_rules.specs.ScalarLeafs as spec;
ghost use Rattle.graphql_schema.specs.Faults as faults;

use graphql_schema::MetaType;

/// Whether the type is an object, an interface or a union.
pub(crate) fn is_composite<S, C>(meta: &MetaType<S, C>) -> bool
    ensures { result ≡ faults.is_composite meta.now }
{
    meta.is_composite()
}

/// Whether the type is a scalar or an enum.
pub(crate) fn is_leaf<S, C>(meta: &MetaType<S, C>) -> bool
    ensures { result ≡ spec.is_leaf meta.now }
{
    meta.is_leaf()
}

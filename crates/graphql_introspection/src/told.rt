//! Which parts of a schema are told.

ghost use Rattle.std.specs.Prelude.{◌≡◌};
ghost use Rattle.graphql_introspection.specs.Told as spec;

use graphql_schema::{DeprecationStatus, Field, MetaType};

/// Whether something of this status is deprecated.
pub fn is_deprecated(status: &DeprecationStatus) -> bool
    ensures { result ≡ spec.is_deprecated status.now }
{
    status.is_deprecated()
}

/// Whether something of this status is told: always, where what is deprecated is asked for.
pub fn is_told(include: bool, status: &DeprecationStatus) -> bool
    ensures { result ≡ spec.is_told include status.now }
{
    include || !is_deprecated(status)
}

/// Whether a field is told.
pub fn is_told_field<S>(include: bool, field: &Field<S>) -> bool
    ensures { result ≡ spec.is_told_field include field.now }
{
    is_told(include, &field.deprecation_status) && !field.is_builtin()
}

/// Whether an object of this name stands for no operations.
fn stands_for_none(name: &str) -> bool
    ensures { result ≡ spec.stands_for_none name.now }
{
    name == "_EmptyMutation" || name == "_EmptySubscription"
}

/// Whether a type is told.
pub fn is_told_type<S, C>(meta: &MetaType<S, C>) -> bool
    ensures { result ≡ spec.is_told_type meta.now }
{
    match meta.name() {
        Some(name) => !stands_for_none(name),
        None => true,
    }
}

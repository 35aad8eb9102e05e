//! The types that each schema has, whatever its file declares.

ghost use Rattle.std.specs.Prelude.{◌≡◌};
ghost use Rattle.graphql_text.specs.Memory.{Gives};
ghost use Rattle.graphql_schema_files.specs.Builtin as spec;

use graphql_introspection::introspection_metadata;
use graphql_schema::scalar_checks::StandardChecks;
use graphql_schema::{MetaType, ScalarMeta, TypeCheck};
use graphql_text::{Items, Text};
use graphql_values::DefaultScalarValue;
use std::alloc::{AllocError, Global};

type Meta = MetaType<DefaultScalarValue>;

/// The scalar of this name and this check. An error is want of memory.
fn scalar(alloc: Global, name: &str, check: TypeCheck) -> Result<Meta, AllocError>
    ensures { Gives result (spec.scalar name.now check) }
{
    let name = Text::from_str(alloc, name)?;
    Ok(ScalarMeta::new(name, check).into_meta())
}

/// The scalars of these checks, and the types of introspection (GraphQL October 2021, 3.5 Scalars,
/// 4.2 Schema Introspection). An error is want of memory.
pub(crate) fn builtin_types(
    alloc: Global,
    checks: StandardChecks,
) -> Result<Items<Meta>, AllocError>
    ensures { Gives result (spec.builtin_types checks.int checks.string checks.boolean checks.id
        checks.introspection) }
{
    let mut types = Items::new(alloc);
    types.push(scalar(alloc, "Int", checks.int)?)?;
    types.push(scalar(alloc, "String", checks.string)?)?;
    types.push(scalar(alloc, "Boolean", checks.boolean)?)?;
    types.push(scalar(alloc, "ID", checks.id)?)?;
    let mut told = introspection_metadata(alloc, checks.introspection)?;
    types.append(&mut told)?;
    Ok(types)
}

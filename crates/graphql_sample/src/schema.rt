//! The schema of the sample.

ghost use Rattle.std.specs.Prelude.{◌≡◌, IfOk, codes, map};
ghost use Rattle.graphql_text.specs.Memory.{Gives};
ghost use Rattle.graphql_schema.specs.Schemas.{Makes};
ghost use Rattle.graphql_schema.specs.Lookups.{type_named};
ghost use Rattle.graphql_sample.specs.SampleTypes as spec;

use graphql_introspection::{introspection_metadata, type_reference};
use graphql_names::{NamedItems, TypeModifier};
use graphql_schema::scalar_checks::StandardChecks;
use graphql_schema::{
    Argument, DeprecationStatus, Field, InputObjectMeta, MetaType, ObjectMeta, ScalarMeta,
    SchemaError, SchemaType, TypeCheck,
};
use graphql_text::{Items, Text};
use graphql_values::{DefaultScalarValue, ScalarValue};
use std::alloc::{AllocError, Global};

type Meta = MetaType<DefaultScalarValue>;

/// An argument in short: its name, the name of its type, and the wraps of that, the innermost
/// first.
type ArgumentRow = (&'static str, &'static str, &'static [TypeModifier]);

/// A field in short: its name, the name of its type, the wraps of that, and its arguments.
type FieldRow = (
    &'static str,
    &'static str,
    &'static [TypeModifier],
    &'static [ArgumentRow],
);

const NULLABLE: &[TypeModifier] = &[];

const NON_NULL: &[TypeModifier] = &[TypeModifier::NonNull];

const NO_ARGUMENTS: &[ArgumentRow] = &[];

const RENAME: &[ArgumentRow] = &[("id", "String", NON_NULL), ("name", "String", NON_NULL)];

const QUERY: &[FieldRow] = &[("hero", "Human", NULLABLE, NO_ARGUMENTS)];

const FIND: &[ArgumentRow] = &[("by", "By", NON_NULL)];

const QUERY_BY: &[FieldRow] = &[
    ("hero", "Human", NULLABLE, NO_ARGUMENTS),
    ("find", "Human", NULLABLE, FIND),
];

const BY: &[ArgumentRow] = &[("id", "String", NULLABLE), ("name", "String", NULLABLE)];

const HUMAN: &[FieldRow] = &[
    ("id", "String", NON_NULL, NO_ARGUMENTS),
    ("name", "String", NON_NULL, NO_ARGUMENTS),
    ("friend", "Human", NULLABLE, NO_ARGUMENTS),
];

const MUTATION: &[FieldRow] = &[("rename", "Human", NULLABLE, RENAME)];

/// The argument of this row. An error is want of memory.
fn argument(alloc: Global, row: ArgumentRow) -> Result<Argument<DefaultScalarValue>, AllocError>
    ensures { Gives result (spec.row_argument row.entry) }
{
    let name = Text::from_str(alloc, row.0)?;
    Ok(Argument::new(name, type_reference(alloc, row.1, row.2)?))
}

/// The arguments of these rows. An error is want of memory.
fn arguments(
    alloc: Global,
    rows: &[ArgumentRow],
) -> Result<NamedItems<Argument<DefaultScalarValue>>, AllocError>
    ensures { Gives result (map spec.row_argument rows.now) }
{
    let mut items = Items::new(alloc);
    'rows: for row in rows {
        items.push(argument(alloc, *row)?)?;
    }
    NamedItems::from_items(items)
}

/// The field of this row. An error is want of memory.
fn field(alloc: Global, row: FieldRow) -> Result<Field<DefaultScalarValue>, AllocError>
    ensures { Gives result (spec.row_field row.entry) }
{
    Ok(Field {
        name: Text::from_str(alloc, row.0)?,
        description: None,
        arguments: Some(arguments(alloc, row.3)?),
        field_type: type_reference(alloc, row.1, row.2)?,
        deprecation_status: DeprecationStatus::Current,
    })
}

/// The object of this name, with the fields of these rows. An error is want of memory.
fn object(
    alloc: Global,
    name: &str,
    rows: &[FieldRow],
) -> Result<ObjectMeta<DefaultScalarValue>, AllocError>
    ensures { Gives result (spec.object name.now (map spec.row_field rows.now)) }
{
    let mut fields = Items::new(alloc);
    'rows: for row in rows {
        fields.push(field(alloc, *row)?)?;
    }
    let fields = NamedItems::from_items(fields)?;
    Ok(ObjectMeta::new(alloc, Text::from_str(alloc, name)?, fields))
}

/// The scalar of this name and this check. An error is want of memory.
fn scalar(alloc: Global, name: &str, check: TypeCheck) -> Result<Meta, AllocError>
    ensures { Gives result (spec.scalar name.now check) }
{
    let name = Text::from_str(alloc, name)?;
    Ok(ScalarMeta::new(name, check).into_meta())
}

/// The types of the sample, with these fields of the query root, and with those of introspection.
/// An error is want of memory.
fn metadata(
    alloc: Global,
    checks: StandardChecks,
    query: &[FieldRow],
) -> Result<Items<Meta>, AllocError>
    ensures { Gives result (spec.types_of (map spec.row_field query.now) checks.int checks.string
        checks.boolean checks.id checks.introspection) }
{
    let mut types = Items::new(alloc);
    types.push(scalar(alloc, "Int", checks.int)?)?;
    types.push(scalar(alloc, "String", checks.string)?)?;
    types.push(scalar(alloc, "Boolean", checks.boolean)?)?;
    types.push(scalar(alloc, "ID", checks.id)?)?;
    types.push(object(alloc, "Query", query)?.into_meta())?;
    types.push(object(alloc, "Human", HUMAN)?.into_meta())?;
    types.push(object(alloc, "Mutation", MUTATION)?.into_meta())?;
    let mut told = introspection_metadata(alloc, checks.introspection)?;
    types.append(&mut told)?;
    Ok(types)
}

/// The schema of the sample, with the roots `Query` and `Mutation` (GraphQL October 2021, 3.3.1
/// Root Operation Types), which tells of itself (4.2 Schema Introspection). Its `Boolean` has the
/// check that is given for it. `SchemaError::Memory` is want of memory.
pub fn schema_s(
    alloc: Global,
    checks: StandardChecks,
) -> Result<SchemaType<DefaultScalarValue>, SchemaError>
    ensures made { let types =
        spec.types checks.int checks.string checks.boolean checks.id checks.introspection in
        Makes ⟦<DefaultScalarValue as ScalarValue>⟧.of_text types spec.roots result }
    ensures boolean { IfOk result (λ schema. type_named schema.types (codes "Boolean")
        ≡ Some (spec.scalar (codes "Boolean") checks.boolean)) }
{
    let types = metadata(alloc, checks, QUERY)?;
    SchemaType::new(alloc, types, "Query", Some("Mutation"), None)
}

/// The input object `By`, of which exactly one field is given, of this check. An error is want of
/// memory.
fn by_type(alloc: Global, check: TypeCheck) -> Result<Meta, AllocError>
    ensures { Gives result (spec.by_type check) }
{
    let fields = arguments(alloc, BY)?;
    let name = Text::from_str(alloc, "By")?;
    Ok(
        InputObjectMeta::new(name, fields, check)
            .one_of()
            .into_meta(),
    )
}

/// The types of the sample with `find` and `By`. An error is want of memory.
fn metadata_by(
    alloc: Global,
    checks: StandardChecks,
    by: TypeCheck,
) -> Result<Items<Meta>, AllocError>
    ensures { Gives result
        (spec.types_by checks.int checks.string checks.boolean checks.id checks.introspection by) }
{
    let mut types = metadata(alloc, checks, QUERY_BY)?;
    types.push(by_type(alloc, by)?)?;
    Ok(types)
}

/// The same with `find(by: By!): Human` in `Query`, and with `input By @oneOf { id: String, name:
/// String }`, which has the check that is given for it.
pub fn schema_by(
    alloc: Global,
    checks: StandardChecks,
    by: TypeCheck,
) -> Result<SchemaType<DefaultScalarValue>, SchemaError>
    ensures made { let types =
        spec.types_by checks.int checks.string checks.boolean checks.id checks.introspection by in
        Makes ⟦<DefaultScalarValue as ScalarValue>⟧.of_text types spec.roots result }
    ensures boolean { IfOk result (λ schema. type_named schema.types (codes "Boolean")
        ≡ Some (spec.scalar (codes "Boolean") checks.boolean)) }
{
    let types = metadata_by(alloc, checks, by)?;
    SchemaType::new(alloc, types, "Query", Some("Mutation"), None)
}

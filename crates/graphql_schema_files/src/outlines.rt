//! The outline of a schema: its types, without checks.

ghost use Rattle.graphql_text.specs.Memory.{Gives};
ghost use Rattle.serde_json.specs.View.{view};
ghost use Rattle.graphql_schema_files.specs.Outlines as spec;
ghost use Rattle.graphql_schema_files.specs.Shapes.{schema_of};

use crate::reading::{json_of, lent};
use crate::schema_file_error::SchemaFileError;
use crate::{SchemaDraft, add_types, schema_of};
use graphql_names::NamedItems;
use graphql_schema::{MetaType, ObjectMeta, ScalarMeta, SchemaType};
use graphql_text::{Items, Text};
use graphql_values::DefaultScalarValue;
use serde_json::Value;
use std::alloc::{AllocError, Global};

/// A schema whose scalars have no checks.
pub type Outline = SchemaType<DefaultScalarValue, ()>;

type Meta = MetaType<DefaultScalarValue, ()>;

/// The scalar of this name, without a check. An error is want of memory.
fn bare_scalar(alloc: Global, name: &str) -> Result<Meta, AllocError>
    ensures { Gives result (spec.bare_scalar name.now) }
{
    let name = Text::from_str(alloc, name)?;
    Ok(ScalarMeta::new(name, ()).into_meta())
}

/// The object of this name, without fields. An error is want of memory.
fn bare_object(alloc: Global, name: &str) -> Result<Meta, AllocError>
    ensures { Gives result (spec.bare_object name.now) }
{
    let name = Text::from_str(alloc, name)?;
    Ok(ObjectMeta::new(alloc, name, NamedItems::new(alloc)).into_meta())
}

/// The types that each outline has. An error is want of memory.
fn outline_types(alloc: Global) -> Result<Items<Meta>, AllocError>
    ensures { Gives result spec.outline_types }
{
    let mut types = Items::new(alloc);
    types.push(bare_scalar(alloc, "Int")?)?;
    types.push(bare_scalar(alloc, "String")?)?;
    types.push(bare_scalar(alloc, "Boolean")?)?;
    types.push(bare_scalar(alloc, "ID")?)?;
    types.push(bare_object(alloc, "__Schema")?)?;
    types.push(bare_object(alloc, "__Type")?)?;
    Ok(types)
}

/// The outline of a file that has been drafted, or why there is none. `Memory` is want of memory.
fn outline_of(alloc: Global, file: &SchemaDraft<'_>) -> Result<Outline, SchemaFileError>
    ensures { spec.Outlines file.now result }
{
    let mut types = outline_types(alloc)?;
    if !add_types(alloc, file.types.as_slice(), &mut types)? {
        return Err(SchemaFileError::BadTypeText);
    }
    let query = file.query.as_str();
    match SchemaType::new(alloc, types, query, lent(&file.mutation), None) {
        Ok(schema) => Ok(schema),
        Err(fault) => Err(SchemaFileError::from(fault)),
    }
}

/// The outline that JSON describes, or why there is none. `Memory` is want of memory.
fn outline_in(alloc: Global, json: &Value) -> Result<Outline, SchemaFileError>
    ensures { spec.OutlinesShape (schema_of (view json.now)) result }
{
    match schema_of(alloc, json)? {
        Some(file) => outline_of(alloc, &file),
        None => Err(SchemaFileError::BadShape),
    }
}

/// The outline of the schema that a file describes: the types that it declares, the scalars `Int`,
/// `String`, `Boolean` and `ID` without checks, and the objects `__Schema` and `__Type` without
/// fields. It tells where a fault stands, and judges no request: names are not judged, nor whether
/// defaults conform.
///
/// Errors: `NotJson` and `BadShape` as [`SchemaFile::read`](crate::SchemaFile::read) tells them;
/// `BadTypeText` where some type or default is not right; `Schema` with the first fault of the
/// types; `Memory`, which tells nothing of the file.
pub fn outline(alloc: Global, bytes: &[u8]) -> Result<Outline, SchemaFileError>
    ensures { spec.OutlinesBytes bytes.now result }
{
    match json_of(alloc, bytes) {
        Ok(json) => outline_in(alloc, &json),
        Err(fault) => Err(fault),
    }
}

//! A schema from its file, step by step.

ghost use Rattle.std.specs.Prelude.{◌≡◌, ◌↔◌, IfOk, IsTrue, Some, None, true};
ghost use Rattle.graphql_text.specs.Memory.{Answers};
ghost use Rattle.graphql_lines.specs.Request.{data_of};
ghost use Rattle.serde_json.specs.View.{view};
ghost use Rattle.graphql_schema.specs.Directives.{has_standard_conditions};
ghost use Rattle.graphql_schema_files.specs.Shapes.{schema_of};
ghost use Rattle.graphql_schema_files.specs.DraftedTypes.{AddsTypes};
ghost use Rattle.graphql_schema_files.specs.Builtin as builtin;
ghost use Rattle.graphql_schema_files.specs.Refusals.{fault_of};
ghost use Rattle.graphql_schema_files.specs.SchemaFiles as spec;
ghost use Rattle.graphql_schema_files.specs.declared.schema_file_error.SchemaFileError.TheVariants.{Memory};
ghost use Rattle.graphql_schema_files.specs.declared.schema_file_error.SchemaFileError.TheVariants.{NotJson};

use crate::builtin::builtin_types;
use crate::schema_file_error::SchemaFileError;
use crate::unfit::unfit_default;
use crate::{SchemaDraft, add_types, are_named, have_types, schema_of};
use graphql_lines::{LineRefusal, json_of_line};
use graphql_schema::scalar_checks::StandardChecks;
use graphql_schema::{Check, MetaType, RootNode, SchemaType, TypeCheck};
use graphql_text::{Items, TextRef};
use graphql_values::DefaultScalarValue;
use serde_json::Value;
use std::alloc::{AllocError, Global};

type Root = RootNode<DefaultScalarValue>;

type Metadata = Items<MetaType<DefaultScalarValue>>;

/// Why a file whose JSON is refused has no schema.
fn fault_of(refusal: LineRefusal) -> SchemaFileError
    ensures { result ≡ fault_of refusal }
{
    match refusal {
        LineRefusal::Memory => SchemaFileError::Memory,
        _ => SchemaFileError::NotJson,
    }
}

/// The JSON of a file. `Memory` is want of memory.
pub(crate) fn json_of(alloc: Global, bytes: &[u8]) -> Result<Value, SchemaFileError>
    ensures { Answers (λ json. data_of bytes.now ≡ Some (view json))
        (λ e. (e ≡ NotJson) × (data_of bytes.now ≡ None)) (λ e. e ≡ Memory) result }
{
    match json_of_line(alloc, bytes) {
        Ok(json) => Ok(json),
        Err(refusal) => Err(fault_of(refusal)),
    }
}

/// A text that is lent, where there is one.
pub(crate) fn lent<'a>(text: &Option<TextRef<'a>>) -> Option<&'a str>
    ensures { spec.words_of result ≡ text.now }
{
    match text {
        Some(text) => Some(text.as_str()),
        None => None,
    }
}

/// The root node over a schema, or the first default of the file that does not conform in it.
/// `Memory` is want of memory.
fn rooted(
    alloc: Global,
    file: &SchemaDraft<'_>,
    schema: SchemaType<DefaultScalarValue>,
) -> Result<Root, SchemaFileError>
    ensures { spec.Judges ⟦<TypeCheck as Check<DefaultScalarValue>>⟧.accepts file.now schema
        result }
{
    match unfit_default(alloc, &schema, file.types.as_slice())? {
        Some(place) => Err(SchemaFileError::UnfitDefault(place)),
        None => Ok(RootNode::new(schema)),
    }
}

/// The schema of all types and a file's roots, or the first of its faults; then whether the file's
/// defaults conform. `Memory` is want of memory.
fn made(alloc: Global, file: &SchemaDraft<'_>, types: Metadata) -> Result<Root, SchemaFileError>
    ensures { spec.MakesRoot ⟦<TypeCheck as Check<DefaultScalarValue>>⟧.accepts types file.now
        result }
{
    let query = file.query.as_str();
    match SchemaType::new(alloc, types, query, lent(&file.mutation), None) {
        Ok(schema) => rooted(alloc, file, schema),
        Err(fault) => Err(SchemaFileError::from(fault)),
    }
}

/// Whether the names of all that a file declares are names.
fn is_named(file: &SchemaDraft<'_>) -> bool
    ensures { IsTrue result ↔ spec.IsNamed file.now }
{
    are_named(file.types.as_slice())
}

/// Whether the types of the fields and arguments of a file are type references. An error is want of
/// memory.
fn has_types(alloc: Global, file: &SchemaDraft<'_>) -> Result<bool, AllocError>
    ensures { IfOk result (λ told. IsTrue told ↔ spec.HasTypes file.now) }
{
    have_types(alloc, file.types.as_slice())
}

/// Adds the types that a file declares behind those that are there, and answers whether it could:
/// where a text in it is not right it adds nothing. An error is want of memory.
fn add_declared(
    alloc: Global,
    file: &SchemaDraft<'_>,
    types: &mut Metadata,
) -> Result<bool, AllocError>
    ensures { IfOk result (AddsTypes file.now.types types.old types.new) }
{
    add_types(alloc, file.types.as_slice(), types)
}

/// The schema of a file that has been drafted, or the first of its faults. `Memory` is want of
/// memory.
fn read_draft(
    alloc: Global,
    file: &SchemaDraft<'_>,
    mut types: Metadata,
) -> Result<Root, SchemaFileError>
    ensures { spec.ReadsDraft ⟦<TypeCheck as Check<DefaultScalarValue>>⟧.accepts types file.now
        result }
{
    if !is_named(file) {
        return Err(SchemaFileError::BadName);
    }
    if !has_types(alloc, file)? {
        return Err(SchemaFileError::BadTypeText);
    }
    if !add_declared(alloc, file, &mut types)? {
        return Err(SchemaFileError::BadDefault);
    }
    made(alloc, file, types)
}

/// The schema that JSON describes, or the first of its faults. `Memory` is want of memory.
fn read_json(alloc: Global, json: &Value, types: Metadata) -> Result<Root, SchemaFileError>
    ensures { spec.ReadsShape ⟦<TypeCheck as Check<DefaultScalarValue>>⟧.accepts types
        (schema_of (view json.now)) result }
{
    match schema_of(alloc, json)? {
        Some(file) => read_draft(alloc, &file, types),
        None => Err(SchemaFileError::BadShape),
    }
}

/// The schema that bytes describe, or the first of their faults. `Memory` is want of memory.
fn read_bytes(alloc: Global, bytes: &[u8], types: Metadata) -> Result<Root, SchemaFileError>
    ensures { spec.ReadsBytes ⟦<TypeCheck as Check<DefaultScalarValue>>⟧.accepts types bytes.now
        result }
{
    match json_of(alloc, bytes) {
        Ok(json) => read_json(alloc, &json, types),
        Err(fault) => Err(fault),
    }
}

/// Reads the files of schemas.
#[derive(Clone, Copy, Debug)]
pub struct SchemaFile;

impl SchemaFile {
    /// The schema that a file describes, with introspection (GraphQL October 2021, 3.3 Schema): the
    /// types that it declares, the scalars `Int`, `String`, `Boolean` and `ID`, each with the check
    /// that is given for it, and the types of introspection. Or the first of its faults, in the
    /// order of [`SchemaFileError`], where `Memory` is want of memory, which tells nothing of the
    /// file.
    ///
    /// The file is a JSON object with the text `query`, the text `mutation` if there is such a
    /// root, and the list `types`. A type has the texts `kind` (`object`, `interface` or `union`)
    /// and `name`; an object or an interface the list `fields`, and the list `interfaces` of names
    /// if it lists any; a union the list `members` of names. A field has the texts `name` and
    /// `type`, and the list `args` if it takes any; an argument the texts `name` and `type`, and
    /// the text `default` of a constant literal if it has one. Members of other names are passed
    /// over; a member that may be missing is not null.
    pub fn read(
        alloc: Global,
        bytes: &[u8],
        checks: StandardChecks,
    ) -> Result<Root, SchemaFileError>
        // The schema that the file describes, or why there is none.
        ensures read { let types = builtin.builtin_types checks.int checks.string checks.boolean
            checks.id checks.introspection in
            spec.ReadsBytes ⟦<TypeCheck as Check<DefaultScalarValue>>⟧.accepts types bytes.now
            result }
        // Each scalar has the check that is given for it.
        ensures scalars { IfOk result (λ root. builtin.HasScalars checks.int checks.string
            checks.boolean checks.id root.schema.types) }
        // The directives `skip` and `include` are the standard's.
        ensures conditions { IfOk result
            (λ root. has_standard_conditions root.schema.directives ≡ true) }
    {
        let types = builtin_types(alloc, checks)?;
        read_bytes(alloc, bytes, types)
    }
}

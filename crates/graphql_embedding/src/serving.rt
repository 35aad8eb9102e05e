//! Lines that are answered over a schema in rows.

ghost use Rattle.std.specs.Prelude.{◌≡◌, None, Ok, map, option_map};
ghost use Rattle.graphql_text.specs.Memory.{Told};
ghost use Rattle.graphql_scalars.specs.declared.check_error.CheckError.TheVariants.{Memory};
ghost use Rattle.graphql_schema.specs.ScalarChecks.{IsBoolean, IsId, IsInt, IsString};
ghost use Rattle.graphql_schema.specs.Schemas.{roots_named};
ghost use Rattle.graphql_schema_rows.specs.BuiltIns as built_in;
ghost use Rattle.graphql_service.specs.Answers.{answerer_of};
ghost use Rattle.graphql_streams.specs.Counts.{HasRisen};
ghost use Rattle.graphql_streams.specs.Served.{WritesAfter, reads_after};
ghost use Rattle.graphql_embedding.specs.Services as spec;

use crate::fault::ServeRowsFault;
use crate::simple_resolver::SimpleResolver;
use graphql_literal_checks::first_with_bad_default;
use graphql_resolvers::MutationResolver;
use graphql_scalars::DefaultScalarValue;
use graphql_schema::scalar_checks::{
    StandardChecks, boolean_check, id_check, int_check, string_check,
};
use graphql_schema::{InputValue, IntrospectionChecks, MetaType, RootNode, SchemaType, TypeCheck};
use graphql_schema_rows::{CheckedRow, TypeRow, built_ins, names_of_rows, types_of_rows};
use graphql_service::{Answering, ByteSink, ByteSource, Meaning, Service};
use graphql_text::{Items, Text};
use std::alloc::Global;

/// The greatest length of a line, in bytes.
pub const LINE_LIMIT: usize = 65_536;

/// The greatest size of a plain text, in fields and inline fragments.
pub const SELECTION_LIMIT: usize = 10_000;

type Value = InputValue<DefaultScalarValue>;

/// A schema in rows of text (GraphQL October 2021, 3.3 Schema).
#[derive(Clone, Copy)]
pub struct SchemaRows<'a> {
    /// The name of the query root.
    pub query: &'a str,

    /// The name of the mutation root, where there is one.
    pub mutation: Option<&'a str>,

    /// The types, but for the scalars `Int`, `String`, `Boolean` and `ID`, and those of
    /// introspection, which each schema has.
    pub types: &'a [TypeRow<'a>],
}

/// A schema in rows of text, whose types have checks of the caller's.
#[derive(Drop)]
pub struct CheckedRows<'a> {
    /// The name of the query root.
    pub query: &'a str,

    /// The name of the mutation root, where there is one.
    pub mutation: Option<&'a str>,

    /// The types, but for those that each schema has, each with its check.
    pub types: Vec<CheckedRow<'a, TypeCheck>>,

    /// The checks of the types that each schema has.
    pub checks: StandardChecks,
}

/// The names of a schema's roots, and of the types whose defaults are judged.
#[derive(Clone, Copy)]
struct Names<'a> {
    query: &'a str,
    mutation: Option<&'a str>,
    declared: &'a [&'a str],
}

/// Judges the defaults that the types of these names declare.
fn judge_defaults(
    alloc: Global,
    schema: &SchemaType<DefaultScalarValue>,
    names: &[&str],
) -> Result<(), ServeRowsFault>
    ensures { spec.DefaultsJudged ⟦<DefaultScalarValue as Meaning>⟧.meaning schema.now
        (map (λ name. name.now) names.now) result }
{
    match first_with_bad_default(alloc, schema, names)? {
        Some(name) => Err(ServeRowsFault::BadDefault(Text::from_str(alloc, name)?)),
        None => Ok(()),
    }
}

/// Answers each line that is not empty of what is read, until it ends, over the schema of these
/// types and roots.
fn serve_types<R, I: ByteSource, O: ByteSink>(
    alloc: Global,
    names: Names<'_>,
    types: Items<MetaType<DefaultScalarValue>>,
    resolver: R,
    context: R::Context,
    reader: &mut I,
    writer: &mut O,
) -> Result<(), ServeRowsFault>
where
    R: MutationResolver + Drop,
    R::Context: Drop,
    ensures ran { let s = ⟦<DefaultScalarValue as Meaning>⟧.meaning in
        let answerer =
        answerer_of ⟦<SimpleResolver<R> as Answering<DefaultScalarValue>>⟧.answering in
        let named = roots_named names.entry.query.now
        (option_map (λ name. name.now) names.entry.mutation) None in
        let declared = map (λ name. name.now) names.entry.declared.now in
        let by = spec.in_service resolver in
        spec.Ran answerer (spec.IsServiceOf s named declared by context types)
        (spec.TypesDue s named declared by context types)
        (HasRisen (O.faults writer.old) (O.faults writer.new)) (I.left reader.old)
        (I.left reader.new) (O.written writer.old) (O.written writer.new) result }
    ensures reads { I.faults reader.new ≡ reads_after (spec.served result) (I.faults reader.old) }
    ensures writes { WritesAfter (spec.served result) (O.faults writer.old) (O.faults writer.new) }
{
    let schema = SchemaType::new(alloc, types, names.query, names.mutation, None)?;
    judge_defaults(alloc, &schema, names.declared)?;
    let root_node = RootNode::new(schema);
    let resolver = SimpleResolver { resolver };
    let mut service = Service::new(root_node, resolver, context, LINE_LIMIT, SELECTION_LIMIT)?;
    service.serve(alloc, reader, writer)?;
    Ok(())
}

/// Answers each line that is not empty of what is read, until it ends, over the schema that rows
/// describe (GraphQL October 2021, 3.3 Schema), with introspection. Each type has the check that is
/// given for it. The schema is judged before the first line is read, its defaults among it (GraphQL
/// October 2021, 5.6.1 Values of Correct Type). Lines have at most
/// [`LINE_LIMIT`] bytes. What is read and written is as `Service::serve` of `graphql_service` says.
/// The context that the lines leave is let go at the end.
///
/// Errors: the first that stands, in the order of [`ServeRowsFault`]. `Serve` has the error of that
/// call. Of any other fault nothing is read and nothing written. Want of memory tells nothing of
/// the rows, whichever fault has it.
pub fn serve_checked_rows<R, I: ByteSource, O: ByteSink>(
    alloc: Global,
    rows: CheckedRows<'_>,
    resolver: R,
    context: R::Context,
    reader: &mut I,
    writer: &mut O,
) -> Result<(), ServeRowsFault>
where
    R: MutationResolver + Drop,
    R::Context: Drop,
    ensures ran { let s = ⟦<DefaultScalarValue as Meaning>⟧.meaning in
        let answerer =
        answerer_of ⟦<SimpleResolver<R> as Answering<DefaultScalarValue>>⟧.answering in
        let roots =
        roots_named rows.entry.query.now (option_map (λ name. name.now) rows.entry.mutation) None in
        let by = spec.in_service resolver in
        let checks = rows.entry.checks in
        let each =
        built_in.built_ins checks.int checks.string checks.boolean checks.id checks.introspection in
        spec.Ran answerer (spec.IsServiceOfRows s roots by context each rows.entry.types.items)
        (spec.RowsDue s roots by context each rows.entry.types.items)
        (HasRisen (O.faults writer.old) (O.faults writer.new)) (I.left reader.old)
        (I.left reader.new) (O.written writer.old) (O.written writer.new) result }
    ensures reads { I.faults reader.new ≡ reads_after (spec.served result) (I.faults reader.old) }
    ensures writes { WritesAfter (spec.served result) (O.faults writer.old) (O.faults writer.new) }
{
    let row_names = names_of_rows(alloc, rows.types.as_slice())?;
    let mut types = built_ins(alloc, rows.checks)?;
    let mut declared = types_of_rows(alloc, rows.types)?;
    types.append(&mut declared)?;
    let names = Names {
        query: rows.query,
        mutation: rows.mutation,
        declared: row_names.as_slice(),
    };
    serve_types(alloc, names, types, resolver, context, reader, writer)
}

/// Answers each line that is not empty of what is read, until it ends, over the schema that rows
/// describe, as [`serve_checked_rows`] does, whose contract says what is read, answered and
/// written, and whose errors are those of this call. `Int`, `String`, `Boolean` and `ID` accept
/// what the standard says (GraphQL October 2021, 3.5 Scalars), an enum accepts each value that it
/// declares, and an input object what its fields accept. A contract can't name checks that the call
/// makes itself.
pub fn serve_rows<R, I: ByteSource, O: ByteSink>(
    alloc: Global,
    rows: &SchemaRows<'_>,
    resolver: R,
    context: R::Context,
    reader: &mut I,
    writer: &mut O,
) -> Result<(), ServeRowsFault>
where
    R: MutationResolver + Drop,
    R::Context: Drop,
    ensures reads { I.faults reader.new ≡ reads_after (spec.served result) (I.faults reader.old) }
    ensures writes { WritesAfter (spec.served result) (O.faults writer.old) (O.faults writer.new) }
{
    let int = TypeCheck::new(Box::new(
        alloc,
        move |value: &Value|
            ensures { Told (λ e. e ≡ Memory) result (IsInt value.now) }
        { int_check(alloc, value) },
    )?);
    let string = TypeCheck::new(Box::new(
        alloc,
        move |value: &Value|
            ensures { Told (λ e. e ≡ Memory) result (IsString value.now) }
        { string_check(alloc, value) },
    )?);
    let boolean = TypeCheck::new(Box::new(
        alloc,
        move |value: &Value|
            ensures { Told (λ e. e ≡ Memory) result (IsBoolean value.now) }
        { boolean_check(alloc, value) },
    )?);
    let id = TypeCheck::new(Box::new(
        alloc,
        move |value: &Value|
            ensures { Told (λ e. e ≡ Memory) result (IsId value.now) }
        { id_check(alloc, value) },
    )?);
    let type_kind = TypeCheck::new(Box::new(
        alloc,
        |_value: &Value|
            ensures { result ≡ Ok tt }
        { Ok(()) },
    )?);
    let directive_location = TypeCheck::new(Box::new(
        alloc,
        |_value: &Value|
            ensures { result ≡ Ok tt }
        { Ok(()) },
    )?);
    let introspection = IntrospectionChecks {
        type_kind,
        directive_location,
    };
    let checks = StandardChecks {
        int,
        string,
        boolean,
        id,
        introspection,
    };
    let mut types = Vec::with_capacity(alloc, rows.types.len())?;
    'rows: for row in rows.types {
        let check = TypeCheck::new(Box::new(
            alloc,
            |_value: &Value|
                ensures { result ≡ Ok tt }
            { Ok(()) },
        )?);
        types.push(CheckedRow { row: *row, check })?;
    }
    let rows = CheckedRows {
        query: rows.query,
        mutation: rows.mutation,
        types,
        checks,
    };
    serve_checked_rows(alloc, rows, resolver, context, reader, writer)
}

//! A schema, and the cases below it.

ghost use Rattle.std.specs.Prelude.{◌≡◌};
ghost use Rattle.graphql_text.specs.Memory.{Told};
ghost use Rattle.graphql_scalars.specs.declared.check_error.CheckError.TheVariants.{Memory};
ghost use Rattle.graphql_cases.specs.Checked.{IsAccepted};

use crate::faults::Fault;
use crate::groups::answer_groups;
use crate::schema_text::{MOST, Meta, Roots, push, read_head, read_roots, read_type_from};
use graphql_language::Parser;
use graphql_schema::{BrokenPromise, RootNode, SchemaType, TypeCheck};
use graphql_text::{Items, ParseError, Spanning};
use graphql_values::{DefaultScalarValue, InputValue};
use std::alloc::{AllocError, Global};

/// Whether requests can be executed over the schema.
fn executable(schema: &SchemaType<DefaultScalarValue>) -> &'static str {
    if schema.schema_is_executable() {
        "=> can be executed\n"
    } else {
        "=> can't be executed\n"
    }
}

/// Tells which promise a type of the schema does not keep, if there is one.
fn tell_broken(
    schema: &SchemaType<DefaultScalarValue>,
    told: &mut String,
) -> Result<(), AllocError> {
    let Some(broken) = schema.broken_promise() else {
        return Ok(());
    };
    let BrokenPromise {
        type_name,
        interface,
        field,
    } = broken;
    match field {
        Some(field) => write!(told, "=> {type_name} lacks {field} of {interface}\n"),
        None => write!(
            told,
            "=> {type_name} does not list what {interface} lists\n"
        ),
    }
}

/// Answers the cases over the schema of these types, without introspection; or tells why there is
/// no such schema.
fn answer_types(
    alloc: Global,
    roots: Roots<'_>,
    types: Items<Meta>,
    groups: &str,
    told: &mut String,
) -> Result<(), AllocError> {
    let Roots {
        query,
        mutation,
        subscription,
    } = roots;
    match SchemaType::new(alloc, types, query, mutation, subscription) {
        Ok(schema) => {
            told.push_str(executable(&schema))?;
            tell_broken(&schema, told)?;
            told.push_str("\n")?;
            let root = RootNode::new(schema).disable_introspection();
            answer_groups(alloc, &root, groups, told)
        }
        Err(refusal) => write!(told, "=> {refusal}\n\n"),
    }
}

/// Answers the cases over the schema whose types stand next.
fn answer_next(
    alloc: Global,
    parser: &mut Parser<'_>,
    groups: &str,
    told: &mut String,
) -> Result<(), Fault> {
    let roots = read_roots(parser)?;
    let mut types = Items::new(alloc);
    for _turn in 0..MOST {
        let Some(head) = read_head(alloc, parser)? else {
            break;
        };
        let checked = head.checked;
        let Ok(function) = Box::new(
            alloc,
            move |value: &InputValue<DefaultScalarValue>|
                ensures { Told (λ e. e ≡ Memory) result (IsAccepted checked value.now) }
            { checked.check(alloc, value) },
        ) else {
            return Err(Spanning::unlocated(ParseError::Memory));
        };
        let meta = read_type_from(alloc, parser, head, TypeCheck::new(function))?;
        push(&mut types, meta)?;
    }
    answer_types(alloc, roots, types, groups, told)?;
    Ok(())
}

/// Answers a schema's text and the cases below it.
pub fn answer_schema(alloc: Global, text: &str, told: &mut String) -> Result<(), Fault> {
    let (written, groups) = text.split_once("\n\n").unwrap_or((text, ""));
    write!(told, "== schema\n{written}\n")?;
    let mut parser = Parser::new(alloc, written)?;
    answer_next(alloc, &mut parser, groups, told)
}

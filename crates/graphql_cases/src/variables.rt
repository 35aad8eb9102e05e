//! Values of variables.

use crate::documents::push_errors;
use crate::faults::Fault;
use crate::groups::Root;
use crate::schema_text::MOST;
use graphql_language::{Parser, parse_document_source, parse_value_literal};
use graphql_text::{ParseError, Spanning, Token};
use graphql_tree::Definition;
use graphql_validation::validate_input_values;
use graphql_values::{DefaultScalarValue, Variables};
use std::alloc::Global;
use std::collections::HashMap;

/// Reads the value of one variable into the others.
fn read_variable(
    alloc: Global,
    parser: &mut Parser<'_>,
    variables: &mut Variables<DefaultScalarValue>,
) -> Result<(), Fault> {
    let name = parser.expect_name()?;
    let name = String::from_str(alloc, name.item.as_str())?;
    parser.expect(&Token::Colon)?;
    let value = parse_value_literal(parser, true)?;
    if variables.insert(name, value.item).is_ok() {
        Ok(())
    } else {
        Err(Spanning::unlocated(ParseError::Memory))
    }
}

/// The variables that stand next with their values, up to the end.
fn read_variables(
    alloc: Global,
    parser: &mut Parser<'_>,
) -> Result<Variables<DefaultScalarValue>, Fault> {
    let mut variables = HashMap::new(alloc);
    for _turn in 0..MOST {
        if matches!(parser.peek().item, Token::EndOfFile) {
            break;
        }
        read_variable(alloc, parser, &mut variables)?;
    }
    Ok(variables)
}

/// Tells what is wrong with the values for the first operation.
fn tell_values(
    alloc: Global,
    root: &Root,
    document: &[Definition<'_>],
    variables: &Variables<DefaultScalarValue>,
    told: &mut String,
) -> Result<(), Fault> {
    let Some(Definition::Operation(operation)) = document.first() else {
        return Ok(());
    };
    let errors = validate_input_values(alloc, variables, operation, root.schema())?;
    push_errors(told, errors.as_slice())?;
    Ok(())
}

/// Tells what is wrong with the values of variables, which stand behind the line `with`, for the
/// first operation of the text before it.
pub fn answer_values(
    alloc: Global,
    root: &Root,
    case: &str,
    told: &mut String,
) -> Result<(), Fault> {
    let (text, values) = case.split_once("\nwith").unwrap_or((case, ""));
    let mut parser = Parser::new(alloc, values)?;
    let variables = read_variables(alloc, &mut parser)?;
    match parse_document_source::<DefaultScalarValue>(alloc, text) {
        Ok(document) => tell_values(alloc, root, document.as_slice(), &variables, told),
        Err(fault) => Err(fault),
    }
}

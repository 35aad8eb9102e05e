//! Requests, until they can be executed.

ghost use Rattle.std.specs.Prelude.{ℕ, Bool, List, IfErr, IfOk};
ghost use Rattle.std.specs.HashMap.{get_by_text};
ghost use Rattle.std.specs.List.Sorted.{IsSorted};
ghost use Rattle.std.specs.Option.{option_map};
ghost use Rattle.std.specs.Str.{chars};
ghost use Rattle.graphql_lexer.specs.Records.{IsRecorded};
ghost use Rattle.graphql_schema.specs.Declarations.{Declarations, declarations_of};
ghost use Rattle.graphql_requests.specs.KeptTexts.{AreValid};
ghost use Rattle.graphql_requests.specs.Operations.{chosen};
ghost use Rattle.graphql_requests.specs.Refusals.{IsOnly, IsRead, IsReady, IsStopped, IsUnread};
ghost use Rattle.graphql_requests.specs.Refusals.{IsValidIn, errors_of};

use crate::graphql_error::GraphQLError;
use crate::operations::{get_operation, mutation_root};
use crate::valid_texts::ValidTexts;
use graphql_language::{TokenRecords, parse_document_records, parse_document_source};
use graphql_rule_errors::RuleError;
use graphql_schema::{Meaning, RootNode, SchemaScalar};
use graphql_text::Spanning;
use graphql_tree::{Definition, Operation, OwnedDocument};
use graphql_validation::root_node_errors;
use graphql_values::Variables;
use graphql_variable_checks::validate_input_values;
use std::alloc::Global;

/// The document of a request's text, which is valid for the root node (GraphQL October 2021, 6.1
/// Executing Requests). Its names are borrowed from the text.
///
/// An error is `GraphQLError::ParseError` where the text is no document: its first fault. Where it
/// is one, the error is `GraphQLError::ValidationError` with what all rules have against it, in
/// order: by their places, then by their messages. Where the root node has introspection disabled,
/// the rule against `__schema` and `__type` is among them.
/// `GraphQLError::Memory` comes only where memory ran out, and no other error comes.
pub fn read_request<'a, S: SchemaScalar>(
    alloc: Global,
    source: &'a str,
    root_node: &RootNode<S>,
) -> Result<OwnedDocument<'a, S>, GraphQLError>
    ensures read { let root = root_node.now in let schema = declarations_of root.schema in
        IfOk result
        (IsRead ⟦<S as Meaning>⟧.meaning schema root.introspection_disabled (chars source.now)) }
    ensures refused { let root = root_node.now in let schema = declarations_of root.schema in
        IfErr result
        (IsUnread ⟦<S as Meaning>⟧.meaning schema root.introspection_disabled (chars source.now)) }
    ensures sorted { IfErr result (λ error. IsSorted ⟦<RuleError as Ord>⟧.cmp (errors_of error)) }
{
    match parse_request(alloc, source) {
        Ok(document) => valid_document(alloc, document, root_node),
        Err(error) => Err(error),
    }
}

/// The document of a request's text, of which no rule is asked. Where the text is known to be valid
/// for a root node, it is the document that [`read_request`] gives over that root node.
///
/// An error is `GraphQLError::ParseError` where the text is no document: its first fault.
/// `GraphQLError::Memory` comes only where memory ran out, and no other error comes.
pub fn parse_request<'a, S: SchemaScalar>(
    alloc: Global,
    source: &'a str,
) -> Result<OwnedDocument<'a, S>, GraphQLError>
    ensures only { IfOk result (IsOnly ⟦<S as Meaning>⟧.meaning (chars source.now)) }
    ensures refused { (schema : Declarations S S.Check) (introspection_disabled : Bool) →
        IfErr result
        (IsUnread ⟦<S as Meaning>⟧.meaning schema introspection_disabled (chars source.now)) }
    ensures sorted { IfErr result (λ error. IsSorted ⟦<RuleError as Ord>⟧.cmp (errors_of error)) }
{
    match parse_document_source(alloc, source) {
        Ok(document) => Ok(document),
        Err(fault) => Err(GraphQLError::from(fault)),
    }
}

/// The document of a request's text, and errors, as [`read_request`] gives them. The rules are
/// asked only of a text that is not kept as valid, which is kept then where it is, if there is room
/// and memory for it.
pub fn read_request_with<'a, S: SchemaScalar>(
    alloc: Global,
    source: &'a str,
    root_node: &RootNode<S>,
    valid: &mut ValidTexts,
) -> Result<OwnedDocument<'a, S>, GraphQLError>
    requires { AreValid ⟦<S as Meaning>⟧.meaning root_node.now valid.old }
    ensures read { let root = root_node.now in let schema = declarations_of root.schema in
        IfOk result
        (IsRead ⟦<S as Meaning>⟧.meaning schema root.introspection_disabled (chars source.now)) }
    ensures refused { let root = root_node.now in let schema = declarations_of root.schema in
        IfErr result
        (IsUnread ⟦<S as Meaning>⟧.meaning schema root.introspection_disabled (chars source.now)) }
    ensures sorted { IfErr result (λ error. IsSorted ⟦<RuleError as Ord>⟧.cmp (errors_of error)) }
    ensures valid { AreValid ⟦<S as Meaning>⟧.meaning root_node.now valid.new }
{
    if valid.has(source) {
        return parse_request(alloc, source);
    }
    let document = read_request(alloc, source, root_node)?;
    valid.add(alloc, source);
    Ok(document)
}

/// The document of a request's text whose tokens are lent, as `read_request` gives it, so that the
/// text is read no second time. No error is a lexical fault, since the text has tokens.
pub fn read_records<'a, S: SchemaScalar>(
    alloc: Global,
    records: &'a TokenRecords<'a>,
    root_node: &RootNode<S>,
) -> Result<OwnedDocument<'a, S>, GraphQLError>
    ensures read { (text : List ℕ) → IsRecorded text records.now →
        let root = root_node.now in let schema = declarations_of root.schema in
        IfOk result (IsRead ⟦<S as Meaning>⟧.meaning schema root.introspection_disabled text) }
    ensures refused { (text : List ℕ) → IsRecorded text records.now →
        let root = root_node.now in let schema = declarations_of root.schema in
        IfErr result (IsUnread ⟦<S as Meaning>⟧.meaning schema root.introspection_disabled text) }
    ensures valid { let root = root_node.now in let schema = declarations_of root.schema in
        IfOk result (IsValidIn ⟦<S as Meaning>⟧.meaning schema root.introspection_disabled) }
    ensures sorted { IfErr result (λ error. IsSorted ⟦<RuleError as Ord>⟧.cmp (errors_of error)) }
{
    match parse_document_records(alloc, records) {
        Ok(document) => valid_document(alloc, document, root_node),
        Err(fault) => Err(GraphQLError::from(fault)),
    }
}

/// A document, unless rules have something against it: then their errors, in order, or want of
/// memory.
fn valid_document<'a, S: SchemaScalar>(
    alloc: Global,
    document: OwnedDocument<'a, S>,
    root_node: &RootNode<S>,
) -> Result<OwnedDocument<'a, S>, GraphQLError>
    ensures read { let root = root_node.now in let schema = declarations_of root.schema in
        IfOk result (λ valid. (text : List ℕ) → IsOnly ⟦<S as Meaning>⟧.meaning text document.entry
        → IsRead ⟦<S as Meaning>⟧.meaning schema root.introspection_disabled text valid) }
    ensures refused { let root = root_node.now in let schema = declarations_of root.schema in
        IfErr result (λ error. (text : List ℕ) → IsOnly ⟦<S as Meaning>⟧.meaning text document.entry
        → IsUnread ⟦<S as Meaning>⟧.meaning schema root.introspection_disabled text error) }
    ensures valid { let root = root_node.now in let schema = declarations_of root.schema in
        IfOk result (IsValidIn ⟦<S as Meaning>⟧.meaning schema root.introspection_disabled) }
    ensures sorted { IfErr result (λ error. IsSorted ⟦<RuleError as Ord>⟧.cmp (errors_of error)) }
{
    let errors = root_node_errors(alloc, root_node, document.as_slice())?;
    if !errors.is_empty() {
        return Err(GraphQLError::from(errors));
    }
    Ok(document)
}

/// The operation of a document that a request executes (GraphQL October 2021, 6.1 Executing
/// Requests): the one that `get_operation` gives. It accepts the values that the request gives for
/// its variables (6.1.2 Coercing Variable Values), and is a query, or a mutation where the schema
/// has a type for mutations.
///
/// The first of these that fails decides: `get_operation` refuses; the operation does not accept
/// the values, `GraphQLError::ValidationError` with the errors that `validate_input_values` gives,
/// in its order; the operation is a subscription, `GraphQLError::IsSubscription`, or a mutation and
/// the schema has no type for mutations, `GraphQLError::NoMutationType`.
/// `GraphQLError::Memory` comes only where memory ran out, and no other error comes.
pub fn chosen_operation<'d, 'a, S: SchemaScalar>(
    alloc: Global,
    document: &'d [Definition<'a, S>],
    operation_name: Option<&str>,
    root_node: &RootNode<S>,
    variables: &Variables<S>,
) -> Result<&'d Spanning<Operation<'a, S>>, GraphQLError>
    ensures ready { let choice =
        chosen (option_map (λ name. name.now) operation_name.entry) document.now in
        let given = get_by_text variables.now in
        IfOk result
        (λ o. IsReady ⟦<S as Meaning>⟧.meaning root_node.now.schema given choice o.now) }
    ensures refused { let choice =
        chosen (option_map (λ name. name.now) operation_name.entry) document.now in
        let given = get_by_text variables.now in
        IfErr result (IsStopped ⟦<S as Meaning>⟧.meaning root_node.now.schema given choice) }
    ensures sorted { IfErr result (λ error. IsSorted ⟦<RuleError as Ord>⟧.cmp (errors_of error)) }
{
    let operation = get_operation(document, operation_name)?;
    let errors = validate_input_values(alloc, variables, operation, root_node.schema())?;
    if !errors.is_empty() {
        return Err(GraphQLError::from(errors));
    }
    mutation_root(root_node.schema(), operation.item.operation_type)?;
    Ok(operation)
}

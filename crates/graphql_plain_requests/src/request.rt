//! The plain text of a request.

ghost use Rattle.std.specs.Prelude.{◌≡◌, ◌≤◌, ◌<◌, ℕ, List, IfErr, IfOk, OnOk, option_map};
ghost use Rattle.std.specs.HashMap.{get_by_text};
ghost use Rattle.std.specs.Str.{chars};
ghost use Rattle.std.specs.String.{string_bytes};
ghost use Rattle.graphql_tree.specs.Definitions.{fragments_listed};
ghost use Rattle.graphql_tree.specs.Documents.{variables_in};
ghost use Rattle.graphql_written_out.specs.FinalValues.{final_value};
ghost use Rattle.graphql_written_out.specs.FinalVariables.{value_in};
ghost use Rattle.graphql_plain_print.specs.Faults.{IfTooLarge};
ghost use Rattle.graphql_plain_print.specs.NameSets.{AreSame};
ghost use Rattle.graphql_written_out.specs.Written.{Settled};
ghost use Rattle.graphql_lexer.specs.Records.{IsRecorded};
ghost use Rattle.graphql_plain_tree.specs.Plain.{size};
ghost use Rattle.graphql_plain_tree.specs.PlainOperations.{plain_operation, variables_used};
ghost use Rattle.graphql_plain_text.specs.PlainTexts.{plain_text};
ghost use Rattle.graphql_plain_requests.specs.AcceptedAgain.{IsAcceptedAgain};
ghost use Rattle.graphql_plain_requests.specs.Faults.{IsForSize};
ghost use Rattle.graphql_plain_requests.specs.PlainRequests.{HasNoPlainText, IsDocumentAgain};
ghost use Rattle.graphql_plain_requests.specs.PlainRequests.{IsPlainTextWithin, asked_at, asked_of};
ghost use Rattle.graphql_plain_requests.specs.StandIns.{TakesStandIn};

use crate::laws::{plain_texts_are_accepted, plain_texts_are_documents};
use crate::plain_error::PlainError;
use graphql_language::TokenRecords;
use graphql_lines::GraphQLRequest;
pub use graphql_plain_print::Printed;
use graphql_plain_print::{PrintError, print_operation};
use graphql_requests::{
    GraphQLError, chosen_operation, documents_without_a_fault_are_settled, read_records,
};
use graphql_rule_errors::RuleError;
use graphql_schema::{Meaning, RootNode, SchemaScalar};
use graphql_tree::{Definition, Operation};
use graphql_values::Variables;
use graphql_written_out::FinalVariables;
use std::alloc::Global;

/// The plain text of a request: the operation that it chooses, under its name, as one operation
/// that answers alike, without named fragments. Each spread is an inline fragment under the
/// fragment's condition; what `skip` and `include` leave out over the final values of the variables
/// is away, and so are all directives. Where all selections of a set are left out the first stays,
/// itself plain, with `@skip(if: true)` alone. The definitions of variables that are no longer used
/// are away. Each token stands in the spelling of the request's text, parted by single spaces
/// (GraphQL October 2021, 2.3 Operations, 2.8 Fragments, 3.13 Directives). It is a document again,
/// whose only tree is that of this operation, places aside. Where the schema's `skip` and `include`
/// are the standard's and its `Boolean` takes `true`
/// ([`boolean_takes_true`](crate::boolean_takes_true)), it is executed in the request's place, with
/// the same operation name and the same values for variables.
///
/// The text is read once, and printed while its document is walked. The walk ends as soon as there
/// are more fields and inline fragments than `limit`, so that no request takes more time or memory
/// for more of them, however often it spreads its fragments.
///
/// An error is `PlainError::Refused` where `execute_sync` refuses the request, with the same step
/// that fails first; else `PlainError::TooLarge` where there are more fields and inline fragments
/// than `limit`. `PlainError::Memory` comes only where memory ran out.
pub fn plain_request<S: SchemaScalar + Drop>(
    alloc: Global,
    request: &GraphQLRequest<S>,
    root_node: &RootNode<S>,
    limit: usize,
) -> Result<String, PlainError>
    ensures plain { let asked = asked_of root_node.now request.now in
        IfOk result
        (λ text. IsPlainTextWithin ⟦<S as Meaning>⟧.meaning asked limit (string_bytes text)) }
    ensures document { let asked = asked_of root_node.now request.now in
        IfOk result (λ text. IsDocumentAgain ⟦<S as Meaning>⟧.meaning asked (string_bytes text)) }
    ensures accepted { let asked = asked_of root_node.now request.now in
        TakesStandIn ⟦<S as Meaning>⟧.meaning root_node.now.schema →
        IfOk result (λ text. IsAcceptedAgain ⟦<S as Meaning>⟧.meaning asked (string_bytes text)) }
    ensures refused { let asked = asked_of root_node.now request.now in
        IfErr result
        (HasNoPlainText ⟦<S as Meaning>⟧.meaning asked ⟦<RuleError as Ord>⟧.cmp limit) }
{
    let name = operation_name_of(request);
    let query = request.query.as_str();
    plain_of_text(alloc, query, name, &request.variables, root_node, limit)
}

/// The name of the operation that a request asks for, if it gives one.
pub fn operation_name_of<S>(request: &GraphQLRequest<S>) -> Option<&str>
    ensures { option_map (λ name. name.now) result
        ≡ option_map (λ name. string_bytes name) request.now.operation_name }
{
    match &request.operation_name {
        Some(name) => Some(name.as_str()),
        None => None,
    }
}

/// The plain text of a request by its parts: its text is cut into tokens once.
fn plain_of_text<S: SchemaScalar + Drop>(
    alloc: Global,
    source: &str,
    operation_name: Option<&str>,
    variables: &Variables<S>,
    root_node: &RootNode<S>,
    limit: usize,
) -> Result<String, PlainError>
    ensures plain { let name = option_map (λ name. name.now) operation_name.entry in
        let asked = asked_at root_node.now (chars source.now) name (get_by_text variables.now) in
        IfOk result
        (λ text. IsPlainTextWithin ⟦<S as Meaning>⟧.meaning asked limit (string_bytes text)) }
    ensures document { let name = option_map (λ name. name.now) operation_name.entry in
        let asked = asked_at root_node.now (chars source.now) name (get_by_text variables.now) in
        IfOk result (λ text. IsDocumentAgain ⟦<S as Meaning>⟧.meaning asked (string_bytes text)) }
    ensures accepted { let name = option_map (λ name. name.now) operation_name.entry in
        let asked = asked_at root_node.now (chars source.now) name (get_by_text variables.now) in
        TakesStandIn ⟦<S as Meaning>⟧.meaning root_node.now.schema →
        IfOk result (λ text. IsAcceptedAgain ⟦<S as Meaning>⟧.meaning asked (string_bytes text)) }
    ensures refused { let name = option_map (λ name. name.now) operation_name.entry in
        let asked = asked_at root_node.now (chars source.now) name (get_by_text variables.now) in
        IfErr result
        (HasNoPlainText ⟦<S as Meaning>⟧.meaning asked ⟦<RuleError as Ord>⟧.cmp limit) }
{
    plain_texts_are_documents(root_node);
    plain_texts_are_accepted(root_node);
    match TokenRecords::new(alloc, source) {
        Ok(records) => {
            plain_of_records(alloc, &records, operation_name, variables, root_node, limit)
        }
        Err(fault) => Err(PlainError::from(GraphQLError::from(fault))),
    }
}

/// The plain text of a request whose text's tokens are lent.
fn plain_of_records<'a, S: SchemaScalar + Drop>(
    alloc: Global,
    records: &'a TokenRecords<'a>,
    operation_name: Option<&str>,
    variables: &Variables<S>,
    root_node: &RootNode<S>,
    limit: usize,
) -> Result<String, PlainError>
    ensures plain { (text : List ℕ) → IsRecorded text records.now →
        let name = option_map (λ name. name.now) operation_name.entry in
        let asked = asked_at root_node.now text name (get_by_text variables.now) in
        IfOk result
        (λ plain. IsPlainTextWithin ⟦<S as Meaning>⟧.meaning asked limit (string_bytes plain)) }
    ensures refused { (text : List ℕ) → IsRecorded text records.now →
        let name = option_map (λ name. name.now) operation_name.entry in
        let asked = asked_at root_node.now text name (get_by_text variables.now) in
        IfErr result
        (HasNoPlainText ⟦<S as Meaning>⟧.meaning asked ⟦<RuleError as Ord>⟧.cmp limit) }
{
    let document = read_records(alloc, records, root_node)?;
    let definitions = document.as_slice();
    let operation = chosen_operation(alloc, definitions, operation_name, root_node, variables)?;
    documents_without_a_fault_are_settled(root_node.schema());
    let chosen = &operation.item;
    match plain_of_chosen(alloc, definitions, chosen, variables, records, limit) {
        Ok(printed) => Ok(printed.text),
        Err(error) => Err(error),
    }
}

/// The plain text of a request that is read already, as [`plain_request`] gives it, and the names
/// of the variables that it still uses: of the operation that `chosen_operation` gives, of the
/// document that `read_records` gives of the tokens of the request's text, over the values that the
/// request gives for its variables.
///
/// An error is `PlainError::TooLarge` where there are more fields and inline fragments than
/// `limit`. `PlainError::Memory` comes only where memory ran out, and no other error comes.
pub fn plain_of_chosen<'d, 'a, S: SchemaScalar + Drop>(
    alloc: Global,
    document: &'d [Definition<'a, S>],
    operation: &'d Operation<'a, S>,
    variables: &'d Variables<S>,
    records: &'d TokenRecords<'a>,
    limit: usize,
) -> Result<Printed<'d>, PlainError>
    requires { Settled (fragments_listed document.now) }
    ensures plain { let values = final_value (get_by_text variables.now)
        (variables_in operation.now.variable_definitions) in
        let p = plain_operation S.answer S.of_bool values
        (fragments_listed document.now) operation.now in
        IfOk result (λ printed. (string_bytes printed.text ≡ plain_text records.now.tokens p)
        × (size p.set ≤ limit)) }
    ensures uses { let values = final_value (get_by_text variables.now)
        (variables_in operation.now.variable_definitions) in
        let p = plain_operation S.answer S.of_bool values
        (fragments_listed document.now) operation.now in
        IfOk result (λ printed. AreSame printed.used.keys (variables_used p.set)) }
    ensures large { let values =
        final_value (get_by_text variables.now) (variables_in operation.now.variable_definitions) in
        let p =
        plain_operation S.answer S.of_bool values (fragments_listed document.now) operation.now in
        IfErr result (IsForSize (limit < size p.set)) }
{
    let values = FinalVariables::new(alloc, variables, operation)?;
    let printed = print_over(alloc, document, operation, values, records, limit)?;
    Ok(printed)
}

/// The same over the final values of its variables.
fn print_over<'d, 'a, S: SchemaScalar + Drop>(
    alloc: Global,
    document: &'d [Definition<'a, S>],
    operation: &'d Operation<'a, S>,
    values: FinalVariables<'d, S>,
    records: &'d TokenRecords<'a>,
    limit: usize,
) -> Result<Printed<'d>, PrintError>
    requires { Settled (fragments_listed document.now) }
    ensures text { IfOk result (λ printed. string_bytes printed.text
        ≡ plain_text records.now.tokens (plain_operation S.answer S.of_bool (value_in values.entry)
        (fragments_listed document.now) operation.now)) }
    ensures uses { IfOk result (λ printed. AreSame printed.used.keys (variables_used
        (plain_operation S.answer S.of_bool (value_in values.entry)
        (fragments_listed document.now) operation.now).set)) }
    ensures fits { OnOk result (size (plain_operation S.answer S.of_bool (value_in values.entry)
        (fragments_listed document.now) operation.now).set ≤ limit) }
    ensures large { IfTooLarge result (limit < size
        (plain_operation S.answer S.of_bool (value_in values.entry)
        (fragments_listed document.now) operation.now).set) }
{
    print_operation(alloc, document, operation, &values, records, limit)
}

//! The plain text of an operation.

ghost use Rattle.std.specs.Prelude.{◌≡◌, ◌≤◌, ◌<◌, ◌++◌, IfOk, OnOk};
ghost use Rattle.std.specs.Option.{option_map};
ghost use Rattle.std.specs.String.{string_bytes};
ghost use Rattle.graphql_written_out.specs.FinalVariables.{value_in};
ghost use Rattle.graphql_written_out.specs.Written.{Settled};
ghost use Rattle.graphql_tree.specs.Definitions.{fragments_listed};
ghost use Rattle.graphql_plain_tree.specs.Plain.{size};
ghost use Rattle.graphql_plain_tree.specs.PlainOperations.{plain_operation, variables_used};
ghost use Rattle.graphql_plain_text.specs.TreeTokens.{keyword, name_token};
ghost use Rattle.graphql_plain_text.specs.PlainTexts.{plain_text};
ghost use Rattle.graphql_plain_print.specs.Adding.{AddsTokens};
ghost use Rattle.graphql_plain_print.specs.Faults.{IfTooLarge};
ghost use Rattle.graphql_plain_print.specs.NameSets.{AreSame};

use crate::plan::Plan;
use crate::print_error::PrintError;
use crate::printed::Printed;
use crate::printing::print_set;
use crate::variables::push_definitions;
use crate::words::push_word;
use graphql_lexer::TokenRecords;
use graphql_text::{Spanning, TextRef};
use graphql_tree::{Definition, Operation, OperationType};
use graphql_values::ScalarValue;
use graphql_written_out::{FinalVariables, Fragments, definitions_of};
use std::alloc::{AllocError, Global};
use std::collections::HashSet;

/// The word with which an operation begins.
fn keyword_of(operation_type: OperationType) -> &'static str
    ensures { result.now ≡ keyword operation_type }
{
    match operation_type {
        OperationType::Query => "query",
        OperationType::Mutation => "mutation",
        OperationType::Subscription => "subscription",
    }
}

/// The name of an operation, if it has one.
fn push_name(text: &mut String, name: &Option<Spanning<TextRef<'_>>>) -> Result<(), AllocError>
    ensures { OnOk result (AddsTokens (string_bytes text.old) (string_bytes text.new)
        (name_token (option_map (λ n. n.item) name.now))) }
{
    match name {
        Some(name) => push_word(text, name.item.as_str()),
        None => Ok(()),
    }
}

/// The plain text of an operation of a document over the final values of its variables: the
/// operation's keyword, its name, the definitions of the variables that are still used, and its
/// plain set, each token in the spelling of the source, parted by single spaces (GraphQL October
/// 2021, 2.3 Operations, 2.8 Fragments, 3.13 Directives); with it the names of the variables that
/// are still used. `tokens` are those of the text that the document was read from.
///
/// It is printed as it is walked, and the walk ends as soon as there are more fields and inline
/// fragments than `limit`: no more time or memory is taken for more of them, however often
/// fragments are spread. What is left of the sets around stands on the heap, so it takes no more
/// stack however deep they are.
///
/// The spreads of the document end, as those of a valid document do (5.5.2.2 Fragment Spreads Must
/// Not Form Cycles). An error is `TooLarge` where there are more fields and inline fragments than
/// `limit`, or else want of memory.
pub fn print_operation<'d, 'v, 'a, S: ScalarValue>(
    alloc: Global,
    document: &'d [Definition<'a, S>],
    operation: &'d Operation<'a, S>,
    variables: &'v FinalVariables<'v, S>,
    tokens: &'d TokenRecords<'a>,
    limit: usize,
) -> Result<Printed<'d>, PrintError>
    requires { Settled (fragments_listed document.now) }
    ensures text { IfOk result (λ printed. string_bytes printed.text
        ≡ plain_text tokens.now.tokens (plain_operation S.answer S.of_bool (value_in variables.now)
        (fragments_listed document.now) operation.now)) }
    ensures uses { IfOk result (λ printed. AreSame printed.used.keys (variables_used
        (plain_operation S.answer S.of_bool (value_in variables.now)
        (fragments_listed document.now) operation.now).set)) }
    ensures fits { OnOk result (size (plain_operation S.answer S.of_bool (value_in variables.now)
        (fragments_listed document.now) operation.now).set ≤ limit) }
    ensures large { IfTooLarge result (limit < size
        (plain_operation S.answer S.of_bool (value_in variables.now)
        (fragments_listed document.now) operation.now).set) }
{
    let fragments = Fragments::new(alloc, document)?;
    let plan = Plan {
        fragments,
        variables,
        tokens,
        limit,
    };
    let mut set = String::new(alloc);
    let mut used: HashSet<TextRef<'d>> = HashSet::new(alloc);
    print_set(
        alloc,
        &plan,
        operation.selection_set.as_slice(),
        &mut set,
        &mut used,
    )?;
    let mut text = String::new(alloc);
    text.push_str(keyword_of(operation.operation_type))?;
    push_name(&mut text, &operation.name)?;
    push_definitions(&mut text, tokens, definitions_of(operation), &used)?;
    text.push_str(set.as_str())?;
    Ok(Printed { text, used })
}

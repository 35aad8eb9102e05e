//! Rules over all operations and fragments of a document, as visitors.

ghost use Rattle.std.specs.Prelude.{◌≡◌, false};
ghost use Rattle.graphql_text.specs.Memory.{GivesBy};
ghost use Rattle.graphql_rule_errors.specs.Places.{places};
ghost use Rattle.graphql_rules_document.specs.Once.{said_of};
ghost use Rattle.graphql_schema.specs.Declarations.{declarations_of};
ghost use Rattle.graphql_visitors.specs.Reports.{Reports};
ghost use Rattle.graphql_visitors.specs.Subjects.{Subject, subject_of};

use crate::document_rule::DocumentRule;
use crate::{FragmentIndex, scopes_of};
use graphql_occurrences::Event;
use graphql_rule_errors::RuleError;
use graphql_schema::{SchemaScalar, SchemaType};
use graphql_text::Items;
use graphql_tree::Definition;
use graphql_visitors::{ValidatorContext, Visitor};
use std::alloc::{AllocError, Global};

/// The visitor of a rule over all operations and fragments of a document.
///
/// The rule is asked of the whole document at the first event, and not again: a visitor is for one
/// pass. For it the visitor walks over the document itself. `document_errors` does so once for all
/// such rules.
#[derive(Drop)]
pub struct Once<R> {
    rule: R,

    /// Whether the rule has been asked.
    is_asked: bool,
}

impl<R> Once<R> {
    /// The visitor of a rule that has not been asked yet.
    pub fn new(rule: R) -> Once<R>
        ensures { result ≡ record { rule = rule; is_asked = false } }
    {
        Once {
            rule,
            is_asked: false,
        }
    }
}

impl<S: SchemaScalar, R: DocumentRule<S>> Visitor<S> for Once<R> {
    ghost use Rattle.graphql_rules_document.specs.Once.{once};
    ghost use Rattle.graphql_visitors.specs.Runs.{Did};

    ghost step = { once R.says };

    fn on<'a, 't>(&mut self, context: &mut ValidatorContext<'a, 't, S>, event: &Event<'a, 't, S>)
        ensures { Did (once R.says) event.now self.old self.new context.old context.new }
    {
        if self.is_asked {
            return;
        }
        self.is_asked = true;
        report_rule(&self.rule, context);
    }
}

/// Reports the errors of the rule for the context's document, behind the errors that are there.
/// Where memory runs out the context has failed.
fn report_rule<'a, 't, S: SchemaScalar, R: DocumentRule<S>>(
    rule: &R,
    context: &mut ValidatorContext<'a, 't, S>,
)
    ensures { Reports (said_of R.says (subject_of context.old)) context.old context.new }
{
    match rule_errors(rule, context.alloc(), context.schema(), context.document()) {
        Ok(errors) => context.append_errors(errors),
        Err(_) => context.fail(),
    }
}

/// The errors of the rule for a document. An error of the call is want of memory.
fn rule_errors<'a, 't, S: SchemaScalar, R: DocumentRule<S>>(
    rule: &R,
    alloc: Global,
    schema: &'a SchemaType<S>,
    document: &'a [Definition<'t, S>],
) -> Result<Items<RuleError>, AllocError>
    ensures { let subject : Subject S S.Check =
        record { schema = declarations_of schema.now; document = document.now } in
        GivesBy places result (said_of R.says subject) }
{
    let scopes = scopes_of(alloc, schema, document)?;
    let index = FragmentIndex::new(alloc, scopes.fragments.as_slice())?;
    let mut errors = Items::new(alloc);
    let operations = scopes.operations.as_slice();
    rule.add_errors(alloc, schema, operations, &index, &mut errors)?;
    Ok(errors)
}

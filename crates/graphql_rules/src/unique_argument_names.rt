//! Arguments of one name.

use crate::given::given_at;
use crate::repeats::report_repeats;
use graphql_occurrences::Event;
use graphql_schema::SchemaScalar;
use graphql_visitors::{Local, LocalRule, ValidatorContext};

/// A later argument of a name in a list of arguments (GraphQL October 2021, 5.4.2 Argument
/// Uniqueness). Names the place of the first argument of the name, and its own.
#[derive(Drop)]
pub struct UniqueArgumentNames;

/// The visitor of the rule.
pub fn factory() -> Local<UniqueArgumentNames> {
    Local(UniqueArgumentNames)
}

impl<S: SchemaScalar> LocalRule<S> for UniqueArgumentNames {
    ghost use Rattle.graphql_visitors.specs.Reports.{Reports};
    ghost use Rattle.graphql_visitors.specs.Rules.{told_at};
    ghost use Rattle.graphql_visitors.specs.Subjects.{seen_in, subject_of};
    ghost use Rattle.graphql_rules.specs.UniqueArgumentNames.{unique_argument_names_faults};

    ghost says = { unique_argument_names_faults };

    fn tell<'a, 't>(&self, context: &mut ValidatorContext<'a, 't, S>, event: &Event<'a, 't, S>)
        ensures { Reports (told_at unique_argument_names_faults (subject_of context.old)
            (seen_in context.old event.now)) context.old context.new }
    {
        if let Some(given) = given_at(context, event) {
            report_repeats(context, "argument", given.arguments);
        }
    }
}

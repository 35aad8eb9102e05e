//! The rule against introspection beside other rules.

ghost use Rattle.std.specs.Prelude.{◌≡◌, []};

use graphql_occurrences::Event;
use graphql_rule_errors::RuleError;
use graphql_rules::DisableIntrospection;
use graphql_schema::SchemaScalar;
use graphql_text::Items;
use graphql_visitors::{LocalRule, ValidatorContext, Visitor};
use std::alloc::Global;

/// The rule against introspection, where it is asked, as a visitor that keeps its errors itself: so
/// the others' errors stand alone in the context.
#[derive(Drop)]
pub(crate) struct Introspection {
    is_asked: bool,
    errors: Items<RuleError>,
}

impl Introspection {
    /// The visitor, which has no errors yet. Takes no memory.
    pub(crate) fn new(alloc: Global, is_asked: bool) -> Introspection
        ensures { result ≡ record { is_asked = is_asked; errors = [] } }
    {
        Introspection {
            is_asked,
            errors: Items::new(alloc),
        }
    }

    /// The errors, in the order of the text.
    pub(crate) fn into_errors(self) -> Items<RuleError>
        ensures { result ≡ self.errors }
    {
        self.errors
    }
}

impl<S: SchemaScalar> Visitor<S> for Introspection {
    ghost use Rattle.graphql_validation.specs.Apart.{keeps_apart};
    ghost use Rattle.graphql_visitors.specs.Runs.{Did};

    ghost step = { keeps_apart };

    fn on<'a, 't>(&mut self, context: &mut ValidatorContext<'a, 't, S>, event: &Event<'a, 't, S>)
        ensures { Did keeps_apart event.now self.old self.new context.old context.new }
    {
        if !self.is_asked {
            return;
        }
        context.swap_errors(&mut self.errors);
        DisableIntrospection.tell(context, event);
        context.swap_errors(&mut self.errors);
    }
}

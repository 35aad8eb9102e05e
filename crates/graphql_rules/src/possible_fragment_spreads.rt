//! Fragments that apply to nothing of which they are selected.

ghost use Rattle.std.specs.Prelude.{◌≡◌, ◌∷◌, []};
ghost use Rattle.std.specs.Option.{option_map};
ghost use Rattle.graphql_names.specs.Names.{passes};
ghost use Rattle.graphql_tree.specs.Definitions.{fragment_named};
ghost use Rattle.graphql_rule_errors.specs.Places.{error_if};
ghost use Rattle.graphql_rules.specs.Overlaps.{are_apart};
ghost use Rattle.graphql_rules.specs.PossibleByNames.{told_by_names};
ghost use Rattle.graphql_schema.specs.Declarations.{declarations_of};
ghost use Rattle.graphql_visitors.specs.Reports.{Reports};
ghost use Rattle.graphql_visitors.specs.Subjects.{seen_in, subject_of};

use crate::overlaps::Overlaps;
use graphql_names::Named;
use graphql_occurrences::{Event, Node};
use graphql_schema::{SchemaScalar, SchemaType};
use graphql_text::{SourcePosition, Spanning, Text};
use graphql_tree::{FragmentSpread, InlineFragment};
use graphql_visitors::{ValidatorContext, Visitor};
use std::alloc::{AllocError, Global};

/// The type of each fragment and the type of which it is selected have a possible type in common
/// (GraphQL October 2021, 5.5.2.3 Fragment Spread Is Possible); each type has one with itself.
/// Where one of the two is unknown nothing is said. A spread means the first fragment of its name.
///
/// An error names the start of the spread or of the inline fragment, its dots. Whether two types
/// have a possible type in common is asked once for each two names, which takes time in proportion
/// to the types of the schema; the answers are kept in a map, as many as there are such pairs. Each
/// fragment takes a look-up in the map and the look-ups of two types.
#[derive(Drop)]
pub struct PossibleFragmentSpreads<'a, S, C = <S as SchemaScalar>::Check> {
    overlaps: Overlaps<'a, S, C>,
}

/// The rule by a schema, which is to be that of the contexts of what is validated, as a visitor. It
/// keeps its answers in memory of `alloc`.
pub fn factory<'a, S, C>(
    alloc: Global,
    schema: &'a SchemaType<S, C>,
) -> PossibleFragmentSpreads<'a, S, C>
    ensures { result.overlaps.schema ≡ schema.entry }
{
    PossibleFragmentSpreads {
        overlaps: Overlaps::new(alloc, schema),
    }
}

/// What is said of a fragment. An error is want of memory.
fn message(alloc: Global, parent: &str, condition: &str) -> Result<Text, AllocError> {
    let text = format!(in alloc;
        "Objects of type \"{parent}\" can never be of type \"{condition}\""
    )?;
    Ok(Text::from_string(text))
}

impl<'a, S: SchemaScalar> PossibleFragmentSpreads<'a, S> {
    /// Reports a fragment of the type of this name, if it applies to nothing of the type `parent`.
    fn check<'b, 't>(
        &mut self,
        context: &mut ValidatorContext<'b, 't, S>,
        parent: &str,
        name: &str,
        start: SourcePosition,
    )
        ensures schema { self.new.overlaps.schema ≡ self.old.overlaps.schema }
        ensures reports { Reports
            (error_if (are_apart (declarations_of self.old.overlaps.schema.now) parent.now name.now)
            (start ∷ [])) context.old context.new }
    {
        match self.overlaps.are_apart(parent, name) {
            Ok(true) => {
                let text = message(context.alloc(), parent, name);
                context.report_error(text, &[start]);
            }
            Ok(false) => {}
            Err(_) => context.fail(),
        }
    }

    /// Reports a spread, if its fragment is known and applies to nothing of the type `parent`.
    fn check_spread<'b, 't>(
        &mut self,
        context: &mut ValidatorContext<'b, 't, S>,
        parent: &str,
        spread: &Spanning<FragmentSpread<'t, S>>,
    )
        ensures schema { self.new.overlaps.schema ≡ self.old.overlaps.schema }
        ensures reports { Reports
            (error_if (passes (λ name. are_apart (declarations_of self.old.overlaps.schema.now)
            parent.now name.item) (option_map (λ f. f.item.type_condition)
            (fragment_named (subject_of context.old).document spread.now.item.name.item)))
            (spread.now.span.start ∷ [])) context.old context.new }
    {
        let name = spread.item.name.item.as_str();
        if let Some(condition) = context.fragment_condition(name) {
            self.check(context, parent, condition.item.as_str(), spread.span.start);
        }
    }

    /// Reports an inline fragment, if it has a condition and applies to nothing of the type
    /// `parent`.
    fn check_inline<'b, 't>(
        &mut self,
        context: &mut ValidatorContext<'b, 't, S>,
        parent: &str,
        inline: &Spanning<InlineFragment<'t, S>>,
    )
        ensures schema { self.new.overlaps.schema ≡ self.old.overlaps.schema }
        ensures reports { Reports
            (error_if (passes (λ name. are_apart (declarations_of self.old.overlaps.schema.now)
            parent.now name.item) inline.now.item.type_condition) (inline.now.span.start ∷ []))
            context.old context.new }
    {
        if let Some(condition) = &inline.item.type_condition {
            self.check(context, parent, condition.item.as_str(), inline.span.start);
        }
    }

    /// Reports the fragment that an event enters, if it applies to nothing of which it is selected.
    fn tell<'b, 't>(&mut self, context: &mut ValidatorContext<'b, 't, S>, event: &Event<'b, 't, S>)
        ensures schema { self.new.overlaps.schema ≡ self.old.overlaps.schema }
        ensures reports { Reports (told_by_names (declarations_of self.old.overlaps.schema.now)
            (subject_of context.old) (seen_in context.old event.now)) context.old context.new }
    {
        if let Some(parent) = context.parent_type() {
            let parent = Named::name(parent);
            match event {
                Event::Enter(Node::FragmentSpread(spread)) => {
                    self.check_spread(context, parent, spread)
                }
                Event::Enter(Node::InlineFragment(inline)) => {
                    self.check_inline(context, parent, inline)
                }
                _ => {}
            }
        }
    }
}

impl<'a, S: SchemaScalar> Visitor<S> for PossibleFragmentSpreads<'a, S> {
    ghost use Rattle.graphql_rules.specs.PossibleVisitor.{by_names};
    ghost use Rattle.graphql_visitors.specs.Runs.{Did};

    ghost step = { by_names };

    fn on<'b, 't>(&mut self, context: &mut ValidatorContext<'b, 't, S>, event: &Event<'b, 't, S>)
        ensures { Did by_names event.now self.old self.new context.old context.new }
    {
        self.tell(context, event);
    }
}

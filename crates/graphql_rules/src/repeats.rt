//! Names that are mentioned more than once.

ghost use Rattle.std.specs.Prelude.{map};
ghost use Rattle.graphql_rule_errors.specs.Repeats.{repeats};
ghost use Rattle.graphql_visitors.specs.Reports.{Reports};

use graphql_rule_errors::Mentions;
use graphql_schema::SchemaScalar;
use graphql_text::Items;
use graphql_visitors::ValidatorContext;

/// Reports each later mention of a name, with the place of the first mention of that name and its
/// own. `kind` says in words whose names they are. Takes time, and where there are two mentions or
/// more memory, in proportion to the mentions.
#[tactic(auto, using(graphql_visitors::proofs::ReportLemmas::reports_added))]
pub(crate) fn report_repeats<'a, 't, S: SchemaScalar, M: Mentions>(
    context: &mut ValidatorContext<'a, 't, S>,
    kind: &str,
    mentions: &[M],
)
    ensures { Reports (repeats (map M.mention_of mentions.now)) context.old context.new }
{
    let alloc = context.alloc();
    let mut errors = Items::new(alloc);
    match graphql_rule_errors::report_repeats(alloc, &mut errors, kind, mentions) {
        Ok(()) => context.append_errors(errors),
        Err(_) => context.fail(),
    }
}

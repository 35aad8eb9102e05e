//! The laws of the rule as a visitor: each function's contract is a law, and its body does nothing.

ghost use Rattle.std.specs.Prelude.{◌≡◌, false, List};
ghost use Rattle.graphql_occurrences.specs.Events.{events};
ghost use Rattle.graphql_rule_errors.specs.Places.{Places};
ghost use Rattle.graphql_rules_merging.specs.OverlappingFieldsCanBeMerged.{IsCounted, RuleTold};
ghost use Rattle.graphql_rules_merging.specs.OverlappingFieldsCanBeMerged.{asks_once};
ghost use Rattle.graphql_rules_merging.specs.declared.overlapping_fields_can_be_merged.OverlappingFieldsCanBeMerged.{
  OverlappingFieldsCanBeMerged,
};
ghost use Rattle.graphql_visitors.specs.Runs.{Runs, joined};
ghost use Rattle.graphql_visitors.specs.Subjects.{Subject};

use graphql_schema::SchemaScalar;

/// Over the events of a document, a visitor that has not asked the rule yet tells just what the
/// rule does of the document.
pub fn visitor_tells_of_document<S: SchemaScalar>()
    ensures { (subject : Subject S S.Check)
        → (v w : OverlappingFieldsCanBeMerged) → (told : List Places) → v.is_asked ≡ false
        → Runs (asks_once S.eq) subject v (events subject.schema subject.document) w told
        → RuleTold S.eq subject (joined told) }
{}

/// Over the events of a document, a visitor that has not asked the rule yet compares two fields no
/// more often than twice the square of the document's field nodes, also where fragments lead to
/// themselves.
pub fn visitor_counts_comparisons<S: SchemaScalar>()
    ensures { (subject : Subject S S.Check) → (v w : OverlappingFieldsCanBeMerged)
        → (told : List Places) → v.is_asked ≡ false
        → Runs (asks_once S.eq) subject v (events subject.schema subject.document) w told
        → IsCounted subject v.comparisons w.comparisons }
{}

//! Laws of visitors: each function's contract is a law, and its body does nothing.

ghost use Rattle.std.specs.Prelude.{◌≡◌, ◌++◌, [], List, IsPermutation};
ghost use Rattle.std.specs.List.{flat_map};
ghost use Rattle.graphql_occurrences.specs.Events.{events};
ghost use Rattle.graphql_occurrences.specs.Nodes.{Seen};
ghost use Rattle.graphql_occurrences.specs.Occurrences.{occurrences};
ghost use Rattle.graphql_rule_errors.specs.Places.{Places};
ghost use Rattle.graphql_visitors.specs.Rules.{Tell, both_steps, local, locally, silent};
ghost use Rattle.graphql_visitors.specs.Runs.{Runs, joined};
ghost use Rattle.graphql_visitors.specs.Subjects.{Subject};
ghost use Rattle.graphql_visitors.specs.declared.multi.MultiVisitorCons.{MultiVisitorCons};
ghost use Rattle.graphql_visitors.specs.declared.multi.MultiVisitorNil.{MultiVisitorNil};
ghost use Rattle.graphql_visitors.specs.declared.rules.Local.{Local};
ghost use Rattle.graphql_visitors.specs.declared.rules.Relational.{Relational};

use crate::rules::{LocalRule, RelationalRule};
use crate::visitor::Visitor;
use graphql_schema::SchemaScalar;

/// What a rule that looks at one part at a time tells over a document: what it says of each of the
/// document's occurrences, in order.
pub fn local_rules_tell_of_occurrences<S: SchemaScalar, R: LocalRule<S>>()
    ensures { (subject : Subject S S.Check) → (v w : Local R) → (told : List Places)
        → Runs (local R.says) subject v (events subject.schema subject.document) w told
        → joined told ≡ flat_map (R.says subject) (occurrences subject.schema subject.document) }
{}

/// The same of a rule that asks what may answer so or so: it tells what it may say of each.
pub fn relational_rules_tell_of_occurrences<S: SchemaScalar, R: RelationalRule<S>>()
    ensures { (subject : Subject S S.Check) → (v w : Relational R) → (told : List Places)
        → Runs (locally R.says) subject v (events subject.schema subject.document) w told
        → Tell (R.says subject) (occurrences subject.schema subject.document) (joined told) }
{}

/// One pass of a list of visitors tells what separate passes of its visitors tell, in some order.
pub fn one_pass_is_separate_passes<S: SchemaScalar, A: Visitor<S>, B: Visitor<S>>()
    ensures { (subject : Subject S S.Check)
        → (v w : MultiVisitorCons A B) → (es : List (Seen S S.Check)) → (told : List Places)
        → Runs (both_steps A.step B.step) subject v es w told
        → (first : List Places)
        × (second : List Places)
        × Runs A.step subject v.first es w.first first
        × Runs B.step subject v.second es w.second second
        × IsPermutation (joined first ++ joined second) (joined told) }
{}

/// An empty list of visitors tells nothing.
pub fn no_visitor_tells_nothing<S: SchemaScalar>()
    ensures { (subject : Subject S S.Check) → (v w : MultiVisitorNil) → (es : List (Seen S S.Check))
        → (told : List Places) → Runs silent subject v es w told → joined told ≡ [] }
{}

//! Laws of the rules: what holds exactly where a rule finds no fault, what is reached, what ends,
//! and what a rule tells as a visitor. Each function's contract is a law, and its body does
//! nothing.

ghost use Rattle.std.specs.Prelude.{◌≡◌, false, List, ◌↔◌, true};
ghost use Rattle.graphql_occurrences.specs.Events.{events};
ghost use Rattle.graphql_rule_errors.specs.Places.{Places};
ghost use Rattle.graphql_rules_document.specs.Laws.{
  NoneReachesItself,
  FragmentsAreRanked,
  FragmentsEnd,
  FragmentNamesAreDistinct,
  OperationNamesAreDistinct,
  VariableNamesAreDistinct,
  AnonymousStandsAlone,
  AllAreReached,
  UsesAreReached,
  UsesAreDefined,
  VariablesAreUsed,
  UsesAreAllowed,
};
ghost use Rattle.graphql_rules_document.specs.Once.{once, said_of};
ghost use Rattle.graphql_rules_document.specs.declared.once.Once.{Once};
ghost use Rattle.graphql_visitors.specs.Runs.{Runs, joined};
ghost use Rattle.graphql_visitors.specs.Subjects.{Subject};
ghost use Rattle.graphql_names.specs.Names.{Bytes, is_one_of};
ghost use Rattle.graphql_rules_document.specs.Reached.{IsReached, reached};
ghost use Rattle.graphql_rules_document.specs.Scopes.{FragmentScope, Spread};

use crate::document_rule::DocumentRule;
use graphql_schema::SchemaScalar;

/// There is no cycle exactly where no fragment reaches itself by its spreads.
pub fn fragments_without_cycles_never_reach_themselves()
    ensures { NoneReachesItself }
{}

/// There is no cycle exactly where fragments have ranks that fall from each fragment to all that it
/// spreads, and are no more than there are fragments.
pub fn fragments_without_cycles_are_ranked()
    ensures { FragmentsAreRanked }
{}

/// There is no cycle exactly where what is written out for each spread ends within as many levels
/// as there are fragments.
pub fn fragments_without_cycles_end()
    ensures { FragmentsEnd }
{}

/// No fragment repeats a name exactly where the names of fragments are distinct.
pub fn unique_fragments_have_distinct_names()
    ensures { FragmentNamesAreDistinct }
{}

/// No operation repeats a name exactly where the names of operations, of those that have one, are
/// distinct.
pub fn unique_operations_have_distinct_names<S>()
    ensures { OperationNamesAreDistinct S }
{}

/// No variable repeats a name exactly where the names of each operation's variables are distinct.
pub fn unique_variables_have_distinct_names<S>()
    ensures { VariableNamesAreDistinct S }
{}

/// No anonymous operation is told exactly where one that there is stands alone.
pub fn lone_anonymous_operation_stands_alone<S>()
    ensures { AnonymousStandsAlone S }
{}

/// No fragment is unused exactly where the operations' spreads reach each.
pub fn used_fragments_are_reached<S>()
    ensures { AllAreReached S }
{}

/// The uses that an operation reaches are its own and those of the fragments that it reaches.
pub fn reached_uses_stand_in_what_is_reached<S>()
    ensures { UsesAreReached S }
{}

/// No use is undefined exactly where each operation defines a variable of the name of each use that
/// it reaches.
pub fn defined_uses_have_definitions<S>()
    ensures { UsesAreDefined S }
{}

/// No variable is unused exactly where each operation reaches a use of the name of each variable
/// that it defines.
pub fn used_variables_have_uses<S>()
    ensures { VariablesAreUsed S }
{}

/// No use is disallowed exactly where each use that an operation reaches is allowed, at a place
/// that is known and of a variable that the operation defines.
pub fn uses_in_allowed_position_are_allowed<S, C>()
    ensures { UsesAreAllowed S C }
{}

/// Over the events of a document, the visitor of a rule that has not been asked yet tells just what
/// the rule says of the document.
pub fn document_rules_tell_of_documents<S: SchemaScalar, R: DocumentRule<S>>()
    ensures { (subject : Subject S S.Check) → (v w : Once R) → (told : List Places)
        → v.is_asked ≡ false
        → Runs (once R.says) subject v (events subject.schema subject.document) w told
        → joined told ≡ said_of R.says subject }
{}

/// The names that are told to be reached are the least set of names that has those that are spread,
/// and with each name those that the fragments of that name spread.
pub fn reached_is_least()
    ensures { (fragments : List FragmentScope) → (from : List Spread) → (name : Bytes)
        → (is_one_of (reached fragments from) name ≡ true) ↔ IsReached fragments from name }
{}

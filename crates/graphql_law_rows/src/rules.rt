//! What holds of a document in which no rule of the first stage finds a fault, in the words of the
//! standard.

ghost use Rattle.std.specs.Prelude.{◌≡◌, ◌↔◌, ℕ, false, length, true, IfOk};
ghost use Rattle.graphql_names.specs.Names.{Bytes};
ghost use Rattle.graphql_occurrences.specs.Parts.{AField};
ghost use Rattle.graphql_rules_document.specs.Ends.{EndsWithin, IsRanking};
ghost use Rattle.graphql_rules.specs.DisableIntrospection.{introspects};
ghost use Rattle.graphql_rules.specs.Laws.{EachOf, IsDeclaredField};
ghost use Rattle.graphql_schema.specs.Declarations.{declarations_of};
ghost use Rattle.graphql_validation.specs.FirstStage.{parts};
ghost use Rattle.graphql_validation.specs.Valid.{HasNoFault, HasNoFaultInScopes};
ghost use Rattle.graphql_visitors.specs.Subjects.{Subject};
ghost use Rattle.graphql_law_rows.specs.KeptRules.{KeepsTheRules, ScopesKeepTheRules};
ghost use Rattle.graphql_law_rows.specs.KeptRules.{TypesAreOfTheirKinds, fragments};

use graphql_schema::{Meaning, SchemaScalar, SchemaType};
use graphql_tree::Definition;
use graphql_validation::laws::{
    arguments_are_declared, arguments_are_distinct, arguments_are_provided,
    conditions_are_composite, declared_arguments_conform, defaults_conform,
    defined_uses_have_definitions, directives_may_stand, fields_are_declared,
    fields_are_declared_and_fit, fragments_without_cycles_are_ranked, fragments_without_cycles_end,
    fragments_without_cycles_never_reach_themselves, input_fields_are_distinct,
    leaves_have_no_sets, lone_anonymous_operation_stands_alone, named_types_are_known,
    named_types_are_of_their_kinds, nothing_is_introspected, reached_uses_stand_in_what_is_reached,
    spread_fragments_are_known, spreads_are_possible, unique_fragments_have_distinct_names,
    unique_operations_have_distinct_names, unique_variables_have_distinct_names,
    used_fragments_are_reached, used_variables_have_uses, uses_in_allowed_position_are_allowed,
    variables_are_of_input_types,
};
use graphql_validation::{first_stage_errors, visit_introspection_rule};
use graphql_visitors::ValidatorContext;
use std::alloc::{AllocError, Global};

/// Whether a document keeps all rules for documents but the one that fields merge: it does exactly
/// where the rules of the first stage find no fault. Then its fragments have ranks that fall from
/// each fragment to all that it spreads, what is spread ends within as many levels as there are
/// fragments, and each field is declared, with a set that fits its type. An error is want of
/// memory.
pub fn keeps_the_rules<'t, S: SchemaScalar>(
    alloc: Global,
    schema: &SchemaType<S>,
    document: &[Definition<'t, S>],
) -> Result<bool, AllocError>
    ensures rules { let subject : Subject S S.Check =
        record { schema = declarations_of schema.now; document = document.now } in
        IfOk result (λ keeps. (keeps ≡ true) ↔ KeepsTheRules ⟦<S as Meaning>⟧.meaning subject) }
    ensures ranked { let subject : Subject S S.Check =
        record { schema = declarations_of schema.now; document = document.now } in
        IfOk result (λ keeps. keeps ≡ true
        → (rank : Bytes → ℕ) × IsRanking (fragments subject) rank) }
    ensures end { let subject : Subject S S.Check =
        record { schema = declarations_of schema.now; document = document.now } in
        IfOk result (λ keeps. keeps ≡ true
        → (name : Bytes) → EndsWithin (fragments subject) (length (fragments subject)) name) }
    ensures fields { let subject : Subject S S.Check =
        record { schema = declarations_of schema.now; document = document.now } in
        IfOk result (λ keeps. keeps ≡ true
        → EachOf AField (IsDeclaredField subject.schema) (parts subject)) }
    ensures types { let subject : Subject S S.Check =
        record { schema = declarations_of schema.now; document = document.now } in
        IfOk result (λ keeps. keeps ≡ true → TypesAreOfTheirKinds subject) }
{
    faultless_documents_keep_the_rules::<S>();
    fields_are_declared_and_fit::<S>();
    named_types_are_of_their_kinds::<S>();
    fragments_without_cycles_are_ranked();
    fragments_without_cycles_end();
    let errors = first_stage_errors(alloc, schema, document)?;
    Ok(errors.is_empty())
}

/// No rule of the first stage finds a fault exactly where the document keeps the rules.
fn faultless_documents_keep_the_rules<S: SchemaScalar>()
    ensures { (subject : Subject S S.Check) → HasNoFault ⟦<S as Meaning>⟧.meaning subject
        ↔ KeepsTheRules ⟦<S as Meaning>⟧.meaning subject }
{
    faultless_scopes_keep_the_rules::<S, S::Check>();
    fields_are_declared::<S>();
    leaves_have_no_sets::<S>();
    arguments_are_declared::<S>();
    arguments_are_distinct::<S>();
    arguments_are_provided::<S>();
    named_types_are_known::<S>();
    conditions_are_composite::<S>();
    variables_are_of_input_types::<S>();
    spread_fragments_are_known::<S>();
    spreads_are_possible::<S>();
    directives_may_stand::<S>();
    input_fields_are_distinct::<S>();
    declared_arguments_conform::<S>();
    defaults_conform::<S>();
}

/// The same of operations and fragments.
fn faultless_scopes_keep_the_rules<S, C>()
    ensures { (subject : Subject S C) → HasNoFaultInScopes subject ↔ ScopesKeepTheRules subject }
{
    unique_operations_have_distinct_names::<S>();
    lone_anonymous_operation_stands_alone::<S>();
    unique_fragments_have_distinct_names();
    used_fragments_are_reached::<S>();
    fragments_without_cycles_never_reach_themselves();
    unique_variables_have_distinct_names::<S>();
    reached_uses_stand_in_what_is_reached::<S>();
    defined_uses_have_definitions::<S>();
    used_variables_have_uses::<S>();
    uses_in_allowed_position_are_allowed::<S, C>();
}

/// Whether a document asks nothing of the schema itself: no field is `__schema` or `__type`. An
/// error is want of memory.
pub fn introspects_nothing<'t, S: SchemaScalar>(
    alloc: Global,
    schema: &SchemaType<S>,
    document: &[Definition<'t, S>],
) -> Result<bool, AllocError>
    ensures { let subject : Subject S S.Check =
        record { schema = declarations_of schema.now; document = document.now } in
        IfOk result (λ nothing. (nothing ≡ true)
        ↔ EachOf AField (λ f. introspects f.name ≡ false) (parts subject)) }
{
    nothing_is_introspected::<S>();
    let mut context = ValidatorContext::new(alloc, schema, document)?;
    visit_introspection_rule(&mut context);
    let errors = context.into_errors()?;
    Ok(errors.is_empty())
}

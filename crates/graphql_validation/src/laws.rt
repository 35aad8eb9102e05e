//! Laws of schemas, of visitors and of documents without a fault: each function's contract is a
//! law, and its body does nothing.

ghost use Rattle.std.specs.Prelude.{List};
ghost use Rattle.graphql_tree.specs.Definitions.{fragments_listed};
ghost use Rattle.graphql_written_out.specs.Written.{Settled};
ghost use Rattle.graphql_schema.specs.Declarations.{declarations_of};
ghost use Rattle.graphql_tree.specs.declared.document.Definition.{Definition};
ghost use Rattle.graphql_validation.specs.Valid.{HasNoFault};
ghost use Rattle.graphql_validation.specs.WellFormed.{IsWellFormed};
ghost use Rattle.graphql_visitors.specs.Subjects.{Subject};

pub use graphql_merging::laws::{
    chosen_members_are_collected, direct_conflicts_are_right, fields_agree_with_themselves,
    merging_is_agreement, merging_is_mutual, one_field_for_a_key, one_field_of_an_object,
    one_object_type, own_sets_merge,
};
pub use graphql_occurrences::laws::events_tell_occurrences;
pub use graphql_rule_errors::laws::{
    distinct_names_have_no_repeats, errors_stand_by_places_and_messages,
};
pub use graphql_rules::laws::{
    arguments_are_declared, arguments_are_distinct, arguments_are_provided,
    conditions_are_composite, declared_arguments_conform, defaults_conform, directives_may_stand,
    fields_are_declared, fields_are_declared_and_fit, input_fields_are_distinct,
    leaves_have_no_sets, named_types_are_known, named_types_are_of_their_kinds,
    nothing_is_introspected, possible_spreads_tell_of_occurrences, spread_fragments_are_known,
    spreads_are_possible, told_of_arguments_is_determined, told_of_defaults_is_determined,
    variables_are_of_input_types,
};
pub use graphql_rules_document::laws::{
    defined_uses_have_definitions, document_rules_tell_of_documents,
    fragments_without_cycles_are_ranked, fragments_without_cycles_end,
    fragments_without_cycles_never_reach_themselves, lone_anonymous_operation_stands_alone,
    reached_is_least, reached_uses_stand_in_what_is_reached, unique_fragments_have_distinct_names,
    unique_operations_have_distinct_names, unique_variables_have_distinct_names,
    used_fragments_are_reached, used_variables_have_uses, uses_in_allowed_position_are_allowed,
};
pub use graphql_rules_document::settled::{ending_fragments_are_settled, field_types_are_known};
pub use graphql_rules_merging::laws::visitor_tells_of_document;
pub use graphql_schema::laws::{
    overlap_is_symmetric, possible_is_below, subtype_is_reflexive, subtype_is_transitive,
    wrapped_subtype_decides,
};
use graphql_schema::{Meaning, SchemaScalar, SchemaType};
pub use graphql_variable_checks::laws::{
    accepted_variables_are_not_told, definitions_of_distinct_names_are_found,
    final_values_are_given_or_defaults, given_values_conform, non_null_variables_have_values,
    told_of_variables_is_determined,
};
pub use graphql_visitors::laws::{
    local_rules_tell_of_occurrences, no_visitor_tells_nothing, one_pass_is_separate_passes,
    relational_rules_tell_of_occurrences,
};

/// A document in which no rule of the first stage finds a fault is what the steps after validation
/// ask for: names stand once, each spread means a fragment, fragments end when they are written
/// out, each variable's type is a known input type, and each field is declared and has a selection
/// set exactly where its type has fields.
pub fn documents_without_a_fault_are_well_formed<S: SchemaScalar>()
    ensures { (subject : Subject S S.Check) → HasNoFault ⟦<S as Meaning>⟧.meaning subject
        → IsWellFormed subject }
{}

/// The fragments of a document in which no rule of the first stage finds a fault are written out by
/// as many levels as there are of them, so that merging, execution and plain texts, which are
/// defined over what is written out, speak of all of it.
pub fn documents_without_a_fault_are_settled<S: SchemaScalar>(schema: &SchemaType<S>)
    ensures { (document : List (Definition S))
        → HasNoFault ⟦<S as Meaning>⟧.meaning
        (record { schema = declarations_of schema.now; document = document })
        → Settled (fragments_listed document) }
{}

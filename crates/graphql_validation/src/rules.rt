//! The rules for documents, by name, each with its section of the standard (GraphQL October 2021, 5
//! Validation).
//!
//! Each is a type in a module of its own, whose `factory` makes it as a visitor: so one list of
//! visitors can hold all of them. Those over all operations and fragments of a document are
//! functions too, of their modules' names, which add to a list of errors; what they ask is gathered
//! once for all by `document_errors`. In the module of the rule that fields merge,
//! `overlapping_fields_can_be_merged` tells its errors, and `overlapping_fields_by_pairs` the same
//! by comparing each two fields.
//!
//! | Rule | Section |
//! |---|---|
//! | [`LoneAnonymousOperation`] | 5.2.2.1 Lone Anonymous Operation |
//! | [`UniqueOperationNames`] | 5.2.1.1 Operation Name Uniqueness |
//! | [`FieldsOnCorrectType`] | 5.3.1 Field Selections |
//! | [`DisableIntrospection`] | of no section: no field asks for the schema, where introspection is disabled |
//! | [`OverlappingFieldsCanBeMerged`] | 5.3.2 Field Selection Merging |
//! | [`ScalarLeafs`] | 5.3.3 Leaf Field Selections |
//! | [`KnownArgumentNames`] | 5.4.1 Argument Names |
//! | [`UniqueArgumentNames`] | 5.4.2 Argument Uniqueness |
//! | [`ProvidedNonNullArguments`] | 5.4.2.1 Required Arguments |
//! | [`UniqueFragmentNames`] | 5.5.1.1 Fragment Name Uniqueness |
//! | [`KnownTypeNames`] | 5.5.1.2 Fragment Spread Type Existence |
//! | [`FragmentsOnCompositeTypes`] | 5.5.1.3 Fragments On Composite Types |
//! | [`NoUnusedFragments`] | 5.5.1.4 Fragments Must Be Used |
//! | [`KnownFragmentNames`] | 5.5.2.1 Fragment Spread Target Defined |
//! | [`NoFragmentCycles`] | 5.5.2.2 Fragment Spreads Must Not Form Cycles |
//! | [`PossibleFragmentSpreads`] | 5.5.2.3 Fragment Spread Is Possible |
//! | [`ArgumentsOfCorrectType`] | 5.6.1 Values of Correct Type, of arguments |
//! | [`DefaultValuesOfCorrectType`] | 5.6.1 Values of Correct Type, of the defaults of variables |
//! | [`UniqueInputFieldNames`] | 5.6.3 Input Object Field Uniqueness |
//! | [`KnownDirectives`] | 5.7.1 Directives Are Defined, 5.7.2 Directives Are In Valid Locations |
//! | [`UniqueVariableNames`] | 5.8.1 Variable Uniqueness |
//! | [`VariablesAreInputTypes`] | 5.8.2 Variables Are Input Types |
//! | [`NoUndefinedVariables`] | 5.8.3 All Variable Uses Defined |
//! | [`NoUnusedVariables`] | 5.8.4 All Variables Used |
//! | [`VariablesInAllowedPosition`] | 5.8.5 All Variable Usages Are Allowed |

pub use graphql_rules::{
    ArgumentsOfCorrectType, DefaultValuesOfCorrectType, DisableIntrospection, FieldsOnCorrectType,
    FragmentsOnCompositeTypes, KnownArgumentNames, KnownDirectives, KnownFragmentNames,
    KnownTypeNames, PossibleFragmentSpreads, ProvidedNonNullArguments, ScalarLeafs,
    UniqueArgumentNames, UniqueInputFieldNames, VariablesAreInputTypes, arguments_of_correct_type,
    default_values_of_correct_type, disable_introspection, fields_on_correct_type,
    fragments_on_composite_types, known_argument_names, known_directives, known_fragment_names,
    known_type_names, possible_fragment_spreads, provided_non_null_arguments, scalar_leafs,
    unique_argument_names, unique_input_field_names, variables_are_input_types,
};
pub use graphql_rules_document::{
    DocumentRule, FragmentIndex, FragmentScope, LoneAnonymousOperation, NoFragmentCycles,
    NoUndefinedVariables, NoUnusedFragments, NoUnusedVariables, Once, OperationScope,
    ReachedFragments, Scopes, Spread, UniqueFragmentNames, UniqueOperationNames,
    UniqueVariableNames, Use, VariablesInAllowedPosition, document_errors,
    lone_anonymous_operation, no_fragment_cycles, no_undefined_variables, no_unused_fragments,
    no_unused_variables, scope_errors, scopes_of, unique_fragment_names, unique_operation_names,
    unique_variable_names, variables_in_allowed_position,
};
pub use graphql_rules_merging::{OverlappingFieldsCanBeMerged, overlapping_fields_can_be_merged};

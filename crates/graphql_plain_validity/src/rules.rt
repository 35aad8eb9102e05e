//! What validation rules say of plain documents: each function's contract is a law, and its body
//! does nothing.

ghost use Rattle.graphql_schema.specs.Declarations.{Declarations};
ghost use Rattle.graphql_rules.specs.DisableIntrospection.{disable_introspection_faults};
ghost use Rattle.graphql_rules.specs.FieldsOnCorrectType.{fields_on_correct_type_faults};
ghost use Rattle.graphql_rules.specs.FragmentsOnCompositeTypes.{fragments_on_composite_types_faults};
ghost use Rattle.graphql_rules.specs.KnownArgumentNames.{known_argument_names_faults};
ghost use Rattle.graphql_rules.specs.KnownFragmentNames.{known_fragment_names_faults};
ghost use Rattle.graphql_rules.specs.KnownTypeNames.{known_type_names_faults};
ghost use Rattle.graphql_rules.specs.PossibleFragmentSpreads.{possible_fragment_spreads_faults};
ghost use Rattle.graphql_rules.specs.ProvidedNonNullArguments.{provided_non_null_arguments_faults};
ghost use Rattle.graphql_rules.specs.ScalarLeafs.{scalar_leafs_faults};
ghost use Rattle.graphql_rules.specs.UniqueArgumentNames.{unique_argument_names_faults};
ghost use Rattle.graphql_rules.specs.UniqueInputFieldNames.{unique_input_field_names_faults};
ghost use Rattle.graphql_rules.specs.VariablesAreInputTypes.{variables_are_input_types_faults};
ghost use Rattle.graphql_plain_validity.specs.RuleLaws.{
  ArgumentsStayConforming,
  DefaultsStayConforming,
  DirectivesArePlaced,
  OneOperationIsLeft,
  StaysSilent,
  StaysSilentBesideSkip,
};

use graphql_schema::{Meaning, SchemaScalar};
use graphql_values::ScalarValue;

/// `FieldsOnCorrectType` finds no fault in a plain document where it finds none in the request's
/// document: each field is declared (5.3.1 Field Selections).
pub fn fields_stay_declared<S: ScalarValue, C>()
    ensures { (schema : Declarations S C)
        → StaysSilent S.answer S.of_bool schema fields_on_correct_type_faults }
{}

/// `ScalarLeafs` likewise: a set that is left out whole keeps a selection (5.3.3 Leaf Field
/// Selections).
pub fn leaves_stay_without_sets<S: ScalarValue, C>()
    ensures { (schema : Declarations S C)
        → StaysSilent S.answer S.of_bool schema scalar_leafs_faults }
{}

/// `FragmentsOnCompositeTypes` likewise (5.5.1.3 Fragments on Composite Types).
pub fn conditions_stay_composite<S: ScalarValue, C>()
    ensures { (schema : Declarations S C)
        → StaysSilent S.answer S.of_bool schema fragments_on_composite_types_faults }
{}

/// `KnownTypeNames` likewise (5.5.1.2 Fragment Spread Type Existence, 5.8.2 Variables Are Input
/// Types).
pub fn named_types_stay_known<S: ScalarValue, C>()
    ensures { (schema : Declarations S C)
        → StaysSilent S.answer S.of_bool schema known_type_names_faults }
{}

/// `VariablesAreInputTypes` likewise (5.8.2 Variables Are Input Types).
pub fn variables_stay_of_input_types<S: ScalarValue, C>()
    ensures { (schema : Declarations S C)
        → StaysSilent S.answer S.of_bool schema variables_are_input_types_faults }
{}

/// `UniqueArgumentNames` likewise (5.4.2 Argument Uniqueness).
pub fn arguments_stay_distinct<S: ScalarValue, C>()
    ensures { (schema : Declarations S C)
        → StaysSilent S.answer S.of_bool schema unique_argument_names_faults }
{}

/// `UniqueInputFieldNames` likewise (5.6.3 Input Object Field Uniqueness).
pub fn input_fields_stay_distinct<S: ScalarValue, C>()
    ensures { (schema : Declarations S C)
        → StaysSilent S.answer S.of_bool schema unique_input_field_names_faults }
{}

/// The rule against introspection likewise (4.2 Schema Introspection).
pub fn nothing_is_introspected_still<S: ScalarValue, C>()
    ensures { (schema : Declarations S C)
        → StaysSilent S.answer S.of_bool schema disable_introspection_faults }
{}

/// `KnownFragmentNames` likewise: no spread is left (5.5.2.1 Fragment Spread Target Defined).
pub fn no_spread_is_left<S: ScalarValue, C>()
    ensures { (schema : Declarations S C)
        → StaysSilent S.answer S.of_bool schema known_fragment_names_faults }
{}

/// `PossibleFragmentSpreads` likewise: an inline fragment that stands for a spread applies where
/// the spread does (5.5.2.3 Fragment Spread Is Possible).
pub fn spreads_stay_possible<S: ScalarValue, C>()
    ensures { (schema : Declarations S C)
        → StaysSilent S.answer S.of_bool schema possible_fragment_spreads_faults }
{}

/// `KnownDirectives` finds no fault in a plain document, where the schema's `skip` is the
/// standard's: of directives those of stand-ins alone are left (5.7 Directives).
pub fn directives_are_placed<S: ScalarValue, C>()
    ensures { (schema : Declarations S C) → DirectivesArePlaced S.answer S.of_bool schema }
{}

/// `KnownArgumentNames` finds no fault in a plain document where it finds none in the request's
/// document, over the same schemas (5.4.1 Argument Names).
pub fn arguments_stay_declared<S: ScalarValue, C>()
    ensures { (schema : Declarations S C)
        → StaysSilentBesideSkip S.answer S.of_bool schema known_argument_names_faults }
{}

/// `ProvidedNonNullArguments` likewise (5.4.2.1 Required Arguments).
pub fn arguments_stay_provided<S: ScalarValue, C>()
    ensures { (schema : Declarations S C)
        → StaysSilentBesideSkip S.answer S.of_bool schema provided_non_null_arguments_faults }
{}

/// `ArgumentsOfCorrectType` likewise, where moreover the schema's `Boolean` takes `true` (5.6.1
/// Values of Correct Type).
pub fn arguments_stay_conforming<S: SchemaScalar>()
    ensures { (schema : Declarations S S.Check)
        → ArgumentsStayConforming ⟦<S as Meaning>⟧.meaning schema }
{}

/// `DefaultValuesOfCorrectType` finds no fault in a plain document where it finds none in the
/// request's document (5.6.1 Values of Correct Type).
pub fn defaults_stay_conforming<S: SchemaScalar>()
    ensures { (schema : Declarations S S.Check)
        → DefaultsStayConforming ⟦<S as Meaning>⟧.meaning schema }
{}

/// A plain document is one operation without fragments. So five rules find no fault in it, whatever
/// the request's document: `LoneAnonymousOperation`, `UniqueOperationNames` (5.2 Operations),
/// `UniqueFragmentNames`, `NoUnusedFragments` and `NoFragmentCycles` (5.5 Fragments).
pub fn one_operation_is_left<S: ScalarValue, C>()
    ensures { (schema : Declarations S C) → OneOperationIsLeft S.answer S.of_bool schema }
{}

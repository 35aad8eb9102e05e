//! Laws of what holds of a document in which rules find no fault, and of what is told of literals:
//! each function's contract is a law, and its body does nothing.

ghost use Rattle.std.specs.Prelude.{◌≡◌, ◌↔◌, List, false, true, map, not, []};
ghost use Rattle.std.specs.List.{IsDistinct, flat_map, Contains};
ghost use Rattle.std.specs.Option.{ForSome, IsSome};
ghost use Rattle.std.specs.Str.{bytes_eq};
ghost use Rattle.graphql_tree.specs.Definitions.{fragment_named};
ghost use Rattle.graphql_occurrences.specs.Events.{events};
ghost use Rattle.graphql_occurrences.specs.Lookups.{known};
ghost use Rattle.graphql_occurrences.specs.Occurrences.{occurrences};
ghost use Rattle.graphql_occurrences.specs.Parts.{Part, AField, ASpread, ADirective, AnInline};
ghost use Rattle.graphql_occurrences.specs.Parts.{Condition, Given, ObjectOf, VariableDefined};
ghost use Rattle.graphql_occurrences.specs.Parts.{GivenPart, VariablePart};
ghost use Rattle.graphql_rule_errors.specs.Places.{Places};
ghost use Rattle.graphql_rules.specs.DisableIntrospection.{disable_introspection_faults};
ghost use Rattle.graphql_rules.specs.DisableIntrospection.{introspects};
ghost use Rattle.graphql_rules.specs.FieldsOnCorrectType.{fields_on_correct_type_faults};
ghost use Rattle.graphql_rules.specs.FragmentsOnCompositeTypes.{fragments_on_composite_types_faults};
ghost use Rattle.graphql_rules.specs.KnownArgumentNames.{known_argument_names_faults};
ghost use Rattle.graphql_rules.specs.KnownDirectives.{known_directives_faults};
ghost use Rattle.graphql_rules.specs.KnownFragmentNames.{known_fragment_names_faults};
ghost use Rattle.graphql_rules.specs.KnownTypeNames.{known_type_names_faults};
ghost use Rattle.graphql_rules.specs.Laws.{AreDeclared, AreDistinct, AreProvided, EachOf};
ghost use Rattle.graphql_rules.specs.Laws.{FindsNoFault, IsDeclaredField, IsKnownAs, IsPlaced};
ghost use Rattle.graphql_rules.specs.Laws.{IsSelected, MayApply, ArgumentsFit, DefaultFits};
ghost use Rattle.graphql_rules.specs.PossibleFragmentSpreads.{possible_fragment_spreads_faults};
ghost use Rattle.graphql_rules.specs.PossibleVisitor.{by_names};
ghost use Rattle.graphql_rules.specs.ProvidedNonNullArguments.{provided_non_null_arguments_faults};
ghost use Rattle.graphql_rules.specs.ScalarLeafs.{scalar_leafs_faults};
ghost use Rattle.graphql_rules.specs.UniqueArgumentNames.{unique_argument_names_faults};
ghost use Rattle.graphql_rules.specs.UniqueInputFieldNames.{unique_input_field_names_faults};
ghost use Rattle.graphql_rules.specs.VariablesAreInputTypes.{variables_are_input_types_faults};
ghost use Rattle.graphql_rules.specs.declared.possible_fragment_spreads.PossibleFragmentSpreads.{
  PossibleFragmentSpreads,
};
ghost use Rattle.graphql_schema.specs.Declarations.{declarations_of};
ghost use Rattle.graphql_schema.specs.Faults.{is_composite};
ghost use Rattle.graphql_visitors.specs.Runs.{Runs, joined};
ghost use Rattle.graphql_visitors.specs.Subjects.{Subject};
ghost use Rattle.graphql_rules.specs.ArgumentsOfCorrectType.{arguments_of_correct_type_faults};
ghost use Rattle.graphql_rules.specs.DefaultValuesOfCorrectType.{default_values_of_correct_type_faults};
ghost use Rattle.graphql_visitors.specs.Rules.{Tell};

use graphql_schema::{Meaning, SchemaScalar};

/// `KnownFragmentNames` finds no fault exactly where each spread's name is that of a fragment of
/// the document (GraphQL October 2021, 5.5.2.1 Fragment Spread Target Defined).
pub fn spread_fragments_are_known<S: SchemaScalar>()
    ensures { (subject : Subject S S.Check) → (parts : List (Part S S.Check))
        → FindsNoFault known_fragment_names_faults subject parts
        ↔ EachOf ASpread (λ s. IsSome (fragment_named subject.document s.name.item)) parts }
{}

/// `FieldsOnCorrectType` finds no fault exactly where each field is declared for the type that it
/// is selected of (5.3.1 Field Selections).
pub fn fields_are_declared<S: SchemaScalar>()
    ensures { (subject : Subject S S.Check) → (parts : List (Part S S.Check))
        → FindsNoFault fields_on_correct_type_faults subject parts
        ↔ EachOf AField (λ f. IsSome f.declared) parts }
{}

/// `ScalarLeafs` finds no fault exactly where each field whose type is known has a selection set
/// where that type is composite, and none where it is a leaf (5.3.3 Leaf Field Selections).
pub fn leaves_have_no_sets<S: SchemaScalar>()
    ensures { (subject : Subject S S.Check) → (parts : List (Part S S.Check))
        → FindsNoFault scalar_leafs_faults subject parts
        ↔ EachOf AField (IsSelected subject.schema) parts }
{}

/// The two find no fault exactly where each field is declared, and has a selection set where it
/// must and none where it may not.
pub fn fields_are_declared_and_fit<S: SchemaScalar>()
    ensures { (subject : Subject S S.Check) → (parts : List (Part S S.Check))
        → (FindsNoFault fields_on_correct_type_faults subject parts
        × FindsNoFault scalar_leafs_faults subject parts)
        ↔ EachOf AField (IsDeclaredField subject.schema) parts }
{}

/// `KnownTypeNames` finds no fault exactly where the type of each variable and the type of each
/// condition is known (5.5.1.2 Fragment Spread Type Existence, 5.8.2 Variables Are Input Types).
pub fn named_types_are_known<S: SchemaScalar>()
    ensures { (subject : Subject S S.Check) → (parts : List (Part S S.Check))
        → FindsNoFault known_type_names_faults subject parts
        ↔ (EachOf VariableDefined (λ v. IsSome (known subject.schema v.type_of.item.name)) parts
        × EachOf Condition (λ name. IsSome (known subject.schema name.item)) parts) }
{}

/// `VariablesAreInputTypes` finds no fault exactly where the type of each variable, where it is
/// known, is no composite one (5.8.2 Variables Are Input Types).
pub fn variables_are_of_input_types<S: SchemaScalar>()
    ensures { (subject : Subject S S.Check) → (parts : List (Part S S.Check))
        → FindsNoFault variables_are_input_types_faults subject parts ↔ EachOf VariableDefined (λ v.
        ForSome (known subject.schema v.type_of.item.name) (λ m. is_composite m ≡ false)) parts }
{}

/// `FragmentsOnCompositeTypes` finds no fault exactly where the type of each condition, where it is
/// known, is composite (5.5.1.3 Fragments on Composite Types).
pub fn conditions_are_composite<S: SchemaScalar>()
    ensures { (subject : Subject S S.Check) → (parts : List (Part S S.Check))
        → FindsNoFault fragments_on_composite_types_faults subject parts
        ↔ EachOf Condition
        (λ name. ForSome (known subject.schema name.item) (λ m. is_composite m ≡ true)) parts }
{}

/// The three find no fault exactly where the type of each variable is known and no composite one,
/// and the type of each condition is known and composite.
pub fn named_types_are_of_their_kinds<S: SchemaScalar>()
    ensures { (subject : Subject S S.Check) → (parts : List (Part S S.Check))
        → (FindsNoFault known_type_names_faults subject parts
        × FindsNoFault variables_are_input_types_faults subject parts
        × FindsNoFault fragments_on_composite_types_faults subject parts) ↔ (EachOf VariableDefined
        (λ v. IsKnownAs subject.schema (λ m. not (is_composite m)) v.type_of.item.name) parts
        × EachOf Condition (λ name. IsKnownAs subject.schema is_composite name.item) parts) }
{}

/// `PossibleFragmentSpreads` finds no fault exactly where the type of each spread's fragment and of
/// each inline fragment's condition, where it is known, has a possible type in common with the type
/// of which it is selected (5.5.2.3 Fragment Spread Is Possible).
pub fn spreads_are_possible<S: SchemaScalar>()
    ensures { (subject : Subject S S.Check) → (parts : List (Part S S.Check))
        → FindsNoFault possible_fragment_spreads_faults subject parts
        ↔ (EachOf ASpread (λ s. ForSome (fragment_named subject.document s.name.item)
        (λ f. MayApply subject.schema s.parent f.item.type_condition.item)) parts
        × EachOf AnInline
        (λ i. ForSome i.condition (λ name. MayApply subject.schema i.parent name.item)) parts) }
{}

/// Over the events of a document, a visitor of `PossibleFragmentSpreads` that is made for the
/// document's schema tells just what the rule says of the document's occurrences.
pub fn possible_spreads_tell_of_occurrences<S: SchemaScalar>()
    ensures { (subject : Subject S S.Check) → (v w : PossibleFragmentSpreads S S.Check)
        → (told : List Places) → declarations_of v.overlaps.schema.now ≡ subject.schema
        → Runs by_names subject v (events subject.schema subject.document) w told
        → joined told
        ≡ flat_map (possible_fragment_spreads_faults subject)
        (occurrences subject.schema subject.document) }
{}

/// `KnownDirectives` finds no fault exactly where each directive is declared and may stand where it
/// does (5.7.1 Directives Are Defined, 5.7.2 Directives Are In Valid Locations).
pub fn directives_may_stand<S: SchemaScalar>()
    ensures { (subject : Subject S S.Check) → (parts : List (Part S S.Check))
        → FindsNoFault known_directives_faults subject parts ↔ EachOf ADirective IsPlaced parts }
{}

/// `KnownArgumentNames` finds no fault exactly where each argument that a known field or directive
/// is given is declared for it (5.4.1 Argument Names).
pub fn arguments_are_declared<S: SchemaScalar>()
    ensures { (subject : Subject S S.Check) → (parts : List (Part S S.Check))
        → FindsNoFault known_argument_names_faults subject parts ↔ EachOf Given AreDeclared parts }
{}

/// `ProvidedNonNullArguments` finds no fault exactly where each argument that a known field or
/// directive has to be given is given (5.4.2.1 Required Arguments).
pub fn arguments_are_provided<S: SchemaScalar>()
    ensures { (subject : Subject S S.Check) → (parts : List (Part S S.Check))
        → FindsNoFault provided_non_null_arguments_faults subject parts
        ↔ EachOf Given AreProvided parts }
{}

/// `DisableIntrospection` finds no fault exactly where no field is `__schema` or `__type` (4.2
/// Schema Introspection).
pub fn nothing_is_introspected<S: SchemaScalar>()
    ensures { (subject : Subject S S.Check) → (parts : List (Part S S.Check))
        → FindsNoFault disable_introspection_faults subject parts
        ↔ EachOf AField (λ f. introspects f.name ≡ false) parts }
{}

/// `UniqueArgumentNames` finds no fault exactly where no two arguments that a field or a directive
/// is given have one name (5.4.2 Argument Uniqueness).
pub fn arguments_are_distinct<S: SchemaScalar>()
    ensures { (subject : Subject S S.Check) → (parts : List (Part S S.Check))
        → FindsNoFault unique_argument_names_faults subject parts ↔ EachOf Given AreDistinct parts }
{}

/// `UniqueInputFieldNames` finds no fault exactly where no two fields of an object have one name
/// (5.6.3 Input Object Field Uniqueness).
pub fn input_fields_are_distinct<S: SchemaScalar>()
    ensures { (subject : Subject S S.Check) → (parts : List (Part S S.Check))
        → FindsNoFault unique_input_field_names_faults subject parts
        ↔ EachOf ObjectOf (λ names. IsDistinct bytes_eq (map (λ n. n.item) names)) parts }
{}

/// `ArgumentsOfCorrectType` tells nothing exactly where the value of each argument that is declared
/// conforms to the type that is declared.
pub fn declared_arguments_conform<S: SchemaScalar>()
    ensures { (subject : Subject S S.Check) → (parts : List (Part S S.Check))
        → Tell (arguments_of_correct_type_faults ⟦<S as Meaning>⟧.meaning subject) parts []
        ↔ ((g : GivenPart S) → Contains parts (Given g)
        → ArgumentsFit ⟦<S as Meaning>⟧.meaning subject.schema.types g) }
{}

/// What `ArgumentsOfCorrectType` tells is determined.
pub fn told_of_arguments_is_determined<S: SchemaScalar>()
    ensures { (subject : Subject S S.Check) → (parts : List (Part S S.Check))
        → (told other : Places)
        → Tell (arguments_of_correct_type_faults ⟦<S as Meaning>⟧.meaning subject) parts told
        → Tell (arguments_of_correct_type_faults ⟦<S as Meaning>⟧.meaning subject) parts other
        → told ≡ other }
{}

/// `DefaultValuesOfCorrectType` tells nothing exactly where the default of each variable whose type
/// is known conforms to that type.
pub fn defaults_conform<S: SchemaScalar>()
    ensures { (subject : Subject S S.Check) → (parts : List (Part S S.Check))
        → Tell (default_values_of_correct_type_faults ⟦<S as Meaning>⟧.meaning subject) parts []
        ↔ ((v : VariablePart S) → Contains parts (VariableDefined v)
        → DefaultFits ⟦<S as Meaning>⟧.meaning subject.schema v) }
{}

/// What `DefaultValuesOfCorrectType` tells is determined.
pub fn told_of_defaults_is_determined<S: SchemaScalar>()
    ensures { (subject : Subject S S.Check) → (parts : List (Part S S.Check))
        → (told other : Places)
        → Tell (default_values_of_correct_type_faults ⟦<S as Meaning>⟧.meaning subject) parts told
        → Tell (default_values_of_correct_type_faults ⟦<S as Meaning>⟧.meaning subject) parts other
        → told ≡ other }
{}

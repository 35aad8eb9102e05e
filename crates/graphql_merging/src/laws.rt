//! Laws of the definitions, and of the fields that are collected for an object type from sets that
//! merge:
//! each function's contract is a law, and its body does nothing.

ghost use Rattle.graphql_merging.specs.Laws.{
  AgreementIsMutual,
  AgreesWithItself,
  DisagreementIsConflict,
  MergingIsAgreement,
  MergingIsMutual,
  DirectConflictsAreNamed,
  DirectConflictsAreConflicts,
  ChosenAreCollected,
  OneField,
  OneFieldOfObject,
  OwnSetsMerge,
};
ghost use Rattle.graphql_merging.specs.Chosen.{OneObject};
ghost use Rattle.graphql_schema.specs.Subtypes.{is_named_subtype};

use graphql_schema::SchemaType;

/// A set merges exactly where each two fields that stand together in it agree; so one such pair
/// that does not agree is a conflict.
pub fn merging_is_agreement<S: PartialEq, C>()
    ensures agreement { MergingIsAgreement S C S.eq }
    ensures conflict { DisagreementIsConflict S C S.eq }
    ensures mutual { AgreementIsMutual S C S.eq }
{}

/// Two fields merge either way round.
pub fn merging_is_mutual<S: PartialEq, C>()
    ensures { MergingIsMutual S C S.eq }
{}

/// A field agrees with itself.
pub fn fields_agree_with_themselves<S: Eq, C>()
    ensures { AgreesWithItself S C S.eq }
{}

/// What is told of the fields that stand directly in a set: all of them that differ in names or
/// arguments, and conflicts alone.
pub fn direct_conflicts_are_right<S: PartialEq, C>()
    ensures named { DirectConflictsAreNamed S C S.eq }
    ensures conflicts { DirectConflictsAreConflicts S C S.eq }
{}

/// Where the types of a selection set's fragments are known, the members of the set that apply to
/// an object type are the fields that are collected for it, in order.
pub fn chosen_members_are_collected<S, C>()
    ensures { ChosenAreCollected S C }
{}

/// Of sets that merge together, the fields of one response key that apply to one object type have
/// one name and the same arguments, so that the first of them stands for all.
pub fn one_field_for_a_key<S: PartialEq, C>()
    ensures { OneField S C S.eq }
{}

/// The own sets of all fields of a response key that apply to one object type merge together again.
pub fn own_sets_merge<S: PartialEq, C>()
    ensures { OwnSetsMerge S C S.eq }
{}

/// An object type of a schema is a subtype of no other object type of it, so that the types that an
/// object is a subtype of are such as the laws above ask for.
pub fn one_object_type<S, C>(schema: &SchemaType<S, C>, object: &str)
    ensures { OneObject schema.now.types (is_named_subtype schema.now.types object.now) object.now }
{}

/// Of a set that selects from an object type of a schema and merges, the fields of one response key
/// that apply to the type have one name and the same arguments.
pub fn one_field_of_an_object<S: PartialEq, C>(schema: &SchemaType<S, C>)
    ensures { OneFieldOfObject S C S.eq schema.now.types }
{}

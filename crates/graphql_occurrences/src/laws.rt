//! Laws of walks over documents: each function's contract is a law, and its body does nothing.

ghost use Rattle.std.specs.Prelude.{◌≡◌, List};
ghost use Rattle.std.specs.List.{flat_map};
ghost use Rattle.graphql_occurrences.specs.DeclaredLookups.{Declarations};
ghost use Rattle.graphql_tree.specs.declared.document.Definition.{Definition};
ghost use Rattle.graphql_occurrences.specs.Events.{events};
ghost use Rattle.graphql_occurrences.specs.Laws.{OccurrencesAreUnlocated};
ghost use Rattle.graphql_occurrences.specs.Occurrences.{occurrences};
ghost use Rattle.graphql_occurrences.specs.PartsOf.{parts_of};

/// The parts that the events of a document tell are its occurrences, in order.
pub fn events_tell_occurrences<S, C>()
    ensures { (schema : Declarations S C) → (document : List (Definition S))
        → flat_map parts_of (events schema document) ≡ occurrences schema document }
{}

/// The occurrences of a document without its places are those of the document, each without its
/// places: which parts there are does not depend on where they stand.
pub fn occurrences_without_places<S, C>()
    ensures { OccurrencesAreUnlocated S C }
{}

//! What texts are, of a document in two lines and in one, and of texts without a token.

ghost use Rattle.std.specs.Prelude.{◌≡◌, List, map};
ghost use Rattle.graphql_grammar.specs.Input.{Fault};
ghost use Rattle.graphql_language.specs.Texts.{IsDocument, IsRefused};
ghost use Rattle.graphql_occurrences.specs.Occurrences.{occurrences};
ghost use Rattle.graphql_occurrences.specs.Unlocated.{unlocated_part};
ghost use Rattle.graphql_schema.specs.Declarations.{declarations_of};
ghost use Rattle.graphql_tree.specs.Unlocated.{unlocated_document};
ghost use Rattle.graphql_tree.specs.declared.document.Definition.{Definition};
ghost use Rattle.graphql_law_rows.specs.SampleTexts as spec;
ghost use Rattle.graphql_law_rows.specs.SampleTokens.{one_line, two_lines};

use graphql_language::laws::{differ_in_places, not_both, one_document, one_fault};
use graphql_lexer::laws::reading_is_division;
use graphql_occurrences::laws::occurrences_without_places;
use graphql_schema::SchemaType;
use graphql_values::ScalarValue;

/// A query of one field in two lines is that document and no other, and has no fault.
pub fn two_lines_are_a_document<S: ScalarValue>()
    ensures document { IsDocument S S.reads S.of_bool two_lines spec.tree }
    ensures only { (other : List (Definition S)) → IsDocument S S.reads S.of_bool two_lines other
        → other ≡ spec.tree }
    ensures no_fault { (fault : Fault) → IsRefused S S.reads S.of_bool two_lines fault → ⊥ }
{
    reading_is_division();
    one_document::<S>();
    not_both::<S>();
}

/// The same query in one line is a document that differs from it in places alone.
pub fn one_line_is_the_same_document<S: ScalarValue>()
    ensures { (again : List (Definition S)) × IsDocument S S.reads S.of_bool one_line again
        × (unlocated_document again ≡ unlocated_document spec.tree) }
{
    reading_is_division();
    two_lines_are_a_document::<S>();
    differ_in_places::<S>();
}

/// By what a schema declares, both have the same parts, but for places.
pub fn one_line_has_the_same_parts<S: ScalarValue, C>(schema: &SchemaType<S, C>)
    ensures { let parts_of = λ (document : List (Definition S)).
        map unlocated_part (occurrences (declarations_of schema.now) document) in
        (again : List (Definition S)) × IsDocument S S.reads S.of_bool one_line again
        × (parts_of again ≡ parts_of spec.tree) }
{
    one_line_is_the_same_document::<S>();
    occurrences_without_places::<S, C>();
}

/// The empty text ends too early, which is its only fault.
pub fn nothing_ends_too_early<S: ScalarValue>()
    ensures refused { IsRefused S S.reads S.of_bool spec.nothing spec.fault }
    ensures only { (other : Fault) → IsRefused S S.reads S.of_bool spec.nothing other
        → other ≡ spec.fault }
    ensures no_document { (tree : List (Definition S))
        → IsDocument S S.reads S.of_bool spec.nothing tree
        → ⊥ }
{
    reading_is_division();
    one_fault::<S>();
    not_both::<S>();
}

/// A blank text has the same fault.
pub fn blank_ends_too_early<S: ScalarValue>()
    ensures { (again : Fault) × IsRefused S S.reads S.of_bool spec.blank again
        × (again.item ≡ spec.fault.item) }
{
    reading_is_division();
    nothing_ends_too_early::<S>();
    differ_in_places::<S>();
}

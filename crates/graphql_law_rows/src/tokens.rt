//! The laws of tokens with a premise, each of texts that meet it.

ghost use Rattle.std.specs.Prelude.{◌≡◌, ◌<◌, ◌≤◌, ◌+◌, ◌⊎◌, ◌++◌, [], ◌∷◌, Ok, Err, Some, List};
ghost use Rattle.std.specs.Prelude.{false, encode_utf8_all, length, map};
ghost use Rattle.graphql_text.specs.Grammar.{IsBroken, IsDivided, Spells};
ghost use Rattle.graphql_lexer.specs.Laws.{Every, InOrder, placed, slice_of};
ghost use Rattle.graphql_lexer.specs.OneByOne.{TokenOrRefusal, GivesNext};
ghost use Rattle.graphql_text.specs.Position.{position_at};
ghost use Rattle.graphql_text.specs.Reading.{Refusal};
ghost use Rattle.graphql_text.specs.Spelling.{source_of};
ghost use Rattle.graphql_text.specs.Tokens.{Located, is_end};
ghost use Rattle.graphql_law_rows.specs.SampleTokens as spec;

use graphql_lexer::laws;

/// A text of two lines is divided into its four tokens and no others, and has no fault.
pub fn two_lines_are_divided()
    ensures divided { IsDivided spec.two_lines spec.tokens }
    ensures only { (tokens : List Located) → IsDivided spec.two_lines tokens
        → tokens ≡ spec.tokens }
    ensures no_fault { (fault : Refusal) → IsBroken spec.two_lines fault → ⊥ }
{
    laws::reading_is_division();
    laws::one_list();
    laws::not_both();
}

/// Where those tokens stand in it, and what stands there.
pub fn tokens_stand_in_two_lines()
    ensures few { length spec.tokens ≤ length spec.two_lines + 1 }
    ensures in_order { InOrder 0 spec.tokens (length spec.two_lines) }
    ensures positions { let at = position_at spec.two_lines in
        Every (λ t. (t.span.start ≡ at t.span.start.index) × (t.span.end ≡ at t.span.end.index))
        spec.tokens }
    ensures spelled { Every (λ t. Spells t.item (slice_of spec.two_lines t)) spec.tokens }
    ensures sources { Every (λ t. source_of t.item ≡ encode_utf8_all (slice_of spec.two_lines t))
        spec.tokens }
    ensures wide { Every (λ t. is_end t.item ≡ false → t.span.start.index < t.span.end.index)
        spec.tokens }
    ensures in_a_line { Every (λ t. t.span.end.line ≡ t.span.start.line) spec.tokens }
{
    two_lines_are_divided();
    laws::few_tokens();
    laws::spans_in_order();
    laws::places_are_positions();
    laws::slices_spell();
    laws::sources_are_slices();
    laws::tokens_are_wide();
    laws::tokens_in_a_line();
}

/// The same tokens in one line differ from those in places alone.
pub fn one_line_differs_in_places()
    ensures { spec.others ≡ placed (map (λ t. t.item) spec.tokens) (map (λ t. t.span) spec.others) }
{
    two_lines_are_divided();
    laws::reading_is_division();
    laws::differ_in_places();
}

/// A text with a question mark has that fault and no other, at its place, and no list of tokens.
/// One by one its tokens are given until the fault, and then nothing more.
pub fn question_mark_is_the_fault()
    ensures is_broken { IsBroken spec.broken spec.fault }
    ensures only { (fault : Refusal) → IsBroken spec.broken fault → fault ≡ spec.fault }
    ensures no_tokens { (tokens : List Located) → IsDivided spec.broken tokens → ⊥ }
    ensures position { spec.fault.span.start ≡ position_at spec.broken spec.fault.span.start.index }
    ensures in_turn { ((tokens : List Located)
        × (spec.answers ≡ map Ok tokens)
        × IsDivided spec.broken tokens)
        ⊎ ((front : List Located)
        × (fault : Refusal)
        × (spec.answers ≡ map Ok front ++ (Err fault) ∷ [])
        × IsBroken spec.broken fault) }
    ensures nothing_more { (answer : TokenOrRefusal)
        → GivesNext spec.done (Some answer) spec.done → ⊥ }
{
    laws::reading_is_break();
    laws::one_fault();
    laws::not_both();
    laws::fault_is_position();
    laws::same_one_by_one();
    laws::nothing_more();
}

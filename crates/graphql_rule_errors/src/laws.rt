//! Laws of errors of rules: each function's contract is a law, and its body does nothing.

ghost use Rattle.std.specs.Prelude.{◌≡◌, ◌↔◌, [], List, map};
ghost use Rattle.std.specs.List.{IsDistinct};
ghost use Rattle.std.specs.Ordering.{on, then_cmp};
ghost use Rattle.std.specs.Str.{bytes_eq};
ghost use Rattle.graphql_rule_errors.specs.Repeats.{Mention, repeats};
ghost use Rattle.graphql_rule_errors.specs.declared.rule_error.RuleError.{RuleError};

use crate::rule_error::RuleError;
use graphql_text::{Items, SourcePosition, Text};

/// Errors stand in the order of their places, from the first on, and errors of the same places in
/// that of their messages.
pub fn errors_stand_by_places_and_messages()
    ensures { (one other : RuleError)
        → ⟦<RuleError as Ord>⟧.cmp one other
        ≡ then_cmp (on (λ e. e.locations) ⟦<Items<SourcePosition> as Ord>⟧.cmp)
        (on (λ e. e.message) ⟦<Text as Ord>⟧.cmp) one other }
{}

/// No mention repeats a name exactly where the names are distinct.
pub fn distinct_names_have_no_repeats()
    ensures { (mentions : List Mention)
        → (repeats mentions ≡ []) ↔ IsDistinct bytes_eq (map (λ m. m.name) mentions) }
{}

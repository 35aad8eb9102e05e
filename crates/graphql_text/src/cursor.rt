//! A place in a text, with what follows it.

ghost use Rattle.std.specs.Prelude.{◌≡◌, ◌<◌, ◌≤◌, ◌+◌, ◌^◌, [], ◌∷◌, length, MatchOption};
ghost use Rattle.std.specs.Str.{chars};
ghost use Rattle.graphql_text.specs.Position.{origin, step};

use crate::characters::first_character;
use crate::position::SourcePosition;

/// A place in a text, and the text from there on.
#[derive(Clone, Copy, Debug)]
pub struct Cursor<'a> {
    /// The place.
    pub at: SourcePosition,
    /// What follows it.
    pub rest: &'a str,
    ghost room: { at.index + length rest.now < 2 ^ 64 },
    ghost line: { at.line ≤ at.index },
    ghost column: { at.column ≤ at.index },
}

impl<'a> Cursor<'a> {
    /// The start of a text.
    pub fn new(text: &'a str) -> Cursor<'a>
        ensures at { result.at ≡ origin }
        ensures rest { result.rest.now ≡ text.now }
    {
        Cursor {
            at: SourcePosition::new_origin(),
            rest: text,
        }
    }

    /// The next character, and the place behind it.
    pub fn next(self) -> Option<(char, Cursor<'a>)>
        ensures rest { MatchOption result (chars self.entry.rest.now ≡ [])
            (λ r. chars self.entry.rest.now ≡ r.0 ∷ chars r.1.rest.now) }
        ensures at { MatchOption result (chars self.entry.rest.now ≡ [])
            (λ r. r.1.at ≡ step self.entry.at r.0) }
        ensures shorter { MatchOption result (chars self.entry.rest.now ≡ [])
            (λ r. length r.1.rest.now < length self.entry.rest.now) }
    {
        let (c, rest) = first_character(self.rest)?;
        let mut at = self.at;
        if c == '\n' {
            at.advance_line();
        } else {
            at.advance_col();
        }
        Some((c, Cursor { at, rest }))
    }
}

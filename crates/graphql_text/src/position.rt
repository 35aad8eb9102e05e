//! Places in a text, and the parts between two of them.

ghost use Rattle.std.specs.Prelude.{◌≡◌, ◌<◌, ◌+◌, ◌∷◌, ◌++◌, Some};
ghost use Rattle.std.specs.Fmt.{decimal};
ghost use Rattle.graphql_text.specs.Position.{origin, next_column, next_line};

use std::fmt;

/// A place in a text, counted in characters, each part from zero: how many characters stand
/// before it, how many line feeds are among them, and how many stand after the last of these.
///
/// Places are ordered by index, then line, then column.
#[derive(Clone, Copy, Debug, PartialEq, Eq, PartialOrd, Ord, Hash)]
pub struct SourcePosition {
    index: usize,
    line: usize,
    column: usize,
}

impl SourcePosition {
    /// The place with these parts.
    pub fn new(index: usize, line: usize, column: usize) -> SourcePosition
        ensures { result ≡ record { index = index; line = line; column = column } }
    {
        SourcePosition {
            index,
            line,
            column,
        }
    }

    /// The place before the first character.
    pub fn new_origin() -> SourcePosition
        ensures { result ≡ origin }
    {
        SourcePosition {
            index: 0,
            line: 0,
            column: 0,
        }
    }

    /// Moves behind one character that is no line feed.
    pub fn advance_col(&mut self)
        requires index { self.old.index < usize.MAX }
        requires column { self.old.column < usize.MAX }
        ensures { self.new ≡ next_column self.old }
    {
        self.index += 1;
        self.column += 1;
    }

    /// Moves behind one line feed, to the start of the next line.
    pub fn advance_line(&mut self)
        requires index { self.old.index < usize.MAX }
        requires line { self.old.line < usize.MAX }
        ensures { self.new ≡ next_line self.old }
    {
        self.index += 1;
        self.line += 1;
        self.column = 0;
    }

    /// How many characters stand before this place.
    pub fn index(&self) -> usize
        ensures { result ≡ self.now.index }
    {
        self.index
    }

    /// How many line feeds stand before this place.
    pub fn line(&self) -> usize
        ensures { result ≡ self.now.line }
    {
        self.line
    }

    /// How many characters stand between the last line feed before this place and the place.
    pub fn column(&self) -> usize
        ensures { result ≡ self.now.column }
    {
        self.column
    }
}

/// Writes `line:column`, each from zero.
impl fmt::Display for SourcePosition {
    ghost output = { λ p. Some (decimal p.line ++ 58 ∷ decimal p.column) };

    fn fmt<W: fmt::Write>(&self, f: &mut fmt::Formatter<W>) -> fmt::Result {
        let line = self.line;
        let column = self.column;
        write!(f, "{line}:{column}")
    }
}

/// A part of a text, from just before its first character to just after its last.
#[derive(Clone, Copy, Debug, PartialEq, Eq, Hash)]
pub struct Span {
    /// The place of the first character.
    pub start: SourcePosition,

    /// The place behind the last character.
    pub end: SourcePosition,
}

impl Span {
    /// The empty part at a place.
    pub fn zero_width(position: SourcePosition) -> Span
        ensures { result ≡ record { start = position; end = position } }
    {
        Span {
            start: position,
            end: position,
        }
    }

    /// The part of one character, which is no line feed, at a place.
    pub fn single_width(position: SourcePosition) -> Span
        requires index { position.index < usize.MAX }
        requires column { position.column < usize.MAX }
        ensures { result ≡ record { start = position; end = next_column position } }
    {
        let mut end = position;
        end.advance_col();
        Span {
            start: position,
            end,
        }
    }

    /// The part of what stands in no text: empty, at the origin.
    pub fn unlocated() -> Span
        ensures { result ≡ record { start = origin; end = origin } }
    {
        Span {
            start: SourcePosition::new_origin(),
            end: SourcePosition::new_origin(),
        }
    }
}

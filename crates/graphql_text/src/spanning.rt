//! Values with the part of a text that they stand in.

ghost use Rattle.std.specs.Prelude.{◌≡◌, ◌-◌, ◌<◌, [], ◌∷◌, ◌++◌, Some, None, length, slice_get};
ghost use Rattle.std.specs.Prelude.{IsSome, IfSome, ◌↔◌, vec_len, IsTrue};
ghost use Rattle.std.specs.Option.{option_map};
ghost use Rattle.graphql_text.specs.Position.{origin, next_column};

use crate::position::{SourcePosition, Span};
use std::fmt;

/// A value, and the part of a text that it stands in.
#[derive(Clone, Debug, Drop, PartialEq, Eq, Hash)]
pub struct Spanning<T, Sp = Span> {
    /// The value.
    pub item: T,

    /// The part of the text.
    pub span: Sp,
}

impl<T, Sp> Spanning<T, Sp> {
    /// A value that stands in this part.
    pub fn new(span: Sp, item: T) -> Spanning<T, Sp>
        ensures { result ≡ record { item = item; span = span } }
    {
        Spanning { item, span }
    }

    /// The value that `f` makes of this one, in the same part.
    pub fn map<O, F: FnOnce(T) -> O>(self, f: F) -> Spanning<O, Sp>
        requires { F.pre f self.item }
        ensures item { F.post f self.item result.item }
        ensures span { result.span ≡ self.span }
    {
        Spanning {
            item: f(self.item),
            span: self.span,
        }
    }

    /// The value, lent, with a copy of its part.
    pub fn as_ref(&self) -> Spanning<&T, Sp>
    where
        Sp: Copy,
        ensures item { result.item.now ≡ self.now.item }
        ensures span { result.span ≡ self.now.span }
    {
        Spanning {
            item: &self.item,
            span: self.span,
        }
    }
}

impl<T, Sp: Drop> Spanning<T, Sp> {
    /// The value that `f` makes of this one, if any, in the same part.
    pub fn and_then<O, F: FnOnce(T) -> Option<O>>(self, f: F) -> Option<Spanning<O, Sp>>
        requires { F.pre f self.item }
        ensures item { F.post f self.item (option_map (λ s. s.item) result) }
        ensures span { IfSome result (λ s. s.span ≡ self.span) }
    {
        match f(self.item) {
            Some(item) => Some(Spanning {
                item,
                span: self.span,
            }),
            None => None,
        }
    }
}

impl<T> Spanning<T> {
    /// A value in the empty part at a place.
    pub fn zero_width(position: SourcePosition, item: T) -> Spanning<T>
        ensures { result
            ≡ record { item = item; span = record { start = position; end = position } } }
    {
        Spanning {
            item,
            span: Span::zero_width(position),
        }
    }

    /// A value in the part of one character at a place.
    pub fn single_width(position: SourcePosition, item: T) -> Spanning<T>
        requires index { position.index < usize.MAX }
        requires column { position.column < usize.MAX }
        ensures { result ≡ record {
          item = item;
          span = record { start = position; end = next_column position };
        } }
    {
        Spanning {
            item,
            span: Span::single_width(position),
        }
    }

    /// A value in the part between two places.
    pub fn start_end(start: SourcePosition, end: SourcePosition, item: T) -> Spanning<T>
        ensures { result ≡ record { item = item; span = record { start = start; end = end } } }
    {
        Spanning {
            item,
            span: Span { start, end },
        }
    }

    /// A value that stands in no text.
    pub fn unlocated(item: T) -> Spanning<T>
        ensures { result ≡ record { item = item; span = record { start = origin; end = origin } } }
    {
        Spanning {
            item,
            span: Span::unlocated(),
        }
    }

    /// Values in the part from the start of the first to the end of the last; none of no value.
    pub fn spanning(list: Vec<Spanning<T>>) -> Option<Spanning<Vec<Spanning<T>>>>
    where
        T: Drop,
        ensures some { IsSome result ↔ (0 < vec_len list) }
        ensures item { IfSome result (λ s. s.item ≡ list) }
        ensures start { IfSome result
            (λ s. option_map (λ x. x.span.start) (slice_get list.items 0) ≡ Some s.span.start) }
        ensures end { IfSome result (λ s. option_map (λ x. x.span.end)
            (slice_get list.items (vec_len list - 1)) ≡ Some s.span.end) }
    {
        let start = list.first()?.span.start;
        let end = list.last()?.span.end;
        Some(Spanning {
            item: list,
            span: Span { start, end },
        })
    }

    /// The place of the first character.
    pub fn start(&self) -> SourcePosition
        ensures { result ≡ self.now.span.start }
    {
        self.span.start
    }

    /// The place behind the last character.
    pub fn end(&self) -> SourcePosition
        ensures { result ≡ self.now.span.end }
    {
        self.span.end
    }
}

/// Writes the value, and where it starts.
impl<T: fmt::Display> fmt::Display for Spanning<T> {
    ghost use Rattle.std.specs.Prelude.{codes};
    ghost use Rattle.std.specs.Fmt.{decimal};

    ghost output = { λ s. option_map (λ item. item ++ codes ". At " ++ decimal s.span.start.line
        ++ codes ":" ++ decimal s.span.start.column) (T.output s.item) };

    fn fmt<W: fmt::Write>(&self, f: &mut fmt::Formatter<W>) -> fmt::Result {
        let item = &self.item;
        let start = self.span.start;
        write!(f, "{item}. At {start}")
    }
}

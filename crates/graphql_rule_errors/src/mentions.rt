//! Names that are mentioned at places of a document.

ghost use Rattle.std.specs.Prelude.{◌≡◌};

use graphql_text::{SourcePosition, Spanning, Text, TextRef};

/// What mentions a name at a place of a document.
pub trait Mentions {
    ghost use Rattle.graphql_rule_errors.specs.Repeats.{Mention};

    /// The name, and the place.
    ghost mention_of: { Self → Mention };

    /// The name.
    fn name(&self) -> &str
        ensures { result.now ≡ (mention_of self.now).name };

    /// Where the name is mentioned.
    fn place(&self) -> SourcePosition
        ensures { result ≡ (mention_of self.now).place };
}

/// A name that is mentioned elsewhere than where it stands, as that of an operation is where the
/// operation begins.
#[derive(Clone, Copy)]
pub struct LentMention<'a> {
    /// The name.
    pub name: &'a str,

    /// Where it is mentioned.
    pub place: SourcePosition,
}

impl<'a> Mentions for LentMention<'a> {
    ghost use Rattle.graphql_rule_errors.specs.Repeats.{mention_lent};

    ghost mention_of = { mention_lent };

    fn name(&self) -> &str {
        self.name
    }

    fn place(&self) -> SourcePosition {
        self.place
    }
}

/// An argument, or a variable of an operation, is mentioned where its name stands.
impl<'t, T> Mentions for (Spanning<TextRef<'t>>, T) {
    ghost use Rattle.graphql_rule_errors.specs.Repeats.{mention};

    ghost mention_of = { λ pair. mention pair.0 };

    fn name(&self) -> &str {
        self.0.item.as_str()
    }

    fn place(&self) -> SourcePosition {
        self.0.span.start
    }
}

/// A field of an input object is mentioned where its name stands.
impl<T> Mentions for (Spanning<Text>, T) {
    ghost use Rattle.graphql_rule_errors.specs.Repeats.{mention};

    ghost mention_of = { λ pair. mention pair.0 };

    fn name(&self) -> &str {
        self.0.item.as_str()
    }

    fn place(&self) -> SourcePosition {
        self.0.span.start
    }
}

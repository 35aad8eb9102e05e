//! The records of a text's tokens, of one's own or lent.

ghost use Rattle.std.specs.Prelude.{◌≡◌};
ghost use Rattle.graphql_grammar.specs.Kept.{recorded};

use graphql_lexer::TokenRecords;

/// The records of a text's tokens, of one's own or lent.
#[derive(Debug, Drop)]
pub(crate) enum Kept<'a> {
    Own(TokenRecords<'a>),
    Lent(&'a TokenRecords<'a>),
}

impl<'a> Kept<'a> {
    /// The records, whoever owns them.
    pub(crate) fn records(&self) -> &TokenRecords<'a>
        ensures { result.now ≡ recorded self.now }
    {
        match self {
            Kept::Own(records) => records,
            Kept::Lent(records) => records,
        }
    }
}

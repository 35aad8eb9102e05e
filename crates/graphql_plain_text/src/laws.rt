//! Laws of the text of plain operations: each function's contract is a law, and its body does
//! nothing.

ghost use Rattle.graphql_plain_text.specs.Laws.{
  OperationAgain,
  PartedIsCut,
  PlainTextIsDocument,
  SourcesAreTexts,
  ValuesAgain,
  ValuesOfTextAgain,
  WithinIsThese,
};

use graphql_values::ScalarValue;

/// The source texts of the tokens within a part of a text are those that `TokenRecords::texts`
/// gives.
pub fn sources_are_texts()
    ensures { SourcesAreTexts }
{}

/// The tokens within the place of some tokens of a text are these.
pub fn within_is_these()
    ensures { WithinIsThese }
{}

/// Tokens that some characters spell, parted by single spaces, are the tokens of that text.
pub fn parted_is_cut()
    ensures { PartedIsCut }
{}

/// What spells a value spells it wherever it stands, places aside.
pub fn values_again<S: ScalarValue>()
    ensures { ValuesAgain S S.reads S.of_bool }
{}

/// A value that stands in a text is spelled by the tokens within its place, wherever these stand.
pub fn values_of_text_again<S: ScalarValue>()
    ensures { ValuesOfTextAgain S S.reads S.of_bool }
{}

/// The tokens of a plain operation spell its document wherever they stand, places aside. For this
/// its names are spelt, its values and types are spelled by the tokens within their places, and its
/// set is not empty.
pub fn operation_again<S: ScalarValue>()
    ensures { OperationAgain S S.reads S.of_bool }
{}

/// The plain text of an operation of a document is UTF-8, and cut and parsed anew a document: its
/// only tree is the plain operation's, places aside. For this the operation has selections wherever
/// a set was written, once its fragments are written out, as an accepted document has them.
pub fn plain_text_is_document<S: ScalarValue>()
    ensures { PlainTextIsDocument S S.reads S.of_bool S.answer }
{}

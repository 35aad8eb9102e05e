//! The language layer of GraphQL: the parser of documents, and the types that its users name, from
//! here or from the crates below: places, tokens and faults; the trees of documents; values that go
//! in and come out, and how they are made of others.
//!
//! [`parse_document_source`] gives the tree of a text, or the text's first fault; who needs a
//! text's tokens beside its tree makes [`TokenRecords`] once, and takes both of them. What a
//! document is, production by production, is said by the relations in `specs/Documents.antt` and
//! the files that it names, in the words of the standard's grammar.
//!
//! [`Parser`] is what users call token by token: single tokens and names, lists between two tokens
//! by a function that reads an item, values and type references. After a refusal it has failed, and
//! answers that refusal again. What a call may answer, and what it leaves of the text, is said by
//! the relations in `specs/Parser.antt` and `specs/Lists.antt`.
#![tactic(auto)]

pub mod laws;
mod parse;
mod parser;
pub mod parser_laws;
mod source;
mod texts;

pub use graphql_lexer::{Lexer, TokenRecords, TokenText, TokenTexts, lex_all};
pub use graphql_output_values::{IntoValue, Object, Value};
pub use graphql_scalars::{
    CheckError, DefaultScalarValue, FromScalarValue, ParseScalarResult, ParseScalarValue, Scalar,
    ScalarValue, ToScalarValue, TryToPrimitive, WrongInputScalarTypeError,
};
pub use graphql_text::{
    Items, LexerError, LexerResult, OptionParseResult, ParseError, ParseResult, ScalarToken,
    SourcePosition, Span, Spanning, Text, TextRef, Token, UnlocatedParseResult,
};
pub use graphql_tree::{
    Arguments, Definition, Directive, Field, Fragment, FragmentSpread, InlineFragment, Operation,
    OperationType, OwnedDocument, Selection, VariableDefinition, VariableDefinitions,
};
pub use graphql_values::{
    BorrowedType, FromInputValue, FromInputValueArrayError, FromInputValueVecError, InputValue,
    IntoInputValue, Name, NameParseError, ToInputValue, Type, TypeModifier, TypeModifiers,
    Variables,
};
pub use parser::{Parser, parse_type, parse_value_literal};
pub use source::{parse_document_records, parse_document_source};
pub use texts::token_texts;

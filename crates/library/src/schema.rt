//! The schema of the library.

use graphql_embedding::{SchemaRows, TypeRow};

/// The schema, a row for each type and for each of its fields and values.
pub const SCHEMA: SchemaRows<'static> = SchemaRows {
    query: "Query",
    mutation: Some("Mutation"),
    types: &[
        TypeRow::Enum(
            "\"What a book is.\" Genre",
            &[
                "NOVEL",
                "\"Thoughts in prose.\" ESSAY",
                "POEMS @deprecated(reason: \"None are here.\")",
            ],
        ),
        TypeRow::Interface("Work", &[], WORK),
        TypeRow::Object("Book", &["Work"], BOOK),
        TypeRow::Object("Magazine", &["Work"], MAGAZINE),
        TypeRow::Object("\"Who wrote a book.\" Author", &[], AUTHOR),
        TypeRow::Union("Found", &["Book", "Magazine", "Author"]),
        TypeRow::OneOf("BookBy", &["id: ID", "title: String"]),
        TypeRow::InputObject("Years", &["from: Int! = 0", "to: Int! = 9999"]),
        TypeRow::InputObject("BookFilter", &["genres: [Genre!]", "years: Years"]),
        TypeRow::Object("Query", &[], QUERY),
        TypeRow::Object("Mutation", &[], &["pick(id: ID!): Book"]),
    ],
};

const WORK: &[&str] = &["id: ID!", "title: String!", "year: Int!"];

const BOOK: &[&str] = &[
    "id: ID!",
    "title: String!",
    "year: Int!",
    "genre: Genre!",
    "author: Author!",
];

const MAGAZINE: &[&str] = &["id: ID!", "title: String!", "year: Int!", "issue: Int!"];

const AUTHOR: &[&str] = &[
    "id: ID!",
    "\"As it stands on the cover.\" name: String!",
    "books(\"How many at most.\" first: Int, skip: Int): [Book!]! @deprecated",
];

const QUERY: &[&str] = &[
    "book(by: BookBy!): Book",
    "picked: Book",
    "books(filter: BookFilter, first: Int, skip: Int): [Book!]!",
    "works(ids: [ID!]!): [Work]!",
    "find(words: String!): [Found!]!",
];

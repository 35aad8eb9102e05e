//! The Star Wars schema.

use graphql_embedding::{SchemaRows, TypeRow};

/// The schema, a row for each field.
pub const SCHEMA: SchemaRows<'static> = SchemaRows {
    query: "Query",
    mutation: Some("Mutation"),
    types: &[
        TypeRow::Enum("Episode", &["NEW_HOPE", "EMPIRE", "JEDI"]),
        TypeRow::Interface("Character", &[], CHARACTER),
        TypeRow::Object("Human", &["Character"], HUMAN),
        TypeRow::Object("Droid", &["Character"], DROID),
        TypeRow::Object("Query", &[], QUERY),
        TypeRow::Object("Mutation", &[], &["chooseHero(id: String!): Character"]),
    ],
};

const CHARACTER: &[&str] = &[
    "id: String!",
    "name: String",
    "friends: [Character]",
    "appearsIn: [Episode]",
    "secretBackstory: String",
];

const HUMAN: &[&str] = &[
    "id: String!",
    "name: String",
    "friends: [Character]",
    "appearsIn: [Episode]",
    "homePlanet: String",
    "secretBackstory: String",
];

const DROID: &[&str] = &[
    "id: String!",
    "name: String",
    "friends: [Character]",
    "appearsIn: [Episode]",
    "secretBackstory: String",
    "primaryFunction: String",
];

const QUERY: &[&str] = &[
    "hero(episode: Episode): Character",
    "human(id: String!): Human",
    "droid(id: String!): Droid",
];

//! Files to begin with: a schema of humans with a name and a friend each, and two records of it.

/// A file of a schema: a query of a hero, and a mutation that gives a human another name.
pub const SCHEMA: &str =
    r#"{"query":"Query","mutation":"Mutation","types":[{"kind":"object","name":"Query","fields":[{"name":"hero","type":"Human"}]},{"kind":"object","name":"Human","fields":[{"name":"id","type":"String!"},{"name":"name","type":"String!"},{"name":"friend","type":"Human"}]},{"kind":"object","name":"Mutation","fields":[{"name":"rename","type":"Human","args":[{"name":"id","type":"String!"},{"name":"name","type":"String!"}]}]}]}"#;

/// A file of its records: the hero Ann, and her friend Bob.
pub const RECORDS: &str =
    r#"{"roots":{"query":"q"},"records":[{"id":"q","type":"Query","fields":{"hero":"h1"}},{"id":"h1","type":"Human","fields":{"name":"Ann","friend":"h2"}},{"id":"h2","type":"Human","fields":{"name":"Bob"}}]}"#;

//! Answers GraphQL request lines over the Star Wars schema of graphql-js's tests.
#![tactic(auto, using(graphql_resolvers::proofs::ToldAnswers::asked_fails))]

mod data;
mod resolver;
mod schema;

use anyhow::Error;
use data::GALAXY;
use graphql_embedding::{Piped, serve_rows};
use resolver::StarWars;
use schema::SCHEMA;
use std::io;

fn main(rt: HostRuntime) -> Result<(), Error> {
    let mut reader = Piped::new(rt.reader());
    let mut writer = Piped::new(io::writer(&rt));
    serve_rows(
        rt.alloc(),
        &SCHEMA,
        StarWars,
        GALAXY,
        &mut reader,
        &mut writer,
    )?;
    Ok(())
}

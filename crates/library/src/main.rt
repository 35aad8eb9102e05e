//! Answers GraphQL request lines over a library of books and authors.
#![tactic(auto, using(graphql_resolvers::proofs::ToldAnswers::asked_fails))]

mod data;
mod resolver;
mod schema;

use anyhow::Error;
use data::LIBRARY;
use graphql_embedding::{Piped, serve_rows};
use resolver::Librarian;
use schema::SCHEMA;
use std::io;

fn main(rt: HostRuntime) -> Result<(), Error> {
    let mut reader = Piped::new(rt.reader());
    let mut writer = Piped::new(io::writer(&rt));
    serve_rows(
        rt.alloc(),
        &SCHEMA,
        Librarian,
        LIBRARY,
        &mut reader,
        &mut writer,
    )?;
    Ok(())
}

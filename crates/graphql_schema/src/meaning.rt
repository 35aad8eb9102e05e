//! What the scalars of a schema mean, by one word for contracts.

use crate::check::SchemaScalar;

/// What the scalars of a schema mean. Each scalar type of schemas has it.
pub trait Meaning: SchemaScalar {
    ghost use Rattle.graphql_schema.specs.Scalars.{Scalars};

    /// What they mean.
    ghost meaning: { Scalars Self Self.Check };
}

impl<S: SchemaScalar> Meaning for S {
    ghost meaning = { record {
      reads = S.reads;
      of_bool = S.of_bool;
      of_int = S.of_int;
      of_text = S.of_text;
      eq = S.eq;
      answer = S.answer;
      accepts = S.Check.accepts;
    } };
}

//! Errors of rules: what is said, and of which places.

ghost use Rattle.std.specs.Prelude.{◌≡◌, ◌++◌, IfOk, Some, codes};
ghost use Rattle.std.specs.Fmt.{WritesOnOk};
ghost use Rattle.std.specs.List.{join_by};
ghost use Rattle.graphql_rule_errors.specs.RuleErrorText.{place_text, rule_error_text};

use graphql_text::{Items, SourcePosition, Text};
use std::alloc::{AllocError, Global};
use std::fmt;
use thiserror::Error;

/// What a rule has against a document (GraphQL October 2021, 5 Validation), and the places in the
/// document's text that it names. Errors are ordered by their places, from the first on, and errors
/// of the same places by the bytes of their messages.
#[derive(Clone, Debug, Drop, Error, PartialEq, Eq, PartialOrd, Ord)]
pub struct RuleError {
    locations: Items<SourcePosition>,
    message: Text,
}

impl RuleError {
    /// The error of this message at these places. Takes no memory.
    pub fn new(message: Text, locations: Items<SourcePosition>) -> RuleError
        ensures message { result.message ≡ message }
        ensures locations { result.locations ≡ locations }
    {
        RuleError { locations, message }
    }

    /// The error of this message at these places, which are copied. An error of the call is want of
    /// memory.
    pub fn at(
        alloc: Global,
        message: Text,
        places: &[SourcePosition],
    ) -> Result<RuleError, AllocError>
        ensures message { IfOk result (λ error. error.message ≡ message) }
        ensures locations { IfOk result (λ error. error.locations ≡ places.now) }
    {
        let mut locations = Items::with_capacity(alloc, places.len())?;
        locations.extend_from_slice(places)?;
        Ok(RuleError::new(message, locations))
    }

    /// What is said.
    pub fn message(&self) -> &str
        ensures { result.now ≡ self.now.message }
    {
        self.message.as_str()
    }

    /// The places that the error names, in the rule's order.
    pub fn locations(&self) -> &[SourcePosition]
        ensures { result.now ≡ self.now.locations }
    {
        self.locations.as_slice()
    }
}

/// Writes `message. At line:column, line:column`, lines and columns from zero.
impl fmt::Display for RuleError {
    ghost output = { λ error. Some (rule_error_text error) };

    fn fmt<W: fmt::Write>(&self, f: &mut fmt::Formatter<W>) -> fmt::Result {
        f.write_str(self.message())?;
        f.write_str(". At ")?;
        write_places(&self.locations, f)
    }
}

/// Writes places, with a comma and a space between any two.
fn write_places<W: fmt::Write>(
    places: &Items<SourcePosition>,
    f: &mut fmt::Formatter<W>,
) -> fmt::Result
    ensures { WritesOnOk W.write_str_gives f.old result (join_by place_text (codes ", ") places.now)
        f.new }
{
    let mut gap = "";
    for place in places.as_slice() {
        f.write_str(gap)?;
        fmt::Display::fmt(place, f)?;
        gap = ", ";
    }
    Ok(())
}

//! Answer lines in which null is kept out.

ghost use Rattle.std.specs.Prelude.{◌⊎◌, OnOk};
ghost use Rattle.graphql_service.specs.Answers.{answerer_of};
ghost use Rattle.graphql_service.specs.FittingLines.{IsFittingLine, IsRefusalLine};
ghost use Rattle.graphql_service_tests.specs.KeptOut.{KeepsNullOutAtRoot};

use graphql_sample::{SampleRecords, SampleResolver};
use graphql_service::laws::answer_lines_fit;
use graphql_service::{Answering, Service};
use graphql_values::DefaultScalarValue;
use std::alloc::{AllocError, Global};

/// Answers a line over the sample, as `Service::answer` does. The answer line is that of a refusal;
/// or its data are null and there is an error, or they have no null at the root where the schema
/// keeps it out.
pub fn answered_without_null(
    alloc: Global,
    service: &mut Service<DefaultScalarValue, SampleResolver, SampleRecords>,
    line: &[u8],
    out: &mut Vec<u8>,
) -> Result<(), AllocError>
    ensures { let a = answerer_of ⟦<SampleResolver as Answering<DefaultScalarValue>>⟧.answering
        service.old in
        OnOk result (IsRefusalLine a line.now service.old.context out.new.items
        ⊎ ((is : IsFittingLine a line.now service.old.context out.new.items)
        × KeepsNullOutAtRoot a line.now service.old.context is)) }
{
    answer_lines_fit::<DefaultScalarValue, SampleResolver>();
    service.answer(alloc, line, out)
}

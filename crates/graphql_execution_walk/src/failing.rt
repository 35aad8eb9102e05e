//! Places without a value.

ghost use Rattle.std.specs.Prelude.{◌++◌, IfOk, codes, reverse};
ghost use Rattle.graphql_text.specs.Memory.{Gives};
ghost use Rattle.graphql_names.specs.TypeReference.{written_type};
ghost use Rattle.graphql_semantics.specs.Completion.{misfit_error, own_null};
ghost use Rattle.graphql_execution_walk.specs.Begins.{BeginsOrTells};

use crate::frames::Begun;
use crate::report::Report;
use graphql_field_results::{FieldError, FieldFault, FieldResult};
use graphql_names::{BorrowedType, Type, TypeModifier};
use graphql_text::{SourcePosition, Text, TextRef};
use std::alloc::{AllocError, Global};

/// The resolver's own `null` may not stand there. An error is want of memory.
pub(crate) fn own_null<S>(alloc: Global) -> Result<FieldError<S>, AllocError>
    ensures { Gives result own_null }
{
    let message = Text::from_str(alloc, "Null at a non-null place")?;
    Ok(FieldError::of(message))
}

/// The answer does not fit a type of this name within these wraps, the innermost first. An error is
/// want of memory.
pub(crate) fn misfit<S>(
    alloc: Global,
    name: &str,
    wraps: &[TypeModifier],
) -> Result<FieldError<S>, AllocError>
    ensures { Gives result (misfit_error name.now (reverse wraps.now)) }
{
    let message = misfit_message(alloc, name, wraps)?;
    Ok(FieldError::of(message))
}

/// Why an answer does not fit. An error is want of memory.
fn misfit_message(alloc: Global, name: &str, wraps: &[TypeModifier]) -> Result<Text, AllocError>
    ensures { Gives result (codes "Answer does not fit type " ++ written_type name.now wraps.now) }
{
    let wanted: BorrowedType<'_> = Type {
        name: TextRef::new(name),
        modifiers: wraps,
    };
    let message = format!(in alloc; "Answer does not fit type {}", wanted)?;
    Ok(Text::from_string(message))
}

/// What has begun at the place of a field that starts there; nothing where the place itself fails,
/// which is told. An error is want of memory.
pub(crate) fn begun_or_told<'d, 'a, S: Drop, N>(
    alloc: Global,
    location: SourcePosition,
    begins: FieldResult<Begun<'d, 'a, S, N>, S>,
    report: &mut Report<'d, S>,
) -> Result<Begun<'d, 'a, S, N>, AllocError>
    ensures { IfOk result
        (λ begun. BeginsOrTells location begins.entry report.old begun report.new) }
{
    match begins {
        Ok(begun) => Ok(begun),
        Err(FieldFault::Error(error)) => {
            report.fail(alloc, location, error)?;
            Ok(Begun::Value(None))
        }
        Err(FieldFault::Memory) => Err(AllocError),
    }
}

//! What the program's arguments ask for.

ghost use Rattle.std.specs.Prelude.{◌≡◌};
ghost use Rattle.graphql_service_program.specs.Asked as spec;

use crate::failure::Failure;

/// What the program's arguments name: the paths of two files, and whether plain texts are asked
/// for.
#[derive(Drop)]
pub struct Arguments {
    /// The path of the file of a schema.
    pub schema: String,

    /// The path of the file of its records.
    pub records: String,

    /// Whether plain texts are asked for.
    pub plain: bool,
}

/// Whether the word behind the files asks for plain texts; without one, answers are asked for.
fn asks_for_plain(word: Option<String>) -> Result<bool, Failure>
    ensures { result ≡ spec.asks_for_plain word }
{
    let Some(word) = word else {
        return Ok(false);
    };
    if word.as_str() == "--plain" {
        Ok(true)
    } else {
        Err(Failure::Usage)
    }
}

/// What the first four words behind the program's name ask for, as far as there are so many:
/// nothing where there is none. An error is `Failure::Usage`.
pub fn arguments_of(
    schema: Option<String>,
    records: Option<String>,
    word: Option<String>,
    more: Option<String>,
) -> Result<Option<Arguments>, Failure>
    ensures { result ≡ spec.program_arguments schema records word more }
{
    match (schema, records, word, more) {
        (None, _, _, _) => Ok(None),
        (Some(schema), Some(records), word, None) => {
            let plain = asks_for_plain(word)?;
            Ok(Some(Arguments {
                schema,
                records,
                plain,
            }))
        }
        _ => Err(Failure::Usage),
    }
}

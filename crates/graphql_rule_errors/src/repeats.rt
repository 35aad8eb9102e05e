//! Names that are mentioned more than once.

ghost use Rattle.std.specs.Prelude.{◌≡◌, ◌∷◌, ◌++◌, [], ℕ, List, map, IfOk, OnOk, Some, None};
ghost use Rattle.std.specs.Prelude.{if◌then◌else◌, string_bytes};
ghost use Rattle.std.specs.Option.{option_copied, option_map, option_or};
ghost use Rattle.std.specs.Str.{bytes_eq};
ghost use Rattle.graphql_rule_errors.specs.Found.{item_named};
ghost use Rattle.graphql_rule_errors.specs.Places.{Reports};
ghost use Rattle.graphql_rule_errors.specs.Repeats.{behind_first, repeats};

use crate::mentions::Mentions;
use crate::rule_error::RuleError;
use graphql_text::{Items, SourcePosition, Text};
use std::alloc::{AllocError, Global};
use std::collections::HashMap;

/// Adds the error of this message at these places. An error of the call is want of memory.
pub fn report(
    alloc: Global,
    errors: &mut Items<RuleError>,
    message: String,
    places: &[SourcePosition],
) -> Result<(), AllocError>
    ensures places { OnOk result (Reports (places.now ∷ []) errors.old errors.new) }
    ensures error { OnOk result (errors.new ≡ errors.old ++ record {
      locations = places.now;
      message = string_bytes message;
    } ∷ []) }
{
    let error = RuleError::at(alloc, Text::from_string(message), places)?;
    errors.push(error)?;
    Ok(())
}

/// Adds an error for each later mention of a name: where the name is mentioned first, and where it
/// is again. `kind` says in words whose names they are. Takes time, and where there are two
/// mentions or more memory, in proportion to the mentions. An error of the call is want of memory.
pub fn report_repeats<M: Mentions>(
    alloc: Global,
    errors: &mut Items<RuleError>,
    kind: &str,
    mentions: &[M],
) -> Result<(), AllocError>
    ensures { OnOk result
        (Reports (repeats (map M.mention_of mentions.now)) errors.old errors.new) }
{
    if mentions.len() < 2 {
        return Ok(());
    }
    let mut seen: HashMap<&str, &M> = HashMap::new(alloc);
    'mentions: for mention in mentions {
        let first = first_mention(&mut seen, mention)?;
        report_behind(alloc, errors, kind, first, mention)?;
    }
    Ok(())
}

/// The first mention of a name among those that have been seen. One that is the first itself is
/// seen from here on. An error is want of memory.
pub fn first_mention<'m, M: Mentions>(
    seen: &mut HashMap<&'m str, &'m M>,
    mention: &'m M,
) -> Result<Option<&'m M>, AllocError>
    ensures first { IfOk result
        (λ first. option_copied first ≡ item_named seen.old (M.mention_of mention.now).name) }
    ensures seen { OnOk result
        ((name : List ℕ) → item_named seen.new name ≡ option_or (item_named seen.old
        name) (if bytes_eq (M.mention_of mention.now).name name then Some mention.now else None)) }
{
    let name = mention.name();
    match seen.get(name) {
        Some(first) => Ok(Some(*first)),
        None => {
            seen.insert(name, mention)?;
            Ok(None)
        }
    }
}

/// Adds the error of a mention behind the first of its name, where there is one.
fn report_behind<M: Mentions>(
    alloc: Global,
    errors: &mut Items<RuleError>,
    kind: &str,
    first: Option<&M>,
    mention: &M,
) -> Result<(), AllocError>
    ensures { OnOk result (Reports (behind_first (option_map M.mention_of
        (option_copied first.entry)) (M.mention_of mention.now)) errors.old errors.new) }
{
    match first {
        Some(first) => {
            let name = mention.name();
            let message = format!(in alloc; "There can only be one {kind} named \"{name}\"")?;
            report(alloc, errors, message, &[first.place(), mention.place()])
        }
        None => Ok(()),
    }
}

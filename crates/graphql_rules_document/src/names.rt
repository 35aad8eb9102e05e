//! Names in sets.

ghost use Rattle.std.specs.Prelude.{◌≡◌, ◌||◌, IfOk, OnOk, map};
ghost use Rattle.std.specs.Str.{bytes_eq};
ghost use Rattle.graphql_names.specs.Names.{Bytes, is_one_of};
ghost use Rattle.graphql_occurrences.specs.Occurrences.{variable_part};
ghost use Rattle.graphql_rules_document.specs.Lent.{use_of};
ghost use Rattle.graphql_names.specs.NameSets.{has_name};

use crate::Use;
use graphql_text::{Spanning, TextRef};
use graphql_tree::VariableDefinition;
use std::alloc::{AllocError, Global};
use std::collections::HashSet;

/// Adds a name.
fn add<'a>(names: &mut HashSet<&'a str>, name: &'a str) -> Result<(), AllocError>
    ensures { OnOk result
        ((q : Bytes) → has_name names.new q ≡ (has_name names.old q || bytes_eq q name.now)) }
{
    names.insert(name)?;
    Ok(())
}

/// The names of these variables. An error is want of memory.
pub(crate) fn defined_names<'b, 't, S>(
    alloc: Global,
    defined: &'b [(Spanning<TextRef<'t>>, VariableDefinition<'t, S>)],
) -> Result<HashSet<&'b str>, AllocError>
    ensures { IfOk result (λ names. (q : Bytes)
        → has_name names q ≡ is_one_of (map (λ v. v.name.item) (map variable_part defined.now)) q) }
{
    let mut names: HashSet<&str> = HashSet::new(alloc);
    'defined: for variable in defined {
        add(&mut names, variable.0.item.as_str())?;
    }
    Ok(names)
}

/// The names of the variables that are used. An error is want of memory.
pub(crate) fn used_names<'a>(
    alloc: Global,
    uses: &[Use<'a>],
) -> Result<HashSet<&'a str>, AllocError>
    ensures { IfOk result (λ names. (q : Bytes)
        → has_name names q ≡ is_one_of (map (λ u. u.name) (map use_of uses.now)) q) }
{
    let mut names: HashSet<&str> = HashSet::new(alloc);
    'uses: for used in uses {
        add(&mut names, used.name)?;
    }
    Ok(names)
}

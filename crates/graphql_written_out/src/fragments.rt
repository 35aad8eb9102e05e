//! The fragments of a document, by their names.

ghost use Rattle.std.specs.Prelude.{◌≡◌, ℕ, List, Some, None, IfOk, OnOk, if◌then◌else◌};
ghost use Rattle.std.specs.HashMap.{get_by};
ghost use Rattle.std.specs.Option.{option_copied, option_or};
ghost use Rattle.std.specs.Str.{bytes_eq};
ghost use Rattle.graphql_tree.specs.Definitions.{fragments_listed};
ghost use Rattle.graphql_written_out.specs.FragmentNumbers.{defines_fragment, fragment_number};
ghost use Rattle.graphql_written_out.specs.Written.{fragment_meant};

use graphql_tree::{Definition, Fragment};
use std::alloc::{AllocError, Global};
use std::collections::HashMap;

/// The fragments of a document, found by their names (GraphQL October 2021, 2.8 Fragments). Of
/// several of one name, which no valid document has, the first counts. They are lent.
#[derive(Drop)]
pub struct Fragments<'d, 'a, S> {
    document: &'d [Definition<'a, S>],

    // Of each name, the number of the first definition of a fragment that has it.
    numbers: HashMap<&'d str, usize>,

    ghost firsts: { (name : List ℕ)
        → get_by (λ k. bytes_eq name k.now) numbers ≡ fragment_number document.now name },
}

impl<'d, 'a, S> Fragments<'d, 'a, S> {
    /// The fragments of this document. Takes time and memory in proportion to its definitions. An
    /// error is want of memory.
    pub fn new(
        alloc: Global,
        document: &'d [Definition<'a, S>],
    ) -> Result<Fragments<'d, 'a, S>, AllocError>
        ensures { IfOk result (λ fragments. fragments.document ≡ document.entry) }
    {
        let mut numbers: HashMap<&'d str, usize> = HashMap::new(alloc);
        'definitions: for (number, definition) in document.iter().enumerate() {
            add(&mut numbers, number, definition)?;
        }
        Ok(Fragments { document, numbers })
    }

    /// The document.
    pub fn document(&self) -> &'d [Definition<'a, S>]
        ensures { result ≡ self.now.document }
    {
        self.document
    }

    /// The number of the first definition of a fragment of this name, counted from zero.
    pub fn number(&self, name: &str) -> Option<usize>
        ensures { result ≡ fragment_number self.now.document.now name.now }
    {
        self.numbers.get(name).copied()
    }

    /// The fragment that a spread of this name means: the first of its name.
    pub fn get(&self, name: &str) -> Option<&'d Fragment<'a, S>>
        ensures { option_copied result
            ≡ fragment_meant (fragments_listed self.now.document.now) name.now }
    {
        match self.document.get(self.number(name)?)? {
            Definition::Fragment(fragment) => Some(&fragment.item),
            Definition::Operation(_) => None,
        }
    }
}

/// Adds a definition, unless it is no fragment or there is one of its name. An error is want of
/// memory.
fn add<'d, 'a, S>(
    numbers: &mut HashMap<&'d str, usize>,
    number: usize,
    definition: &'d Definition<'a, S>,
) -> Result<(), AllocError>
    ensures { OnOk result ((name : List ℕ)
        → get_by (λ k. bytes_eq name k.now) numbers.new
        ≡ option_or (get_by (λ k. bytes_eq name k.now) numbers.old)
        (if defines_fragment name definition.now then Some number else None)) }
{
    let Definition::Fragment(fragment) = definition else {
        return Ok(());
    };
    let name = fragment.item.name.item.as_str();
    if !numbers.contains_key(name) {
        numbers.insert(name, number)?;
    }
    Ok(())
}

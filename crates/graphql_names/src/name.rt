//! Names.

ghost use Rattle.std.specs.Prelude.{◌≡◌, ◌≢◌, ◌↔◌, [], length, Some, refl, IsTrue, IfOk, IfErr};
ghost use Rattle.std.specs.Cmp.{partial_equiv_from_equiv};
ghost use Rattle.std.specs.Cmp.Lexicographic.{slice_cmp, nat_list_eq_equiv, nat_list_cmp_total};
ghost use Rattle.std.specs.Cmp.Lexicographic.{texts_po, texts_ties};
ghost use Rattle.std.specs.Cmp.Rules.{hashing};
ghost use Rattle.std.specs.Hash as fed;
ghost use Rattle.std.specs.Ordering.{nat_cmp};
ghost use Rattle.std.specs.Str.{bytes_eq, chars};
ghost use Rattle.std.proofs.Common.{rules};
ghost use Rattle.graphql_text.specs.Grammar.{IsName, Each};
ghost use Rattle.graphql_text.specs.Characters.{continues_name};
ghost use Rattle.graphql_names.specs.declared.name.NameParseError.TheVariants.{Invalid, Memory};

use graphql_text::{Text, continues_name, first_character};
use std::alloc::{AllocError, AllocFailed, Global};
use std::cmp::Ordering;
use std::fmt;
use std::hash::{Hash, Hasher};
use std::marker::Model;
use thiserror::Error;

/// Why a text is no `Name`, or want of memory.
#[derive(Debug, Drop, Error)]
pub enum NameParseError {
    /// The text is no name.
    #[error("\"{0}\" is no name: letters, digits and underscores, with no digit first")]
    Invalid(Text),

    /// Memory ran out. It says nothing about the text.
    #[error("Out of memory")]
    Memory,
}

impl From<AllocError> for NameParseError {
    ghost from_gives = { λ _ e. e ≡ Memory };

    fn from(_error: AllocError) -> NameParseError {
        NameParseError::Memory
    }
}

impl<T: Drop> From<AllocFailed<T>> for NameParseError {
    ghost from_gives = { λ _ e. e ≡ Memory };

    fn from(_error: AllocFailed<T>) -> NameParseError {
        NameParseError::Memory
    }
}

/// A name that is one by the standard, as an owned text (GraphQL October 2021, 2.1.9 Names).
#[derive(Drop)]
pub struct Name {
    held: Text,
}

impl Model for Name {
    ghost use Rattle.std.specs.Prelude.{ℕ, List};
    ghost use Rattle.std.specs.Str.{chars};
    ghost use Rattle.graphql_text.specs.Grammar.{IsName};

    ghost Value = { List ℕ };

    ghost view = { λ a. a.held };

    ghost invariant = { λ a. IsName (chars a.held) };
}

/// Whether each character of a text may stand in a name behind its first one.
fn each_continues(text: &str) -> bool
    ensures { IsTrue result ↔ Each continues_name (chars text.now) }
{
    let mut rest = text;
    'characters: while let Some((character, behind)) = first_character(rest) {
        if !continues_name(character) {
            return false;
        }
        rest = behind;
    }
    true
}

impl Name {
    /// The name of this text. The text is no name: an error with the text.
    pub fn new(alloc: Global, text: &str) -> Result<Name, NameParseError>
        ensures name { IfOk result (λ name. (name ≡ text.now) × IsName (chars text.now)) }
        ensures refusal { IfErr result
            (λ e. e ≢ Memory → (e ≡ Invalid text.now) × ¬ (IsName (chars text.now))) }
    {
        let held = Text::from_str(alloc, text)?;
        if Name::is_valid(text) {
            Ok(Name { held })
        } else {
            Err(NameParseError::Invalid(held))
        }
    }

    /// Whether a text is a name: ASCII letters, digits and underscores, at least one, the first no
    /// digit.
    pub fn is_valid(text: &str) -> bool
        ensures { IsTrue result ↔ IsName (chars text.now) }
    {
        match first_character(text) {
            Some((first, rest)) => {
                (first == '_' || first.is_ascii_alphabetic()) && each_continues(rest)
            }
            None => false,
        }
    }

    /// The text of the name.
    pub fn as_str(&self) -> &str
        ensures text { result.now ≡ self.now }
        ensures name { IsName (chars result.now) }
    {
        self.held.as_str()
    }
}

/// A second name of the same text. An error is want of memory.
impl Clone for Name {
    ghost is_clone = { λ x y. y ≡ x };

    fn clone(&self) -> Result<Name, AllocError> {
        let held = self.held.clone()?;
        Ok(Name { held })
    }
}

/// Compares the bytes.
impl PartialEq for Name {
    ghost eq = { bytes_eq };

    ghost laws = { partial_equiv_from_equiv nat_list_eq_equiv };

    fn eq(&self, other: &Name) -> bool {
        self.held == other.held
    }
}

impl Eq for Name {
    ghost laws = { nat_list_eq_equiv };
}

/// By the first bytes that differ; a name that another begins with comes before it.
impl PartialOrd for Name {
    ghost partial_cmp = { λ a b. Some (slice_cmp nat_cmp a b) };

    ghost laws = { texts_po };

    fn partial_cmp(&self, other: &Name) -> Option<Ordering> {
        Some(self.cmp(other))
    }
}

impl Ord for Name {
    ghost cmp = { slice_cmp nat_cmp };

    ghost total = { nat_list_cmp_total };

    ghost matches_partial_cmp = { λ a b. refl };

    ghost matches_eq = { texts_ties };

    fn cmp(&self, other: &Name) -> Ordering {
        self.held.cmp(&other.held)
    }
}

/// Feeds the bytes, as a `&str` does.
impl Hash for Name {
    ghost hash_input = { fed.str };

    ghost respects_eq = { Prim.search (hashing, rules) };

    fn hash<H: Hasher>(&self, state: &mut H) {
        self.held.hash(state);
    }
}

/// Writes the name.
impl fmt::Display for Name {
    ghost output = { λ name. Some name };

    fn fmt<W: fmt::Write>(&self, f: &mut fmt::Formatter<W>) -> fmt::Result {
        f.write_str(self.held.as_str())
    }
}

/// Writes the name between quotes, as a `&str` does.
impl fmt::Debug for Name {
    fn fmt<W: fmt::Write>(&self, f: &mut fmt::Formatter<W>) -> fmt::Result {
        let held = &self.held;
        write!(f, "{held:?}")
    }
}

//! Keys of objects' fields.

ghost use Rattle.std.specs.Prelude.{◌≡◌, Some};
ghost use Rattle.std.specs.Cmp.{partial_equiv_from_equiv};
ghost use Rattle.std.specs.Cmp.Lexicographic.{nat_list_eq_equiv};
ghost use Rattle.std.specs.Fmt.{debug_str};
ghost use Rattle.std.specs.Str.{bytes_eq};
ghost use Rattle.graphql_text.specs.Memory.{Gives};

use arrayvec::ArrayString;
use graphql_text::Text;
use std::alloc::{AllocError, Global};
use std::fmt;
use std::marker::Model;

/// So many bytes of a key, at most, stand in the key itself.
const FEW: usize = 16;

/// A key of an object's field: an owned text that contracts see as its bytes alone. The bytes of a
/// short key stand in the key itself, so that it takes no memory.
#[derive(Drop)]
pub struct Key {
    held: Held,
}

/// Where the bytes of a key stand.
#[derive(Drop)]
enum Held {
    /// In the key itself.
    Few(ArrayString<FEW>),

    /// On the heap.
    Many(Text),
}

impl Model for Key {
    ghost use Rattle.std.specs.Prelude.{ℕ, List};
    ghost use Rattle.graphql_output_values.specs.Keys.{bytes_of};

    ghost Value = { List ℕ };

    ghost view = { λ key. bytes_of key.held };
}

impl Key {
    /// The key with the bytes of `text`. An error is want of memory.
    pub fn from_str(alloc: Global, text: &str) -> Result<Key, AllocError>
        ensures { Gives result text.now }
    {
        let held = match ArrayString::from(text) {
            Ok(few) => Held::Few(few),
            Err(_) => Held::Many(Text::from_str(alloc, text)?),
        };
        Ok(Key { held })
    }

    /// The text of the key, borrowed.
    pub fn as_str(&self) -> &str
        ensures { result.now ≡ self.now }
    {
        match &self.held {
            Held::Few(few) => few.as_str(),
            Held::Many(many) => many.as_str(),
        }
    }
}

// Keys are equal where their bytes are.
impl PartialEq for Key {
    ghost eq = { bytes_eq };

    ghost laws = { partial_equiv_from_equiv nat_list_eq_equiv };

    fn eq(&self, other: &Key) -> bool {
        self.as_str() == other.as_str()
    }
}

impl Eq for Key {
    ghost laws = { nat_list_eq_equiv };
}

impl Clone for Key {
    ghost is_clone = { λ key copy. copy ≡ key };

    /// A second key of the same bytes. An error is want of memory.
    fn clone(&self) -> Result<Key, AllocError>
        ensures { Gives result self.now }
    {
        let held = match &self.held {
            Held::Few(few) => Held::Few(*few),
            Held::Many(many) => Held::Many(many.clone()?),
        };
        Ok(Key { held })
    }
}

impl fmt::Debug for Key {
    ghost debug_output = { debug_str };

    fn fmt<W: fmt::Write>(&self, f: &mut fmt::Formatter<W>) -> fmt::Result {
        fmt::Debug::fmt(self.as_str(), f)
    }
}

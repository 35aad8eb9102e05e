ghost use Rattle.std.specs.Prelude.{◌≡◌, ◌++◌, IfOk, Some, string_bytes};
ghost use Rattle.std.specs.Fmt.{styled_text, debug_str};

use super::Text;
use std::alloc::AllocError;
use std::convert::AsStr;
use std::fmt::{Debug, Display, Formatter, Write};
use std::ops::DerefStr;

impl From<String> for Text {
    ghost from_gives = { λ held text. text ≡ string_bytes held };

    fn from(held: String) -> Text {
        Text::from_string(held)
    }
}

impl From<Text> for String {
    ghost from_gives = { λ text held. string_bytes held ≡ text };

    fn from(text: Text) -> String {
        text.into_string()
    }
}

impl AsStr for Text {
    ghost text = { λ text. text };

    fn as_str(&self) -> &str {
        self.as_str()
    }
}

impl DerefStr for Text {
    ghost deref_gives = { λ text shown. shown ≡ text };

    fn deref(&self) -> &str {
        self.as_str()
    }
}

impl Clone for Text {
    ghost is_clone = { λ text copy. copy ≡ text };

    /// A second text of the same bytes. An error is want of memory.
    fn clone(&self) -> Result<Text, AllocError>
        ensures { IfOk result (λ copy. copy ≡ self.now) }
    {
        let held = self.held.clone()?;
        Ok(Text { held })
    }
}

impl Display for Text {
    ghost output = { λ text. Some text };

    ghost styled_output = { λ text style. Some (styled_text style text) };

    fn fmt<W: Write>(&self, f: &mut Formatter<W>) -> std::fmt::Result {
        f.pad(self.as_str())
    }
}

impl Debug for Text {
    ghost debug_output = { debug_str };

    fn fmt<W: Write>(&self, f: &mut Formatter<W>) -> std::fmt::Result {
        Debug::fmt(&self.held, f)
    }
}

// What is written to a text stands at its end.
impl Write for Text {
    ghost write_str_gives = { λ old more new. new ≡ old ++ more };

    fn write_str(&mut self, more: &str) -> std::fmt::Result {
        self.held.write_str(more)
    }
}

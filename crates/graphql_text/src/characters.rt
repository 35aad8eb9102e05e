//! Characters that crates above ask for too.

ghost use Rattle.std.specs.Prelude.{◌≡◌, ◌<◌, ◌++◌, [], ◌∷◌, length, encode_utf8, MatchOption};
ghost use Rattle.std.specs.Prelude.{IfSome};
ghost use Rattle.std.specs.Str.{chars};
ghost use Rattle.graphql_text.specs.Characters.{continues_name};

/// Whether a character may stand in a name behind its first one: an ASCII letter, a digit or an
/// underscore (GraphQL October 2021, 2.1.9 Names).
pub fn continues_name(character: char) -> bool
    ensures { result ≡ continues_name character }
{
    character == '_' || character.is_ascii_alphanumeric()
}

/// The first character of a text, and what follows it; nothing where the text is empty.
pub fn first_character(text: &str) -> Option<(char, &str)>
    ensures bytes { MatchOption result (text.now ≡ [])
        (λ p. text.now ≡ encode_utf8 p.0 ++ p.1.now) }
    ensures chars { MatchOption result (chars text.now ≡ [])
        (λ p. chars text.now ≡ p.0 ∷ chars p.1.now) }
    ensures shorter { IfSome result (λ p. length p.1.now < length text.now) }
{
    let mut chars = text.chars();
    match chars.next() {
        Some(c) => Some((c, chars.as_str())),
        None => None,
    }
}

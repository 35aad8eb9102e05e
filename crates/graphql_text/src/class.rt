//! The kinds of characters that the lexical grammar names.

/// A kind of characters (GraphQL October 2021, 2.1.1 Unicode to 2.1.9 Names, 2.9.1 Int Value,
/// 2.9.2 Float Value).
#[derive(Clone, Copy, Debug)]
pub enum Class {
    /// A letter of ASCII or an underscore: what a name begins with.
    NameStart,
    /// What a name goes on with: such a letter, an underscore or a digit.
    NameContinue,
    /// A digit of ASCII.
    Digit,
    /// The sign `-`.
    Minus,
    /// The quotation mark `"`.
    Quote,
    /// The point before a fraction.
    Point,
    /// `e` or `E`, before an exponent.
    Exponent,
    /// The sign of an exponent, `+` or `-`.
    Sign,
    /// White space, a line end, a comma or a byte order mark: ignored between tokens.
    Ignored,
    /// What a comment goes on with: any source character that is no line end.
    Comment,
}

//! What has a name.

ghost use Rattle.std.specs.Prelude.{◌≡◌, ℕ, List};

/// What has a name.
pub trait Named {
    /// The bytes of the name.
    ghost name_of: { Self → List ℕ };

    /// The name.
    fn name(&self) -> &str
        ensures { result.now ≡ name_of self.now };
}

/// A text is its own name.
impl Named for &str {
    ghost name_of = { λ text. text.now };

    fn name(&self) -> &str {
        self
    }
}

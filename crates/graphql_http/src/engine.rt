//! What answers the lines that requests of HTTP ask.

use graphql_streams::LineEngine;
use std::alloc::{AllocError, Global};

/// What answers one line after another, and tells which of them ask for a mutation.
pub trait RequestEngine: LineEngine {
    ghost use Rattle.std.specs.Prelude.{◌≡◌, ◌↔◌, List, ℕ, IfOk, IsTrue};

    /// What resolvers see of it, and mutations change.
    type Context;

    /// The context that it has.
    ghost context: { Self → Self.Context };

    /// Of this engine, this line asks for a mutation that would be executed.
    ghost mutates: { Self → List ℕ → Type 0 };

    /// Whether a line asks for a mutation that would be executed. The only error is want of memory.
    fn asks_mutation(&self, alloc: Global, line: &[u8]) -> Result<bool, AllocError>
        ensures { IfOk result (λ asks. IsTrue asks ↔ mutates self.now line.now) };

    /// Whatever lines it was given, it holds what it needs at the next one.
    ghost always_holds: { (s : Self) → Self.holds s };

    /// A line that asks for no mutation leaves the context.
    ghost keeps: { (s : Self) (line text : List ℕ) (t : Self) → (mutates s line → ⊥)
        → Self.answers s line text t → context t ≡ context s };

    /// And so it does where memory runs out.
    ghost keeps_broken: { (s : Self) (line : List ℕ) (t : Self) → (mutates s line → ⊥)
        → Self.breaks s line t → context t ≡ context s };
}

//! What answers lines.

use std::alloc::{AllocError, Global};

/// What answers one line after another, and may change by it.
pub trait LineEngine {
    ghost use Rattle.std.specs.Prelude.{◌≡◌, ◌+◌, ◌<◌, ◌++◌, ℕ, List, OnOk, OnErr, length};
    ghost use Rattle.graphql_streams.specs.Lines.{kept_of};

    /// From this state, this line is given this answer, and leaves that state.
    ghost answers: { Self → List ℕ → List ℕ → Self → Type 0 };

    /// From this state, want of memory at this line leaves that state.
    ghost breaks: { Self → List ℕ → Self → Type 0 };

    /// What holds of it between two lines.
    ghost holds: { Self → Type 0 };

    /// The greatest length of a line, in bytes.
    ghost limit: { Self → ℕ };

    /// The greatest length of a line, in bytes.
    fn line_limit(&self) -> usize
        ensures { result ≡ limit self.now };

    /// Writes the answer of a line behind what `out` holds. The line is given without its line
    /// feed; of one that is too long one byte more than the limit is given at least.
    ///
    /// The only error is want of memory, and `out` is as it was then.
    fn append_answer(
        &mut self,
        alloc: Global,
        line: &[u8],
        out: &mut Vec<u8>,
    ) -> Result<(), AllocError>
        requires { holds self.old }
        ensures answers { OnOk result ((text : List ℕ) × (out.new.items ≡ out.old.items ++ text)
            × answers self.old line.now text self.new) }
        ensures breaks { OnErr result ((out.new.items ≡ out.old.items)
            × breaks self.old line.now self.new) }
        ensures holds { holds self.new }
        ensures limit { limit self.new ≡ limit self.old };

    /// What is kept of a line that is too long is answered as the line is.
    ghost answers_kept: { (s : Self) (line text : List ℕ) (t : Self) → limit s < length line
        → answers s (kept_of (limit s) line) text t → answers s line text t };

    /// And at it want of memory leaves what it leaves at the line.
    ghost breaks_kept: { (s : Self) (line : List ℕ) (t : Self) → limit s < length line
        → breaks s (kept_of (limit s) line) t → breaks s line t };
}

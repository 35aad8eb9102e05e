//! Answers that are kept, by lines and by plain texts.

ghost use Rattle.std.specs.Prelude.{◌≡◌, ◌≤◌, ◌&&◌, ◌++◌, not, drop, length, IfSome, OnErr, OnOk};
ghost use Rattle.graphql_stores.specs.Keeping.{IsKept, KeepsAtMost, KeepsNothing};
ghost use Rattle.graphql_stores.specs.AnswerEnds.{begins_with_data, ends_with_list};

use crate::KeptTexts;
use std::alloc::{AllocError, Global};
use std::str;

/// Answer lines that are kept.
#[derive(Drop)]
pub(crate) struct KeptAnswers {
    /// Answers to lines, by the line.
    by_line: KeptTexts,

    /// Answers to lines, by the line of their plain text.
    by_plain: KeptTexts,
}

impl KeptAnswers {
    /// No answers, and room for so many bytes of answers and what they are found by, half of them
    /// for lines and half for plain texts.
    pub(crate) fn new(alloc: Global, byte_limit: usize) -> KeptAnswers
        ensures by_line { KeepsNothing result.by_line }
        ensures by_plain { KeepsNothing result.by_plain }
    {
        KeptAnswers {
            by_line: KeptTexts::new(alloc, byte_limit / 2),
            by_plain: KeptTexts::new(alloc, byte_limit / 2),
        }
    }

    /// The answer to a line, if one is kept. A line that is not UTF-8 is no request, and has none.
    pub(crate) fn of_line(&self, line: &[u8]) -> Option<&[u8]>
        ensures { IfSome result (λ text. IsKept self.now.by_line line.now text.now) }
    {
        match str::from_utf8(line) {
            Ok(key) => self.by_line.get(key),
            Err(_) => None,
        }
    }

    /// The answer to the line of a plain text, if one is kept.
    pub(crate) fn of_plain(&self, key: &str) -> Option<&[u8]>
        ensures { IfSome result (λ text. IsKept self.now.by_plain key.now text.now) }
    {
        self.by_plain.get(key)
    }

    /// Keeps the answer to a line, unless memory runs out.
    pub(crate) fn keep_line(&mut self, alloc: Global, line: &[u8], text: &[u8])
        ensures by_line { KeepsAtMost self.old.by_line self.new.by_line line.now text.now }
        ensures by_plain { self.new.by_plain ≡ self.old.by_plain }
    {
        if let Ok(key) = str::from_utf8(line) {
            let _ = self.by_line.keep(alloc, key, text);
        }
    }

    /// Keeps the answer to the line of a plain text, unless memory runs out.
    pub(crate) fn keep_plain(&mut self, alloc: Global, key: &str, text: &[u8])
        ensures by_line { self.new.by_line ≡ self.old.by_line }
        ensures by_plain { KeepsAtMost self.old.by_plain self.new.by_plain key.now text.now }
    {
        let _ = self.by_plain.keep(alloc, key, text);
    }

    /// Lets all answers go.
    pub(crate) fn clear(&mut self)
        ensures by_line { KeepsNothing self.new.by_line }
        ensures by_plain { KeepsNothing self.new.by_plain }
    {
        self.by_line.clear();
        self.by_plain.clear();
    }
}

/// Writes a text behind what `out` holds. The only error is want of memory, after which `out` is as
/// it was.
pub(crate) fn push_text(out: &mut Vec<u8>, text: &[u8]) -> Result<(), AllocError>
    ensures written { OnOk result (out.new.items ≡ out.old.items ++ text.now) }
    ensures kept { OnErr result (out.new.items ≡ out.old.items) }
{
    out.extend_from_slice(text)
}

/// What stands behind so many bytes.
pub(crate) fn behind(bytes: &[u8], count: usize) -> &[u8]
    requires { count ≤ length bytes.now }
    ensures { result.now ≡ drop count bytes.now }
{
    &bytes[count..]
}

/// Whether an answer line is that of a request that was executed, and not of a refusal.
pub(crate) fn is_executed(answer: &[u8]) -> bool
    ensures { result ≡ begins_with_data answer.now }
{
    answer.starts_with(b"{\"data\":")
}

/// Whether an answer line is that of a request that was executed without errors.
pub(crate) fn is_whole(answer: &[u8]) -> bool
    ensures { result ≡ begins_with_data answer.now && not (ends_with_list answer.now) }
{
    is_executed(answer) && !answer.ends_with(b"]}\n")
}

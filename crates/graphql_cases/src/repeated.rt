//! Texts with parts that are repeated many times.

use std::alloc::{AllocError, Global};

/// One round of what is repeated. `#` stands for its number from zero, `#+` for the next number.
fn push_round(text: &mut String, repeated: &str, round: u32) -> Result<(), AllocError> {
    let mut pieces = repeated.split("#");
    if let Some(first) = pieces.next() {
        text.push_str(first)?;
    }
    for piece in pieces {
        match piece.strip_prefix("+") {
            Some(rest) => write!(text, "{}{rest}", round.saturating_add(1))?,
            None => write!(text, "{round}{piece}")?,
        }
    }
    Ok(())
}

fn push_rounds(text: &mut String, repeated: &str, rounds: u32) -> Result<(), AllocError> {
    for round in 0..rounds {
        push_round(text, repeated, round)?;
    }
    Ok(())
}

/// The lines one behind another, without line feeds. A line `3 * words` stands for the words three
/// times, and every other line for itself.
pub fn written_out(alloc: Global, lines: &str) -> Result<String, AllocError> {
    let mut text = String::new(alloc);
    for line in lines.split("\n") {
        let (rounds, repeated) = line.split_once(" * ").unwrap_or(("1", line));
        push_rounds(&mut text, repeated, rounds.parse::<u32>().unwrap_or(0))?;
    }
    Ok(text)
}

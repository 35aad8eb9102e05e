//! Lines, and what is right of them.

/// The name of the human `h1`, and how often the resolver was asked for a field of a mutation.
pub type Left = (&'static str, u32);

/// Lines, what they are answered, and what they leave.
#[derive(Clone, Copy)]
pub struct Lines {
    /// Whether plain texts are asked for.
    pub plain: bool,

    /// The lines.
    pub input: &'static [u8],

    /// Their answer lines.
    pub answers: &'static [u8],

    /// What is left before the first line, and after each.
    pub left: &'static [Left],
}

/// A mutation, and a query that sees what it changed.
pub const CHANGES: Lines = Lines {
    plain: false,
    input: b"{\"query\":\"mutation { rename(id: \\\"h1\\\", name: \\\"Eve\\\") { name } }\"}\n\
        {\"query\":\"{ hero { name } }\"}\n",
    answers: b"{\"data\":{\"rename\":{\"name\":\"Eve\"}}}\n{\"data\":{\"hero\":{\"name\":\"Eve\"}}}\n",
    left: &[("Ann", 0), ("Eve", 1), ("Eve", 1)],
};

/// The same, and another mutation.
pub const MORE_CHANGES: Lines = Lines {
    plain: false,
    input: b"{\"query\":\"mutation { rename(id: \\\"h1\\\", name: \\\"Eve\\\") { name } }\"}\n\
        {\"query\":\"{ hero { name } }\"}\n\
        {\"query\":\"mutation { rename(id: \\\"h1\\\", name: \\\"Fay\\\") { id } }\"}\n",
    answers: b"{\"data\":{\"rename\":{\"name\":\"Eve\"}}}\n{\"data\":{\"hero\":{\"name\":\"Eve\"}}}\n\
        {\"data\":{\"rename\":{\"id\":\"h1\"}}}\n",
    left: &[("Ann", 0), ("Eve", 1), ("Eve", 1), ("Fay", 2)],
};

/// Plain texts of a query that spreads a fragment, and of one whose only field is left out.
pub const PLAIN_TEXTS: Lines = Lines {
    plain: true,
    input: b"{\"query\":\"{ hero { ...F friend { name } } } fragment F on Human { id friend { id } }\"}\n\
        {\"query\":\"query Q($x: Boolean!) { hero { name @include(if: $x) } }\",\"variables\":{\"x\":false}}\n",
    answers: b"{\"plain\":\"query { hero { ... on Human { id friend { id } } friend { name } } }\"}\n\
        {\"plain\":\"query Q { hero { name @ skip ( if : true ) } }\"}\n",
    left: &[("Ann", 0), ("Ann", 0), ("Ann", 0)],
};

/// How many lines end in these bytes.
pub fn lines_in(bytes: &[u8]) -> usize {
    bytes.iter().filter(|byte| **byte == b'\n').count()
}

impl Lines {
    /// How many answer lines these bytes are, if they are whole ones, and the first that are right.
    pub fn answered_by(&self, written: &[u8]) -> Option<usize> {
        let whole = written.is_empty() || written.ends_with(b"\n");
        if whole && self.answers.starts_with(written) {
            Some(lines_in(written))
        } else {
            None
        }
    }
}

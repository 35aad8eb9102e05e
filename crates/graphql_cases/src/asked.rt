//! What is asked of cases.

use graphql_validation::Source;

/// By what a document is judged.
#[derive(Clone, Copy)]
pub enum Judge {
    /// The rules of the first stage.
    FirstStage,

    /// Those of them that look at what all operations and fragments hold.
    Definitions,

    /// All rules.
    AllRules,

    /// All rules, over a context.
    Context,

    /// All rules, over the root node.
    RootNode,

    /// The rule that fields merge, as a visitor.
    Merging,

    /// The same rule by itself.
    MergingAlone,

    /// The rules that each fragment is used and that none has a cycle, as visitors in one pass.
    Fragments,
}

/// What a document is asked for.
#[derive(Clone, Copy)]
pub enum Sought {
    /// Its definitions.
    Definitions,

    /// Its events.
    Events,

    /// How many times two of its fields are compared.
    Comparisons,

    /// Whether its fields merge, by bundles of selection sets and by comparing each two.
    Merging,

    /// Its errors.
    Errors(Judge),
}

/// What a case is.
#[derive(Clone, Copy)]
pub enum Asked {
    /// A document, of which this is told.
    Document(Sought),

    /// A document with repeated lines, of which it is told how many of these it has.
    Count(Sought),

    /// A text that is no document, of which the kind of its fault is told.
    FaultKind,

    /// A document, and values of the variables of its first operation.
    Variables,

    /// A type and a value from such a place.
    Literal(Source),

    /// The name of a type and a value that its check is asked of.
    Check,
}

/// What these words say that a document is judged by.
fn judge_of(words: &str) -> Option<Judge> {
    match words {
        "errors of the first stage" => Some(Judge::FirstStage),
        "errors of rules over definitions" => Some(Judge::Definitions),
        "errors of all rules" => Some(Judge::AllRules),
        "errors of all rules over a context" => Some(Judge::Context),
        "errors without introspection" => Some(Judge::RootNode),
        "errors of merging" => Some(Judge::Merging),
        "errors of merging alone" => Some(Judge::MergingAlone),
        "errors of fragments" => Some(Judge::Fragments),
        _ => None,
    }
}

/// What these words say that a document is asked for.
fn sought_of(words: &str) -> Option<Sought> {
    match words {
        "definitions" => Some(Sought::Definitions),
        "events" => Some(Sought::Events),
        "comparisons" => Some(Sought::Comparisons),
        "merging by bundles and by pairs" => Some(Sought::Merging),
        _ => match judge_of(words) {
            Some(judge) => Some(Sought::Errors(judge)),
            None => None,
        },
    }
}

/// What these words say that cases are, where they speak of documents.
fn document_of(words: &str) -> Option<Asked> {
    match words.strip_prefix("count of ") {
        Some(counted) => match sought_of(counted) {
            Some(sought) => Some(Asked::Count(sought)),
            None => None,
        },
        None => match sought_of(words) {
            Some(sought) => Some(Asked::Document(sought)),
            None => None,
        },
    }
}

impl Asked {
    /// What these words say that cases are.
    pub fn of(words: &str) -> Option<Asked> {
        match words {
            "kinds of faults" => Some(Asked::FaultKind),
            "values of variables" => Some(Asked::Variables),
            "literals" => Some(Asked::Literal(Source::Literal)),
            "sent values" => Some(Asked::Literal(Source::Sent)),
            "checks" => Some(Asked::Check),
            _ => document_of(words),
        }
    }
}

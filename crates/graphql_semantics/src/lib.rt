//! What an execution answers, as a definition: what selection sets, with their fragments written
//! out, give on a node (GraphQL October 2021, 6.3 Executing Selection Sets, 6.4 Executing Fields).
//! No code evaluates so: it walks the document.
#![tactic(auto)]

pub mod laws;

//! Readers of what stands at the front of some tokens: marks, names of variables, IRIs and literals, each exactly as its rule of
//! `fx_grammar` reads them. `proofs/Loops.antt` has the laws of loops that read any number of parts.
#![tactic(auto)]

mod faults;
mod prefixes;
mod readers;

pub use faults::Fault;
pub use prefixes::Prefixes;
pub use readers::{
    comparison, iri_name, lacks, literal, mark, one_function, refuse, sees, sees_iri_name,
    sees_literal, signed, two_function, variable,
};

//! `fx_cases`: calls the project's libraries at given values, and compares what they give with what is wanted.
//!
//! The cases are tables, `data/NAME.tsv`; `tables` has their form. It prints a line for each table with the number of its cases, in
//! front of it a line for each case that gives something else, and ends with status 1 where there is one.
#![tactic(auto)]

mod cases;
mod counting;
mod devices;
mod runs;
mod served;
mod tables;

use std::process::ExitCode;
use std::{fs, io};
use tables::{Outcome, try_table};

// The tables, in the order of the crates whose calls they try.
const TABLES: [&str; 29] = [
    "terms",
    "outside",
    "ntriples",
    "tokens",
    "algebra",
    "expressions",
    "syntax",
    "print",
    "results",
    "requests",
    "solutions",
    "stores",
    "wires",
    "tapes",
    "members",
    "registries",
    "sources",
    "plans",
    "batches",
    "jobs",
    "engine",
    "mediations",
    "gateway",
    "commands",
    "runs",
    "hostile",
    "served",
    "devices",
    "drawn",
];

fn main(rt: HostRuntime) -> io::Result<ExitCode> {
    let mut is_well = true;
    for table in TABLES {
        let name = format!(in rt.alloc(); "{table}.tsv")?;
        let text = fs::read_to_string(&rt, name.as_str())?;
        let outcome = try_table(&rt, rt.alloc(), table, text.as_str());
        is_well = tell(&rt, table, &outcome)? && is_well;
    }
    Ok(ExitCode::from(if is_well { 0 } else { 1 }))
}

// Whether each case of the table gave what is wanted.
fn tell(rt: &impl Print, table: &str, outcome: &Option<Outcome>) -> io::Result<bool> {
    match outcome {
        Some(outcome) => {
            let (cases, report) = (outcome.cases, outcome.report.as_str());
            print!(*rt; "{report}")?;
            println!(*rt; "{table}: {cases} cases")?;
            Ok(report.is_empty())
        }
        None => {
            println!(*rt; "{table}: no memory")?;
            Ok(false)
        }
    }
}

//! The calls of `fx_sources` over registries.

use fx_notation::escapes;
use fx_outside::Endpoint;
use fx_sources::{Registry, RegistryError};
use fx_terms::Iri;
use std::alloc::Global;
use std::fmt::Write;

/// What a call gives.
pub fn answer(alloc: Global, call: &str, inputs: &[&str]) -> Option<String> {
    match (call, inputs) {
        ("Registry::read", [text]) => read(alloc, text),
        ("Registry::read of numbered", [count, last]) => read_numbered(alloc, count, last),
        ("Registry::find", [text, address]) => find(alloc, text, address),
        _ => None,
    }
}

/// The registry of so many endpoints, `N0 http://h/0` and so on.
pub fn numbered(alloc: Global, count: u8) -> Option<Registry> {
    let text = numbered_lines(alloc, count)?;
    Registry::read(alloc, text.as_bytes()).ok()
}

fn numbered_lines(alloc: Global, count: u8) -> Option<String> {
    let mut text = String::new(alloc);
    for number in 0..count {
        writeln!(text, "N{number} http://h/{number}").ok()?;
    }
    Some(text)
}

fn read(alloc: Global, field: &str) -> Option<String> {
    let bytes = escapes::bytes(alloc, field)?;
    match Registry::read(alloc, bytes.as_slice()) {
        Ok(registry) => endpoints_text(alloc, registry.endpoints()),
        Err(error) => refusal_text(alloc, error),
    }
}

fn read_numbered(alloc: Global, count: &str, field: &str) -> Option<String> {
    let mut text = numbered_lines(alloc, count.parse::<u8>().ok()?)?;
    text.push_str(escapes::text(alloc, field)?.as_str()).ok()?;
    match Registry::read(alloc, text.as_bytes()) {
        Ok(registry) => {
            let count = registry.endpoints().len();
            format!(in alloc; "{count} endpoints").ok()
        }
        Err(error) => refusal_text(alloc, error),
    }
}

fn find(alloc: Global, field: &str, address: &str) -> Option<String> {
    let bytes = escapes::bytes(alloc, field)?;
    let registry = Registry::read(alloc, bytes.as_slice()).ok()?;
    let address = Iri::read(alloc, address).ok()?;
    match registry.find(&address) {
        Some(number) => format!(in alloc; "{number}").ok(),
        None => String::from_str(alloc, "none").ok(),
    }
}

// The name of each endpoint, its IRI, and the host, the port and the target of its requests.
fn endpoints_text(alloc: Global, endpoints: &[Endpoint]) -> Option<String> {
    let mut text = String::new(alloc);
    for endpoint in endpoints {
        if !text.is_empty() {
            text.push_str(" ; ").ok()?;
        }
        let (name, iri) = (endpoint.name(), endpoint.iri().text());
        let (host, port) = (endpoint.host(), endpoint.port());
        let target = endpoint.target();
        write!(text, "{name} <{iri}> {host} {port} {target}").ok()?;
    }
    Some(text)
}

fn refusal_text(alloc: Global, error: RegistryError) -> Option<String> {
    match error {
        RegistryError::Bad { line } => format!(in alloc; "Bad at line {line}").ok(),
        RegistryError::TooMany { line } => format!(in alloc; "TooMany at line {line}").ok(),
        RegistryError::RepeatedName { line } => {
            format!(in alloc; "RepeatedName at line {line}").ok()
        }
        RegistryError::RepeatedUrl { line } => {
            format!(in alloc; "RepeatedUrl at line {line}").ok()
        }
        RegistryError::Memory => None,
    }
}

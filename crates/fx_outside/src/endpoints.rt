//! Where requests are sent.
ghost use Rattle.std.specs.Prelude.{◌≡◌, IfOk, string_bytes};
ghost use Rattle.std.specs.List.{list_all};
ghost use Rattle.fx_outside.specs.Endpoints as spec;

use fx_terms::{Iri, Memory};
use std::alloc::Global;
use std::marker::Model;

/// What else is said of an endpoint.
#[derive(Clone, Copy, Debug)]
pub struct Flags {
    /// Whether queries may do without it where it doesn't answer.
    pub optional: bool,
    /// Whether it takes batches of rows as VALUES.
    pub values: bool,
}

/// A SPARQL endpoint: its name, its address, the host, port and target of the address, and its flags. Contracts see these
/// parts.
#[derive(Debug, Drop)]
pub struct Endpoint {
    name: String,
    iri: Iri,
    host: String,
    port: u16,
    target: String,
    flags: Flags,
}

impl Model for Endpoint {
    ghost use Rattle.std.specs.Prelude.{string_bytes};
    ghost use Rattle.fx_outside.specs.Endpoints.{EndpointParts, endpoint_of, flagged};

    ghost Value = { EndpointParts };

    ghost view = { λ e. flagged e.flags (endpoint_of (string_bytes e.name) e.iri (string_bytes e.host) e.port (string_bytes e.target)) };
}

impl Endpoint {
    /// The endpoint of these parts, without flags. It takes no memory.
    pub fn new(name: String, iri: Iri, host: String, port: u16, target: String) -> Endpoint
        ensures { result ≡ spec.endpoint_of (string_bytes name) iri (string_bytes host) port (string_bytes target) }
    {
        Endpoint {
            name,
            iri,
            host,
            port,
            target,
            flags: Flags {
                optional: false,
                values: false,
            },
        }
    }

    /// The same endpoint with these flags in place of its own. It takes no memory.
    pub fn with_flags(mut self, flags: Flags) -> Endpoint
        ensures { result ≡ spec.flagged flags self }
    {
        self.flags = flags;
        self
    }

    /// The name, by which messages speak of it.
    pub fn name(&self) -> &str
        ensures { result.now ≡ self.now.name }
    {
        self.name.as_str()
    }

    /// The address.
    pub fn iri(&self) -> &Iri
        ensures { result.now ≡ self.now.iri }
    {
        &self.iri
    }

    /// The host, without the port.
    pub fn host(&self) -> &str
        ensures { result.now ≡ self.now.host }
    {
        self.host.as_str()
    }

    /// The port.
    pub fn port(&self) -> u16
        ensures { result ≡ self.now.port }
    {
        self.port
    }

    /// The target of its requests (RFC 9112, 3.2.1).
    pub fn target(&self) -> &str
        ensures { result.now ≡ self.now.target }
    {
        self.target.as_str()
    }

    /// Whether queries may do without it where it doesn't answer.
    pub fn is_optional(&self) -> bool
        ensures { result ≡ self.now.optional }
    {
        self.flags.optional
    }

    /// Whether it takes batches of rows as VALUES.
    pub fn takes_values(&self) -> bool
        ensures { result ≡ self.now.values }
    {
        self.flags.values
    }

    /// An equal endpoint.
    pub fn copy(&self, alloc: Global) -> Result<Endpoint, Memory>
        ensures { IfOk result (λ copy. copy ≡ self.now) }
    {
        Ok(Endpoint {
            name: String::from_str(alloc, self.name.as_str())?,
            iri: self.iri.copy()?,
            host: String::from_str(alloc, self.host.as_str())?,
            port: self.port,
            target: String::from_str(alloc, self.target.as_str())?,
            flags: self.flags,
        })
    }

    /// Whether a request can be written for it: the host isn't empty and holds only U+0021 to U+007E, the target begins
    /// with `/` and holds only ASCII letters, digits and `-._~!$&'()*+,;=:@%/`, and the two together have at most 32,768
    /// bytes.
    pub fn is_sendable(&self) -> bool
        ensures { result ≡ spec.is_sendable self.now }
    {
        is_host(self.host.as_bytes())
            && is_target(self.target.as_bytes())
            && self.host.len() + self.target.len() <= 32_768
    }
}

fn is_host(host: &[u8]) -> bool
    ensures { result ≡ spec.is_host host.now }
{
    !host.is_empty() && has_host_bytes(host)
}

fn has_host_bytes(bytes: &[u8]) -> bool
    ensures { result ≡ list_all spec.is_host_byte bytes.now }
{
    bytes.iter().all(|b| is_host_byte(*b))
}

fn is_host_byte(b: u8) -> bool
    ensures { result ≡ spec.is_host_byte b }
{
    (b'!'..=b'~').contains(&b)
}

fn is_target(target: &[u8]) -> bool
    ensures { result ≡ spec.is_target target.now }
{
    match target {
        [] => false,
        [first, rest @ ..] => *first == b'/' && has_target_bytes(rest),
    }
}

fn has_target_bytes(bytes: &[u8]) -> bool
    ensures { result ≡ list_all spec.is_target_byte bytes.now }
{
    bytes.iter().all(|b| is_target_byte(*b))
}

fn is_target_byte(b: u8) -> bool
    ensures { result ≡ spec.is_target_byte b }
{
    b.is_ascii_alphanumeric() || b"-._~!$&'()*+,;=:@%/".contains(&b)
}

//! Registries.
ghost use Rattle.std.specs.Prelude.{◌≡◌, ◌≢◌, ◌<◌, All, IfNone, IfSome, length};
ghost use Rattle.std.specs.List.{HoldsAt};

use crate::entries::Entry;
use crate::errors::RegistryError;
use crate::lines::{Line, read_line};
use crate::searches::{has_name, has_text, place_of};
use crate::words::first_line;
use fx_outside::Endpoint;
use fx_terms::Iri;
use std::alloc::Global;
use std::marker::Model;

/// The endpoints that a query is answered over, at most 64, with distinct names and addresses. Contracts see the list of
/// their parts in the order of their lines.
#[derive(Drop)]
pub struct Registry {
    endpoints: Vec<Endpoint>,
    // What the addresses read to, in the same order.
    urls: Vec<String>,
}

impl Model for Registry {
    ghost use Rattle.std.specs.Prelude.{List, map, string_bytes, ◌≡◌};
    ghost use Rattle.fx_outside.specs.Endpoints.{EndpointParts};
    ghost use Rattle.fx_sources.specs.Registries.{IsRegistry};

    ghost Value = { List EndpointParts };

    ghost view = { λ r. r.endpoints.items };

    ghost use Rattle.fx_sources.specs.Addresses.{url_text};

    ghost invariant = { λ r. IsRegistry r.endpoints.items × (map string_bytes r.urls.items ≡ map (λ e. url_text e.iri) r.endpoints.items) };
}

impl Registry {
    ghost use Rattle.fx_sources.specs.Registries.{AnswersRegistry, IsRegistry, has_url, number_of, read_registry, with_endpoint, with_line};

    /// The registry that a text says.
    ///
    /// Each line is looked at in order, and refused by the first of these that holds of it: `Bad` exactly where it holds a
    /// byte that isn't UTF-8, or is neither empty nor a comment nor an entry; `TooMany` exactly where it is a 65th entry;
    /// `RepeatedName` exactly where an earlier entry has its name; `RepeatedUrl` exactly where an earlier URL reads to the
    /// same text (URL Standard, 4.5). Lines count from 1.
    ///
    /// A name is 1 to 32 bytes: an ASCII letter, then letters, digits, `-` or `_`. A URL is an IRI that `url` reads with the
    /// scheme `http`, a host, no user name, no password, no query and no fragment, and whose host and path a request can
    /// be sent to. The endpoint keeps the IRI as it is written, and its port is 80 where the URL has none.
    pub fn read(alloc: Global, bytes: &[u8]) -> Result<Registry, RegistryError>
        ensures { AnswersRegistry result (read_registry bytes.now) }
    {
        let mut registry = Registry {
            endpoints: Vec::new(alloc),
            urls: Vec::new(alloc),
        };
        let mut left = bytes;
        let mut number = 1;
        while !left.is_empty() {
            let (line, behind) = first_line(left);
            registry = registry.with_line(read_line(alloc, line)?, number)?;
            left = behind;
            number += 1;
        }
        Ok(registry)
    }

    /// The endpoints, in the order of their lines. It takes no memory.
    pub fn endpoints(&self) -> &[Endpoint]
        ensures value { result.now ≡ self.now }
        ensures valid { IsRegistry self.now }
    {
        self.endpoints.as_slice()
    }

    /// The number of the endpoint whose address is this IRI, as it is written, counted from 0. It takes no memory.
    pub fn find(&self, iri: &Iri) -> Option<u32>
        ensures number { result ≡ number_of iri.now self.now }
        ensures within { IfSome result (λ number. number < length self.now) }
        ensures some { IfSome result (HoldsAt (λ e. e.iri ≡ iri.now) self.now) }
        ensures none { IfNone result (All (λ e. e.iri ≢ iri.now) self.now) }
    {
        match place_of(self.endpoints(), iri) {
            Some(place) => Some(place as u32),
            None => None,
        }
    }

    // Whether an address reads to this text.
    fn has_url(&self, url: &str) -> bool
        ensures { result ≡ has_url url.now self.now }
    {
        has_text(self.urls.as_slice(), url)
    }

    // The registry after what a line of this number says.
    fn with_line(self, line: Line, number: u64) -> Result<Registry, RegistryError>
        ensures { AnswersRegistry result (with_line number self line) }
    {
        match line {
            Line::Passed => Ok(self),
            Line::Entry(entry) => self.with_entry(entry, number),
            Line::Malformed => Err(RegistryError::Bad { line: number }),
        }
    }

    // The registry with an entry behind the others.
    #[tactic(auto, unfolding(crate::specs::Registries::with_endpoint))]
    fn with_entry(mut self, entry: Entry, line: u64) -> Result<Registry, RegistryError>
        ensures { AnswersRegistry result (with_endpoint line self entry) }
    {
        if self.endpoints().len() >= 64 {
            return Err(RegistryError::TooMany { line });
        }
        if has_name(self.endpoints(), entry.endpoint.name()) {
            return Err(RegistryError::RepeatedName { line });
        }
        if self.has_url(entry.url.as_str()) {
            return Err(RegistryError::RepeatedUrl { line });
        }
        let Entry { endpoint, url } = entry;
        self.urls.push(url)?;
        self.endpoints.push(endpoint)?;
        Ok(self)
    }
}

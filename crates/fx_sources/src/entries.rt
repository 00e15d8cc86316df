//! The entries of a registry.

use fx_outside::Endpoint;
use std::marker::Model;

// An endpoint that requests can be sent to, and the text that its address reads to. Contracts see the endpoint.
#[derive(Drop)]
pub struct Entry {
    pub endpoint: Endpoint,
    pub url: String,
}

impl Model for Entry {
    ghost use Rattle.std.specs.Prelude.{string_bytes};
    ghost use Rattle.fx_outside.specs.Endpoints.{EndpointParts};
    ghost use Rattle.fx_sources.specs.Addresses.{IsEntry};

    ghost Value = { EndpointParts };

    ghost view = { λ e. e.endpoint };

    ghost invariant = { λ e. IsEntry e.endpoint (string_bytes e.url) };
}

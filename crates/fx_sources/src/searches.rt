//! What stands among endpoints and texts.
ghost use Rattle.std.specs.Prelude.{◌≡◌, ◌<◌, IfSome, bytes_eq, length, string_bytes};
ghost use Rattle.std.specs.List.{list_any};
ghost use Rattle.fx_sources.specs.Registries as spec;

use fx_outside::Endpoint;
use fx_terms::Iri;

// Whether an endpoint has the name.
pub fn has_name(endpoints: &[Endpoint], name: &str) -> bool
    ensures { result ≡ spec.has_name name.now endpoints.now }
{
    endpoints.iter().any(|endpoint| endpoint.name() == name)
}

// Whether a text is among these.
pub fn has_text(texts: &[String], text: &str) -> bool
    ensures { result ≡ list_any (λ t. bytes_eq (string_bytes t) text.now) texts.now }
{
    texts.iter().any(|t| t.as_str() == text)
}

// The place of the first endpoint whose address is this IRI.
pub fn place_of(endpoints: &[Endpoint], iri: &Iri) -> Option<usize>
    ensures first { result ≡ spec.number_of iri.now endpoints.now }
    ensures within { IfSome result (λ place. place < length endpoints.now) }
{
    endpoints
        .iter()
        .position(|endpoint| endpoint.iri().text() == iri.text())
}

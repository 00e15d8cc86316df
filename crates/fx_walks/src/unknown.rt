//! The occurrences of SERVICE that name no endpoint of a registry.
ghost use Rattle.std.specs.Prelude.{◌≡◌, IfOk};
ghost use Rattle.std.specs.Option.{option_copied};
ghost use Rattle.fx_walks.specs.Unknown as spec;

use fx_algebra::{Query, services};
use fx_sources::Registry;
use fx_terms::{Iri, Memory};
use std::alloc::Global;

/// The IRI of the first SERVICE without SILENT of a query that is the address of no endpoint.
pub fn unknown_service(
    alloc: Global,
    query: &Query,
    registry: &Registry,
) -> Result<Option<Iri>, Memory>
    ensures { IfOk result (λ found. found ≡ spec.unknown_of registry.now query.now) }
{
    let occurrences = services(alloc, query)?;
    match first_unknown(registry, occurrences.as_slice()) {
        None => Ok(None),
        Some(iri) => Ok(Some(iri.copy()?)),
    }
}

fn first_unknown<'a>(registry: &Registry, occurrences: &'a [(Iri, bool)]) -> Option<&'a Iri>
    ensures { option_copied result ≡ spec.first_unknown registry.now occurrences.now }
{
    for (iri, silent) in occurrences {
        if !*silent && !is_registered(registry, iri) {
            return Some(iri);
        }
    }
    None
}

fn is_registered(registry: &Registry, iri: &Iri) -> bool
    ensures { result ≡ spec.is_registered registry.now iri.now }
{
    registry.find(iri).is_some()
}

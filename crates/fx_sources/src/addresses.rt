//! The names and addresses of endpoints.
ghost use Rattle.std.specs.Prelude.{◌≡◌, IfOk, option_map};
ghost use Rattle.std.specs.List.{list_all};
ghost use Rattle.url.specs.Host.{host_text};
ghost use Rattle.url.specs.Parts.{nonempty_host};
ghost use Rattle.fx_sources.specs.Addresses as spec;

use fx_outside::Endpoint;
use fx_terms::{Iri, Memory};
use std::alloc::Global;
use url::Url;

// The endpoint of a name and an address that reads to this URL, where the URL has a host.
pub fn endpoint_at(
    alloc: Global,
    name: &str,
    iri: Iri,
    url: &Url,
) -> Result<Option<Endpoint>, Memory>
    ensures { IfOk result (λ endpoint. endpoint ≡ spec.endpoint_at name.now iri url.now (option_map host_text (nonempty_host url.now))) }
{
    let Some(host) = url.host_str() else {
        return Ok(None);
    };
    Ok(Some(Endpoint::new(
        String::from_str(alloc, name)?,
        iri,
        String::from_str(alloc, host)?,
        url.port().unwrap_or(80),
        String::from_str(alloc, url.path())?,
    )))
}

// Whether a URL has the scheme `http`, and no user name, password, query and fragment.
pub fn is_plain(url: &Url) -> bool
    ensures { result ≡ spec.is_plain url.now }
{
    url.scheme() == "http"
        && url.username().is_empty()
        && url.password().is_none()
        && url.query().is_none()
        && url.fragment().is_none()
}

pub fn is_name(name: &[u8]) -> bool
    ensures { result ≡ spec.is_name name.now }
{
    starts_with_letter(name) && name.len() <= 32 && has_name_bytes(name)
}

fn starts_with_letter(name: &[u8]) -> bool
    ensures { result ≡ spec.starts_with_letter name.now }
{
    match name {
        [] => false,
        [first, ..] => first.is_ascii_alphabetic(),
    }
}

fn has_name_bytes(name: &[u8]) -> bool
    ensures { result ≡ list_all spec.is_name_byte name.now }
{
    name.iter().all(|b| is_name_byte(*b))
}

fn is_name_byte(b: u8) -> bool
    ensures { result ≡ spec.is_name_byte b }
{
    b.is_ascii_alphanumeric() || b == b'-' || b == b'_'
}

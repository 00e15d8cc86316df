//! Where a token stands.

/// Where a token stands: how many brackets are open before it, up to 64, and whether it is within a SERVICE.
#[derive(Clone, Copy, PartialEq, Eq)]
pub struct Context {
    pub depth: u64,
    pub service: Service,
}

/// Whether a token stands within a SERVICE.
#[derive(Clone, Copy, PartialEq, Eq)]
pub enum Service {
    Outside,
    /// Its braces are still to come.
    Named,
    /// Between its braces, before which so many brackets were open.
    Inside(u64),
}

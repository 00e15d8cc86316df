//! The limits of files, in bytes.

/// The file of a graph.
pub const GRAPH_LIMIT: u64 = 134217728;

/// The file of a query.
pub const QUERY_LIMIT: u64 = 1048576;

/// The file of a registry.
pub const REGISTRY_LIMIT: u64 = 1048576;

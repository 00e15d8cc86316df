//! Files, and the graph and the query that they hold.
ghost use Rattle.std.specs.Prelude.{◌≡◌, ◌≤◌, ℕ, IfOk, List, MatchResult};
ghost use Rattle.fx_grammar.specs.Accepted.{IsSpellable};
ghost use Rattle.fx_local.specs.Counts.{CountsLoad};
ghost use Rattle.fx_local.specs.Files.{file_read};
ghost use Rattle.fx_local.specs.LocalSteps.{GivesFile, GivesGraph, GivesQuery};
ghost use Rattle.fx_local.specs.RegistryFiles.{GivesRegistry};
ghost use Rattle.fx_local.specs.RefusalStatuses.{file_status, graph_status, query_status, registry_status};

use crate::graphs::graph_of;
use crate::limits::{GRAPH_LIMIT, QUERY_LIMIT, REGISTRY_LIMIT};
use crate::refusals::{FileRefusal, GraphRefusal, QueryRefusal, RegistryRefusal};
use fx_algebra::Query;
use fx_outside::{FileError, Files};
use fx_sources::Registry;
use fx_store::Store;
use fx_syntax::{SyntaxError, parse};
use fx_terms::{Boxed, Graph};
use std::alloc::Global;

// The graph of a file.
fn load_graph<F: Files>(alloc: Global, files: &mut F, name: &str) -> Result<Graph, GraphRefusal>
    ensures outcome { GivesGraph (file_read (F.seen files.old) (F.seen files.new) name.now) result }
    ensures counted { CountsLoad graph_status name.now (F.seen files.old).faults (F.seen files.new).faults result }
    ensures kept { (other : List ℕ) → (F.seen files.old).faults other ≤ (F.seen files.new).faults other }
    ensures same { (other : List ℕ) → (F.seen files.new).content other ≡ (F.seen files.old).content other }
{
    match load(alloc, files, name, GRAPH_LIMIT) {
        Err(FileRefusal::Fault) => Err(GraphRefusal::Fault),
        Err(FileRefusal::TooLong) => Err(GraphRefusal::TooLong),
        Err(FileRefusal::Memory) => Err(GraphRefusal::Memory),
        Ok(bytes) => graph_of(alloc, name, bytes.as_slice()),
    }
}

/// The graph of a file, in a store.
pub fn load_store<F: Files>(alloc: Global, files: &mut F, name: &str) -> Result<Store, GraphRefusal>
    ensures outcome { GivesGraph (file_read (F.seen files.old) (F.seen files.new) name.now) result }
    ensures counted { CountsLoad graph_status name.now (F.seen files.old).faults (F.seen files.new).faults result }
    ensures kept { (other : List ℕ) → (F.seen files.old).faults other ≤ (F.seen files.new).faults other }
    ensures same { (other : List ℕ) → (F.seen files.new).content other ≡ (F.seen files.old).content other }
{
    match load_graph(alloc, files, name) {
        Err(refusal) => Err(refusal),
        Ok(graph) => in_store(alloc, graph),
    }
}

// A store of a graph, for which memory may be wanting.
fn in_store(alloc: Global, graph: Graph) -> Result<Store, GraphRefusal>
    ensures { MatchResult result (λ store. store ≡ graph) (λ e. e ≡ GraphRefusal.Memory) }
{
    match Store::load(alloc, graph) {
        Ok(store) => Ok(store),
        Err(_) => Err(GraphRefusal::Memory),
    }
}

/// The query of a file.
pub fn load_query<F: Files>(
    alloc: Global,
    files: &mut F,
    name: &str,
) -> Result<Boxed<Query>, QueryRefusal>
    ensures outcome { GivesQuery (file_read (F.seen files.old) (F.seen files.new) name.now) result }
    ensures spelled { IfOk result IsSpellable }
    ensures counted { CountsLoad query_status name.now (F.seen files.old).faults (F.seen files.new).faults result }
    ensures kept { (other : List ℕ) → (F.seen files.old).faults other ≤ (F.seen files.new).faults other }
    ensures same { (other : List ℕ) → (F.seen files.new).content other ≡ (F.seen files.old).content other }
{
    match load(alloc, files, name, QUERY_LIMIT) {
        Err(FileRefusal::Fault) => Err(QueryRefusal::Fault),
        Err(FileRefusal::TooLong) => Err(QueryRefusal::TooLong),
        Err(FileRefusal::Memory) => Err(QueryRefusal::Memory),
        Ok(bytes) => match parse(alloc, bytes.as_slice()) {
            Ok(query) => boxed(alloc, query),
            Err(SyntaxError::Refused { kind, place }) => Err(QueryRefusal::Refused { kind, place }),
            Err(SyntaxError::Memory) => Err(QueryRefusal::Memory),
        },
    }
}

fn boxed(alloc: Global, query: Query) -> Result<Boxed<Query>, QueryRefusal>
    ensures { MatchResult result (λ b. b ≡ query) (λ e. e ≡ QueryRefusal.Memory) }
{
    match Boxed::new(alloc, query) {
        Ok(query) => Ok(query),
        Err(_) => Err(QueryRefusal::Memory),
    }
}

/// The registry of a file.
pub fn load_registry<F: Files>(
    alloc: Global,
    files: &mut F,
    name: &str,
) -> Result<Registry, RegistryRefusal>
    ensures outcome { GivesRegistry (file_read (F.seen files.old) (F.seen files.new) name.now) result }
    ensures counted { CountsLoad registry_status name.now (F.seen files.old).faults (F.seen files.new).faults result }
    ensures kept { (other : List ℕ) → (F.seen files.old).faults other ≤ (F.seen files.new).faults other }
    ensures same { (other : List ℕ) → (F.seen files.new).content other ≡ (F.seen files.old).content other }
{
    match load(alloc, files, name, REGISTRY_LIMIT) {
        Err(FileRefusal::Fault) => Err(RegistryRefusal::Fault),
        Err(FileRefusal::TooLong) => Err(RegistryRefusal::TooLong),
        Err(FileRefusal::Memory) => Err(RegistryRefusal::Memory),
        Ok(bytes) => match Registry::read(alloc, bytes.as_slice()) {
            Ok(registry) => Ok(registry),
            Err(error) => Err(RegistryRefusal::Refused(error)),
        },
    }
}

// The whole content of a file.
fn load<F: Files>(
    alloc: Global,
    files: &mut F,
    name: &str,
    limit: u64,
) -> Result<Vec<u8>, FileRefusal>
    requires { limit ≤ 134217728 }
    ensures outcome { GivesFile (file_read (F.seen files.old) (F.seen files.new) name.now) limit result }
    ensures counted { CountsLoad file_status name.now (F.seen files.old).faults (F.seen files.new).faults result }
    ensures kept { (other : List ℕ) → (F.seen files.old).faults other ≤ (F.seen files.new).faults other }
    ensures same { (other : List ℕ) → (F.seen files.new).content other ≡ (F.seen files.old).content other }
{
    match files.take(alloc, name, limit) {
        Err(FileError::Failed) => Err(FileRefusal::Fault),
        Err(FileError::Memory) => Err(FileRefusal::Memory),
        Ok(bytes) => {
            if bytes.len() as u64 > limit {
                return Err(FileRefusal::TooLong);
            }
            Ok(bytes)
        }
    }
}

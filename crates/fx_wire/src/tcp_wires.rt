//! The wire over TCP.
ghost use Rattle.std.specs.Prelude.{◌≡◌, ◌≢◌, ◌+◌, ◌≤◌, List, ℕ, IfOk, IsErrOf, vec_len};
ghost use Rattle.fx_wire.specs.TcpWires.{faults_of_wire};

use crate::wires::{Wire, WireError};
use fx_outside::{Endpoint, NameCounts, read_front};
use std::alloc::Global;
use std::io;
use std::io::{ErrorKind, Write};
use std::net::{Net, OpenStream, TcpStream, ToSocketAddrs};
use std::time::Duration;

// How many seconds an address has to take a connection.
const CONNECTING: u64 = 10;

// How many seconds an endpoint may be silent, or take nothing of a request.
const SILENT: u64 = 300;

// How long an endpoint is waited for.
#[derive(Clone, Copy, Debug)]
struct Patience {
    connecting: Duration,
    silent: Duration,
}

/// The wire over TCP: it connects, writes the whole request, and reads to the close. It counts the faults of each address,
/// and tells nothing of content.
///
/// An endpoint has 10 seconds to take a connection, for each address that its host has. Then it may be silent for 300 seconds at a time,
/// or take nothing of the request for as long. Where one of these is over the exchange fails.
#[derive(Debug, Drop)]
pub struct TcpWire<R> {
    network: R,
    patience: Patience,
    faults: NameCounts,
}

impl<R> TcpWire<R> {
    /// The wire over this network, with no fault yet.
    pub fn new(alloc: Global, network: R) -> TcpWire<R>
        ensures { (address : List ℕ) → faults_of_wire result address ≡ 0 }
    {
        let connecting = Duration::from_secs(CONNECTING);
        TcpWire::with_patience(alloc, network, connecting, Duration::from_secs(SILENT))
    }

    /// The same, for which an endpoint has this long to take a connection in place of 10 seconds, and may be silent for this long in place
    /// of 300. With no time at all each exchange fails.
    pub fn with_patience(
        alloc: Global,
        network: R,
        connecting: Duration,
        silent: Duration,
    ) -> TcpWire<R>
        ensures { (address : List ℕ) → faults_of_wire result address ≡ 0 }
    {
        TcpWire {
            network,
            patience: Patience { connecting, silent },
            faults: NameCounts::new(alloc),
        }
    }
}

impl<R: Net> Wire for TcpWire<R> {
    ghost use Rattle.std.specs.Prelude.{false, true, refl, [], None};
    ghost use Rattle.fx_wire.specs.TcpWires.{faults_of_wire};

    ghost tells_log = { false };

    ghost seen = { λ wire. record { tells_log = false; log = []; graph = λ _. None; faults = faults_of_wire wire } };

    ghost counts_alone = { true };

    ghost told = { λ _. refl };

    /// The first bytes of what comes back up to the close.
    ///
    /// `Failed` comes where the network fails, and is counted; no other answer is.
    fn exchange(
        &mut self,
        alloc: Global,
        at: &Endpoint,
        request: &[u8],
        limit: u64,
    ) -> Result<Vec<u8>, WireError>
        requires { limit ≤ 134217728 }
        ensures size { IfOk result (λ reply. vec_len reply ≤ limit + 1) }
        ensures kept { (address : List ℕ) → faults_of_wire self.old address ≤ faults_of_wire self.new address }
        ensures counted { IsErrOf result WireError.Failed → faults_of_wire self.new at.now.iri ≡ faults_of_wire self.old at.now.iri + 1 }
        ensures faultless { ¬ IsErrOf result WireError.Failed → faults_of_wire self.new at.now.iri ≡ faults_of_wire self.old at.now.iri }
        ensures others { (address : List ℕ) → address ≢ at.now.iri → faults_of_wire self.new address ≡ faults_of_wire self.old address }
    {
        let place = self.faults.place(at.iri().text())?;
        let most = limit as usize + 1;
        match fetch(&self.network, alloc, at, request, most, self.patience) {
            Ok(reply) => Ok(reply),
            Err(WireError::Memory) => Err(WireError::Memory),
            Err(WireError::Failed) => {
                self.faults.raise(place);
                Err(WireError::Failed)
            }
        }
    }
}

// The first `most` bytes of what comes up to the close, or all of them.
fn fetch<R: Net>(
    network: &R,
    alloc: Global,
    at: &Endpoint,
    request: &[u8],
    most: usize,
    patience: Patience,
) -> Result<Vec<u8>, WireError>
    ensures { IfOk result (λ reply. vec_len reply ≤ most) }
{
    let reply = connect(network, at, patience).and_then(|mut stream| {
        stream.write_all(request)?;
        read_front(&mut stream, alloc, most)
    });
    reply.map_err(|error| wire_error(&error))
}

// A stream to an endpoint, by the first of its addresses that takes it.
fn connect<R: Net>(network: &R, at: &Endpoint, patience: Patience) -> io::Result<R::Stream> {
    let mut last = io::Error::from(ErrorKind::InvalidInput);
    for address in (without_brackets(at.host()), at.port()).to_socket_addrs(network)? {
        match TcpStream::connect_timeout(network, &address, patience.connecting) {
            Ok(stream) => {
                stream.set_read_timeout(Some(patience.silent))?;
                stream.set_write_timeout(Some(patience.silent))?;
                return Ok(stream);
            }
            Err(error) => last = error,
        }
    }
    Err(last)
}

// An IPv6 address stands in brackets in a URL, and without them where it is connected to.
fn without_brackets(host: &str) -> &str {
    match host.strip_prefix('[') {
        None => host,
        Some(rest) => rest.strip_suffix(']').unwrap_or(host),
    }
}

// Want of memory is told apart from a fault of the network.
fn wire_error(error: &io::Error) -> WireError {
    if error.kind() == ErrorKind::OutOfMemory {
        WireError::Memory
    } else {
        WireError::Failed
    }
}

//! A door over TCP.
ghost use Rattle.std.specs.Prelude.{◌≡◌, ◌≤◌, ◌+◌, IfOk, IsErrOf, IsOk};

use crate::doors::{Door, DoorError};
use crate::patience::Patient;
use crate::read_ahead::ReadAhead;
use crate::system_links::StdLink;
use crate::system_streams::TRIES;
use std::alloc::Global;
use std::io;
use std::io::{ErrorKind, Read};
use std::net::{Net, OpenListener, OpenStream, Shutdown, TcpListener};
use std::time::{Clock, Duration, Instant};

// How many seconds a peer has to send its whole request, and to take anything of what is written.
const PATIENCE: u64 = 30;

// How many milliseconds a peer that sends nothing is waited for, before its connection is closed.
const LINGERING: u64 = 500;

// How many pieces of what a peer still sends are read, before its connection is closed.
const MOST_READS: u64 = 1024;

/// The door that a network opens over TCP, with a count of its faults. It tells nothing of what goes in and out.
///
/// A peer has 30 seconds to send its whole request, from when its connection is given, however it sends it, and each time 30 seconds to
/// take anything of what is written. Where that is over the read or the write fails, which is a fault of the connection and not of the door.
#[derive(Drop)]
pub struct Listener<N: Net> {
    network: N,
    listener: Option<N::Listener>,
    patience: Duration,
    faults: u64,
}

impl<N: Net> Listener<N> {
    /// The door of this network, which isn't started and has no fault yet.
    pub fn new(network: N) -> Listener<N>
        ensures { result.faults ≡ 0 }
    {
        Listener::with_patience(network, Duration::from_secs(PATIENCE))
    }

    /// The same, whose peers have this long in place of 30 seconds. With no time at all each read and write fails.
    pub fn with_patience(network: N, patience: Duration) -> Listener<N>
        ensures { result.faults ≡ 0 }
    {
        Listener {
            network,
            listener: None,
            patience,
            faults: 0,
        }
    }

    // What an error of the network comes to. A fault is counted; want of memory is told apart from it.
    fn fault(&mut self, error: &io::Error) -> DoorError
        ensures kept { self.old.faults ≤ self.new.faults }
        ensures counted { result ≡ DoorError.Failed → self.new.faults ≡ self.old.faults + 1 }
        ensures faultless { ¬ (result ≡ DoorError.Failed) → self.new.faults ≡ self.old.faults }
    {
        if error.kind() == ErrorKind::OutOfMemory || self.faults >= u64::MAX {
            return DoorError::Memory;
        }
        self.faults += 1;
        DoorError::Failed
    }
}

impl<N: Net + Clock + Clone + Drop> Door for Listener<N> {
    ghost use Rattle.std.specs.Prelude.{false, refl, []};
    ghost use Rattle.fx_outside.specs.SystemLinks.{read_faults_of, write_faults_of};

    type Conn = StdLink<ReadAhead<Patient<N::Stream, N>>>;

    ghost tells = { false };

    ghost seen = { λ door. record { tells = false; started = []; inputs = []; outputs = []; faults = door.faults } };

    ghost told = { λ _. refl };

    /// `Failed` comes where the network fails, and is counted; no other answer is.
    fn start(&mut self, _alloc: Global, address: &str) -> Result<(), DoorError>
        ensures kept { self.old.faults ≤ self.new.faults }
        ensures counted { IsErrOf result DoorError.Failed → self.new.faults ≡ self.old.faults + 1 }
        ensures faultless { ¬ IsErrOf result DoorError.Failed → self.new.faults ≡ self.old.faults }
    {
        match TcpListener::bind(&self.network, address) {
            Ok(listener) => {
                self.listener = Some(listener);
                Ok(())
            }
            Err(error) => Err(self.fault(&error)),
        }
    }

    /// `Failed` comes where the network fails, and is counted; no other answer is.
    fn accept(
        &mut self,
        alloc: Global,
    ) -> Result<StdLink<ReadAhead<Patient<N::Stream, N>>>, DoorError>
        ensures faultless_connection { IfOk result (λ conn. (read_faults_of conn ≡ 0) × (write_faults_of conn ≡ 0)) }
        ensures kept { self.old.faults ≤ self.new.faults }
        ensures counted { IsErrOf result DoorError.Failed → self.new.faults ≡ self.old.faults + 1 }
        ensures faultless { ¬ IsErrOf result DoorError.Failed → self.new.faults ≡ self.old.faults }
    {
        match accept_patiently(alloc, &self.network, &self.listener, self.patience) {
            Ok(stream) => Ok(StdLink::new(stream)),
            Err(error) => Err(self.fault(&error)),
        }
    }

    /// Ends a connection, once the peer has read to the end or has been waited for, as long as it had for its request at most. It
    /// doesn't fail.
    fn finish(
        &mut self,
        _alloc: Global,
        conn: StdLink<ReadAhead<Patient<N::Stream, N>>>,
    ) -> Result<(), DoorError>
        ensures finished { IsOk result }
        ensures faultless { self.new.faults ≡ self.old.faults }
    {
        let mut stream = conn.into_stream().into_stream().into_stream();
        linger(&mut stream, &self.network, self.patience);
        Ok(())
    }
}

// The next stream, whose peer's time begins now.
fn accept_patiently<N: Net + Clock + Clone + Drop>(
    alloc: Global,
    network: &N,
    listener: &Option<N::Listener>,
    patience: Duration,
) -> io::Result<ReadAhead<Patient<N::Stream, N>>> {
    let clock = network.clone()?;
    let stream = accept_some(listener)?;
    ReadAhead::new(alloc, Patient::new(stream, clock, patience)?)
}

// The next stream. An accept that was interrupted is tried again, but not for ever.
fn accept_some<L: OpenListener>(listener: &Option<L>) -> io::Result<L::Stream> {
    let Some(listener) = listener else {
        return Err(io::Error::from(ErrorKind::NotConnected));
    };
    for _ in 1..TRIES {
        match listener.accept() {
            Ok((stream, _)) => return Ok(stream),
            Err(error) => {
                if error.kind() != ErrorKind::Interrupted {
                    return Err(error);
                }
            }
        }
    }
    let (stream, _) = listener.accept()?;
    Ok(stream)
}

// Says that nothing more is written, and reads what the peer still sends, within limits, of which one is this time. A stream that is
// closed while bytes are unread is reset, and its peer may lose what was written to it.
fn linger<S: Read + OpenStream, C: Clock>(stream: &mut S, clock: &C, patience: Duration) {
    let Ok(begun) = Instant::now(clock) else {
        return;
    };
    if stream.shutdown(Shutdown::Write).is_err()
        || stream
            .set_read_timeout(Some(Duration::from_millis(LINGERING)))
            .is_err()
    {
        return;
    }
    let mut buffer = [0u8; 4096];
    for _ in 0..MOST_READS {
        if !begun.elapsed(clock).is_ok_and(|spent| spent < patience) {
            return;
        }
        match stream.read(&mut buffer) {
            Ok(0) => return,
            Ok(_) => {}
            Err(_) => return,
        }
    }
}

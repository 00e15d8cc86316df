//! A wire that keeps where exchanges failed.

use fx_member::FaultWire;
use fx_outside::Endpoint;
use fx_wire::{Wire, WireError};
use std::alloc::Global;

/// A wire over graphs that fails where it is to, and keeps the name of the endpoint of each exchange that failed, in order. How many there are is its
/// count of faults. It tells nothing else.
#[derive(Drop)]
pub struct WatchedWire {
    wire: FaultWire,
    failed: Vec<String>,
}

impl WatchedWire {
    /// The wire over another, of which no exchange has failed yet.
    pub fn new(alloc: Global, wire: FaultWire) -> WatchedWire {
        WatchedWire {
            wire,
            failed: Vec::new(alloc),
        }
    }

    /// The names of the endpoints of the exchanges that failed.
    pub fn failed(&self) -> &[String] {
        self.failed.as_slice()
    }
}

impl Wire for WatchedWire {
    ghost use Rattle.std.specs.Prelude.{false, refl, [], None, vec_len};

    ghost tells_log = { false };

    ghost seen = { λ wire. record { tells_log = false; log = []; graph = λ _. None; faults = λ _. vec_len wire.failed } };

    ghost counts_alone = { false };

    ghost told = { λ _. refl };

    fn exchange(
        &mut self,
        alloc: Global,
        at: &Endpoint,
        request: &[u8],
        limit: u64,
    ) -> Result<Vec<u8>, WireError> {
        // The name stands there before the exchange, so that none is lost for want of memory.
        let count = self.failed.len();
        self.failed.push(String::from_str(alloc, at.name())?)?;
        match self.wire.exchange(alloc, at, request, limit) {
            Ok(reply) => {
                self.failed.truncate(count);
                Ok(reply)
            }
            Err(WireError::Failed) => Err(WireError::Failed),
            Err(WireError::Memory) => {
                self.failed.truncate(count);
                Err(WireError::Memory)
            }
        }
    }
}

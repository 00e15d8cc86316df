//! A door in memory.
ghost use Rattle.std.specs.Prelude.{◌≡◌, ◌<◌, ◌≤◌, ◌+◌, IfOk, IsOkAnd, vec_len};
ghost use Rattle.fx_outside.specs.Doors.{numbers_of as numbers_beside};

use crate::doors::{Door, DoorError};
use crate::memory_links::MemoryLink;
use fx_terms::Memory;
use std::alloc::Global;

/// A door in memory, which tells all that a door can tell. Its connections are links in memory.
///
/// A call is a fault where its number is among those that are to fail: calls of the door are numbered together, from 1. So is an
/// `accept` where no input is left. Connections are numbered from 1, and each has reads and writes that are to fail.
#[derive(Drop)]
pub struct MemoryDoor {
    inputs: Vec<Vec<u8>>,
    taken: usize,
    room: u64,
    step: u64,
    fails: Vec<u64>,
    read_fails: Vec<(u64, u64)>,
    write_fails: Vec<(u64, u64)>,
    addresses: Vec<String>,
    finished: Vec<MemoryLink>,
    calls: u64,
    faults: u64,
    ghost place: { taken ≤ vec_len inputs },
    ghost steps: { 0 < step },
}

impl MemoryDoor {
    ghost use Rattle.std.specs.Prelude.{◌∷◌, drop};
    ghost use Rattle.fx_outside.specs.MemoryDoors.{IsAfterCall, IsFreshConnection, IsFreshDoor, contents, finished_in, inputs_in, is_failing};
    ghost use Rattle.fx_outside.specs.MemoryLinks.{left_in};

    /// A door that isn't started, for connections with these inputs in order. Each connection has room for `room` bytes, and one
    /// read or write of it moves at most `step`. The calls of the door whose numbers stand in `fails` fail. A pair of `read_fails`
    /// or `write_fails` names a connection, and the number of a read or write of it that fails.
    ///
    /// It takes no memory, so `Memory` doesn't come: the answer is always `Ok`.
    pub fn new(
        alloc: Global,
        inputs: Vec<Vec<u8>>,
        room: u64,
        step: u64,
        fails: Vec<u64>,
        read_fails: Vec<(u64, u64)>,
        write_fails: Vec<(u64, u64)>,
    ) -> Result<MemoryDoor, Memory>
        requires { 0 < step }
        ensures { IsOkAnd result (λ door. IsFreshDoor door inputs.items room step fails.items read_fails.items write_fails.items) }
    {
        Ok(MemoryDoor {
            inputs,
            taken: 0,
            room,
            step,
            fails,
            read_fails,
            write_fails,
            addresses: Vec::new(alloc),
            finished: Vec::new(alloc),
            calls: 0,
            faults: 0,
        })
    }

    /// The connections that are finished, in order.
    pub fn finished(&self) -> &[MemoryLink]
        ensures { result.now ≡ finished_in self.now }
    {
        self.finished.as_slice()
    }

    // Counts one more call, and says whether it is to fail.
    fn counts_a_failure(&mut self) -> bool
        ensures failing { result ≡ is_failing self.old }
        ensures after { IsAfterCall self.old self.new }
        ensures addresses { self.new.addresses ≡ self.old.addresses }
        ensures inputs { self.new.inputs ≡ self.old.inputs }
        ensures taken { self.new.taken ≡ self.old.taken }
        ensures finished { self.new.finished ≡ self.old.finished }
        ensures faults { self.new.faults ≡ self.old.faults }
    {
        self.calls = self.calls.saturating_add(1);
        self.fails.contains(&self.calls)
    }

    // The connection with the first of the inputs left.
    fn next_link(&self, alloc: Global) -> Result<MemoryLink, Memory>
        requires { self.now.taken < vec_len self.now.inputs }
        ensures first { IfOk result (λ link. inputs_in self.now ≡ left_in link ∷ contents (drop (self.now.taken + 1) self.now.inputs.items)) }
        ensures fresh { IfOk result (λ link. IsFreshConnection self.now link) }
    {
        let number = self.taken as u64 + 1;
        let input = Vec::from_slice(alloc, self.inputs[self.taken].as_slice())?;
        let reads = numbers_of(alloc, self.read_fails.as_slice(), number)?;
        let writes = numbers_of(alloc, self.write_fails.as_slice(), number)?;
        MemoryLink::new(alloc, input, self.room, self.step, reads, writes)
    }

    // The fault of a call, which is counted.
    fn fault(&mut self) -> DoorError
        ensures calls { self.new.calls ≡ self.old.calls }
        ensures fails { self.new.fails ≡ self.old.fails }
        ensures room { self.new.room ≡ self.old.room }
        ensures step { self.new.step ≡ self.old.step }
        ensures read_fails { self.new.read_fails ≡ self.old.read_fails }
        ensures write_fails { self.new.write_fails ≡ self.old.write_fails }
        ensures addresses { self.new.addresses ≡ self.old.addresses }
        ensures inputs { self.new.inputs ≡ self.old.inputs }
        ensures taken { self.new.taken ≡ self.old.taken }
        ensures finished { self.new.finished ≡ self.old.finished }
        ensures kept { self.old.faults ≤ self.new.faults }
        ensures counted { result ≡ DoorError.Failed → self.new.faults ≡ self.old.faults + 1 }
        ensures faultless { ¬ (result ≡ DoorError.Failed) → self.new.faults ≡ self.old.faults }
    {
        if self.faults >= u64::MAX {
            return DoorError::Memory;
        }
        self.faults += 1;
        DoorError::Failed
    }
}

impl Door for MemoryDoor {
    ghost use Rattle.std.specs.Prelude.{◌++◌, ◌∷◌, [], ◌⊎◌, true, false, refl, IsErrOf, OnErr, OnOk};
    ghost use Rattle.fx_outside.specs.Doors.{IsTaken, output_of};
    ghost use Rattle.fx_outside.specs.MemoryDoors.{IsAfterCall, IsFreshConnection, addresses_in, faults_in, finished_in, inputs_in, is_failing, next_connection, outputs_in};
    ghost use Rattle.fx_outside.specs.MemoryLinks.{left_in, written_in, read_faults_of, write_faults_of};

    type Conn = MemoryLink;

    ghost tells = { true };

    ghost seen = { λ door. record { tells = true; started = addresses_in door; inputs = inputs_in door; outputs = outputs_in door; faults = faults_in door } };

    ghost told = { λ _. refl };

    /// Opens the door at an address.
    ///
    /// `Failed` comes exactly where this call is to fail. `Memory` comes where memory runs out, or where the count of faults
    /// stands at the end of `u64`. After either it has the addresses that it had.
    fn start(&mut self, alloc: Global, address: &str) -> Result<(), DoorError>
        ensures started { OnOk result (addresses_in self.new ≡ addresses_in self.old ++ address.now ∷ []) }
        ensures unstarted { OnErr result (addresses_in self.new ≡ addresses_in self.old) }
        ensures inputs { inputs_in self.new ≡ inputs_in self.old }
        ensures outputs { outputs_in self.new ≡ outputs_in self.old }
        ensures kept { faults_in self.old ≤ faults_in self.new }
        ensures counted { IsErrOf result DoorError.Failed → faults_in self.new ≡ faults_in self.old + 1 }
        ensures faultless { ¬ IsErrOf result DoorError.Failed → faults_in self.new ≡ faults_in self.old }
        ensures given { OnOk result (is_failing self.old ≡ false) }
        ensures refused { IsErrOf result DoorError.Failed → is_failing self.old ≡ true }
        ensures connection { next_connection self.new ≡ next_connection self.old }
        ensures finished { finished_in self.new ≡ finished_in self.old }
        ensures after { IsAfterCall self.old self.new }
    {
        if self.counts_a_failure() {
            return Err(self.fault());
        }
        let opened = String::from_str(alloc, address)?;
        self.addresses.push(opened)?;
        Ok(())
    }

    /// The next connection, with the first of the inputs left.
    ///
    /// `Failed` comes exactly where this call is to fail, or no input is left. `Memory` comes where memory runs out, or where
    /// the count of faults stands at the end of `u64`. After either the input is still left.
    fn accept(&mut self, alloc: Global) -> Result<MemoryLink, DoorError>
        ensures faultless_connection { IfOk result (λ conn. (read_faults_of conn ≡ 0) × (write_faults_of conn ≡ 0)) }
        ensures taken { IfOk result (λ conn. IsTaken (inputs_in self.old) (inputs_in self.new) (left_in conn) (written_in conn)) }
        ensures untaken { OnErr result (inputs_in self.new ≡ inputs_in self.old) }
        ensures started { addresses_in self.new ≡ addresses_in self.old }
        ensures outputs { outputs_in self.new ≡ outputs_in self.old }
        ensures kept { faults_in self.old ≤ faults_in self.new }
        ensures counted { IsErrOf result DoorError.Failed → faults_in self.new ≡ faults_in self.old + 1 }
        ensures faultless { ¬ IsErrOf result DoorError.Failed → faults_in self.new ≡ faults_in self.old }
        ensures given { OnOk result (is_failing self.old ≡ false) }
        ensures refused { IsErrOf result DoorError.Failed → (is_failing self.old ≡ true) ⊎ (inputs_in self.old ≡ []) }
        ensures fresh { IfOk result (λ conn. IsFreshConnection self.old conn) }
        ensures connection { OnOk result (next_connection self.new ≡ next_connection self.old + 1) }
        ensures unnumbered { OnErr result (next_connection self.new ≡ next_connection self.old) }
        ensures finished { finished_in self.new ≡ finished_in self.old }
        ensures after { IsAfterCall self.old self.new }
    {
        if self.counts_a_failure() || self.taken == self.inputs.len() {
            return Err(self.fault());
        }
        let link = self.next_link(alloc)?;
        self.taken += 1;
        Ok(link)
    }

    /// Ends a connection, which is then the last of those that are finished.
    ///
    /// `Failed` comes exactly where this call is to fail. `Memory` comes where memory runs out, or where the count of faults
    /// stands at the end of `u64`. After either those that are finished are as they were.
    fn finish(&mut self, _alloc: Global, conn: MemoryLink) -> Result<(), DoorError>
        ensures ended { OnOk result (outputs_in self.new ≡ outputs_in self.old ++ output_of (written_in conn) (left_in conn) (read_faults_of conn) (write_faults_of conn) ∷ []) }
        ensures unended { OnErr result (outputs_in self.new ≡ outputs_in self.old) }
        ensures started { addresses_in self.new ≡ addresses_in self.old }
        ensures inputs { inputs_in self.new ≡ inputs_in self.old }
        ensures kept { faults_in self.old ≤ faults_in self.new }
        ensures counted { IsErrOf result DoorError.Failed → faults_in self.new ≡ faults_in self.old + 1 }
        ensures faultless { ¬ IsErrOf result DoorError.Failed → faults_in self.new ≡ faults_in self.old }
        ensures given { OnOk result (is_failing self.old ≡ false) }
        ensures refused { IsErrOf result DoorError.Failed → is_failing self.old ≡ true }
        ensures last { OnOk result (finished_in self.new ≡ finished_in self.old ++ conn ∷ []) }
        ensures unfinished { OnErr result (finished_in self.new ≡ finished_in self.old) }
        ensures connection { next_connection self.new ≡ next_connection self.old }
        ensures after { IsAfterCall self.old self.new }
    {
        if self.counts_a_failure() {
            return Err(self.fault());
        }
        self.finished.push(conn)?;
        Ok(())
    }
}

// The numbers that stand beside a connection's.
fn numbers_of(alloc: Global, pairs: &[(u64, u64)], connection: u64) -> Result<Vec<u64>, Memory>
    ensures { IfOk result (λ numbers. numbers.items ≡ numbers_beside connection pairs.now) }
{
    let mut numbers = Vec::new(alloc);
    for pair in pairs {
        if pair.0 == connection {
            numbers.push(pair.1)?;
        }
    }
    Ok(numbers)
}

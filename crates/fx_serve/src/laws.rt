//! Laws of connections that are served one after another.
//!
//! Nothing here is called: each function is a law of the definitions in `specs`, which is its contract.
ghost use Rattle.fx_serve.specs.Laws.{ServedAreTold, WiresAreAfter};

/// Where the wires tell the graphs of the members, and what the cache held before all was true of them, each connection has the reply that is told of its input: the answer over the union of the graphs of the
/// members that weren't left out in that connection, the refusal, or the fault. So what the cache keeps from connection to connection stays true.
pub fn served_are_told()
    ensures { ServedAreTold }
{}

/// Connections leave wires as exchanges leave them.
pub fn wires_are_after()
    ensures { WiresAreAfter }
{}

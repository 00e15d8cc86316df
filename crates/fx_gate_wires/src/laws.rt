//! Laws of what a gate tells.
//!
//! Nothing here is called: each function is a law of the definitions in `specs`, which is its contract.
ghost use Rattle.fx_gate_wires.specs.Laws.{GatesTellOthers, GatesTellTheUnion};

/// Where the first inner wire tells a graph of each endpoint of the registry, a gate tells the union of these graphs at its own address. So does a gate over such gates.
pub fn gates_tell_the_union()
    ensures { GatesTellTheUnion }
{}

/// At any other address it tells what the first inner wire tells.
pub fn gates_tell_others()
    ensures { GatesTellOthers }
{}

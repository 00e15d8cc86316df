//! Laws of what a federation replies.
//!
//! Nothing here is called: each function is a law of the definitions in `specs`, which is its contract.
ghost use Rattle.fx_gateway.specs.Laws.{CachesStayTrue, ConnectionsAreHonest, ConnectionsAreLicensed, ConnectionsAreTold, WiresAreAfter};

/// Where the wires tell the graphs of the members, and what the cache held is true of them, the link gains for each input the reply that a request or a text is refused with, the document of the
/// answer over the union of the graphs of the members that weren't left out, or the fault.
pub fn connections_are_told()
    ensures { ConnectionsAreTold }
{}

/// Where besides no member was left out, and there is no fault, the reply is honest over the union of all graphs: a request that asks a query without SERVICE has a reply that means its answer over it.
pub fn connections_are_honest()
    ensures { ConnectionsAreHonest }
{}

/// Where a member was left out, or an occurrence of SERVICE SILENT was down, there is a licence for it in this very call: a fault that was counted at its address, or an exchange of its own with a bad reply. A refused request or
/// text, and a fault, leave out nobody.
pub fn connections_are_licensed()
    ensures { ConnectionsAreLicensed }
{}

/// What the cache holds behind a connection is true of the graphs, where it was before.
pub fn caches_stay_true()
    ensures { CachesStayTrue }
{}

/// A connection leaves wires as exchanges leave them.
pub fn wires_are_after()
    ensures { WiresAreAfter }
{}

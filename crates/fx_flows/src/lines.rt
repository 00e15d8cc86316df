//! A queue of parcels that workers share.
ghost use Rattle.std.specs.Prelude.{◌≡◌, ◌-◌, ◌+◌, ◌/◌, ◌<◌, ◌≤◌, ◌++◌, [], ◌∷◌, IfOk, MatchOption, MatchResult, None, Some};
ghost use Rattle.crossbeam_queue.specs.SegTies.{IsSegPassOf};
ghost use Rattle.crossbeam_queue.specs.Fifo.{Held};
ghost use Rattle.fx_flows.specs.Lines.{IsOf, MayPut, hand, other_half, own_half, with_both, with_put, with_taken};
ghost use Rattle.fx_flows.specs.Parcels.{IsParcelOf, SameParcels};

use crate::parcels::{Parcel, RunShape};
use crossbeam_queue::protocol::{Join, Lesson, Outcome, Protocol, Split};
use crossbeam_queue::{RuledSegQueue, SegPass};
use std::alloc::{AllocError, Global};
use std::collections::LinkedList;
use std::sync::Wait;

// What a pass knows: its parts, the shape of the run, and what it put and took. No value of it is made.
pub struct Hand {
    pub parts: u64,
    pub shape: Option<RunShape>,
    pub put: LinkedList<Parcel>,
    pub took: LinkedList<Parcel>,
}

// Over all passes, what was put is what was taken and what the queue holds.
pub struct Fair;

impl Protocol<Parcel, Hand> for Fair {
    ghost use Rattle.std.specs.Prelude.{[], None};
    ghost use Rattle.fx_flows.specs.Lines.{hand, IsBalanced};

    ghost holds = { IsBalanced };

    ghost first = { hand 16 None [] [] };
}

// The pass puts a parcel, and knows its shape.
struct Puts;

impl Outcome<Parcel, Hand> for Puts {
    ghost use Rattle.std.specs.Prelude.{◌≡◌, ◌++◌, ◌∷◌, [], Some};
    ghost use Rattle.fx_flows.specs.Lines.{hand};

    ghost then = { λ v x w. w ≡ hand v.parts (Some x.shape) (v.put ++ x ∷ []) v.took };
}

// The pass takes a parcel, which is of the shape that it knows.
struct Takes;

impl Outcome<Parcel, Hand> for Takes {
    ghost use Rattle.std.specs.Prelude.{◌≡◌, ◌++◌, ◌∷◌, []};
    ghost use Rattle.fx_flows.specs.Lines.{IsOf, hand};

    ghost then = { λ v x w. (w ≡ hand v.parts v.shape v.put (v.took ++ x ∷ [])) × IsOf v.shape x };
}

impl Lesson<Parcel, Hand> for Takes {
    ghost use Rattle.std.specs.Prelude.{◌≡◌, ◌++◌};
    ghost use Rattle.fx_flows.specs.Parcels.{SameParcels};

    // With every part, what was put is what was taken and what the queue holds.
    ghost fact = { λ v items. v.parts ≡ 16 → SameParcels v.put (v.took ++ items) };
}

// Half of the parts for another pass, and both together again.
struct Halves;

impl Split<Hand> for Halves {
    ghost use Rattle.std.specs.Prelude.{◌-◌, ◌/◌, []};
    ghost use Rattle.fx_flows.specs.Lines.{hand};

    ghost left = { λ v. hand (v.parts - v.parts / 2) v.shape v.put v.took };

    ghost right = { λ v. hand (v.parts / 2) v.shape [] [] };
}

impl Join<Hand> for Halves {
    ghost use Rattle.std.specs.Prelude.{◌+◌, ◌++◌, [], None};
    ghost use Rattle.fx_flows.specs.Lines.{hand};

    ghost both = { λ v w. hand (v.parts + w.parts) v.shape (v.put ++ w.put) (v.took ++ w.took) };

    ghost spent = { hand 0 None [] [] };
}

/// The queue of a run.
pub type Line = RuledSegQueue<Parcel, Hand, Fair>;

/// A worker's pass to it.
pub type Ticket = SegPass<Parcel, Hand>;

/// An empty queue, and a pass with every part.
pub(crate) fn lined(alloc: Global) -> Result<(Line, Ticket), AllocError>
    ensures { IfOk result (λ q. IsSegPassOf q.0 q.1 × (q.1.me.view.client ≡ hand 16 None [] [])) }
{
    Line::with_rule(alloc)
}

/// Puts a parcel. It comes back where there is no memory.
pub(crate) fn put<R: Wait>(
    rt: &R,
    line: &Line,
    me: &mut Ticket,
    parcel: Parcel,
) -> Result<(), Parcel>
    requires pass { IsSegPassOf line.now me.old × (0 < me.old.me.view.client.parts) }
    requires may { MayPut parcel.shape me.old.me.view.client × IsParcelOf parcel.shape parcel }
    ensures pass { IsSegPassOf line.now me.new }
    ensures put { MatchResult result
        (λ _. me.new.me.view.client ≡ with_put me.old.me.view.client parcel)
        (λ p. (p ≡ parcel) × (me.new.me.view.client ≡ me.old.me.view.client)) }
{
    line.push_as::<Puts, R>(rt, me, parcel)
}

/// Takes a parcel. With every part, None shows that what was put was taken.
pub(crate) fn take<R: Wait>(rt: &R, line: &Line, me: &mut Ticket) -> Option<Parcel>
    requires pass { IsSegPassOf line.now me.old × (0 < me.old.me.view.client.parts) }
    ensures pass { IsSegPassOf line.now me.new }
    ensures took { MatchOption result
        ((me.new.me.view.client ≡ me.old.me.view.client)
        × (me.old.me.view.client.parts ≡ 16 → SameParcels me.old.me.view.client.put (me.old.me.view.client.took ++ [])))
        (λ p. (me.new.me.view.client ≡ with_taken me.old.me.view.client p) × IsOf me.old.me.view.client.shape p) }
{
    line.pop_as::<Takes, R>(rt, me)
}

/// How many parcels wait. With every part they are those that were put and not taken.
pub(crate) fn waiting<R: Wait>(rt: &R, line: &Line, me: &mut Ticket) -> usize
    requires pass { IsSegPassOf line.now me.old }
    ensures pass { IsSegPassOf line.now me.new × (me.new.me.view.client ≡ me.old.me.view.client) }
    ensures left { Held result (λ items. me.old.me.view.client.parts ≡ 16 → SameParcels me.old.me.view.client.put (me.old.me.view.client.took ++ items)) }
{
    line.len_as::<Takes, R>(rt, me)
}

/// A further pass, which has put and taken nothing.
pub(crate) fn shared_out(line: &Line, me: &mut Ticket) -> Ticket
    requires { IsSegPassOf line.now me.old × (2 ≤ me.old.me.view.client.parts) }
    ensures pass { IsSegPassOf line.now me.new × IsSegPassOf line.now result }
    ensures kept { me.new.me.view.client ≡ own_half me.old.me.view.client }
    ensures made { result.me.view.client ≡ other_half me.old.me.view.client }
{
    line.another::<Halves>(me)
}

/// One pass again, which put and took what both did.
pub(crate) fn taken_in(line: &Line, me: &mut Ticket, other: Ticket)
    requires { IsSegPassOf line.now me.old × IsSegPassOf line.now other × (0 < me.old.me.view.client.parts) × (0 < other.me.view.client.parts) }
    ensures pass { IsSegPassOf line.now me.new }
    ensures both { me.new.me.view.client ≡ with_both me.old.me.view.client other.me.view.client }
{
    line.absorb::<Halves>(me, other);
}

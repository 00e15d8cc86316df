//! A word from which workers draw the numbers of jobs, each once.
ghost use Rattle.std.specs.Prelude.{◌≡◌, ◌+◌, ◌-◌, ◌/◌, ◌<◌, ◌≤◌, ◌++◌, [], ℕ, IfOk};
ghost use Rattle.fx_pool.specs.Claims.{hand, once_below, times, with_both, with_drawn};

use atomic_table::{Join, Play, Seat, Split, Table, TableRule};
use std::alloc::{AllocError, Global};
use std::collections::LinkedList;

// What a seat knows: its parts, the number of jobs, how many numbers past them it drew, and all that it drew. No value of it is made.
pub struct Drawn {
    pub parts: u64,
    pub jobs: u64,
    pub past: u64,
    pub numbers: LinkedList<u64>,
}

// Over all seats, each number below the word was drawn once, and no other.
pub struct OnceEach;

impl TableRule<u8, Drawn, u64> for OnceEach {
    ghost use Rattle.std.specs.Prelude.{[]};
    ghost use Rattle.fx_pool.specs.Claims.{IsClaimed, hand};

    ghost holds = { λ jobs s. IsClaimed jobs s.words s.views };

    ghost first = { λ jobs. hand 16 jobs 0 [] };
}

// The seat draws the number that the word was at.
struct Draws;

impl Play<u8, Drawn> for Draws {
    ghost use Rattle.std.specs.Prelude.{◌≡◌, []};
    ghost use Rattle.fx_pool.specs.Claims.{with_drawn};

    ghost then = { λ _ me found after. after ≡ (with_drawn me.0 found, []) };
}

// A seat with every part learns that the numbers below the word are those that it drew.
struct Knows;

impl Play<u8, Drawn> for Knows {
    ghost use Rattle.std.specs.Prelude.{◌≡◌, ◌<◌, ℕ};
    ghost use Rattle.fx_pool.specs.Claims.{once_below, times};

    ghost then = { λ _ me found after. (after ≡ me) × ((x : ℕ) → times x me.0.numbers ≡ once_below x found) × (0 < me.0.past → me.0.jobs < found) };
}

// Half of the parts for another seat, and both together again.
struct Halves;

impl Split<Drawn> for Halves {
    ghost use Rattle.std.specs.Prelude.{◌-◌, ◌/◌, []};
    ghost use Rattle.fx_pool.specs.Claims.{hand};

    ghost left = { λ v. hand (v.parts - v.parts / 2) v.jobs v.past v.numbers };

    ghost right = { λ v. hand (v.parts / 2) v.jobs 0 [] };
}

impl Join<Drawn> for Halves {
    ghost use Rattle.std.specs.Prelude.{◌+◌, ◌++◌, []};
    ghost use Rattle.fx_pool.specs.Claims.{hand};

    ghost both = { λ v w. hand (v.parts + w.parts) v.jobs (v.past + w.past) (v.numbers ++ w.numbers) };

    ghost spent = { hand 0 0 0 [] };
}

/// The word, with the number of jobs.
pub type Claims = Table<u8, Drawn, u64, OnceEach, Global>;

/// A worker's seat at the word.
pub type Worker = Seat<u8, Drawn>;

/// A word at 0 for so many jobs, and a seat with every part.
pub(crate) fn opened(alloc: Global, jobs: u64) -> Result<(Claims, Worker), AllocError>
    requires { jobs < 4294967296 }
    ensures { IfOk result (λ t.
        (t.0.shared.table_id.words ≡ 1) × (t.0.shared.key ≡ jobs) × (t.1.table_id ≡ t.0.shared.table_id) × (t.1.me ≡ (hand 16 jobs 0 [], []))) }
{
    Claims::of_words(alloc, &[0], &jobs)
}

/// Draws the next number.
pub(crate) fn draw(claims: &Claims, me: &mut Worker) -> u64
    requires table { (me.old.table_id ≡ claims.now.shared.table_id) × (claims.now.shared.table_id.words ≡ 1) }
    requires may { (me.old.me.1 ≡ []) × (me.old.me.0.past < me.old.me.0.parts) }
    ensures table { me.new.table_id ≡ me.old.table_id }
    ensures drawn { me.new.me ≡ (with_drawn me.old.me.0 result, []) }
{
    claims.shared.fetch_add::<Draws>(me, 0, 1)
}

/// A further seat with half of the parts, before a number was drawn.
pub(crate) fn split(claims: &Claims, me: &mut Worker) -> Worker
    requires table { (me.old.table_id ≡ claims.now.shared.table_id) × (claims.now.shared.table_id.words ≡ 1) }
    requires may { (2 ≤ me.old.me.0.parts) × (me.old.me.0.past ≡ 0) × (me.old.me.0.numbers ≡ []) × (me.old.me.1 ≡ []) }
    ensures table { (me.new.table_id ≡ me.old.table_id) × (result.table_id ≡ me.old.table_id) }
    ensures kept { me.new.me ≡ (hand (me.old.me.0.parts - me.old.me.0.parts / 2) me.old.me.0.jobs 0 [], []) }
    ensures made { result.me ≡ (hand (me.old.me.0.parts / 2) me.old.me.0.jobs 0 [], []) }
{
    claims.shared.split_seat::<Halves>(me)
}

/// One seat again, which drew what both drew.
pub(crate) fn joined(claims: &Claims, me: &mut Worker, other: Worker)
    requires table { (me.old.table_id ≡ claims.now.shared.table_id) × (other.table_id ≡ claims.now.shared.table_id) × (claims.now.shared.table_id.words ≡ 1) }
    requires may { (0 < me.old.me.0.parts) × (0 < other.me.0.parts) × (me.old.me.1 ≡ []) × (other.me.1 ≡ []) }
    ensures table { me.new.table_id ≡ me.old.table_id }
    ensures both { me.new.me ≡ (with_both me.old.me.0 other.me.0, []) }
{
    claims.shared.join_seat::<Halves>(me, other);
}

/// With every part: the word, below which each number was drawn once, and no other was.
pub(crate) fn known(claims: &Claims, me: &mut Worker) -> u64
    requires table { (me.old.table_id ≡ claims.now.shared.table_id) × (claims.now.shared.table_id.words ≡ 1) }
    requires may { (me.old.me.0.parts ≡ 16) × (me.old.me.1 ≡ []) }
    ensures table { (me.new.table_id ≡ me.old.table_id) × (me.new.me ≡ me.old.me) }
    ensures once { (x : ℕ) → times x me.old.me.0.numbers ≡ once_below x result }
    ensures reached { 0 < me.old.me.0.past → me.old.me.0.jobs < result }
{
    claims.shared.load::<Knows>(me, 0)
}

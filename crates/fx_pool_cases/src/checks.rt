//! What the calls ask of the endpoints, jobs and units that they are given.
ghost use Rattle.std.specs.Prelude.{◌≡◌, ◌<◌, All, IsTrue, true};
ghost use Rattle.fx_outside.specs.Endpoints.{is_sendable};

use fx_algebra::Unit;
use fx_outside::Endpoint;
use fx_pool::Job;

pub(crate) fn are_sendable(endpoints: &[Endpoint]) -> bool
    ensures { IsTrue result → All (λ e. is_sendable e ≡ true) endpoints.now }
{
    endpoints.iter().all(can_be_sent_to)
}

fn can_be_sent_to(endpoint: &Endpoint) -> bool
    ensures { IsTrue result → is_sendable endpoint.now ≡ true }
{
    endpoint.is_sendable()
}

pub(crate) fn are_within(jobs: &[Job], count: usize) -> bool
    ensures { IsTrue result → All (λ j. j.at < count) jobs.now }
{
    jobs.iter().all(|job| is_below(job, count))
}

fn is_below(job: &Job, count: usize) -> bool
    ensures { IsTrue result → job.now.at < count }
{
    (job.at as usize) < count
}

pub(crate) fn have_members(units: &[Unit], count: usize) -> bool
    ensures { IsTrue result → All (λ u. All (λ at. at < count) u.members) units.now }
{
    units.iter().all(|unit| has_members(unit, count))
}

fn has_members(unit: &Unit, count: usize) -> bool
    ensures { IsTrue result → All (λ at. at < count) unit.now.members }
{
    unit.members
        .as_slice()
        .iter()
        .all(|member| (*member as usize) < count)
}

//! What is asked for an occurrence of SERVICE, and what its reply says (SPARQL 1.1 Federated Query, section 4).
ghost use Rattle.std.specs.Prelude.{◌≡◌, ◌++◌, IfOk, OnOk, false, string_bytes};
ghost use Rattle.fx_algebra.specs.Printed as printed;
ghost use Rattle.fx_algebra.specs.Scopes as scopes;
ghost use Rattle.fx_algebra.specs.declared.queries.Form.TheVariants as form;
ghost use Rattle.fx_traffic.specs.Traffic as traffic;
ghost use Rattle.fx_services.specs.ServicesAsked as spec;

use fx_algebra::{Group, Solution, scope};
use fx_pool::{BadReply, Job, JobReply, RequestText, Work};
use fx_print::groups::push_group;
use fx_print::words::{push_fixed, push_variables, without_the_first_space};
use fx_terms::{Items, Memory, Name};
use std::alloc::Global;

/// Why an occurrence of SERVICE has no rows. An endpoint stands under its number in the registry.
#[derive(Drop)]
pub enum ServiceError {
    /// No endpoint of the registry has its IRI as its address.
    Unknown,
    /// The exchange failed, and was counted as a fault at the address.
    Failed { at: u32 },
    /// The reply is bad.
    Bad { at: u32, bad: BadReply },
    /// The text has more than 67,108,864 bytes, so many, and wasn't sent.
    TooLong { at: u32, length: u64 },
}

/// The job that asks the endpoint of this number for a group: its text is a SELECT with the group's scope as its columns.
pub(crate) fn job_of(alloc: Global, at: u32, group: &Group) -> Result<Job, Memory>
    ensures { IfOk result (λ job. job ≡ spec.job_of at group.now) }
{
    let columns = scope(alloc, group)?;
    let text = text_of(alloc, group, columns.as_slice())?;
    Ok(Job {
        at,
        work: Work::Service {
            text: RequestText::of(text),
            columns: Items::from_vec(columns),
        },
    })
}

// The text that asks for a group, with its scope as columns.
fn text_of(alloc: Global, group: &Group, columns: &[Name]) -> Result<String, Memory>
    requires { columns.now ≡ scopes.scope group.now }
    ensures { IfOk result (λ text. string_bytes text ≡ printed.printed_query (traffic.service_query group.now)) }
{
    let mut text = String::new(alloc);
    push_head(&mut text, columns)?;
    push_group(&mut text, group)?;
    without_the_first_space(alloc, text)
}

#[tactic(auto, unfolding(fx_algebra::specs::Printed::form_words))]
fn push_head(text: &mut String, columns: &[Name]) -> Result<(), Memory>
    ensures { OnOk result (string_bytes text.new ≡ string_bytes text.old ++ printed.spaced (printed.form_words (form.Select false columns.now))) }
{
    push_fixed(text, "SELECT")?;
    push_columns(text, columns)?;
    push_fixed(text, "WHERE")
}

// The columns, or a star where there are none.
fn push_columns(text: &mut String, columns: &[Name]) -> Result<(), Memory>
    ensures { OnOk result (string_bytes text.new ≡ string_bytes text.old ++ printed.spaced (printed.column_words columns.now)) }
{
    if columns.is_empty() {
        return push_fixed(text, "*");
    }
    push_variables(text, columns)
}

/// The rows that a reply tells, or why there are none.
pub(crate) fn rows_in(at: u32, reply: JobReply) -> Result<Items<Solution>, ServiceError>
    requires { spec.IsForService reply }
    ensures { spec.IsRowsOf at reply result }
{
    match reply {
        JobReply::Table(rows) => Ok(rows),
        JobReply::Failed => Err(ServiceError::Failed { at }),
        JobReply::Bad(bad) => Err(ServiceError::Bad { at, bad }),
        JobReply::TooLong { length } => Err(ServiceError::TooLong { at, length }),
        JobReply::Truth(_) => unreachable!(),
        JobReply::Found(_) => unreachable!(),
    }
}

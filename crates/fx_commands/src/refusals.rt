//! How a run ends that the members refuse: its status, and its line on standard error.
ghost use Rattle.std.specs.Prelude.{◌≡◌, ◌++◌, Some, codes, IsTrue};
ghost use Rattle.std.specs.Fmt.{decimal};
ghost use Rattle.fx_outcomes.specs.FaultTexts.{fault_text, with_code};
ghost use Rattle.fx_local.specs.Lines.{Gains, line};
ghost use Rattle.fx_commands.specs.FedRefusals.{fed_line, fed_status_of};
ghost use Rattle.fx_lines.specs.MemberLines.{bad_reply, request_too_long};

use fx_engine::{FedError, fault_code, fault_words};
use fx_local::Status;
use fx_local::reports::{write_line, write_named, write_number, write_unknown_service};
use fx_outside::{Sink, write_all};
use fx_pool::ReplyFault;

/// How a run ends that the members refuse.
pub fn fed_status(error: &FedError) -> Status
    ensures { result ≡ fed_status_of error.now }
{
    match error {
        FedError::Member { name: _ } => Status::EndpointFault,
        FedError::Service { iri: _ } => Status::EndpointFault,
        FedError::BadReply { name: _, bad: _ } => Status::BadReply,
        FedError::RequestTooLong { name: _, length: _ } => Status::RequestTooLong,
        FedError::UnknownService { iri: _ } => Status::UnknownService,
        FedError::Memory => Status::NoMemory,
    }
}

/// Writes the line of a refusal by the members.
pub fn write_fed_error<E: Sink>(err: &mut E, error: &FedError)
    ensures { IsTrue E.tells_held → Gains (E.held err.old) (E.held err.new) (E.write_faults err.old) (E.write_faults err.new) (fed_line error.now) }
{
    match error {
        FedError::Member { name } => write_named(err, b"member ", name.as_str(), b" failed\n"),
        FedError::Service { iri } => write_named(err, b"service ", iri.text(), b" failed\n"),
        FedError::BadReply { name, bad } => write_bad_reply(err, name.as_str(), bad.why),
        FedError::RequestTooLong { name, length } => {
            write_request_too_long(err, name.as_str(), *length)
        }
        FedError::UnknownService { iri } => write_unknown_service(err, iri),
        FedError::Memory => write_line(err, b"no memory\n"),
    }
}

fn write_bad_reply<E: Sink>(err: &mut E, name: &str, why: ReplyFault)
    ensures { IsTrue E.tells_held → Gains (E.held err.old) (E.held err.new) (E.write_faults err.old) (E.write_faults err.new) (bad_reply name.now why) }
{
    if let Ok(()) = write_all(err, b"bad reply from ") {
        write_name_and_fault(err, name, why);
    }
}

fn write_name_and_fault<E: Sink>(err: &mut E, name: &str, why: ReplyFault)
    ensures { IsTrue E.tells_held → Gains (E.held err.old) (E.held err.new) (E.write_faults err.old) (E.write_faults err.new) (name.now ++ (codes ": " ++ line (fault_text why))) }
{
    if let Ok(()) = write_all(err, name.as_bytes()) {
        write_fault(err, why);
    }
}

fn write_fault<E: Sink>(err: &mut E, why: ReplyFault)
    ensures { IsTrue E.tells_held → Gains (E.held err.old) (E.held err.new) (E.write_faults err.old) (E.write_faults err.new) (codes ": " ++ line (fault_text why)) }
{
    match fault_code(why) {
        None => write_named(err, b": ", fault_words(why), b"\n"),
        Some(code) => write_words_and_code(err, fault_words(why), code),
    }
}

fn write_words_and_code<E: Sink>(err: &mut E, words: &str, code: u16)
    ensures { IsTrue E.tells_held → Gains (E.held err.old) (E.held err.new) (E.write_faults err.old) (E.write_faults err.new) (codes ": " ++ line (with_code words.now (Some code))) }
{
    if let Ok(()) = write_all(err, b": ") {
        write_words_before_code(err, words, code);
    }
}

fn write_words_before_code<E: Sink>(err: &mut E, words: &str, code: u16)
    ensures { IsTrue E.tells_held → Gains (E.held err.old) (E.held err.new) (E.write_faults err.old) (E.write_faults err.new) (words.now ++ (codes " " ++ line (decimal code))) }
{
    if let Ok(()) = write_all(err, words.as_bytes()) {
        write_number(err, b" ", code as u64, b"\n");
    }
}

fn write_request_too_long<E: Sink>(err: &mut E, name: &str, length: u64)
    ensures { IsTrue E.tells_held → Gains (E.held err.old) (E.held err.new) (E.write_faults err.old) (E.write_faults err.new) (request_too_long name.now length) }
{
    if let Ok(()) = write_all(err, b"request for ") {
        write_name_and_length(err, name, length);
    }
}

fn write_name_and_length<E: Sink>(err: &mut E, name: &str, length: u64)
    ensures { IsTrue E.tells_held → Gains (E.held err.old) (E.held err.new) (E.write_faults err.old) (E.write_faults err.new) (name.now ++ (codes " has " ++ (decimal length ++ line (codes " bytes")))) }
{
    if let Ok(()) = write_all(err, name.as_bytes()) {
        write_number(err, b" has ", length, b" bytes\n");
    }
}

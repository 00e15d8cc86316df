//! A results document, and the lines behind it.
ghost use Rattle.std.specs.Prelude.{◌≡◌, ◌++◌, IsTrue, List, ℕ};
ghost use Rattle.fx_local.specs.Lines.{Gains};
ghost use Rattle.fx_local.specs.LocalSteps.{IsDocumentWritten, IsLineReported};
ghost use Rattle.fx_local.specs.Sinks.{IsCutShort, sink_written};

use crate::statuses::Status;
use fx_outside::{Sink, write_all};

/// What a command writes where nothing is refused.
#[derive(Drop)]
pub struct Report {
    /// The results document, for standard output.
    pub document: Vec<u8>,
    /// The lines behind it, for standard error: one for each SERVICE SILENT that had no answer.
    pub lines: Vec<u8>,
}

/// Writes a document on `out`, and then the lines behind it on `err`.
pub fn write_report<O: Sink, E: Sink>(report: &Report, out: &mut O, err: &mut E) -> Status
    ensures reported { (text : List ℕ) × IsLineReported report.now.lines.items result text × (IsTrue E.tells_held → Gains (E.held err.old) (E.held err.new) (E.write_faults err.old) (E.write_faults err.new) text) }
    ensures written { IsTrue O.tells_held → IsDocumentWritten report.now.document.items result (O.held out.old) (O.held out.new) }
    ensures write_fault { result ≡ Status.WriteFault → IsCutShort (λ text. text ≡ report.now.document.items) (sink_written O.tells_held O.held O.write_faults out.old out.new) (sink_written E.tells_held E.held E.write_faults err.old err.new) }
    ensures unfailed { ¬ (result ≡ Status.WriteFault) → O.write_faults out.new ≡ O.write_faults out.old }
    ensures unfailed_lines { result ≡ Status.Done → E.write_faults err.new ≡ E.write_faults err.old }
    ensures lines { result ≡ Status.Done → IsTrue E.tells_held → E.held err.new ≡ E.held err.old ++ report.now.lines.items }
{
    if write_all(out, report.document.as_slice()).is_err() {
        return Status::WriteFault;
    }
    match write_all(err, report.lines.as_slice()) {
        Ok(()) => Status::Done,
        Err(_) => Status::WriteFault,
    }
}

//! The program over files, wires and streams that are handed in.
ghost use Rattle.std.specs.Prelude.{◌≡◌, ◌≤◌, ◌<◌, IsTrue, List, ℕ, length, map, string_bytes, take};
ghost use Rattle.fx_traffic.specs.Gains.{AreAfter};
ghost use Rattle.fx_words.specs.Commands.{asked, asked_in};
ghost use Rattle.fx_program.specs.Completeness.{Completes};
ghost use Rattle.fx_local.specs.Counts.{CountsDoor, CountsOnly};
ghost use Rattle.fx_local.specs.Files.{file_read};
ghost use Rattle.fx_program.specs.Headline.{Headline};
ghost use Rattle.fx_program.specs.Runs.{CountsEndpoints, FailsToWrite, HasReport, OnWires, Writes, WritesGiven, wires_used};
ghost use Rattle.fx_local.specs.Sinks.{sink_written};

use fx_commands::{run_explain, run_generate, run_query};
use fx_local::{Refusal, Status, run_local, run_member, write_refusal, write_usage};
use fx_outside::{Door, Files, Sink};
use fx_serve::{Serve, run_serve};
use fx_wire::Wire;
use fx_words::{Command, CommandError, read_command};
use std::alloc::Global;
use std::sync::Wait;
use std::thread::Threads;

// How many wires `explain` uses at most.
const EXPLAIN_WIRES: usize = 4;

/// Runs the command that the words behind the program's name are, over these files, the first of these wires, and this door: `query` uses as many
/// wires as the words say, 16 at most, as does `serve`, and `explain` 4; `generate` makes its own, and uses none of these. It
/// writes the command's document or text on `out`, and the line of any other end on `err`, as well as the lines of each connection that it
/// serves.
///
/// The document or text and the lines behind it are whole before the first byte is written, so that on every status but `Done` and
/// `WriteFault` nothing is written on `out`, and with `WriteFault` a front of it. A fault of `err` while a refusal's
/// line is written leaves the status as it is; one while the lines behind a document are written is a `WriteFault`.
pub fn run<R: Threads + Wait + Sync, F: Files, W: Wire + Send, D: Door, O: Sink, E: Sink>(
    rt: &R,
    alloc: Global,
    words: &[String],
    files: &mut F,
    wires: &mut [W],
    door: &mut D,
    out: &mut O,
    err: &mut E,
) -> Status
    requires { 0 < length wires.old }

    // The theorem: where the wires tell the graphs of the members, `Done` says that `out` gained exactly the document of the query's answer over the union of
    // the graphs of those that aren't left out, where these and the SERVICEs that are down are exactly those of the lines that `err` gained, or the text of its plan; and an endpoint is named as failed
    // only where its count of faults rose. `local` so over the file's graph. `generate` writes its four lines.
    ensures headline { OnWires W.tells_log W.counts_alone W.seen (wires_used (asked_in words.now)) wires.old wires.new (λ seen. Headline (file_read (F.seen files.old) (F.seen files.new)) seen (asked_in words.now) result (sink_written O.tells_held O.held O.write_faults out.old out.new) (sink_written E.tells_held E.held E.write_faults err.old err.new)) }

    // Where besides each SERVICE is such as the command can take, nothing fails and nothing is too long, the run is done, unless memory ran out. Faults at a member that the
    // registry marks as optional don't count, unless a SERVICE without SILENT names its address.
    ensures completes { OnWires W.tells_log W.counts_alone W.seen (wires_used (asked_in words.now)) wires.old wires.new (λ seen. Completes (file_read (F.seen files.old) (F.seen files.new)) seen (D.seen door.old) (D.seen door.new) (asked_in words.now) result (sink_written O.tells_held O.held O.write_faults out.old out.new) (sink_written E.tells_held E.held E.write_faults err.old err.new)) }

    // Each status comes with its cause alone, and with its line on `err`, behind the lines of the connections that `member` or `serve` served, which are
    // whole. Where members were asked it also says what for. Where the wires tell the graphs of the members, and the door what comes in and goes out, each connection of `serve` has the reply that
    // is due over the union of the graphs of the members that its lines don't name.
    ensures reported { OnWires W.tells_log W.counts_alone W.seen (wires_used (asked_in words.now)) wires.old wires.new (λ seen. HasReport (file_read (F.seen files.old) (F.seen files.new)) seen (D.seen door.old) (D.seen door.new) (asked_in words.now) result (sink_written E.tells_held E.held E.write_faults err.old err.new)) }

    // With `Done`, `out` gained exactly the document of the query's answer, over the file's graph or over the union of the
    // members' graphs, or the text of the query's plan over these graphs; with `WriteFault` a front of it; else nothing.
    ensures written { IsTrue O.tells_held → Writes (file_read (F.seen files.old) (F.seen files.new)) (map W.seen (take (wires_used (asked (map (λ w. string_bytes w) words.now))) wires.old)) (asked (map (λ w. string_bytes w) words.now)) result (O.held out.old) (O.held out.new) }
    ensures wired { AreAfter (map W.seen wires.old) (map W.seen wires.new) }

    // What `query` and `explain` write is what the members gave in this very run, also where no graph is told.
    ensures given { OnWires W.tells_log W.counts_alone W.seen (wires_used (asked_in words.now)) wires.old wires.new (λ seen. WritesGiven (file_read (F.seen files.old) (F.seen files.new)) seen (asked_in words.now) result (sink_written O.tells_held O.held O.write_faults out.old out.new) (sink_written E.tells_held E.held E.write_faults err.old err.new)) }

    // `WriteFault` comes where a write of the document or the text failed, and then nothing was written on `err`, or where it is whole and one
    // of the lines behind it failed.
    ensures write_fault { result ≡ Status.WriteFault → FailsToWrite (file_read (F.seen files.old) (F.seen files.new)) (map W.seen (take (wires_used (asked (map (λ w. string_bytes w) words.now))) wires.old)) (asked (map (λ w. string_bytes w) words.now)) (sink_written O.tells_held O.held O.write_faults out.old out.new) (sink_written E.tells_held E.held E.write_faults err.old err.new) }
    ensures unfailed { ¬ (result ≡ Status.WriteFault) → O.write_faults out.new ≡ O.write_faults out.old }
    ensures unfailed_lines { result ≡ Status.Done → E.write_faults err.new ≡ E.write_faults err.old }

    // No fault of files and of the door is hidden: each count is as it was, or the status names the one fault, which is counted once. Where
    // wires count each address alone, `Done` says that none was counted there, but for `query` and `explain` one for each line that says that the wire failed, and
    // perhaps more where a member is left out. `serve` may count some in each connection.
    ensures read_faults { CountsOnly Status.ReadFault result (F.seen files.old).faults (F.seen files.new).faults }
    ensures endpoint_faults { IsTrue W.counts_alone → result ≡ Status.Done → CountsEndpoints (file_read (F.seen files.old) (F.seen files.new)) (asked (map (λ w. string_bytes w) words.now)) (map W.seen wires.old) (map W.seen wires.new) (sink_written E.tells_held E.held E.write_faults err.old err.new) }
    ensures door_faults { CountsDoor result (D.seen door.old).faults (D.seen door.new).faults }
    ensures kept { (name : List ℕ) → (F.seen files.old).faults name ≤ (F.seen files.new).faults name }
    ensures same { (name : List ℕ) → (F.seen files.new).content name ≡ (F.seen files.old).content name }
{
    match read_command(alloc, words) {
        Err(CommandError::Usage) => {
            write_usage(err);
            Status::Usage
        }
        Err(CommandError::Memory) => {
            write_refusal(err, &Refusal::Memory, "", "");
            Status::NoMemory
        }
        Ok(Command::Local { graph, query }) => run_local(alloc, files, graph, query, out, err),
        Ok(
            Command::Query {
                registry,
                query,
                workers,
                block,
            },
        ) => {
            let (used, _) = wires.split_at_mut((workers as usize).min(wires.len()));
            run_query(rt, alloc, files, used, registry, query, block, out, err)
        }
        Ok(Command::Explain { registry, query }) => {
            let (used, _) = wires.split_at_mut(EXPLAIN_WIRES.min(wires.len()));
            run_explain(rt, alloc, files, used, registry, query, out, err)
        }
        Ok(
            Command::Member {
                graph,
                address,
                count,
            },
        ) => run_member(alloc, files, door, graph, address, count, err),
        Ok(
            Command::Serve {
                registry,
                address,
                count,
                workers,
                block,
            },
        ) => {
            let (used, _) = wires.split_at_mut((workers as usize).min(wires.len()));
            let asked = Serve {
                registry,
                address,
                count,
                block,
            };
            run_serve(rt, alloc, files, used, door, asked, err)
        }
        Ok(Command::Generate { size }) => run_generate(rt, alloc, size, out, err),
    }
}

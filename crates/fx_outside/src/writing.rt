//! Writing all of a text.
ghost use Rattle.std.specs.Prelude.{◌≡◌, ◌≤◌, ◌++◌, IsTrue, IsErr, OnOk, OnErr};
ghost use Rattle.fx_outside.specs.Faults.{HasRisen, IsOneMore};
ghost use Rattle.fx_outside.specs.Streams.{AppendsFront, AppendsPart};

use crate::streams::{Sink, WriteFailed};

/// Writes all the bytes, in as many writes as it takes.
///
/// `WriteFailed` comes at the first write that fails, and no later one is tried: the sink then holds what it held and
/// a front of the bytes, which is shorter than they are. The count of write faults rose by one in this call, or stands at the end of `u64`.
pub fn write_all<K: Sink>(sink: &mut K, bytes: &[u8]) -> Result<(), WriteFailed>
    ensures whole { IsTrue K.tells_held → OnOk result (K.held sink.new ≡ K.held sink.old ++ bytes.now) }
    ensures front { IsTrue K.tells_held → AppendsFront (K.held sink.old) (K.held sink.new) bytes.now }
    ensures part { IsTrue K.tells_held → OnErr result (AppendsPart (K.held sink.old) (K.held sink.new) bytes.now) }
    ensures kept { K.write_faults sink.old ≤ K.write_faults sink.new }
    ensures failed { IsErr result → HasRisen (K.write_faults sink.old) (K.write_faults sink.new) }
    ensures counted { IsErr result → IsOneMore (K.write_faults sink.old) (K.write_faults sink.new) }
    ensures faultless { OnOk result (K.write_faults sink.new ≡ K.write_faults sink.old) }
    ensures left { IsTrue K.tells_left → K.left sink.new ≡ K.left sink.old }
    ensures reads { K.read_faults sink.new ≡ K.read_faults sink.old }
{
    let mut done = 0;
    while done < bytes.len() {
        done += sink.write(&bytes[done..])?;
    }
    Ok(())
}

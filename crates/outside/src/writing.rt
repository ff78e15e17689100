ghost use Rattle.std.specs.Prelude.{OnOk};
ghost use Rattle.outside.specs.Faults.{HasCause};
ghost use Rattle.outside.specs.Streams.{Takes, TakesPrefix};

use crate::{Failed, Sink};

/// Writes all of the bytes, by as many calls as the sink needs. Where it failed a prefix of them may be written.
pub fn write_all<K: Sink>(sink: &mut K, bytes: &[u8]) -> Result<(), Failed>
    ensures whole { OnOk result (Takes (K.taken sink.old) (K.taken sink.new) bytes.now) }
    ensures part { TakesPrefix (K.taken sink.old) (K.taken sink.new) bytes.now }
    ensures cause { HasCause (K.faults sink.old) (K.faults sink.new) result }
{
    let mut written = 0;
    while written < bytes.len() {
        written += sink.write(&bytes[written..])?;
    }
    Ok(())
}

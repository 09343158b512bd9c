// Writing all of some bytes.
ghost use Rattle.std.specs.Prelude.{◌≤◌, OnOk, OnErr};
ghost use Rattle.vault_traits.specs.Told.{Takes};
ghost use Rattle.vault_traits.specs.CutOff.{IsCutOff};

use crate::{Failed, Sink};

/// Writes all the bytes, unless the sink fails: then it has taken a front of them, and not all. It takes no memory.
pub fn write_all<K: Sink>(bytes: &[u8], sink: &mut K) -> Result<(), Failed>
    ensures ok { OnOk result (Takes (K.told sink.old).taken (K.told sink.new).taken bytes.now) }
    ensures err { OnErr result (IsCutOff bytes.now (K.told sink.old) (K.told sink.new)) }
    ensures later { (K.told sink.old).faults ≤ (K.told sink.new).faults }
{
    let mut done = 0;
    while done < bytes.len() {
        match sink.write(&bytes[done..]) {
            Ok(n) => done += n,
            Err(Failed) => return Err(Failed),
        }
    }
    Ok(())
}

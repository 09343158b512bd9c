// Bytes of payloads, written to a sink.
ghost use Rattle.std.specs.Prelude.{◌≡◌, ◌≤◌, ◌+◌, take, drop, length, flat_map, All, OnOk, OnErr};
ghost use Rattle.vault_types.specs.Bytes.{spot_bytes};
ghost use Rattle.vault_traits.specs.CutOff.{IsCutOff};
ghost use Rattle.restore_assembler.specs.Writing.{IsWrittenWithSum};

use fingerprint_stage::RunningSum;
use vault_traits::{Failed, Sink, write_all};
use vault_types::Spot;

// Writes a piece, which the sum, if there is one, then has too.
fn write_piece<K: Sink>(
    piece: &[u8],
    sum: &mut Option<RunningSum>,
    sink: &mut K,
) -> Result<(), Failed>
    ensures ok { OnOk result
        (IsWrittenWithSum piece.now (K.told sink.old) (K.told sink.new) sum.old sum.new) }
    ensures err { OnErr result (IsCutOff piece.now (K.told sink.old) (K.told sink.new)) }
{
    write_all(piece, sink)?;
    if let Some(running) = sum {
        running.add(piece);
    }
    Ok(())
}

// Writes the bytes of some spots of a payload. Spots that lie one behind another are one piece.
pub fn write_run<K: Sink>(
    payload: &[u8],
    run: &[Spot],
    sum: &mut Option<RunningSum>,
    sink: &mut K,
) -> Result<(), Failed>
    requires { All (λ spot. spot.at + spot.len ≤ length payload.now) run.now }
    ensures ok { OnOk result
        (IsWrittenWithSum (flat_map (spot_bytes (λ _. payload.now)) run.now) (K.told sink.old)
        (K.told sink.new)
        sum.old sum.new) }
    ensures err { OnErr result
        (IsCutOff (flat_map (spot_bytes (λ _. payload.now)) run.now) (K.told sink.old) (K.told sink.new)) }
{
    let mut start = 0;
    let mut end = 0;
    for spot in run {
        let at = spot.at as usize;
        if at != end {
            write_piece(&payload[start..end], sum, sink)?;
            start = at;
        }
        end = at + spot.len as usize;
    }
    write_piece(&payload[start..end], sum, sink)
}

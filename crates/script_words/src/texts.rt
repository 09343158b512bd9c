//! The report lines of answers and faults.
ghost use Rattle.std.specs.Prelude.{◌≡◌, ◌<◌, ◌≤◌, ◌++◌, length, take, codes, decimal};
ghost use Rattle.vault_types.specs.Texts as spec;

use crate::buffer::Buffer;
use vault_types::{Answer, Fault, Kind};

/// Puts the report line of an answer, with its line feed, at the front of `out`, and answers its length in bytes. That is
/// 0 for `Shown`, which has no line. It takes no memory.
pub fn answer_text(answer: &Answer, out: &mut [u8; 256]) -> usize
    ensures text { take result out.new ≡ spec.answer_text answer.now }
    ensures fits { result ≤ 256 }
{
    let mut line = Buffer::new();
    match *answer {
        Answer::Stored {
            set,
            version,
            chunks,
            bytes,
            containers,
            written,
            sparse,
        } => {
            line.version_between(b"backup ", set, version, b": ");
            stored_words(chunks, bytes, containers, written, sparse, &mut line);
        }
        Answer::Restored {
            set,
            version,
            bytes,
            loads,
        } => {
            line.version_between(b"restore ", set, version, b": ");
            line.count(bytes, b" bytes, ");
            line.count(loads, b" loads");
        }
        Answer::Removed {
            set,
            through,
            floor,
            reclaimed,
        } => {
            line.version_between(b"delete ", set, through, b": floor ");
            line.count(u64::from(floor), b", ");
            line.count(reclaimed, b" containers reclaimed");
        }
        Answer::Shown { .. } => return 0,
        Answer::Migrated { recipes } => {
            line.text(b"migrate: ");
            line.count(recipes, b" recipes");
        }
        Answer::Scrubbed {
            containers,
            damaged,
        } => {
            line.text(b"scrub: ");
            line.count(containers, b" containers, ");
            line.count(damaged, b" damaged");
        }
        Answer::Refused(fault) => return fault_text(&fault, out),
    }
    line.finish(out)
}

// What follows the version in the line of a backup.
fn stored_words(
    chunks: u32,
    bytes: u64,
    containers: u64,
    written: u64,
    sparse: u32,
    line: &mut Buffer,
)
    requires { length line.old ≤ 80 }
    ensures text { line.new
        ≡ line.old ++ decimal chunks ++ codes " chunks, " ++ decimal bytes ++ codes " bytes, "
        ++ decimal containers ++ codes " new containers, " ++ decimal written ++ codes " bytes written, "
        ++ decimal sparse ++ codes " sparse" }
    ensures fits { length line.new < 256 }
{
    line.count(u64::from(chunks), b" chunks, ");
    line.count(bytes, b" bytes, ");
    line.count(containers, b" new containers, ");
    line.count(written, b" bytes written, ");
    line.count(u64::from(sparse), b" sparse");
}

/// Puts the report line of a fault, with its line feed, at the front of `out`, and answers its length in bytes. It takes
/// no memory.
pub fn fault_text(fault: &Fault, out: &mut [u8; 256]) -> usize
    ensures text { take result out.new ≡ spec.fault_line fault.now }
    ensures fits { result ≤ 256 }
{
    let mut line = Buffer::new();
    fault_words(fault, &mut line);
    line.finish(out)
}

// The line of a fault, without its line feed.
fn fault_words(fault: &Fault, line: &mut Buffer)
    requires { length line.old ≡ 0 }
    ensures text { line.new ≡ spec.fault_text fault.now }
    ensures fits { length line.new < 100 }
{
    match *fault {
        Fault::Usage => line.text(b"error 2: usage"),
        Fault::NotKept { .. } => line.text(b"error 3: version not kept"),
        Fault::ReadFault(_) => line.text(b"error 4: source failed"),
        Fault::WriteFault(_) => line.text(b"error 5: sink failed"),
        Fault::StoreFault(_) => line.text(b"error 6: store failed"),
        Fault::Damaged { kind, number, .. } => damaged_words(kind, number, line),
        Fault::Memory => line.text(b"error 8: out of memory"),
        Fault::TooMany { .. } => line.text(b"error 9: too many chunks"),
        Fault::LastVersion { .. } => line.text(b"error 10: latest version"),
        Fault::PlaceFault(_) => line.text(b"error 11: place failed"),
        Fault::BadLine(number) => {
            line.text(b"error 12: bad script, line ");
            line.decimal(u64::from(number));
        }
        Fault::ScriptTooLong { .. } => line.text(b"error 12: script too long"),
        Fault::Full { .. } => line.text(b"error 14: store full"),
    }
}

fn damaged_words(kind: Kind, number: u64, line: &mut Buffer)
    requires { length line.old ≡ 0 }
    ensures text { line.new
        ≡ codes "error 7: store damaged, " ++ spec.kind_text kind ++ codes " " ++ decimal number }
    ensures fits { length line.new < 100 }
{
    line.text(b"error 7: store damaged, ");
    match kind {
        Kind::Table => line.text(b"table"),
        Kind::Payload => line.text(b"payload"),
        Kind::Recipe => line.text(b"recipe"),
        Kind::Floor => line.text(b"floor"),
    }
    line.text(b" ");
    line.decimal(number);
}

//! The lines that are printed of a restored version and of a damaged container.
ghost use Rattle.std.specs.Prelude.{◌≡◌, ◌<◌, ◌≤◌, ◌+◌, ◌++◌, List, ℕ, length, take, codes, decimal};
ghost use Rattle.sha1.specs.Sha1.{sha1};
ghost use Rattle.hex.specs.Hex.{encode_lower};
ghost use Rattle.vault_types.specs.Texts as spec;

use crate::buffer::Buffer;
use vault_types::{Fp, Id, Version};

/// What is wrong with a container: its payload is not there, has another length, or another sum than its table says,
/// or the chunk of a row has another fingerprint.
#[derive(Clone, Copy, Debug, PartialEq, Eq)]
pub enum Damage {
    Absent,
    Length,
    Sum,
    Chunk(u32),
}

/// Puts the line of a version that was restored, with its line feed, at the front of `out`, and answers its length in
/// bytes. `sum` is the SHA-1 of the version's bytes. It takes no memory.
pub fn output_text(version: Version, sum: &Fp, out: &mut [u8; 256]) -> usize
    ensures text { take result out.new
        ≡ spec.text_line (codes "output " ++ decimal version ++ codes " " ++ encode_lower sum.now.0) }
    ensures of_bytes { (bytes : List ℕ) → sum.now.0 ≡ sha1 bytes
        → take result out.new ≡ spec.output_text version bytes }
    ensures fits { result ≤ 256 }
{
    let mut line = Buffer::new();
    line.text(b"output ");
    line.count(u64::from(version), b" ");
    line.fingerprint(sum);
    line.finish(out)
}

impl Damage {
    ghost use Rattle.script_words.specs.Damages.{damage_word};

    /// Puts the line of a damaged container, with its line feed, at the front of `out`, and answers its length in bytes.
    /// It takes no memory.
    pub fn text(self, id: Id, out: &mut [u8; 256]) -> usize
        ensures text { take result out.new ≡ spec.damage_text id (damage_word self) }
        ensures fits { result ≤ 256 }
    {
        let mut line = Buffer::new();
        line.text(b"container ");
        line.count(id, b" ");
        self.put_word(&mut line);
        line.finish(out)
    }

    fn put_word(self, line: &mut Buffer)
        requires { length line.old ≤ 100 }
        ensures text { line.new ≡ line.old ++ damage_word self }
        ensures len { length line.new ≤ length line.old + 30 }
    {
        match self {
            Damage::Absent => line.text(b"absent"),
            Damage::Length => line.text(b"length"),
            Damage::Sum => line.text(b"sum"),
            Damage::Chunk(row) => {
                line.text(b"chunk ");
                line.decimal(u64::from(row));
            }
        }
    }
}

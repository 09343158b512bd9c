//! A line of text in a fixed buffer.
ghost use Rattle.std.specs.Prelude.{◌≡◌, ◌+◌, ◌<◌, ◌≤◌, ◌++◌, ◌∷◌, [], List, ℕ, length, take, decimal};
ghost use Rattle.hex.specs.Hex.{encode_lower};
ghost use Rattle.vault_types.specs.Texts.{version_text, text_line};

use itoa::Buffer as Digits;
use std::marker::Model;
use vault_types::{Fp, Set, Version};

/// Text of at most 256 bytes, which contracts see as its bytes.
#[derive(Drop)]
pub(crate) struct Buffer {
    bytes: [u8; 256],
    len: usize,
}

impl Model for Buffer {
    ghost Value = { List ℕ };

    ghost view = { λ s. take s.len s.bytes };

    ghost invariant = { λ s. s.len ≤ 256 };
}

impl Buffer {
    /// No text.
    pub(crate) fn new() -> Self
        ensures { result ≡ [] }
    {
        Buffer {
            bytes: [0; 256],
            len: 0,
        }
    }

    /// Adds a text.
    pub(crate) fn text(&mut self, text: &[u8])
        requires { length self.old + length text.now ≤ 256 }
        ensures text { self.new ≡ self.old ++ text.now }
        ensures len { length self.new ≡ length self.old + length text.now }
    {
        let end = self.len + text.len();
        self.bytes[self.len..end].copy_from_slice(text);
        self.len = end;
    }

    /// Adds a number in decimal digits.
    pub(crate) fn decimal(&mut self, number: u64)
        requires { length self.old + 20 ≤ 256 }
        ensures text { self.new ≡ self.old ++ decimal number }
        ensures len { length self.new ≤ length self.old + 20 }
    {
        let mut digits = Digits::new();
        self.text(digits.format(number).as_bytes());
    }

    /// Adds a number and what follows it.
    pub(crate) fn count(&mut self, number: u64, unit: &[u8])
        requires { length self.old + length unit.now + 20 ≤ 256 }
        ensures text { self.new ≡ self.old ++ decimal number ++ unit.now }
        ensures len { length self.new ≤ length self.old + length unit.now + 20 }
    {
        self.decimal(number);
        self.text(unit);
    }

    /// Adds a version's number, behind its set's where that is not 0.
    pub(crate) fn version(&mut self, set: Set, version: Version)
        requires { length self.old + 41 ≤ 256 }
        ensures text { self.new ≡ self.old ++ version_text set version }
        ensures len { length self.new ≤ length self.old + 41 }
    {
        if set != 0 {
            self.count(u64::from(set), b"/");
        }
        self.decimal(u64::from(version));
    }

    /// Adds a version's number between two texts.
    pub(crate) fn version_between(
        &mut self,
        before: &[u8],
        set: Set,
        version: Version,
        after: &[u8],
    )
        requires { length self.old + length before.now + length after.now + 41 ≤ 256 }
        ensures text { self.new ≡ self.old ++ before.now ++ version_text set version ++ after.now }
        ensures len { length self.new ≤ length self.old + length before.now + length after.now + 41 }
    {
        self.text(before);
        self.version(set, version);
        self.text(after);
    }

    /// Adds a fingerprint in small hexadecimal digits.
    pub(crate) fn fingerprint(&mut self, fp: &Fp)
        requires { length self.old + 40 ≤ 256 }
        ensures text { self.new ≡ self.old ++ encode_lower fp.now.0 }
        ensures len { length self.new ≡ length self.old + 40 }
    {
        let mut digits = [0; 40];
        let _ = hex::encode_to_slice(fp.0.as_slice(), &mut digits);
        self.text(&digits);
    }

    /// The text.
    pub(crate) fn as_slice(&self) -> &[u8]
        ensures { result.now ≡ self.now }
    {
        &self.bytes[..self.len]
    }

    /// Puts the text with a line feed at the front of `out`, and answers its length.
    pub(crate) fn finish(mut self, out: &mut [u8; 256]) -> usize
        requires { length self < 256 }
        ensures text { take result out.new ≡ text_line self }
        ensures len { result ≡ length self + 1 }
    {
        self.text(b"\n");
        *out = self.bytes;
        self.len
    }
}

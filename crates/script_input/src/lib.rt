//! The script of a batch: it is read from a source to its end, within the limit, and its lines are those of the grammar.
#![tactic(auto)]

ghost use Rattle.std.specs.Prelude.{◌≡◌, ◌≤◌, ◌<◌, ◌+◌, ◌++◌, ℕ, List, length, IfOk, IfErr, OnOk};
ghost use Rattle.std.specs.List.{AllByRecursion};
ghost use Rattle.store_model.specs.Calls.{GivesAtMost};
ghost use Rattle.store_model.specs.Outputs.{AreApartLines};
ghost use Rattle.store_model.specs.Early.{IsScript, IsScriptFault};
ghost use Rattle.store_model.specs.Ranges.{AreLimits, IsLineInRange};
ghost use Rattle.vault_traits.specs.Told.{IsAtEnd};
ghost use Rattle.script_input.specs.Reading.{IsTextFault, HasGiven};

use script_words::read_script;
use std::alloc::Global;
use vault_traits::{Failed, Source};
use vault_types::{Fault, Limits, Line};

// Takes the next piece, of at most so many bytes, to the end of the text, and says how many there were. None is the end.
fn read_piece<I: Source>(input: &mut I, most: usize, text: &mut Vec<u8>) -> Result<usize, Fault>
    requires { 1 ≤ most }
    ensures ok { IfOk result (λ n. (piece : List ℕ) × (text.new.items ≡ text.old.items ++ piece)
        × (length piece ≡ n) × (n ≤ most) × HasGiven (I.told input.old) (I.told input.new) piece
        × (n ≡ 0 → IsAtEnd (I.told input.new))) }
    ensures err { (limit : ℕ) → IfErr result (IsTextFault limit (I.told input.old) (I.told input.new)) }
    ensures bound { GivesAtMost most (I.told input.old) (I.told input.new) }
{
    let mut piece = [0; 4096];
    let len = most.min(4096);
    match input.read(&mut piece[..len]) {
        Err(Failed) => Err(Fault::ReadFault(input.faults())),
        Ok(n) => {
            text.extend_from_slice(&piece[..n])?;
            Ok(n)
        }
    }
}

// Reads to the end, or to one byte past the limit.
fn read_text<I: Source>(alloc: Global, input: &mut I, limit: u32) -> Result<Vec<u8>, Fault>
    requires { limit ≤ 1048576 }
    ensures ok { IfOk result (λ text. HasGiven (I.told input.old) (I.told input.new) text.items
        × (length text.items ≤ limit) × IsAtEnd (I.told input.new)) }
    ensures err { IfErr result (IsTextFault limit (I.told input.old) (I.told input.new)) }
    ensures bound { GivesAtMost (limit + 1) (I.told input.old) (I.told input.new) }
{
    let mut text = Vec::new(alloc);
    let most = limit as usize;
    for _turn in 0..=most {
        let room = most + 1 - text.len();
        if read_piece(input, room, &mut text)? == 0 {
            return Ok(text);
        }
        if text.len() > most {
            return Err(Fault::ScriptTooLong { limit });
        }
    }
    // each piece has a byte
    unreachable!()
}

/// Reads the lines of a script from the source, to its end or to one byte past the limit. `ReadFault`, where the source
/// failed; `ScriptTooLong`; `BadLine`, with the number of the first line that is none; `Memory`. Whatever comes of it, no
/// byte more is read.
pub fn read_lines<I: Source>(
    alloc: Global,
    input: &mut I,
    limits: &Limits,
) -> Result<Vec<Line>, Fault>
    requires { AreLimits limits.now }
    ensures script { IfOk result (λ lines. IsScript limits.now (I.told input.old) lines.items) }
    ensures ranges { IfOk result (λ lines. AllByRecursion IsLineInRange lines.items) }
    ensures apart { IfOk result (λ lines. AreApartLines lines.items) }
    ensures read { OnOk result (IsAtEnd (I.told input.new)) }
    ensures bound { GivesAtMost (limits.now.script + 1) (I.told input.old) (I.told input.new) }
    ensures err { IfErr result (IsScriptFault limits.now (I.told input.old) (I.told input.new)) }
{
    let text = read_text(alloc, input, limits.script)?;
    read_script(alloc, text.as_slice())
}

//! The lines of a script.
ghost use Rattle.std.specs.Prelude.{◌≡◌, ◌<◌, ◌^◌, ◌⊎◌, ℕ, Ok, Err, length, IfOk, IfErr};
ghost use Rattle.vault_types.specs.declared.Fault.TheVariants as fault;
ghost use Rattle.vault_types.specs.Words as spec;

use crate::names::Names;
use crate::reader::next_place;
use crate::script_line::line_of;
use std::alloc::Global;
use vault_types::{Fault, Line};

/// The lines of a script of less than 2^32 bytes. `BadLine` is answered exactly where a line is none, or uses a name
/// that an earlier line forbids, with the number of the first such line, counted from 1; and `Memory` where there is
/// none.
pub fn read_script(alloc: Global, text: &[u8]) -> Result<Vec<Line>, Fault>
    requires { length text.now < 2 ^ 32 }
    ensures ok { IfOk result (λ lines. spec.script_of text.now ≡ Ok lines.items) }
    ensures err { IfErr result (λ e. (e ≡ fault.Memory)
        ⊎ ((n : ℕ) × (e ≡ fault.BadLine n) × (spec.script_of text.now ≡ Err n))) }
{
    let mut lines = Vec::new(alloc);
    let mut names = Names::new(alloc);
    let mut number = 0;
    let mut start = 0;
    while start < text.len() {
        number += 1;
        let end = next_place(b'\n', text, start);
        let line = match line_of(alloc, &text[start..end])? {
            Some(line) => line,
            None => return Err(Fault::BadLine(number)),
        };
        if !names.may_follow(&line) {
            return Err(Fault::BadLine(number));
        }
        names.add(alloc, &line)?;
        lines.push(line)?;
        start = end + 1;
    }
    Ok(lines)
}

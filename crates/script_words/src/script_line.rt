//! A line of a script.
ghost use Rattle.std.specs.Prelude.{◌≡◌, ◌&&◌, true, false, map, IfOk, MatchOption};
ghost use Rattle.std.specs.Str.{bytes_eq};
ghost use Rattle.vault_types.specs.Words as spec;

use crate::config::{config_in, job_agrees};
use crate::kinds::{backup_line_kinds, delete_line_kinds, restore_line_kinds};
use crate::names::name_of;
use crate::reader::{line_settings, next_place};
use crate::settings::{are_allowed, number_in, set_in};
use crate::values::{is_value, number};
use std::alloc::Global;
use vault_types::text::Text;
use vault_types::{Line, Memory, Version};

/// The line that a text is, if it is one.
pub(crate) fn line_of(alloc: Global, text: &[u8]) -> Result<Option<Line>, Memory>
    ensures { IfOk result (λ line. line ≡ spec.line_of text.now) }
{
    let words = split_at_byte(alloc, b' ', text)?;
    line_with(alloc, &words)
}

// The parts of a text between the places of a byte.
fn split_at_byte<'a>(alloc: Global, byte: u8, text: &'a [u8]) -> Result<Vec<&'a [u8]>, Memory>
    ensures { IfOk result (λ parts. map (λ p. p.now) parts.items ≡ spec.split_at_byte byte text.now) }
{
    let mut parts = Vec::new(alloc);
    let mut start = 0;
    loop {
        let end = next_place(byte, text, start);
        parts.push(&text[start..end])?;
        if end == text.len() {
            return Ok(parts);
        }
        start = end + 1;
    }
}

fn line_with(alloc: Global, words: &[&[u8]]) -> Result<Option<Line>, Memory>
    ensures { IfOk result (λ line. line ≡ spec.line_with (map (λ w. w.now) words.now)) }
{
    if words.len() < 2 {
        return Ok(None);
    }
    if is_text(words[0], b"backup") {
        return backup_line(alloc, words[1], &words[2..]);
    }
    if is_text(words[0], b"delete") {
        return delete_line(alloc, words[1], &words[2..]);
    }
    if words.len() < 3 {
        return Ok(None);
    }
    if is_text(words[0], b"restore") {
        return restore_line(alloc, words[1], words[2], &words[3..]);
    }
    Ok(None)
}

fn is_text(word: &[u8], text: &[u8]) -> bool
    ensures { result ≡ bytes_eq word.now text.now }
{
    word == text
}

fn backup_line(alloc: Global, name: &[u8], words: &[&[u8]]) -> Result<Option<Line>, Memory>
    ensures { IfOk result (λ line. line ≡ spec.backup_line name.now (map (λ w. w.now) words.now)) }
{
    let name = match name_of(name) {
        Some(name) => name,
        None => return Ok(None),
    };
    let settings = match line_settings(alloc, words)? {
        Some(settings) => settings,
        None => return Ok(None),
    };
    if !are_allowed(&settings, &backup_line_kinds()) || !job_agrees(&settings) {
        return Ok(None);
    }
    Ok(Some(Line::Backup {
        set: set_in(&settings),
        name: Text::from_string(String::from_str(alloc, name)?),
        config: config_in(&settings),
    }))
}

fn restore_line(
    alloc: Global,
    version: &[u8],
    name: &[u8],
    words: &[&[u8]],
) -> Result<Option<Line>, Memory>
    ensures { IfOk result
        (λ line. line ≡ spec.restore_line version.now name.now (map (λ w. w.now) words.now)) }
{
    let name = match name_of(name) {
        Some(name) => name,
        None => return Ok(None),
    };
    let version = match version_of(version) {
        Some(version) => version,
        None => return Ok(None),
    };
    let settings = match line_settings(alloc, words)? {
        Some(settings) => settings,
        None => return Ok(None),
    };
    if !are_allowed(&settings, &restore_line_kinds()) {
        return Ok(None);
    }
    Ok(Some(Line::Restore {
        set: set_in(&settings),
        version,
        name: Text::from_string(String::from_str(alloc, name)?),
        cache: number_in(&settings, b"cache", 16),
    }))
}

fn delete_line(alloc: Global, through: &[u8], words: &[&[u8]]) -> Result<Option<Line>, Memory>
    ensures { IfOk result (λ line. line ≡ spec.delete_line through.now (map (λ w. w.now) words.now)) }
{
    let through = match version_of(through) {
        Some(through) => through,
        None => return Ok(None),
    };
    let settings = match line_settings(alloc, words)? {
        Some(settings) => settings,
        None => return Ok(None),
    };
    if !are_allowed(&settings, &delete_line_kinds()) {
        return Ok(None);
    }
    Ok(Some(Line::Delete {
        set: set_in(&settings),
        through,
    }))
}

// The number of a version that a text is, if it is one.
fn version_of(text: &[u8]) -> Option<Version>
    ensures { MatchOption result
        ((spec.is_value text.now && spec.is_allowed (spec.Number 0 4294967295) text.now) ≡ false)
        (λ n. ((spec.is_value text.now && spec.is_allowed (spec.Number 0 4294967295) text.now) ≡ true)
        × (n ≡ spec.value_of_digits text.now)) }
{
    if !is_value(text) {
        return None;
    }
    match number(text) {
        Some(n) if n <= u64::from(u32::MAX) => Some(n as u32),
        _ => None,
    }
}

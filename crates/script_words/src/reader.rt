//! How settings are spelled.
ghost use Rattle.std.specs.Prelude.{◌≡◌, ◌<◌, ◌≤◌, ◌+◌, ◌^◌, ℕ, None, Some, List, map, drop, length, option_map, nat_eq, string_bytes, MatchOption, IfOk};
ghost use Rattle.std.specs.List.{list_any, position_or_len};
ghost use Rattle.vault_types.specs.Words as spec;
ghost use Rattle.script_words.specs.Settings.{pairs, pair_of, FirstSetting};

use crate::settings::Setting;
use std::alloc::Global;
use vault_types::Memory;

/// The settings that words spell, each as `--name value` or as `--name=value`, if they do.
pub(crate) fn settings_of<'a>(
    alloc: Global,
    words: &'a [String],
) -> Result<Option<Vec<Setting<'a>>>, Memory>
    ensures { IfOk result
        (λ o. option_map (λ v. pairs v.items) o ≡ spec.settings_of (map string_bytes words.now)) }
{
    let mut settings = Vec::new(alloc);
    let mut i = 0;
    while i < words.len() {
        match first_setting(&words[i..]) {
            Some((setting, count)) => {
                settings.push(setting)?;
                i += count;
            }
            None => return Ok(None),
        }
    }
    Ok(Some(settings))
}

// The first setting of some words, and how many words it is, if it is one.
fn first_setting(words: &[String]) -> Option<(Setting<'_>, usize)>
    requires { 0 < length words.now }
    ensures { FirstSetting (map string_bytes words.now) (option_map (λ r. (pair_of r.0, r.1)) result) }
{
    let word = words[0].as_bytes();
    if words.len() == 1 || is_joint(word) {
        let setting = split_setting(undashed(word)?)?;
        Some((setting, 1))
    } else {
        let name = undashed(word)?;
        let value = words[1].as_bytes();
        Some((Setting { name, value }, 2))
    }
}

fn is_joint(word: &[u8]) -> bool
    ensures { result ≡ spec.is_joint word.now }
{
    word.iter().any(|b| *b == b'=')
}

// A word that begins with two dashes, without them.
fn undashed(word: &[u8]) -> Option<&[u8]>
    ensures { option_map (λ w. w.now) result ≡ spec.undashed word.now }
{
    if word.starts_with(b"--") {
        Some(&word[2..])
    } else {
        None
    }
}

/// Where a byte first stands in a text, or the text's length.
pub(crate) fn position_of(byte: u8, text: &[u8]) -> usize
    ensures place { result ≡ position_or_len (nat_eq byte) text.now }
    ensures within { result ≤ length text.now }
{
    for (i, other) in text.iter().enumerate() {
        if byte == *other {
            return i;
        }
    }
    text.len()
}

/// Where a byte first stands in a text from a place on, or the text's length.
pub(crate) fn next_place(byte: u8, text: &[u8], start: usize) -> usize
    requires { start ≤ length text.now }
    ensures place { result ≡ start + position_or_len (nat_eq byte) (drop start text.now) }
    ensures within { result ≤ length text.now }
{
    start + position_of(byte, &text[start..])
}

/// The setting that a word `name=value` spells, if it is one.
pub(crate) fn split_setting(word: &[u8]) -> Option<Setting<'_>>
    ensures { option_map pair_of result ≡ spec.split_setting word.now }
{
    let i = position_of(b'=', word);
    if i < word.len() {
        Some(Setting {
            name: &word[..i],
            value: &word[i + 1..],
        })
    } else {
        None
    }
}

/// The settings that the words of a line spell, each as `name=value`, if they do.
pub(crate) fn line_settings<'a>(
    alloc: Global,
    words: &[&'a [u8]],
) -> Result<Option<Vec<Setting<'a>>>, Memory>
    ensures { IfOk result
        (λ o. option_map (λ v. pairs v.items) o ≡ spec.line_settings (map (λ w. w.now) words.now)) }
{
    let mut settings = Vec::new(alloc);
    for word in words {
        match split_setting(word) {
            Some(setting) => settings.push(setting)?,
            None => return Ok(None),
        }
    }
    Ok(Some(settings))
}

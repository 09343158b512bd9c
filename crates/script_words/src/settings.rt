//! Settings: names with values.
ghost use Rattle.std.specs.Prelude.{◌≡◌, ℕ, true, false, codes, option_map};
ghost use Rattle.std.specs.List.{list_all, list_any};
ghost use Rattle.std.specs.Str.{bytes_eq};
ghost use Rattle.vault_types.specs.Words as spec;
ghost use Rattle.script_words.specs.Settings.{pairs, kinds_of, kinds_fit, NumbersFit};

use crate::kinds::{SettingKind, may_be};
use crate::values::{is_value, number};

/// A setting: a name and its value.
#[derive(Clone, Copy)]
pub(crate) struct Setting<'a> {
    pub(crate) name: &'a [u8],
    pub(crate) value: &'a [u8],
}

/// The value of a name in the settings.
pub(crate) fn value_in<'a>(settings: &[Setting<'a>], name: &[u8]) -> Option<&'a [u8]>
    ensures { option_map (λ v. v.now) result ≡ spec.value_in (pairs settings.now) name.now }
{
    for setting in settings {
        if name == setting.name {
            return Some(setting.value);
        }
    }
    None
}

fn has_name(settings: &[Setting], name: &[u8]) -> bool
    ensures { result ≡ list_any (λ q. bytes_eq name.now q.0) (pairs settings.now) }
{
    for setting in settings {
        if name == setting.name {
            return true;
        }
    }
    false
}

/// Whether no name comes twice.
pub(crate) fn names_differ(settings: &[Setting]) -> bool
    ensures { result ≡ spec.names_differ (pairs settings.now) }
{
    for (i, setting) in settings.iter().enumerate() {
        if has_name(&settings[i + 1..], setting.name) {
            return false;
        }
    }
    true
}

/// Whether each name comes once, is in the table, and has a value that it may have.
pub(crate) fn are_allowed(settings: &[Setting], kinds: &[SettingKind]) -> bool
    requires { kinds_fit (kinds_of kinds.now) ≡ true }
    ensures allowed { result ≡ spec.are_allowed (kinds_of kinds.now) (pairs settings.now) }
    ensures fit { result ≡ true → NumbersFit (pairs settings.now) }
{
    names_differ(settings) && each_is_allowed(settings, kinds)
}

fn each_is_allowed(settings: &[Setting], kinds: &[SettingKind]) -> bool
    ensures { result ≡ list_all (spec.allows (kinds_of kinds.now)) (pairs settings.now) }
{
    for setting in settings {
        if !is_value(setting.value) || !may_be(kinds, setting.name, setting.value) {
            return false;
        }
    }
    true
}

/// Whether a name has a value in the settings.
pub(crate) fn has_value(settings: &[Setting], name: &[u8]) -> bool
    ensures { result ≡ spec.has_value (pairs settings.now) name.now }
{
    value_in(settings, name).is_some()
}

/// Whether a name has this value in the settings.
pub(crate) fn is_word(settings: &[Setting], name: &[u8], text: &[u8]) -> bool
    ensures { result ≡ spec.is_word (pairs settings.now) name.now text.now }
{
    match value_in(settings, name) {
        Some(value) => text == value,
        None => false,
    }
}

/// The number that a name has in the settings, if it has one.
pub(crate) fn number_if_given(settings: &[Setting], name: &[u8]) -> Option<u32>
    requires fit { NumbersFit (pairs settings.now) }
    requires not_seed { bytes_eq name.now (codes "seed") ≡ false }
    ensures { result ≡ spec.number_if_given (pairs settings.now) name.now }
{
    match number(value_in(settings, name)?) {
        Some(n) => Some(n as u32),
        None => None,
    }
}

/// The number that a name has in the settings, or a default where it has none.
pub(crate) fn number_in(settings: &[Setting], name: &[u8], default: u32) -> u32
    requires fit { NumbersFit (pairs settings.now) }
    requires not_seed { bytes_eq name.now (codes "seed") ≡ false }
    ensures { result ≡ spec.number_in (pairs settings.now) name.now default }
{
    match number_if_given(settings, name) {
        Some(n) => n,
        None => default,
    }
}

/// The number of the dataset in the settings, 0 where none is given.
pub(crate) fn set_in(settings: &[Setting]) -> u8
    requires { NumbersFit (pairs settings.now) }
    ensures { result ≡ spec.set_in (pairs settings.now) }
{
    number_in(settings, b"set", 0) as u8
}

/// The seed in the settings, 0 where none is given.
pub(crate) fn seed_in(settings: &[Setting]) -> u64
    requires { NumbersFit (pairs settings.now) }
    ensures { result ≡ spec.number_in (pairs settings.now) (codes "seed") 0 }
{
    match value_in(settings, b"seed") {
        Some(text) => match number(text) {
            Some(n) => n,
            None => 0,
        },
        None => 0,
    }
}

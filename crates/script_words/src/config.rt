//! The settings of a backup.
ghost use Rattle.std.specs.Prelude.{◌≡◌};
ghost use Rattle.vault_types.specs.Words as spec;
ghost use Rattle.script_words.specs.Settings.{pairs, NumbersFit};

use crate::settings::{Setting, is_word, number_in};
use vault_types::{Cutting, JobConfig, Rewrite};

/// How the settings have a stream cut.
fn cutting_in(settings: &[Setting]) -> Cutting
    requires { NumbersFit (pairs settings.now) }
    ensures { result ≡ spec.cutting_in (pairs settings.now) }
{
    if is_word(settings, b"chunk", b"fixed") {
        Cutting::Fixed {
            size: number_in(settings, b"size", 4_096),
        }
    } else {
        Cutting::Ae {
            window: number_in(settings, b"window", 4_096),
            max: number_in(settings, b"max", 65_536),
        }
    }
}

/// Which duplicates the settings have written again.
fn rewrite_in(settings: &[Setting]) -> Rewrite
    ensures { result ≡ spec.rewrite_in (pairs settings.now) }
{
    if is_word(settings, b"rewrite", b"none") {
        Rewrite::Off
    } else if is_word(settings, b"rewrite", b"cap") {
        Rewrite::Cap
    } else if is_word(settings, b"rewrite", b"both") {
        Rewrite::Both
    } else {
        Rewrite::Har
    }
}

/// The settings of a backup, with the defaults where they are silent.
pub(crate) fn config_in(settings: &[Setting]) -> JobConfig
    requires { NumbersFit (pairs settings.now) }
    ensures { result ≡ spec.config_in (pairs settings.now) }
{
    JobConfig {
        cutting: cutting_in(settings),
        rewrite: rewrite_in(settings),
        segment: number_in(settings, b"segment", 4_194_304),
        cap: number_in(settings, b"cap", 16),
        threshold: number_in(settings, b"threshold", 50),
        limit: number_in(settings, b"limit", 5),
        container: number_in(settings, b"container", 4_194_304),
    }
}

/// Whether a container holds the greatest chunk, and the greatest chunk is above the window.
pub(crate) fn job_agrees(settings: &[Setting]) -> bool
    requires { NumbersFit (pairs settings.now) }
    ensures { result ≡ spec.job_agrees (pairs settings.now) }
{
    let container = number_in(settings, b"container", 4_194_304);
    match cutting_in(settings) {
        Cutting::Fixed { size } => size <= container,
        Cutting::Ae { window, max } => window < max && max <= container,
    }
}

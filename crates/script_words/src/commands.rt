//! The words of a command.
ghost use Rattle.std.specs.Prelude.{◌≡◌, ◌⊎◌, ◌&&◌, ◌++◌, ◌∷◌, [], None, Some, codes, map, string_bytes, IfOk, IfErr};
ghost use Rattle.vault_types.specs.declared.Fault.TheVariants as fault;
ghost use Rattle.vault_types.specs.declared.Command.TheVariants as command;
ghost use Rattle.vault_types.specs.Words as spec;
ghost use Rattle.script_words.specs.Settings.{pairs, NumbersFit};

use crate::config::{config_in, job_agrees};
use crate::kinds::{
    backup_kinds, batch_kinds, delete_kinds, fill_kinds, restore_kinds, scrub_kinds, version_kinds,
};
use crate::reader::settings_of;
use crate::settings::{
    Setting, are_allowed, has_value, number_if_given, number_in, seed_in, set_in,
};
use std::alloc::Global;
use vault_types::{Command, Fault, Set, Version};

/// The command that the words are. `Usage` is answered exactly where they are none, and `Memory` where there is none.
pub fn read_words(alloc: Global, words: &[String]) -> Result<Command, Fault>
    ensures ok { IfOk result (λ c. spec.command_of (map string_bytes words.now) ≡ Some c) }
    ensures err { IfErr result (λ e. (e ≡ fault.Memory)
        ⊎ ((e ≡ fault.Usage) × (spec.command_of (map string_bytes words.now) ≡ None))) }
{
    if words.is_empty() {
        return Err(Fault::Usage);
    }
    match settings_of(alloc, &words[1..])? {
        Some(settings) => match command_with(words[0].as_str(), &settings) {
            Some(command) => Ok(command),
            None => Err(Fault::Usage),
        },
        None => Err(Fault::Usage),
    }
}

/// The set and the version that the words of a replica name, by the settings `version` and `set`. `Usage` is answered
/// exactly where the words are anything else, and `Memory` where there is none.
pub fn read_replica(alloc: Global, words: &[String]) -> Result<(Set, Version), Fault>
    ensures ok { IfOk result (λ p. spec.replica_of (map string_bytes words.now) ≡ Some p) }
    ensures err { IfErr result (λ e. (e ≡ fault.Memory)
        ⊎ ((e ≡ fault.Usage) × (spec.replica_of (map string_bytes words.now) ≡ None))) }
{
    match settings_of(alloc, words)? {
        Some(settings) => match replica_with(&settings) {
            Some(named) => Ok(named),
            None => Err(Fault::Usage),
        },
        None => Err(Fault::Usage),
    }
}

fn replica_with(settings: &[Setting]) -> Option<(Set, Version)>
    ensures { result ≡ spec.replica_with (pairs settings.now) }
{
    if are_allowed(settings, &version_kinds()) && has_value(settings, b"version") {
        Some((set_in(settings), number_in(settings, b"version", 0)))
    } else {
        None
    }
}

// The command of a name with its settings.
fn command_with(name: &str, settings: &[Setting]) -> Option<Command>
    ensures { result ≡ spec.command_with name.now (pairs settings.now) }
{
    if name == "backup" {
        backup_command(settings)
    } else if name == "restore" {
        restore_command(settings)
    } else if name == "delete" {
        delete_command(settings)
    } else if name == "show" {
        show_command(settings)
    } else if name == "batch" {
        batch_command(settings)
    } else if name == "fill" {
        fill_command(settings)
    } else if name == "migrate" {
        migrate_command(settings)
    } else if name == "scrub" {
        scrub_command(settings)
    } else {
        None
    }
}

fn backup_command(settings: &[Setting]) -> Option<Command>
    ensures { result ≡ spec.checked (spec.set_kind ++ spec.job_kinds ++ spec.queue_kinds ++ spec.sample_kinds)
        (λ s. spec.job_agrees s && spec.sample_agrees s) spec.backup_command (pairs settings.now) }
{
    if are_allowed(settings, &backup_kinds()) && backup_agrees(settings) {
        Some(backup_of(settings))
    } else {
        None
    }
}

fn backup_of(settings: &[Setting]) -> Command
    requires { NumbersFit (pairs settings.now) }
    ensures { result ≡ spec.backup_command (pairs settings.now) }
{
    Command::Backup {
        set: set_in(settings),
        config: config_in(settings),
        queue: number_in(settings, b"queue", 64),
        lanes: number_in(settings, b"lanes", 1),
        sample: sample_in(settings),
    }
}

fn backup_agrees(settings: &[Setting]) -> bool
    requires { NumbersFit (pairs settings.now) }
    ensures { result ≡ (spec.job_agrees (pairs settings.now) && spec.sample_agrees (pairs settings.now)) }
{
    job_agrees(settings) && sample_agrees(settings)
}

// The sampled index is asked for by both of its settings, or by none.
fn sample_agrees(settings: &[Setting]) -> bool
    ensures { result ≡ spec.sample_agrees (pairs settings.now) }
{
    has_value(settings, b"sample") == has_value(settings, b"prefetch")
}

fn sample_in(settings: &[Setting]) -> Option<(u32, u32)>
    requires { NumbersFit (pairs settings.now) }
    ensures { result ≡ spec.sample_in (pairs settings.now) }
{
    Some((
        number_if_given(settings, b"sample")?,
        number_if_given(settings, b"prefetch")?,
    ))
}

fn restore_command(settings: &[Setting]) -> Option<Command>
    ensures { result
        ≡ spec.checked
        (spec.set_kind ++ spec.version_kind (codes "version") ++ spec.cache_kind ++ spec.area_kind)
        (λ s. spec.has_value s (codes "version") && spec.area_agrees s) spec.restore_command
        (pairs settings.now) }
{
    if are_allowed(settings, &restore_kinds())
        && has_value(settings, b"version")
        && area_agrees(settings)
    {
        Some(Command::Restore {
            set: set_in(settings),
            version: number_in(settings, b"version", 0),
            cache: number_in(settings, b"cache", 16),
            area: number_if_given(settings, b"area"),
        })
    } else {
        None
    }
}

// An area takes the place of the cache.
fn area_agrees(settings: &[Setting]) -> bool
    ensures { result ≡ spec.area_agrees (pairs settings.now) }
{
    !(has_value(settings, b"area") && has_value(settings, b"cache"))
}

fn delete_command(settings: &[Setting]) -> Option<Command>
    ensures { result ≡ spec.checked (spec.set_kind ++ spec.version_kind (codes "through"))
        (λ s. spec.has_value s (codes "through")) spec.delete_command (pairs settings.now) }
{
    if are_allowed(settings, &delete_kinds()) && has_value(settings, b"through") {
        Some(Command::Delete {
            set: set_in(settings),
            through: number_in(settings, b"through", 0),
        })
    } else {
        None
    }
}

fn show_command(settings: &[Setting]) -> Option<Command>
    ensures { result ≡ spec.checked (spec.set_kind ++ spec.version_kind (codes "version"))
        (λ s. spec.has_value s (codes "version")) spec.show_command (pairs settings.now) }
{
    if are_allowed(settings, &version_kinds()) && has_value(settings, b"version") {
        Some(Command::Show {
            set: set_in(settings),
            version: number_in(settings, b"version", 0),
        })
    } else {
        None
    }
}

fn batch_command(settings: &[Setting]) -> Option<Command>
    ensures { result
        ≡ spec.checked (spec.queue_kinds ++ spec.workers_kind) spec.always spec.batch_command
        (pairs settings.now) }
{
    if are_allowed(settings, &batch_kinds()) {
        Some(Command::Batch {
            queue: number_in(settings, b"queue", 64),
            lanes: number_in(settings, b"lanes", 1),
            workers: number_in(settings, b"workers", 2),
        })
    } else {
        None
    }
}

fn fill_command(settings: &[Setting]) -> Option<Command>
    ensures { result
        ≡ spec.checked
        ((codes "seed", spec.Number 0 18446744073709551615) ∷ (codes "versions", spec.Number 1 64)
        ∷ spec.queue_kinds
        ++ spec.workers_kind)
        (λ s. spec.has_value s (codes "seed") && spec.has_value s (codes "versions")) spec.fill_command
        (pairs settings.now) }
{
    if are_allowed(settings, &fill_kinds())
        && has_value(settings, b"seed")
        && has_value(settings, b"versions")
    {
        Some(Command::Fill {
            seed: seed_in(settings),
            versions: number_in(settings, b"versions", 1),
            queue: number_in(settings, b"queue", 64),
            lanes: number_in(settings, b"lanes", 1),
            workers: number_in(settings, b"workers", 2),
        })
    } else {
        None
    }
}

fn migrate_command(settings: &[Setting]) -> Option<Command>
    ensures { result ≡ spec.checked [] spec.always (λ s. command.Migrate) (pairs settings.now) }
{
    if are_allowed(settings, &[]) {
        Some(Command::Migrate)
    } else {
        None
    }
}

fn scrub_command(settings: &[Setting]) -> Option<Command>
    ensures { result ≡ spec.checked spec.workers_kind spec.always spec.scrub_command (pairs settings.now) }
{
    if are_allowed(settings, &scrub_kinds()) {
        Some(Command::Scrub {
            workers: number_in(settings, b"workers", 2),
        })
    } else {
        None
    }
}

// Payloads for the restores beside a job.
ghost use Rattle.std.specs.Prelude.{◌≡◌, ◌<◌, List, Option, vec_len, vec_capacity};
ghost use Rattle.vault_types.specs.Tables.{Container};
ghost use Rattle.vault_traits.specs.Told.{Files};
ghost use Rattle.backup_jobs.specs.Going.{Began, IsUnderway};
ghost use Rattle.pipe_backup.specs.Loading.{IsLoaded, moved};
ghost use Rattle.beside_steps.specs.Holding.{Holds};
ghost use Rattle.beside_jobs.specs.Beside.{Reached, RunsThere};

use beside_steps::{Beside, feed_restore};
use keeper_core::Keeper;
use std::alloc::Global;
use std::sync::Wait;
use vault_traits::{Shelf, Sink};
use vault_types::Turn;

/// Gives the restore at this place a turn.
pub(crate) fn feed_at<S: Shelf, O: Sink + Drop, R: Wait>(
    rt: &R,
    alloc: Global,
    keeper: &mut Keeper<S>,
    running: &mut Vec<Beside<S, O>>,
    at: usize,
) -> Turn
    requires here { at < vec_len running.old }
    requires job { (b : Began) × (containers : List Container) × (files : Option Files)
        × IsUnderway b keeper.old containers × Holds b.keeper files running.old.items }
    ensures loaded { IsLoaded keeper.old keeper.new }
    ensures restores { (b : Began) (containers : List Container) (r : Reached)
        → IsUnderway b keeper.old containers → RunsThere r running.old.items b.keeper
        → RunsThere r running.new.items (moved b keeper.new).keeper }
    ensures many { vec_len running.new ≡ vec_len running.old }
    ensures room { vec_capacity running.new ≡ vec_capacity running.old }
{
    feed_restore(rt, alloc, keeper, &mut running[at])
}

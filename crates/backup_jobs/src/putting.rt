// Containers that are put as they come.
ghost use Rattle.std.specs.Prelude.{◌≡◌, ◌<◌, ◌≤◌, ◌+◌, List, ℕ, OnOk, IfErr, map, length, [], ◌∷◌, ◌++◌};
ghost use Rattle.vault_types.specs.Tables.{Container};
ghost use Rattle.backup_jobs.specs.Going.{Began, AreNamed, AreNumbered, IsUnderway, IsPutStop, len_of};

use container_store::Sealed;
use keeper_core::Keeper;
use std::alloc::Global;
use vault_traits::Shelf;
use vault_types::Fault;

// How many bytes a container's payload has.
fn payload_len(sealed: &Sealed) -> u32
    ensures { result ≡ len_of sealed.now }
{
    // its table's rules keep it within 32 bits
    let _table = sealed.table();
    sealed.payload().len() as u32
}

/// Puts the next container of a job, and notes how many bytes it has. `Memory`, `StoreFault`.
pub fn put_one<S: Shelf>(
    alloc: Global,
    keeper: &mut Keeper<S>,
    sealed: Sealed,
    lens: &mut Vec<u32>,
) -> Result<(), Fault>
    requires { (b : Began) × (before : List Container) × IsUnderway b keeper.old before
        × (sealed.table.id ≡ b.first + length before) × (length before < b.limits.chunks) }
    ensures ok { (b : Began) (before : List Container) → sealed.table.id ≡ b.first + length before
        → length before < b.limits.chunks
        → IsUnderway b keeper.old before → OnOk result (IsUnderway b keeper.new (before ++ sealed ∷ [])) }
    ensures err { (b : Began) (before : List Container) → sealed.table.id ≡ b.first + length before
        → length before < b.limits.chunks
        → IsUnderway b keeper.old before → IfErr result (IsPutStop b keeper.new) }
    ensures waits { OnOk result (keeper.new.pending ≡ keeper.old.pending) }
    ensures named { OnOk result (AreNamed keeper.old keeper.new (sealed ∷ [])) }
    ensures lens { OnOk result (lens.new.items ≡ lens.old.items ++ len_of sealed ∷ []) }
{
    lens.push(payload_len(&sealed))?;
    keeper.put(alloc, sealed)
}

/// Puts containers of a job, and notes how many bytes each has. `Memory`, `StoreFault`.
pub fn put_all<S: Shelf>(
    alloc: Global,
    keeper: &mut Keeper<S>,
    sealed: Vec<Sealed>,
    lens: &mut Vec<u32>,
) -> Result<(), Fault>
    requires { (b : Began) × (before : List Container) × IsUnderway b keeper.old before
        × AreNumbered b.first (before ++ sealed.items) × (length (before ++ sealed.items) ≤ b.limits.chunks) }
    ensures ok { (b : Began) (before : List Container) → AreNumbered b.first (before ++ sealed.items)
        → length (before ++ sealed.items) ≤ b.limits.chunks
        → IsUnderway b keeper.old before → OnOk result (IsUnderway b keeper.new (before ++ sealed.items)) }
    ensures err { (b : Began) (before : List Container) → AreNumbered b.first (before ++ sealed.items)
        → length (before ++ sealed.items) ≤ b.limits.chunks
        → IsUnderway b keeper.old before → IfErr result (IsPutStop b keeper.new) }
    ensures waits { OnOk result (keeper.new.pending ≡ keeper.old.pending) }
    ensures named { OnOk result (AreNamed keeper.old keeper.new sealed.items) }
    ensures lens { OnOk result (lens.new.items ≡ lens.old.items ++ map len_of sealed.items) }
{
    for one in sealed {
        put_one(alloc, keeper, one, lens)?;
    }
    Ok(())
}

// The stream is read piece by piece, and each goes through the pass.
ghost use Rattle.std.specs.Prelude.{◌≡◌, ◌<◌, ◌≤◌, ◌*◌, List, ℕ, OnOk, IfOk, IfErr, map, length, [], ◌∷◌, ◌++◌};
ghost use Rattle.backup_pass.specs.Passing.{index_in};
ghost use Rattle.vault_traits.specs.Told.{IsAtEnd};
ghost use Rattle.backup_jobs.specs.Going.{Began, IsStopped};
ghost use Rattle.serial_backup.specs.Streaming.{IsFed, IsHalted, IsTooMany, IsGoing, HasPassedPiece};

use backup_jobs::put_all;
use backup_pass::Pass;
use keeper_core::Keeper;
use std::alloc::Global;
use vault_traits::{Failed, Shelf, Source};
use vault_types::Fault;

// Feeds a piece, and puts the containers that it fills.
fn feed<S: Shelf>(
    alloc: Global,
    keeper: &mut Keeper<S>,
    pass: &mut Pass,
    lens: &mut Vec<u32>,
    piece: &[u8],
) -> Result<(), Fault>
    requires { (b : Began) × (read : List ℕ) × IsFed b keeper.old pass.old lens.old.items read }
    ensures index { index_in pass.new ≡ index_in pass.old }
    ensures ok { (b : Began) (read : List ℕ) → IsFed b keeper.old pass.old lens.old.items read
        → OnOk result (IsFed b keeper.new pass.new lens.new.items (read ++ piece.now)) }
    ensures err { (b : Began) (read : List ℕ) → IsFed b keeper.old pass.old lens.old.items read
        → IfErr result (IsHalted b keeper.new (IsTooMany b (read ++ piece.now))) }
{
    let mut full = Vec::new(alloc);
    pass.feed(alloc, piece, &mut full)?;
    put_all(alloc, keeper, full, lens)
}

// Reads a piece, which has room for 1 to 65,536 bytes, and feeds it. None is the end.
fn advance<S: Shelf, I: Source>(
    alloc: Global,
    keeper: &mut Keeper<S>,
    source: &mut I,
    pass: &mut Pass,
    lens: &mut Vec<u32>,
    piece: &mut [u8],
) -> Result<usize, Fault>
    requires low { 0 < length piece.old }
    requires high { length piece.old ≤ 65536 }
    requires going { (b : Began) × (read : List ℕ)
        × IsGoing b keeper.old (I.told source.old) pass.old lens.old.items read }
    ensures room { length piece.new ≡ length piece.old }
    ensures fits { IfOk result (λ n. n ≤ length piece.old) }
    ensures index { index_in pass.new ≡ index_in pass.old }
    ensures ok { (b : Began) (read : List ℕ)
        → IsGoing b keeper.old (I.told source.old) pass.old lens.old.items read
        → length read ≤ b.limits.chunks * 65536
        → IfOk result (HasPassedPiece b keeper.new (I.told source.new) pass.new lens.new.items read) }
    ensures err { (b : Began) (read : List ℕ)
        → IsGoing b keeper.old (I.told source.old) pass.old lens.old.items read
        → length read ≤ b.limits.chunks * 65536
        → IfErr result (IsStopped b keeper.new (I.told source.new)) }
{
    let n = match source.read(piece) {
        Ok(n) => n,
        Err(Failed) => return Err(Fault::ReadFault(source.faults())),
    };
    feed(alloc, keeper, pass, lens, &piece[..n])?;
    Ok(n)
}

// Reads to the end, or until there are more bytes than the limit of chunks can have.
pub(crate) fn read_all<S: Shelf, I: Source>(
    alloc: Global,
    keeper: &mut Keeper<S>,
    source: &mut I,
    pass: &mut Pass,
    lens: &mut Vec<u32>,
) -> Result<(), Fault>
    requires { (b : Began) × IsGoing b keeper.old (I.told source.old) pass.old lens.old.items [] }
    ensures index { index_in pass.new ≡ index_in pass.old }
    ensures ok { (b : Began) → IsGoing b keeper.old (I.told source.old) pass.old lens.old.items []
        → OnOk result ((read : List ℕ) × IsGoing b keeper.new (I.told source.new) pass.new lens.new.items read
        × IsAtEnd (I.told source.new)) }
    ensures err { (b : Began) → IsGoing b keeper.old (I.told source.old) pass.old lens.old.items []
        → IfErr result (IsStopped b keeper.new (I.told source.new)) }
{
    let mut room = Vec::with_capacity(alloc, 65_536)?;
    room.resize(65_536, 0)?;
    let piece = room.as_mut_slice();
    let limit = pass.limit();
    let most = u64::from(limit) * 65_536;
    let mut count = 0;
    while count <= most {
        let n = advance(alloc, keeper, source, pass, lens, piece)?;
        if n == 0 {
            return Ok(());
        }
        count += n as u64;
    }
    Err(Fault::TooMany { limit })
}

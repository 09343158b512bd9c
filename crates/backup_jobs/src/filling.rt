// Decided chunks on their way into containers.
ghost use Rattle.std.specs.Prelude.{◌≡◌, ◌<◌, List, ℕ, length, [], ◌∷◌, ◌++◌, IfOk, option_to_list};
ghost use Rattle.vault_types.specs.declared.How.{How};
ghost use Rattle.vault_types.specs.Names.{NamedChunk};
ghost use Rattle.vault_types.specs.Stages.{decided_parts};
ghost use Rattle.vault_types.specs.Tables.{Container};
ghost use Rattle.fp_index.specs.Index.{found_in};
ghost use Rattle.keeper_catalog.specs.View.{View as Keeping};
ghost use Rattle.backup_jobs.specs.Going.{Began, HasFilledParts, HasPut, HasPutAll, AreOfJob, part_of, rules_of, chunks_of};

use crate::closing::Rest;
use container_fill::{Filled, Filler, Unsealed};
use rewrite_stage::Decided;
use std::alloc::Global;
use vault_types::Memory;

/// Takes the next decided chunk, and gives out the container that is full, which is to be sealed and put next. Used by
/// threads. The only error is `Memory`, after which the filler is only dropped.
pub fn take_part(
    alloc: Global,
    filler: &mut Filler,
    decided: Decided,
) -> Result<Option<Unsealed>, Memory>
    ensures { (b : Began) (gone : List Container) (parts : List (NamedChunk × How))
        → HasFilledParts b filler.old gone parts → length parts < b.limits.chunks
        → IfOk result (λ given. HasFilledParts b filler.new (gone ++ option_to_list given)
        (parts ++ part_of decided ∷ [])) }
{
    filler.push(alloc, decided)
}

/// Gives out the container that is still held, and the rows: those of the bytes whose decided chunks the filler took. Used
/// by threads. No memory.
pub fn finish_parts(filler: Filler) -> (Option<Unsealed>, Rest)
    ensures given { (b : Began) (gone : List Container) (parts : List (NamedChunk × How))
        → HasFilledParts b filler gone parts → AreOfJob b (gone ++ option_to_list result.0) }

    // Where all containers are put, the job has put all of the bytes'.
    ensures made { (b : Began) (gone : List Container) (parts : List (NamedChunk × How)) (read : List ℕ)
        → HasFilledParts b filler gone parts
        → parts ≡ decided_parts (found_in b.index) (rules_of b) (chunks_of b.config read)
        → (now : Keeping) (lens : List ℕ) → HasPut b now lens (gone ++ option_to_list result.0)
        → HasPutAll b now result.1 lens read }
{
    let Filled {
        last,
        rows,
        next,
        containers,
        written,
    } = filler.finish();
    let rest = Rest {
        rows,
        next,
        containers,
        written,
    };
    (last, rest)
}

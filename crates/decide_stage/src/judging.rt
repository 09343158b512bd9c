// What one item comes to.
ghost use Rattle.std.specs.Prelude.{◌≡◌, ◌≤◌, ℕ, List, [], ◌∷◌, ◌++◌, length, Some, None, IsSome, ◌⊎◌};
ghost use Rattle.vault_types.specs.declared.How.{How as Hows};
ghost use Rattle.vault_types.specs.Names.{NamedChunk, named_chunk};
ghost use Rattle.vault_types.specs.declared.Fault.{Fault as Faults};
ghost use Rattle.vault_types.specs.Decide.{Rules};
ghost use Rattle.vault_types.specs.Stages.{IsFront, decided_parts};
ghost use Rattle.stage_flows.specs.Runs.{memory};
ghost use Rattle.stage_rules.specs.Chunking.{IsOwnFault};
ghost use Rattle.stage_rules.specs.Deciding.{IsDeciding};
ghost use Rattle.decide_stage.specs.Deciding.{ShortAt};
ghost use Rattle.segment_gather.specs.Segmented.{parts_of};
ghost use Rattle.segment_gather.specs.Gathering.{HasGathered, HasDecidedAll, index_of, answers_of};

use fingerprint_stage::Chunk;
use rewrite_stage::Decided;
use segment_gather::Gatherer;
use stage_flows::Last;
use std::alloc::Global;
use vault_types::{Fault, Memory};

// What a stage has to give: decided chunks, and the last item behind them, if it comes, which may
// be a fault of the stage's own.
#[derive(Drop)]
pub(crate) struct Given {
    pub(crate) parts: Vec<Decided>,
    pub(crate) last: Option<Last>,
    pub(crate) own: Option<Fault>,
}

// A want of memory, in place of the rest.
fn broken(alloc: Global) -> Given
    ensures { (result.parts.items ≡ []) × (result.last ≡ memory) × (result.own ≡ Some Fault.Memory) }
{
    Given {
        parts: Vec::new(alloc),
        last: Some(Last::Failed(Fault::Memory)),
        own: Some(Fault::Memory),
    }
}

// What the next chunk comes to.
pub(crate) fn take_chunk(
    alloc: Global,
    gatherer: &mut Gatherer,
    count: &mut u32,
    limit: u32,
    chunk: Chunk,
) -> Given
    requires { count.old ≤ limit }
    ensures index { index_of gatherer.new ≡ index_of gatherer.old }
    ensures goes { (r : Rules) (chunks : List NamedChunk) (gone : List (NamedChunk × Hows))
        → HasGathered gatherer.old r chunks gone → count.old ≡ length chunks
        → result.last ≡ None
        → HasGathered gatherer.new r (chunks ++ named_chunk chunk ∷ []) (gone ++ parts_of result.parts.items) × (count.new ≡ length (chunks ++ named_chunk chunk ∷ [])) × (count.new ≤ limit) }
    ensures front { (r : Rules) (chunks : List NamedChunk) (gone : List (NamedChunk × Hows))
        → HasGathered gatherer.old r chunks gone → (more : List NamedChunk)
        → IsFront (gone ++ parts_of result.parts.items) (decided_parts (answers_of gatherer.old) r ((chunks ++ named_chunk chunk ∷ []) ++ more)) }
    ensures due { (r : Rules) (chunks : List NamedChunk) (gone : List (NamedChunk × Hows))
        → HasGathered gatherer.old r chunks gone → count.old ≡ length chunks
        → IsDeciding (answers_of gatherer.old) r limit (chunks ++ named_chunk chunk ∷ []) None (gone ++ parts_of result.parts.items) result.last
        × (result.last ≡ memory
        → ShortAt (answers_of gatherer.old) r limit (chunks ++ named_chunk chunk ∷ []) (gone ++ parts_of result.parts.items)) }
    ensures own { IsOwnFault result.own None result.last }
    ensures causes { (f : Faults) → result.own ≡ Some f
        → ((f ≡ Fault.TooMany limit) × (count.old ≡ limit)) ⊎ (f ≡ Fault.Memory) }
{
    if *count >= limit {
        return match gatherer.take(alloc, chunk) {
            Err(Memory) => broken(alloc),
            Ok(parts) => Given {
                parts,
                last: Some(Last::Failed(Fault::TooMany { limit })),
                own: Some(Fault::TooMany { limit }),
            },
        };
    }
    *count += 1;
    match gatherer.take(alloc, chunk) {
        Err(Memory) => broken(alloc),
        Ok(parts) => Given {
            parts,
            last: None,
            own: None,
        },
    }
}

// What the end comes to.
pub(crate) fn take_end(alloc: Global, gatherer: &mut Gatherer) -> Given
    ensures index { index_of gatherer.new ≡ index_of gatherer.old }
    ensures ended { (r : Rules) (chunks : List NamedChunk) (gone : List (NamedChunk × Hows))
        → HasGathered gatherer.old r chunks gone
        → result.own ≡ None
        → HasDecidedAll (answers_of gatherer.old) r chunks (gone ++ parts_of result.parts.items)
        × (result.last ≡ Some Last.End) }
    ensures front { (r : Rules) (chunks : List NamedChunk) (gone : List (NamedChunk × Hows))
        → HasGathered gatherer.old r chunks gone → IsSome result.own
        → (more : List NamedChunk)
        → IsFront (gone ++ parts_of result.parts.items) (decided_parts (answers_of gatherer.old) r (chunks ++ more)) }
    ensures due { (r : Rules) (limit : ℕ) (chunks : List NamedChunk) (gone : List (NamedChunk × Hows))
        → HasGathered gatherer.old r chunks gone → length chunks ≤ limit
        → IsDeciding (answers_of gatherer.old) r limit (chunks ++ []) (Some Last.End) (gone ++ parts_of result.parts.items) result.last
        × (result.last ≡ memory
        → ShortAt (answers_of gatherer.old) r limit (chunks ++ []) (gone ++ parts_of result.parts.items)) }
    ensures own { IsOwnFault result.own (Some Last.End) result.last }
    ensures causes { (f : Faults) → result.own ≡ Some f → f ≡ Fault.Memory }
{
    match gatherer.finish(alloc) {
        Err(Memory) => broken(alloc),
        Ok(parts) => Given {
            parts,
            last: Some(Last::End),
            own: None,
        },
    }
}

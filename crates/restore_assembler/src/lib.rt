//! The end of a restore. Payloads of containers come in as a plan asks for them, and the bytes of the version go out to
//! a sink, each from its payload with no copy between.
#![tactic(auto)]

ghost use Rattle.std.specs.Prelude.{◌≡◌, ◌≢◌, ◌↔◌, ◌+◌, ◌≤◌, ℕ, List, [], map, drop, length, All, None, IsTrue, IsNone, IfSome, IfOk, IfErr, OnOk, OnErr};
ghost use Rattle.vault_types.specs.declared.Step.TheVariants.{Serve};
ghost use Rattle.vault_types.specs.Names.{fp};
ghost use Rattle.vault_types.specs.Plans.{requests, serves, loads as loads_of};
ghost use Rattle.vault_traits.specs.Told.{SinkTold, Takes};
ghost use Rattle.restore_assembler.specs.Copying.{wanted, IsWanted, IsCovered, HasCopied, IsOutputFault, IsTakenAt, version_bytes};

mod ends;
mod payload;
mod progress;
mod writing;

use crate::ends::{end_at, ends_of};
pub use crate::payload::Payload;
use crate::progress::Progress;
use belady_cache::Planned;
use fingerprint_stage::RunningSum;
use std::alloc::Global;
use std::collections::HashMap;
use std::marker::Model;
use vault_traits::Sink;
use vault_types::{Fault, Id, Memory, Spot, Whole};

/// Writes the bytes of a version to a sink, while payloads come in. It keeps those that the plan has present.
#[derive(Drop)]
pub struct Copier {
    progress: Progress,
    ends: HashMap<Id, u64>,
}

impl Model for Copier {
    ghost use Rattle.restore_assembler.specs.Copying.{Copying};
    ghost use Rattle.restore_assembler.specs.Progress.{seen_of, IsProgress, LoadsNext, IsSumming};
    ghost use Rattle.restore_assembler.specs.Ends.{HasEnds};

    ghost Value = { Copying };

    ghost view = { λ s. seen_of s.progress };

    ghost invariant = { λ s. IsProgress s.progress × LoadsNext s.progress × IsSumming s.progress
        × HasEnds s.ends s.progress.spots.items };
}

impl Copier {
    /// A copier of a version whose chunks lie at these spots, in order, by a plan that serves their requests with so
    /// many slots. Where a `whole` is given, the SHA-1 of all bytes is compared with it. All the memory that the copier
    /// ever needs is taken here; the only error is `Memory`, after which there is no copier.
    pub fn new(
        alloc: Global,
        spots: Vec<Spot>,
        plan: Planned,
        slots: u32,
        whole: Option<Whole>,
    ) -> Result<Copier, Memory>
        requires { IsTrue (serves slots [] plan.steps (requests (map (λ s. s.id) spots.items))) }
        ensures spots { IfOk result (λ s. s.spots ≡ spots.items) }
        ensures steps { IfOk result (λ s. s.steps ≡ plan.steps) }
        ensures slots { IfOk result (λ s. s.slots ≡ slots) }
        ensures start { IfOk result (λ s. s.done ≡ 0) }
        ensures whole { IfOk result (λ s. s.whole ≡ whole) }
        ensures copied { IfOk result (λ s. (payloads : ℕ → List ℕ) (told : SinkTold)
            → HasCopied payloads told told s) }
    {
        let ends = ends_of(alloc, spots.as_slice())?;
        let present = Vec::with_capacity(alloc, slots as usize)?;
        let Planned { steps, loads: _ } = plan;
        let sum = match whole {
            Some(_) => Some(RunningSum::new()),
            None => None,
        };
        Ok(Copier {
            progress: Progress {
                spots,
                steps: steps.into_vec(),
                slots: slots as usize,
                present,
                whole,
                sum,
                done: 0,
                step: 0,
            },
            ends,
        })
    }

    /// The container whose payload is to be given next, which is that of the plan's next load; or none once all is
    /// written, or after a `give` that was refused. It takes no memory.
    pub fn wants(&self) -> Option<Id>
        ensures next { result ≡ wanted self.now }
        ensures done { IsNone result ↔ (self.now.done ≡ length self.now.spots) }
        ensures all { IsNone result → (payloads : ℕ → List ℕ) (before now : SinkTold)
            → HasCopied payloads before now self.now
            → Takes before.taken now.taken (version_bytes payloads self.now.spots) }
        ensures served { IsNone result → All (λ step. step ≢ Serve) self.now.steps }
    {
        self.progress.wanted()
    }

    /// Whether a payload is wanted and this one is long enough for every spot of its container. It takes no memory.
    pub fn covers(&self, payload: &[u8]) -> bool
        ensures { IsTrue result ↔ IsCovered self.now payload.now }
    {
        match self.progress.wanted() {
            Some(id) => end_at(&self.ends, id) <= payload.len() as u64,
            None => false,
        }
    }

    /// Takes the payload that is wanted, and does the plan's steps up to the next load: what they evict is let go, and
    /// the spots that they serve are written. So with the payloads of the containers the sink has taken the front of the
    /// version's bytes that is `done`, and all of them once none is wanted. It takes no memory.
    ///
    /// `WriteFault` comes only where the sink failed, and has its count of faults; the sink has then taken a front of
    /// the bytes, but not all. `Damaged` comes exactly where a whole was given, all bytes are written, and their SHA-1
    /// is another. After either the copier wants nothing more.
    pub fn give<K: Sink>(&mut self, payload: Vec<u8>, sink: &mut K) -> Result<(), Fault>
        requires { IsCovered self.old payload.items }
        ensures spots { self.new.spots ≡ self.old.spots }
        ensures slots { self.new.slots ≡ self.old.slots }
        ensures few { length self.new.present ≤ self.new.slots }
        ensures whole { self.new.whole ≡ self.old.whole }
        ensures loads { OnOk result (loads_of self.new.steps + 1 ≡ loads_of self.old.steps) }
        ensures behind { OnOk result ((k : ℕ) × (self.new.steps ≡ drop k self.old.steps)) }
        ensures over { OnErr result (wanted self.new ≡ None) }
        ensures later { (K.told sink.old).faults ≤ (K.told sink.new).faults }

        // What holds with any payloads of which this is the wanted one.
        ensures ok { OnOk result ((payloads : ℕ → List ℕ) (before : SinkTold)
            → HasCopied payloads before (K.told sink.old) self.old
            → IsWanted payloads self.old payload.items
            → HasCopied payloads before (K.told sink.new) self.new) }
        ensures sum { OnOk result ((payloads : ℕ → List ℕ) (before : SinkTold)
            → HasCopied payloads before (K.told sink.old) self.old
            → IsWanted payloads self.old payload.items
            → wanted self.new ≡ None
            → IfSome self.old.whole (λ whole. fp (version_bytes payloads self.old.spots) ≡ whole.want)) }
        ensures err { IfErr result (λ e. (payloads : ℕ → List ℕ) (before : SinkTold)
            → HasCopied payloads before (K.told sink.old) self.old
            → IsWanted payloads self.old payload.items
            → IsTakenAt (version_bytes payloads self.old.spots) before (K.told sink.new) e) }

        ensures cause { IfErr result (IsOutputFault self.old.whole (K.told sink.old) (K.told sink.new)) }
    {
        self.progress.give(payload, sink)
    }
}

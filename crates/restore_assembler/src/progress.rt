// How far a restore has come.
ghost use Rattle.std.specs.Prelude.{◌≡◌, ◌↔◌, ◌∷◌, IsSome, IfSome, ◌+◌, ◌≤◌, ◌<◌, ℕ, List, take, drop, length, flat_map, IsTrue, false, is_some, ◌≢◌, Some, None, IfOk, IfErr, OnOk, OnErr};
ghost use Rattle.vault_types.specs.declared.Step.TheVariants.{Load};
ghost use Rattle.vault_types.specs.declared.Fp.{Fp};
ghost use Rattle.vault_types.specs.declared.Whole.{Whole};
ghost use Rattle.vault_types.specs.declared.Fault.TheVariants as fault;
ghost use Rattle.vault_types.specs.declared.Kind.TheVariants as kind;
ghost use Rattle.vault_types.specs.declared.Why.TheVariants as why;
ghost use Rattle.vault_types.specs.Names.{fp};
ghost use Rattle.vault_types.specs.Lists.{has};
ghost use Rattle.vault_types.specs.Bytes.{spot_bytes};
ghost use Rattle.vault_types.specs.Plans.{loads as loads_of};
ghost use Rattle.vault_traits.specs.Counts.{Rose};
ghost use Rattle.vault_traits.specs.Told.{SinkTold};
ghost use Rattle.restore_assembler.specs.Payloads.{ids_of, Covers, AreCovering, AreKnown, run_length, first_id};
ghost use Rattle.vault_traits.specs.CutOff.{IsCutOff};
ghost use Rattle.restore_assembler.specs.Writing.{IsSumOf, IsWrittenWithSum};
ghost use Rattle.restore_assembler.specs.Copying.{wanted as wanted_of, IsWanted, IsCovered, HasCopied, IsOutputFault, IsTakenAt, version_bytes};
ghost use Rattle.restore_assembler.specs.Progress.{left_spots, left_bytes, starts_with_load, IsProgress, LoadsNext, IsSumming, Advances, seen_of};

use crate::payload::{Payload, bytes_of, evict};
use crate::writing::write_run;
use fingerprint_stage::RunningSum;
use vault_traits::{Failed, Sink};
use vault_types::{Fault, Id, Kind, Spot, Step, Whole, Why};

// The version's spots, of which `done` are written; the steps of the plan, of which `step` are done; the payloads that
// are present, at most `slots`; what the sum of all bytes should be, and that of the bytes so far, where it is known.
#[derive(Drop)]
pub struct Progress {
    pub spots: Vec<Spot>,
    pub steps: Vec<Step>,
    pub slots: usize,
    pub present: Vec<Payload>,
    pub whole: Option<Whole>,
    pub sum: Option<RunningSum>,
    pub done: usize,
    pub step: usize,
}

// How many spots at the front lie in that container.
fn run_len(spots: &[Spot], id: Id) -> usize
    ensures run { result ≡ run_length id spots.now }
    ensures within { result ≤ length spots.now }
{
    let mut run = 0;
    while run < spots.len() && spots[run].id == id {
        run += 1;
    }
    run
}

impl Progress {
    // Writes the spots of the next request, whose payload is present.
    fn serve<K: Sink>(&mut self, sink: &mut K) -> Result<(), Failed>
        requires some { self.old.done < length self.old.spots.items }
        requires present { IsTrue (has (first_id (left_spots self.old)) (ids_of self.old.present.items)) }
        requires covering { AreCovering self.old.spots.items self.old.present.items }
        ensures stays { self.new ≡ record self.old { done = self.new.done; sum = self.new.sum } }
        ensures kept { OnOk result (is_some self.new.sum ≡ is_some self.old.sum) }
        ensures later { OnOk result ((K.told sink.old).faults ≤ (K.told sink.new).faults) }
        ensures failed { OnErr result (Rose (K.told sink.old).faults (K.told sink.new).faults) }
        ensures err_done { OnErr result (self.new.done ≡ self.old.done) }
        ensures done { OnOk result
            (self.new.done
            ≡ self.old.done + run_length (first_id (left_spots self.old)) (left_spots self.old)) }
        ensures within { OnOk result (self.new.done ≤ length self.old.spots.items) }
        ensures ok { OnOk result ((payload : ℕ → List ℕ) → AreKnown payload self.old.present.items
            → IsWrittenWithSum
            (flat_map (spot_bytes payload)
            (take (run_length (first_id (left_spots self.old)) (left_spots self.old))
            (left_spots self.old)))
            (K.told sink.old) (K.told sink.new) self.old.sum self.new.sum) }
        ensures err { OnErr result ((payload : ℕ → List ℕ) → AreKnown payload self.old.present.items
            → IsCutOff (left_bytes payload self.old) (K.told sink.old) (K.told sink.new)) }
    {
        let left = &self.spots[self.done..];
        let id = left[0].id;
        let run = run_len(left, id);
        let bytes = bytes_of(self.present.as_slice(), id);
        write_run(bytes, &left[..run], &mut self.sum, sink)?;
        self.done += run;
        Ok(())
    }

    // Takes the next step, unless it is a load.
    fn take_step<K: Sink>(&mut self, sink: &mut K) -> Result<bool, Failed>
        requires going { IsProgress self.old }
        requires some { self.old.done < length self.old.spots.items }
        ensures going { IsProgress self.new }
        ensures failed { OnErr result (Rose (K.told sink.old).faults (K.told sink.new).faults) }
        ensures stays { self.new.spots ≡ self.old.spots }
        ensures slots { self.new.slots ≡ self.old.slots }
        ensures whole { self.new.whole ≡ self.old.whole }
        ensures taken { IfOk result (λ taken. IsTrue taken → self.new.step ≡ self.old.step + 1) }
        ensures left { OnOk result (self.new.step ≤ length self.new.steps.items) }
        ensures load { IfOk result (λ taken. taken ≡ false
            → IsTrue (starts_with_load (drop self.new.step self.new.steps.items))) }
        ensures advances { OnOk result (Advances self.old self.new (K.told sink.old) (K.told sink.new)) }
        ensures err { OnErr result ((payload : ℕ → List ℕ) → AreKnown payload self.old.present.items
            → IsCutOff (left_bytes payload self.old) (K.told sink.old) (K.told sink.new)) }
    {
        match self.steps[self.step] {
            Step::Load(_) => Ok(false),
            Step::Evict(id) => {
                evict(&mut self.present, id);
                self.step += 1;
                Ok(true)
            }
            Step::Serve => {
                self.serve(sink)?;
                self.step += 1;
                Ok(true)
            }
        }
    }

    // Takes the steps up to the next load, or to the end of what is to be written.
    pub fn advance<K: Sink>(&mut self, sink: &mut K) -> Result<(), Failed>
        requires { IsProgress self.old }
        ensures going { IsProgress self.new }
        ensures failed { OnErr result (Rose (K.told sink.old).faults (K.told sink.new).faults) }
        ensures stays { self.new.spots ≡ self.old.spots }
        ensures slots { self.new.slots ≡ self.old.slots }
        ensures whole { self.new.whole ≡ self.old.whole }
        ensures ready { OnOk result (LoadsNext self.new) }
        ensures advances { OnOk result (Advances self.old self.new (K.told sink.old) (K.told sink.new)) }
        ensures err { OnErr result ((payload : ℕ → List ℕ) → AreKnown payload self.old.present.items
            → IsCutOff (left_bytes payload self.old) (K.told sink.old) (K.told sink.new)) }
    {
        while self.done < self.spots.len() {
            if !self.take_step(sink)? {
                break;
            }
        }
        Ok(())
    }

    // The next load, or none where all is written.
    pub fn wanted(&self) -> Option<Id>
        requires going { IsProgress self.now }
        requires ready { LoadsNext self.now }
        ensures next { result ≡ wanted_of (seen_of self.now) }
        ensures some { IsSome result ↔ (self.now.done < length self.now.spots.items) }
        ensures step { IfSome result
            (λ id.
            drop self.now.step self.now.steps.items
            ≡ Load id ∷ drop (self.now.step + 1) self.now.steps.items) }
    {
        if self.done == self.spots.len() {
            return None;
        }
        match self.steps[self.step] {
            Step::Load(id) => Some(id),
            _ => None,
        }
    }

    // Takes a load: the payload is present from then on.
    fn load(&mut self, id: Id, bytes: Vec<u8>)
        requires going { IsProgress self.old }
        requires step { drop self.old.step self.old.steps.items
            ≡ Load id ∷ drop (self.old.step + 1) self.old.steps.items }
        requires covers { Covers id bytes.items self.old.spots.items }
        ensures stays { self.new ≡ record self.old { present = self.new.present; step = self.old.step + 1 } }
        ensures present { self.new.present.items
            ≡ record { id = id; bytes = bytes } ∷ self.old.present.items }
        ensures going { IsProgress self.new }
    {
        match self.present.insert(0, Payload { id, bytes }) {
            Ok(()) => self.step += 1,
            Err(_) => unreachable!(),
        }
    }

    // Lets all that is left go.
    fn stop(&mut self)
        requires { IsProgress self.old }
        ensures stays { self.new
            ≡ record self.old { done = length self.old.spots.items; step = length self.old.steps.items } }
        ensures going { IsProgress self.new }
    {
        self.done = self.spots.len();
        self.step = self.steps.len();
    }

    // Compares the sum of all bytes with that which they should have, once all are written.
    fn check(&mut self) -> Result<(), Fault>
        ensures stays { self.new ≡ record self.old { sum = self.new.sum } }
        ensures early { self.old.done < length self.old.spots.items → self.new.sum ≡ self.old.sum }
        ensures late { length self.old.spots.items ≤ self.old.done → self.new.sum ≡ None }
        ensures ok { OnOk result (length self.old.spots.items ≤ self.old.done
            → is_some self.old.sum ≡ is_some self.old.whole
            → (bytes : List ℕ) → IsSumOf self.old.sum bytes
            → IfSome self.old.whole (λ whole. fp bytes ≡ whole.want)) }
        ensures err { IfErr result (λ e. (length self.old.spots.items ≤ self.old.done) × (whole : Whole)
            × (found : Fp) × (self.old.whole ≡ Some whole) × (found ≢ whole.want)
            × (e ≡ fault.Damaged kind.Recipe whole.number (why.Whole whole.want found))
            × ((bytes : List ℕ) → IsSumOf self.old.sum bytes → found ≡ fp bytes)) }
    {
        if self.done < self.spots.len() {
            return Ok(());
        }
        match (self.whole, self.sum.take()) {
            (Some(Whole { number, want }), Some(sum)) => {
                let found = sum.finish();
                if found == want {
                    Ok(())
                } else {
                    Err(Fault::Damaged {
                        kind: Kind::Recipe,
                        number,
                        why: Why::Whole { want, found },
                    })
                }
            }
            _ => Ok(()),
        }
    }

    // Takes the payload that is wanted, and writes what can be written with it.
    pub fn give<K: Sink>(&mut self, payload: Vec<u8>, sink: &mut K) -> Result<(), Fault>
        requires going { IsProgress self.old }
        requires ready { LoadsNext self.old }
        requires summing { IsSumming self.old }
        requires covered { IsCovered (seen_of self.old) payload.items }
        ensures going { IsProgress self.new }
        ensures ready { LoadsNext self.new }
        ensures summing { IsSumming self.new }
        ensures same { (self.new.spots ≡ self.old.spots) × (self.new.slots ≡ self.old.slots)
            × (self.new.whole ≡ self.old.whole) }
        ensures loads { OnOk result
            (loads_of (seen_of self.new).steps + 1 ≡ loads_of (seen_of self.old).steps) }
        ensures behind { OnOk result ((k : ℕ)
            × ((seen_of self.new).steps ≡ drop k (seen_of self.old).steps)) }
        ensures over { OnErr result (self.new.done ≡ length self.old.spots.items) }
        ensures later { (K.told sink.old).faults ≤ (K.told sink.new).faults }

        ensures ok { OnOk result ((payloads : ℕ → List ℕ) (before : SinkTold)
            → HasCopied payloads before (K.told sink.old) (seen_of self.old)
            → IsWanted payloads (seen_of self.old) payload.items
            → HasCopied payloads before (K.told sink.new) (seen_of self.new)) }
        ensures sum { OnOk result ((payloads : ℕ → List ℕ) (before : SinkTold)
            → HasCopied payloads before (K.told sink.old) (seen_of self.old)
            → IsWanted payloads (seen_of self.old) payload.items
            → length self.old.spots.items ≤ self.new.done
            → IfSome self.old.whole
            (λ whole. fp (version_bytes payloads self.old.spots.items) ≡ whole.want)) }

        ensures cause { IfErr result (IsOutputFault self.old.whole (K.told sink.old) (K.told sink.new)) }
        ensures err { IfErr result (λ e. (payloads : ℕ → List ℕ) (before : SinkTold)
            → HasCopied payloads before (K.told sink.old) (seen_of self.old)
            → IsWanted payloads (seen_of self.old) payload.items
            → IsTakenAt (version_bytes payloads self.old.spots.items) before (K.told sink.new) e) }
    {
        let Some(id) = self.wanted() else {
            unreachable!()
        };
        self.load(id, payload);
        if let Err(Failed) = self.advance(sink) {
            self.stop();
            return Err(Fault::WriteFault(sink.faults()));
        }
        self.check()
    }
}

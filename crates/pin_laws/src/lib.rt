//! What a keeper keeps of a pin while its other calls come: the pin stays, with its containers, over each event but its own
//! release. All of it are laws over the definitions: a call that goes on beside a pin cites their proofs.
#![tactic(auto)]

ghost use Rattle.std.specs.Prelude.{◌≡◌, ◌≢◌, ℕ, ◌++◌, ◌∷◌, [], List, Option};
ghost use Rattle.vault_types.specs.declared.Name.{Name};
ghost use Rattle.vault_types.specs.declared.Recipe.{Recipe};
ghost use Rattle.vault_types.specs.Events.{CanCommit, Change, Core, Job, Pin, after_commit, after_refused, after_release, with_pins};
ghost use Rattle.vault_types.specs.State.{KeptVersion};
ghost use Rattle.keeper_catalog.specs.View.{Keeps, View};
ghost use Rattle.pin_laws.specs.Following.{Follows, GoesOnTelling};

/// A pin stays over no call, and over two stretches of calls where it stays over each.
pub fn pins_stay_over_calls()
    ensures still { (v : View) (number : ℕ) → Follows v v number }
    ensures further { (u v w : View) (number : ℕ) → Follows u v number → Follows v w number
        → Follows u w number }
{}

/// A pin stays over each event that leaves the pins, over a refusal of which a change may be half done, over a commit, over
/// one pin more, and over the release of another one.
pub fn events_keep_a_pin()
    ensures event { (u v : View) (number : ℕ) (event : Core → Core) → GoesOnTelling u v
        → ((K : Core) → (event K).pins ≡ K.pins) → ((K : Core) → Keeps u K → Keeps v (event K))
        → Follows u v number }
    ensures refusal { (u v : View) (number : ℕ) → GoesOnTelling u v
        → ((K : Core) → Keeps u K → (other : Option Change) × ((job : Option Job)
        × Keeps v (after_refused other job v.memo.strays v.pending K))) → Follows u v number }
    ensures commit { (u v : View) (number : ℕ) (r : Recipe) (version : Core → Job → KeptVersion)
        (strays : List Name)
        → GoesOnTelling u v → ((K : Core) → Keeps u K → (j : Job) × CanCommit K j r)
        → ((K : Core) (j : Job) → Keeps u K → CanCommit K j r
        → Keeps v (after_commit (version K j) j strays K))
        → Follows u v number }
    ensures pin { (u v : View) (number : ℕ) → GoesOnTelling u v
        → ((K : Core) → Keeps u K → (p : Pin) × Keeps v (with_pins (K.pins ++ p ∷ []) K.strays K))
        → Follows u v number }
    ensures release { (u v : View) (number gone : ℕ) (strays : List Name) → GoesOnTelling u v → number ≢ gone
        → ((K : Core) → Keeps u K → Keeps v (after_release gone strays K)) → Follows u v number }
{}

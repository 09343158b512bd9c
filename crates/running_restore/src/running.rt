// A restore that runs.
ghost use Rattle.std.specs.Prelude.{◌≡◌, ◌∷◌, ◌++◌, [], true, IsTrue, IfSome, IfNone};
ghost use Rattle.vault_types.specs.Lists.{has};
ghost use Rattle.restore_pins.specs.Pins.{numbers};
ghost use Rattle.keeper_core.specs.Releases.{Releases};
ghost use Rattle.restore_stage.specs.declared.Reply.TheVariants.{Unwanted};
ghost use Rattle.restore_ends.specs.Results.{HasReplied, result_of as result_is};
ghost use Rattle.running_restore.specs.Feeding.{HasFed};
ghost use Rattle.running_restore.specs.Views.{IsRunning};

use crate::loading::{has_failed, load_at, met_by};
use crate::ready::ReadyRestore;
use keeper_core::Keeper;
use restore_pins::PinNo;
use restore_stage::{Assembler, Loaded, Reply};
use stage_queue::{Middle, Rx, Tx, close};
use stage_threads::StageThread;
use std::alloc::Global;
use std::marker::Model;
use std::snapshot::Snapshot;
use std::sync::Wait;
use std::thread::Threads;
use std::time::Clock;
use vault_traits::{Shelf, Sink};
use vault_types::{Answer, Fault, Id, Set, Turn, Version};

/// A restore that runs: the keeper's side of it, and its stage in its thread or kept. Contracts see
/// the keeper from before its pin and from behind it, its version, the number of its pin, its loads,
/// its first stage, how many loads were tried, the number of the store fault that it has met, what
/// was sent or is held to be sent, and the replies that were taken.
#[derive(Drop)]
pub struct RunningRestore<S: Shelf, O: Sink + Drop> {
    set: Set,
    version: Version,
    slots: u32,
    no: PinNo,
    ids: Vec<Id>,
    got: usize,
    met: Option<u64>,
    // a load has failed, and no more are tried
    over: bool,
    waiting: Option<Loaded>,
    loads: Middle<Loaded>,
    to: Tx<Loaded>,
    replies: Middle<Reply>,
    reply: Rx<Reply>,
    worker: StageThread<Assembler<O>>,
    before: Snapshot<Keeper<S>>,
    behind: Snapshot<Keeper<S>>,
}

impl<S: Shelf, O: Sink + Drop> Model for RunningRestore<S, O> {
    ghost use Rattle.std.specs.Prelude.{◌++◌};
    ghost use Rattle.std.specs.Coded.{codes};
    ghost use Rattle.vault_traits.specs.Codes.{coded_blobs, coded_history};
    ghost use Rattle.stage_flows.specs.Runs.{held};
    ghost use Rattle.running_restore.specs.Views.{RunningView, IsTied};

    ghost Value = { RunningView };

    ghost coded = { Prim.hlevel (codes, coded_blobs, coded_history) };

    ghost view = { λ r. record {
      from = r.before.value;
      behind = r.behind.value;
      set = r.set;
      version = r.version;
      slots = r.slots;
      number = r.no;
      ids = r.ids.items;
      first = r.worker.first;
      got = r.got;
      met = r.met;
      sent = r.to.sent ++ held r.waiting;
      replied = r.reply.taken;
    } };

    ghost invariant = { λ r. IsTied r.loads r.replies r.to r.reply r.over
        (record {
          from = r.before.value;
          behind = r.behind.value;
          set = r.set;
          version = r.version;
          slots = r.slots;
          number = r.no;
          ids = r.ids.items;
          first = r.worker.first;
          got = r.got;
          met = r.met;
          sent = r.to.sent ++ held r.waiting;
          replied = r.reply.taken;
        }) };
}

// The result that a reply comes to, where these loads were planned.
fn result_of(set: Set, version: Version, ids: &[Id], reply: Reply) -> Result<Answer, Fault>
    requires { reply ≡ Unwanted → ⊥ }
    ensures { result ≡ result_is set version ids.now reply }
{
    match reply {
        Reply::Written(bytes) => Ok(Answer::Restored {
            set,
            version,
            bytes,
            loads: ids.len() as u64,
        }),
        Reply::Failed(fault) => Err(fault),
        Reply::Unwanted => unreachable!(),
    }
}

impl<S: Shelf, O: Sink + Drop> RunningRestore<S, O> {
    /// Runs with its stage in its thread or kept. No memory.
    pub fn run(ready: ReadyRestore<S, O>, worker: StageThread<Assembler<O>>) -> RunningRestore<S, O>
        requires { worker.first ≡ ready.first }
        ensures { result ≡ ready }
    {
        let ReadyRestore {
            set,
            version,
            slots,
            no,
            ids,
            loads,
            to,
            replies,
            reply,
            first: _,
            before,
            behind,
        } = ready;
        RunningRestore {
            set,
            version,
            slots,
            no,
            ids,
            got: 0,
            met: None,
            over: false,
            waiting: None,
            loads,
            to,
            replies,
            reply,
            worker,
            before,
            behind,
        }
    }

    // Loads the next payload of the plan, where none is held and no load has failed.
    fn load_next(&mut self, alloc: Global, keeper: &mut Keeper<S>)
        requires { IsRunning keeper.old self.old }
        ensures fed { HasFed keeper.old keeper.new self.old self.new }
        ensures running { IsRunning keeper.new self.new }
    {
        if self.over || self.waiting.is_some() || self.got >= self.ids.len() {
            return;
        }
        let item = load_at(alloc, keeper, &self.no, self.ids.as_slice(), self.got);
        self.over = has_failed(&item);
        self.met = met_by(self.met, &item);
        self.got += 1;
        self.waiting = Some(item);
    }

    // A turn of the stage, if it is kept.
    fn turn_stage<R: Wait>(&mut self, rt: &R) -> Turn
        ensures { self.new ≡ self.old }
    {
        self.worker.turn(rt)
    }

    // Sends what is held, where the line has room.
    fn send_waiting<R: Wait>(&mut self, rt: &R) -> Turn
        ensures { self.new ≡ self.old }
    {
        match self.waiting.take() {
            None => Turn::Idle,
            Some(item) => match self.to.offer(rt, item) {
                Ok(()) => Turn::Moved,
                Err(back) => {
                    self.waiting = Some(back);
                    Turn::Idle
                }
            },
        }
    }

    /// A turn: loads the next payload of the plan, where none is held, and sends it, where the line
    /// has room; and gives a kept stage a turn. `Idle` where nothing was sent and no kept stage
    /// moved. Takes memory for the payload; a load that was refused is sent in place of one.
    pub fn feed<R: Wait>(&mut self, rt: &R, alloc: Global, keeper: &mut Keeper<S>) -> Turn
        requires { IsRunning keeper.old self.old }
        ensures fed { HasFed keeper.old keeper.new self.old self.new }
        ensures running { IsRunning keeper.new self.new }
    {
        let kept = self.turn_stage(rt);
        self.load_next(alloc, keeper);
        match (kept, self.send_waiting(rt)) {
            (Turn::Moved, _) | (_, Turn::Moved) => Turn::Moved,
            _ => Turn::Idle,
        }
    }

    /// The reply, where it has come. It comes once.
    pub fn reply<R: Wait>(&mut self, rt: &R) -> Option<Reply>
        ensures some { IfSome result (λ y. self.new ≡ record self.old { replied = self.old.replied ++ y ∷ [] }) }
        ensures none { IfNone result (self.new ≡ self.old) }
    {
        self.reply.take(rt)
    }

    /// Ends the restore with its reply: takes its stage back, which gives its sink, and releases its
    /// pin. `Ok` says that the sink has taken the version's bytes; after an `Err` it has a front of
    /// them. No memory.
    pub fn end<R: Threads + Wait + Clock>(
        self,
        rt: &R,
        keeper: &mut Keeper<S>,
        reply: Reply,
    ) -> (Result<Answer, Fault>, O)
        requires running { IsRunning keeper.old self }
        requires reply { self.replied ≡ reply ∷ [] }
        ensures replied { HasReplied self.first self.sent reply (O.told result.1) }
        ensures result { result.0 ≡ result_is self.set self.version self.ids reply }
        ensures released { Releases self.number keeper.old keeper.new }
    {
        let RunningRestore {
            set,
            version,
            no,
            ids,
            loads,
            to,
            replies,
            reply: near,
            worker,
            ..
        } = self;
        let (sink, from, back) = worker.end(rt).end();
        close(loads, to, from);
        close(replies, back, near);
        keeper.release(no);
        (result_of(set, version, ids.as_slice(), reply), sink)
    }
}

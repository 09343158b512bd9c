//! A check in a thread of its own.
ghost use Rattle.std.specs.Prelude.{◌≡◌, option_map};
ghost use Rattle.payload_health.specs.Health.{health_of};

use crate::check::Check;
use crate::reading::ReadContainer;
use core::thread::Stack;
use payload_health::Health;
use std::marker::Model;
use std::snapshot::Snapshot;
use std::thread::{Promise, PromisedHandle, Scope, Threads};
use vault_types::Id;

// That the health which comes back is that of the container.
#[derive(Drop)]
struct HealthOf(Snapshot<ReadContainer>);

impl Promise<Health> for HealthOf {
    ghost use Rattle.payload_health.specs.Health.{health_of};

    ghost kept_by = { λ p h. h ≡ health_of p.0.value.table p.0.value.payload };
}

#[derive(Drop)]
enum State {
    Running(PromisedHandle<Health, HealthOf>),
    Done(Health),
}

/// A check of a container that runs in a thread, or was made at once where the thread was refused. Contracts see the
/// container.
#[derive(Drop)]
pub(crate) struct Checking {
    id: Id,
    of: Snapshot<ReadContainer>,
    state: State,
}

impl Model for Checking {
    ghost use Rattle.vault_types.specs.Tables.{Container};
    ghost use Rattle.scrub.specs.Standing.{StandsFor};

    ghost Value = { Container };

    ghost view = { λ c. c.of.value };

    ghost invariant = { λ c. StandsFor c.of.value c.id c.state };
}

// A stack of that size, or the host's usual one.
fn stack_of(size: Option<usize>) -> Stack {
    match size {
        None => Stack::new(),
        Some(bytes) => Stack::new().stack_size(bytes),
    }
}

impl Checking {
    /// Starts the check in a thread of the scope, with a stack of that size or the host's usual one, or makes it where the
    /// thread is refused. No memory.
    pub(crate) fn start<'s, E: 's, C: Check>(
        scope: &'s Scope<'s, E>,
        stack: Option<usize>,
        check: &'s C,
        read: ReadContainer,
    ) -> Checking
        ensures { result ≡ read }
    {
        let id = read.id();
        let of = Snapshot::of(&read);
        let promise = HealthOf(Snapshot::of(&read));
        let state = match stack_of(stack).spawn_scoped_with(
            scope,
            promise,
            move || read.health(check),
        ) {
            Ok(handle) => State::Running(handle),
            Err(refused) => State::Done((refused.value)()),
        };
        Checking { id, of, state }
    }

    /// Waits for the end of the check, and tells the id of the container and its health.
    pub(crate) fn end<R: Threads>(self, rt: &R) -> (Id, Health)
        ensures id { result.0 ≡ self.table.id }
        ensures health { result.1 ≡ health_of self.table self.payload }
    {
        let Checking { id, state, .. } = self;
        let health = match state {
            State::Running(handle) => handle.join(rt),
            State::Done(health) => health,
        };
        (id, health)
    }
}

// A shelf that fails at numbered calls and goes on, and knows what a crash may leave of it.
ghost use Rattle.std.specs.Prelude.{Some, None};

use std::alloc::Global;
use std::test::Fail;
use vault_ports::{FaultShelf, MemShelf};
use vault_traits::{Failed, Refused, Shelf};
use vault_types::{Kind, Name, Set};

#[derive(Drop)]
enum Step {
    Put(Name, Vec<u8>),
    Floor(Set, [u8; 28]),
    Remove(Name),
    Settle,
}

/// A shelf in memory whose numbered calls fail, and that goes on behind them, as a folder does. It keeps a record of the
/// writes, those that failed among them, and of the settles that succeeded.
#[derive(Drop)]
pub struct Recorded {
    start: MemShelf,
    inner: FaultShelf,
    steps: Vec<Step>,
}

impl Recorded {
    /// As `shelf`, of which nothing is unsettled; the calls of these numbers fail.
    pub fn new(
        alloc: Global,
        shelf: MemShelf,
        fail: Vec<u64>,
        keep: bool,
    ) -> Result<Recorded, Fail> {
        Ok(Recorded {
            start: shelf.copy()?,
            inner: FaultShelf::new(shelf, fail, keep),
            steps: Vec::new(alloc),
        })
    }

    // The place behind the last settle.
    fn settled(&self) -> usize {
        let mut settled = 0;
        for (place, step) in self.steps.iter().enumerate() {
            if let Step::Settle = step {
                settled = place.saturating_add(1);
            }
        }
        settled
    }

    /// The shelf after a crash: what is settled, and of the writes behind that the first where bit 0 of `taken` is 1, the
    /// next where bit 1 is, and so on.
    pub fn image(&self, alloc: Global, taken: u64) -> Result<MemShelf, Fail> {
        let settled = self.settled();
        let mut shelf = self.start.copy()?;
        let mut rest = taken;
        for (place, step) in self.steps.iter().enumerate() {
            if place < settled {
                carry_out(alloc, &mut shelf, step)?;
                continue;
            }
            if rest % 2 == 1 {
                carry_out(alloc, &mut shelf, step)?;
            }
            rest /= 2;
        }
        Ok(shelf)
    }
}

fn carry_out(alloc: Global, shelf: &mut MemShelf, step: &Step) -> Result<(), Fail> {
    match step {
        Step::Put(name, bytes) => {
            if name.kind == Kind::Floor {
                return Err(Fail::from("a floor is put by its own call"));
            }
            shelf.put(alloc, *name, bytes.as_slice())?;
        }
        Step::Floor(set, bytes) => shelf.put_floor(*set, bytes)?,
        Step::Remove(name) => shelf.remove(*name)?,
        Step::Settle => {}
    }
    Ok(())
}

impl Shelf for Recorded {
    ghost use Rattle.vault_ports.specs.Mem.{none_told};

    ghost told = { λ s.
        record { blobs = Some s.inner.blobs; history = None; faults = s.inner.faults; gets = s.inner.gets } };

    fn get(&mut self, alloc: Global, name: Name) -> Result<Option<Vec<u8>>, Refused> {
        self.inner.get(alloc, name)
    }

    fn put(&mut self, alloc: Global, name: Name, bytes: &[u8]) -> Result<(), Refused> {
        self.steps.push(Step::Put(name, bytes.to_vec(alloc)?))?;
        self.inner.put(alloc, name, bytes)
    }

    fn put_floor(&mut self, set: Set, bytes: &[u8; 28]) -> Result<(), Failed> {
        let _ = self.steps.push(Step::Floor(set, *bytes));
        self.inner.put_floor(set, bytes)
    }

    fn remove(&mut self, name: Name) -> Result<(), Failed> {
        let _ = self.steps.push(Step::Remove(name));
        self.inner.remove(name)
    }

    fn list(&mut self, alloc: Global) -> Result<Vec<Name>, Refused> {
        self.inner.list(alloc)
    }

    fn settle(&mut self) -> Result<(), Failed> {
        self.inner.settle()?;
        let _ = self.steps.push(Step::Settle);
        Ok(())
    }

    fn faults(&self) -> u64 {
        self.inner.faults()
    }

    ghost reads_an_image = { λ s h kept. absurd (none_told h kept) };
}

// A store on a shelf.
ghost use Rattle.std.specs.Prelude.{◌≡◌, ◌<◌, ◌^◌, None, length, IfOk, IfErr};
ghost use Rattle.vault_types.specs.declared.Name.{Name as Named};
ghost use Rattle.vault_types.specs.State.{State};
ghost use Rattle.store_model.specs.Leaves.{Begins};
ghost use Rattle.store_model.specs.Strays.{StraysOf};
ghost use Rattle.store_model.specs.Early.{HasOpened, IsSameBut, IsStartFault};
ghost use Rattle.store_model.specs.Migrating.{MigratesStore};
ghost use Rattle.command_runner.specs.Showing.{AnswersRecipe};

use script_runner::LineStore;
use std::alloc::Global;
use vault_traits::Shelf;
use vault_types::{Answer, Fault, Recipe, Set, Version};

/// A store that opens on a shelf, and gives it back.
pub trait ShelfStore<S: Shelf>: LineStore {
    /// Opens the store. It writes nothing; `StoreFault`, `Damaged` with the first damage in the order of opening, `Memory`.
    fn start(alloc: Global, shelf: S) -> Result<Self, (Fault, S)>
        ensures opened { IfOk result (λ k. HasOpened (S.told shelf)) }
        ensures same { IfOk result (λ k. IsSameBut (S.told shelf) (Self.shelf k)) }
        ensures keeps { IfOk result (λ k. (T : State) → Begins (S.told shelf) T → Self.keeps k T None) }
        ensures strays { IfOk result (λ k. (T : State) → Begins (S.told shelf) T → (n : Named)
            → Self.strays k n → StraysOf (S.told shelf) T n) }
        ensures err { IfErr result (λ e. IsSameBut (S.told shelf) (S.told e.1)
            × IsStartFault (S.told shelf) (S.told e.1) e.0) };

    /// The recipe of a version. `NotKept`, exactly where the version is not kept; `StoreFault`, `Damaged`, `Memory`. All of the
    /// store is as before.
    fn recipe(&mut self, alloc: Global, set: Set, version: Version) -> Result<Recipe, Fault>
        ensures reads { AnswersRecipe (Self.keeps self.old) (Self.shelf self.old) (Self.shelf self.new) set
            version result }
        ensures few { IfOk result (λ r. length r.rows < 2 ^ 32) };

    /// Puts each recipe of the first format again in the second. `StoreFault`, `Damaged`, `Memory`.
    fn migrate(&mut self, alloc: Global) -> Result<Answer, Fault>
        ensures { MigratesStore (Self.keeps self.old) (Self.keeps self.new) (Self.strays self.old)
            (Self.strays self.new) (Self.shelf self.old) (Self.shelf self.new) result };

    /// The shelf. It takes no memory.
    fn close(self) -> S
        ensures { S.told result ≡ Self.shelf self };
}

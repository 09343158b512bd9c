// Why a call over a shelf is refused.
ghost use Rattle.std.specs.Prelude.{◌≡◌};
ghost use Rattle.vault_traits.specs.Causes.{fault_of};

use vault_traits::{Refused, Shelf};
use vault_types::Fault;

/// The fault of a shelf call that was just refused: the number of a `StoreFault` is the shelf's count of faults.
pub fn fault_of<S: Shelf>(shelf: &S, refused: Refused) -> Fault
    ensures { result ≡ fault_of (S.told shelf.now).faults refused }
{
    match refused {
        Refused::Failed => Fault::StoreFault(shelf.faults()),
        Refused::Memory => Fault::Memory,
    }
}

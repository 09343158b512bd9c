// What a shelf that tells its crashes keeps of a call.
ghost use Rattle.std.specs.Prelude.{◌≢◌};
ghost use Rattle.vault_types.specs.declared.Kind.TheVariants as kind;

use vault_types::{Name, Set};

// A put of a name that is not a floor's.
#[derive(Drop)]
pub struct Writing {
    pub name: Name,
    pub bytes: Vec<u8>,
    ghost not_floor: { name.kind ≢ kind.Floor },
}

// A writing call, or a settle that succeeded.
#[derive(Drop)]
pub enum Entry {
    Put(Writing),
    Floor(Set, [u8; 28]),
    Remove(Name),
    Settle,
}

// What is under a name of the places of `fill`.
use std::marker::Model;
use vault_types::Version;
use vault_types::list::ListOf;
use vault_types::text::Text;

// A version from 1 to 64.
#[derive(Drop)]
pub struct FillVersion {
    number: Version,
}

impl Model for FillVersion {
    ghost use Rattle.std.specs.Prelude.{ℕ, ◌≤◌};

    ghost Value = { ℕ };

    ghost view = { λ v. v.number };

    ghost invariant = { λ v. (1 ≤ v.number) × (v.number ≤ 64) };
}

impl FillVersion {
    ghost use Rattle.std.specs.Prelude.{◌≡◌, ◌≤◌};

    pub fn new(number: Version) -> FillVersion
        requires low { 1 ≤ number }
        requires high { number ≤ 64 }
        ensures { result ≡ number }
    {
        FillVersion { number }
    }

    pub fn number(&self) -> Version
        ensures is { result ≡ self.now }
        ensures low { 1 ≤ result }
        ensures high { result ≤ 64 }
    {
        self.number
    }
}

// A name, and the version that it gives, or else its bytes.
#[derive(Drop)]
pub struct FillPlace {
    pub name: Text,
    pub version: Option<FillVersion>,
    pub bytes: ListOf<u8>,
}

impl FillPlace {
    ghost use Rattle.std.specs.Prelude.{◌≡◌, None};

    // Has these bytes in place of what it had.
    pub fn give(&mut self, bytes: Vec<u8>)
        ensures { self.new ≡ record self.old { version = None; bytes = bytes.items } }
    {
        self.version = None;
        self.bytes = ListOf::from_vec(bytes);
    }
}

// A restore that runs beside lines.
use running_restore::RunningRestore;
use std::marker::Model;
use vault_traits::{Shelf, Sink};
use vault_types::text::Text;

/// A restore that runs, with the name of its output, the place of its line, and whether its reply
/// was taken.
#[derive(Drop)]
pub struct Beside<S: Shelf, O: Sink + Drop> {
    pub(crate) restore: RunningRestore<S, O>,
    pub(crate) name: Text,
    pub(crate) place: usize,
    pub(crate) ended: bool,
}

impl<S: Shelf, O: Sink + Drop> Model for Beside<S, O> {
    ghost use Rattle.std.specs.Coded.{codes};
    ghost use Rattle.vault_traits.specs.Codes.{coded_blobs, coded_history};
    ghost use Rattle.beside_steps.specs.Holding.{BesideView};

    ghost Value = { BesideView };

    ghost coded = { Prim.hlevel (codes, coded_blobs, coded_history) };

    ghost view = { λ e. record { restore = e.restore; name = e.name; place = e.place; ended = e.ended } };
}

impl<S: Shelf, O: Sink + Drop> Beside<S, O> {
    ghost use Rattle.std.specs.Prelude.{◌≡◌};

    /// The place of its line among the lines.
    pub fn place(&self) -> usize
        ensures { result ≡ self.now.place }
    {
        self.place
    }
}

// The sum of a version.
ghost use Rattle.std.specs.Prelude.{◌≡◌};
ghost use Rattle.vault_types.specs.Names.{fp};

use crate::generated::Generated;
use fingerprint_stage::RunningSum;
use vault_traits::{Failed, Source};
use vault_types::Fp;

// The SHA-1 of what is left of a version.
pub fn sum_of_rest(source: Generated) -> Fp
    ensures { result ≡ fp source }
{
    let mut source = source;
    let mut sum = RunningSum::new();
    let mut piece = [0; 4096];
    'pieces: loop {
        let n = match source.read(&mut piece) {
            Ok(n) => n,
            Err(Failed) => unreachable!(),
        };
        if n == 0 {
            return sum.finish();
        }
        sum.add(&piece[..n]);
    }
}

// Where a chunk ends, as its bytes pass.
ghost use Rattle.std.specs.Prelude.{◌≡◌, ℕ, ◌+◌, ◌<◌, ◌≤◌, List, []};
ghost use Rattle.chunk_ae.specs.Scans.{IsScan, IsScanned};

// What is kept of a chunk's bytes so far: how many there are, the last eight as a number, the greatest such number so
// far, and the length that the chunk has where no greater one comes.
#[derive(Clone, Copy)]
pub(crate) struct Scan {
    pub(crate) len: usize,
    pub(crate) recent: u64,
    pub(crate) peak: u64,
    pub(crate) end: usize,
}

// A chunk ends after so many bytes of a piece, or goes on behind it.
#[derive(Clone, Copy)]
pub(crate) enum Scanned {
    End(usize),
    Open(Scan),
}

impl Scan {
    // No bytes so far.
    pub(crate) fn new(window: usize) -> Self
        requires some { 1 ≤ window }
        requires most { window < 65536 }
        ensures { (max : ℕ) → window < max → IsScan window max [] result }
    {
        Scan {
            len: 0,
            recent: 0,
            peak: 0,
            end: window + 1,
        }
    }
}

// Looks at the bytes of a piece, behind those that were scanned.
pub(crate) fn scan_piece(window: usize, max: usize, start: &Scan, piece: &[u8]) -> Scanned
    requires some { 1 ≤ window }
    requires less { window < max }
    requires most { max ≤ 65536 }
    requires len { start.now.len < start.now.end }
    requires end { start.now.end ≤ max }
    ensures { (x : List ℕ) → IsScan window max x start.now → IsScanned window max x piece.now result }
{
    let room = max - start.len;
    let mut stop = start.end - start.len;
    let mut recent = start.recent;
    let mut peak = start.peak;
    for (i, byte) in piece.iter().enumerate() {
        recent = (recent << 8) | *byte as u64;
        if recent > peak {
            peak = recent;
            stop = (i + 1 + window).min(room);
        }
        if i + 1 == stop {
            return Scanned::End(stop);
        }
    }
    Scanned::Open(Scan {
        len: start.len + piece.len(),
        recent,
        peak,
        end: start.len + stop,
    })
}

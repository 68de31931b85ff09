// A run of Router-LSAs: finds the first bad LSA (number 16), or how many LSAs the run is. Preparation of Point 6, which no call uses yet.
#![tactic(auto)]

ghost use Rattle.std.specs.Prelude.{◌≡◌};
ghost use Rattle.ospf.specs.Run.{scan};
ghost use Rattle.router_lsa.specs.Scan.{scanned};

use field::be32_at;
use scan::{Hand, lsa_good};

mod entry;
pub mod field;
mod fletcher;
mod lsa;
mod scan;

// The number of the first bad LSA of a run.
#[derive(Clone, Copy, PartialEq, Eq, Debug)]
pub struct Bad(pub usize);

// Goes over a run, and tells how many LSAs it is.
pub fn scan_run(run: &[u8]) -> Result<usize, Bad>
    ensures { scanned result ≡ scan run.now }
{
    let mut hand = Hand {
        ids: [0u32; 64],
        start: 0,
    };
    let mut i: usize = 0;
    let mut at: usize = 0;
    while at < run.len() {
        let Some(next) = lsa_good(run, at, i, &hand) else {
            return Err(Bad(i));
        };
        if i < 64 {
            hand.ids[i] = be32_at(run, at + 4);
            hand.start = next;
        }
        at = next;
        i += 1;
    }
    Ok(i)
}

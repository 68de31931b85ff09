// The table of ranks that is lent with a repair question: one rank for each class. Each function takes any bytes.
ghost use Rattle.std.specs.Prelude.{◌≡◌};
ghost use Rattle.lfa.specs.Ranks.{times_given, is_arrangement};

// How many entries of a table are this rank. They are counted, and not marked in a set of bits: a byte may be larger than the number of
// any bit.
fn times_given(ranks: &[u8], rank: u8) -> usize
    ensures { result ≡ times_given ranks.now rank }
{
    let mut given: usize = 0;
    for entry in ranks {
        if *entry == rank {
            given += 1;
        }
    }
    given
}

// Whether a table holds 0 to 7 once each and nothing else.
pub fn arranged(ranks: &[u8]) -> bool
    ensures { result ≡ is_arrangement ranks.now }
{
    if ranks.len() != 8 {
        return false;
    }
    for rank in 0..8 {
        if times_given(ranks, rank) != 1 {
            return false;
        }
    }
    true
}

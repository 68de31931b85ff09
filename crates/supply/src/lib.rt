// The choice supply: the lent choice bytes together with the place of the next one.
#![tactic(auto)]

ghost use Rattle.std.specs.Prelude.{◌≡◌};
ghost use Rattle.lfa.specs.Route.{choice_at};
ghost use Rattle.supply.specs.Supply.{advanced};

#[derive(Drop)]
pub struct Choices<'a> {
    pub bytes: &'a [u8],
    pub place: usize,
}

impl<'a> Choices<'a> {
    // The next byte, 0 where the bytes have run out, and the supply moved on: where they have run out it stays.
    pub fn next(&mut self) -> u8
        ensures { (result ≡ choice_at self.old.bytes.now self.old.place) × (self.new ≡ advanced self.old) }
    {
        let place = self.place;
        if place < self.bytes.len() {
            self.place = place + 1;
            self.bytes[place]
        } else {
            0
        }
    }
}

// The choice byte at a place, drawn from a supply that stands there.
pub fn choice(bytes: &[u8], place: usize) -> u8
    ensures { result ≡ choice_at bytes.now place }
{
    let mut supply = Choices { bytes, place };
    supply.next()
}

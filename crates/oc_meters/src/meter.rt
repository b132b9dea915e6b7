//! Meters.
ghost use Rattle.std.specs.Prelude.{◌≡◌, ◌<◌, ◌≤◌, ℕ, List, length};
ghost use Rattle.std.proofs.Math.ListN.{get_or};
ghost use Rattle.oc_meters.specs.Tally.{readings, tallied, tell_readings, width};

use oc_items::item::Item;

/// Is told the items of a report one by one, and summarises them in numbers.
///
/// Its kind never changes: 0 counts inputs, outputs, commits, aborts and outages, 1 has the sum and
/// the greatest of the times without power, 2 the aborts since the last commit and the most of
/// these. Numbers stop at the greatest of 64 bits. Nothing here takes memory.
pub trait Meter: Drop {
    ghost kind_of: { Self → ℕ };

    ghost numbers: { Self → List ℕ };

    /// Its kind, from 0 to 2, which says how many numbers it has: 5, 2 and 2.
    fn kind(&self) -> u8
        ensures kind { result ≡ kind_of self.now }
        ensures known { kind_of self.now ≤ 2 }
        ensures width { length (numbers self.now) ≡ width (kind_of self.now) };

    /// One of its numbers.
    fn number(&self, at: u8) -> u64
        requires { at < length (numbers self.now) }
        ensures { result ≡ get_or (numbers self.now) at 0 };

    /// Is told an item.
    fn tell(&mut self, item: &Item)
        ensures kind { kind_of self.new ≡ kind_of self.old }
        ensures numbers { numbers self.new
            ≡ tallied (kind_of self.old) item.now (numbers self.old) };
}

impl Meter for Box<dyn Meter> {
    ghost kind_of = { λ b. (Meter-box b).kind_of b.value };

    ghost numbers = { λ b. (Meter-box b).numbers b.value };

    fn kind(&self) -> u8 {
        (**self).kind()
    }

    fn number(&self, at: u8) -> u64 {
        (**self).number(at)
    }

    fn tell(&mut self, item: &Item) {
        (**self).tell(item)
    }
}

/// Tells all of them an item.
pub fn tell_all<M: Meter>(meters: &mut Vec<M>, item: &Item)
    ensures { readings M.kind_of M.numbers meters.new.items
        ≡ tell_readings item.now (readings M.kind_of M.numbers meters.old.items) }
{
    for meter in meters.iter_mut() {
        meter.tell(item);
    }
}

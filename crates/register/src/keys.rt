// Keys: values with a total order.
ghost use Rattle.std.specs.Prelude.{◌≡◌, Bool, nat_lt};
ghost use Rattle.register.specs.Orders.{TotalOrder, climbs};
ghost use Rattle.std.proofs.Common.{rules};

// A kind of key. `before` is its order, as a test, and the order is total: two keys of which neither is before the other are one key. `Ord`
// does not promise that, and asking for both would ask more of a key.
pub trait Key: Copy {
    ghost before: { Self → Self → Bool };

    // Whether a key comes before another.
    fn precedes(&self, other: &Self) -> bool
        ensures { result ≡ before self.now other.now };

    ghost order: { TotalOrder before };
}

// Account numbers are ordered as numbers.
impl Key for u32 {
    ghost before = { nat_lt };

    ghost order = { Prim.search rules };

    fn precedes(&self, other: &u32) -> bool {
        self < other
    }
}

// Whether each key of a list comes before the next.
pub fn is_rising<K: Key>(keys: &[K]) -> bool
    ensures { result ≡ climbs K.before keys.now }
{
    keys.is_sorted_by(|a, b| a.precedes(b))
}

// Bond codes as keys.
ghost use Rattle.std.specs.Prelude.{◌≡◌};
ghost use Rattle.register.specs.Orders.{bytes_before, code_before};
ghost use Rattle.register.specs.Bytes.{code_order};

use crate::keys::Key;
use terms::calls::BondCode;

// Whether eight bytes come before others: the numbers that they spell, the first byte highest, are ordered alike.
fn is_before(a: [u8; 8], b: [u8; 8]) -> bool
    ensures { result ≡ bytes_before a b }
{
    u64::from_be_bytes(a) < u64::from_be_bytes(b)
}

// Bond codes are compared from the first byte.
impl Key for BondCode {
    ghost before = { code_before };

    ghost order = { code_order };

    fn precedes(&self, other: &BondCode) -> bool {
        is_before(self.bytes, other.bytes)
    }
}

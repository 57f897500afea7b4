// The calls on an opened month.
ghost use Rattle.std.specs.Prelude.{◌≡◌};
ghost use Rattle.std.specs.List.{list_all};
ghost use Rattle.terms.specs.Codes.{between, visible, used};

// An account's number; every 32-bit number is one.
pub type Account = u32;

// The code of a bond; any eight bytes are one. Codes are compared from the first byte.
#[derive(Clone, Copy, Debug, Default, PartialEq, Eq, PartialOrd, Ord)]
pub struct BondCode {
    pub bytes: [u8; 8],
}

impl BondCode {
    // Whether every byte lies between two bytes, both included.
    pub fn lies_between(&self, low: u8, high: u8) -> bool
        ensures { result ≡ list_all (between low high) self.now.bytes }
    {
        // a copy is read as one number; through the reference each byte is read by itself
        let bytes = self.bytes;
        bytes.iter().all(|b| (low..=high).contains(b))
    }

    // Whether every byte is a visible ASCII character.
    pub fn is_visible(&self) -> bool
        ensures { result ≡ visible self.now }
    {
        self.lies_between(33, 126)
    }
}

// Lots of one bond in a seller's declaration; an unused entry is all zero, as hosts lend it, and no `None`.
#[derive(Clone, Copy, Debug, Default, PartialEq, Eq)]
pub struct BondLots {
    pub bond: BondCode,
    pub lots: u32,
}

impl BondLots {
    // Whether anything in the entry is not zero.
    pub fn is_used(&self) -> bool
        ensures { result ≡ used self.now }
    {
        self.lots != 0 || !self.bond.lies_between(0, 0)
    }
}

// What can be asked of an opened month.
#[derive(Clone, Copy, Debug, PartialEq, Eq)]
pub enum Call {
    Trade {
        buyer: Account,
        seller: Account,
        lots: u32,
    },
    DeclarePurchase {
        minute: u16,
        account: Account,
        lots: u32,
    },
    // the quantity is the total of the entries; the lots field is only held to its limits
    DeclareSale {
        minute: u16,
        account: Account,
        lots: u32,
        bonds: [BondLots; 4],
    },
    Withdraw {
        minute: u16,
        account: Account,
    },
    OpenTrial,
    KeepTrial,
    DropTrial,
    // has no record: a host asks for it directly
    Preview {
        day: u32,
    },
    Draw,
    // what became of a leg; mark 0 is done, 1 the seller failed, 2 the buyer, 3 both. Any byte is read: the call judges it, and refuses others
    LegResult {
        leg: u32,
        mark: u8,
        unfinished: u32,
    },
    NextDay,
}

// The fields of a record.
use terms::calls::BondLots;

// A record taken apart. Which of the fields mean something is the letter's to say.
#[derive(Clone, Copy, Debug, Default, PartialEq, Eq)]
pub(crate) struct Fields {
    // any byte: it is read before it is known to be a letter
    pub letter: u8,
    // any byte: whether it is a mark is judged by the call
    pub mark: u8,
    pub minute: u16,
    pub account: u32,
    pub lots: u32,
    pub second: u32,
    pub entries: [BondLots; 4],
}

impl Fields {
    ghost use Rattle.std.specs.Prelude.{◌≡◌};
    ghost use Rattle.record.specs.Layouts.{field_values, no_entries};

    // The fields of a record in which only the letter is not zero.
    #[tactic(auto, using(crate::proofs::Blank::blank_entries))]
    pub(crate) fn lettered(letter: u8) -> Fields
        ensures { result ≡ field_values letter 0 0 0 0 0 no_entries }
    {
        Fields {
            letter,
            ..Fields::default()
        }
    }
}

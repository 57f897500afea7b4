// What a rule answers: which lists, numbers and areas.
ghost use Rattle.std.specs.Prelude.{◌≡◌, ◌≤◌, length, sum};
ghost use Rattle.std.specs.List.{list_all};
ghost use Rattle.terms.specs.Codes.{between};
ghost use Rattle.oddlot.specs.Sharing.{can_split};

// The lots of a list in all.
pub(crate) fn total(lots: &[u32]) -> u64
    requires { length lots.now ≤ 256 }
    ensures { result ≡ sum lots.now }
{
    lots.iter().map(|q| u64::from(*q)).sum()
}

// Whether a rule answers for a list, a number and an area of so many places.
pub(crate) fn can_split(lots: &[u32], n: u32, places: usize) -> bool
    ensures { result ≡ can_split lots.now n places }
{
    if !(1..=256).contains(&lots.len()) || places != lots.len() {
        return false;
    }
    are_entries(lots) && u64::from(n) <= total(lots)
}

// Whether each entry has 1 to 100,000 lots.
fn are_entries(lots: &[u32]) -> bool
    ensures { result ≡ list_all (between 1 100000) lots.now }
{
    lots.iter().all(|q| (1..=100_000).contains(q))
}

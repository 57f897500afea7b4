// The fields that a letter names. All others are zero.
#[derive(Clone, Copy, Debug, Default, PartialEq, Eq)]
pub(crate) struct Layout {
    pub mark: bool,
    pub minute: bool,
    pub account: bool,
    pub lots: bool,
    pub second: bool,
    // as many entries from the first
    pub entries: usize,
}

// What calls answer, as the numbers that hosts see.
use terms::refusals::Refusal;

// The number of a refusal; 0 is granted.
pub(crate) fn number<T: Drop>(answer: Result<T, Refusal>) -> u32 {
    answer.err().map_or(0, u32::from)
}

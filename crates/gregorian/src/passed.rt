// What has passed at the start of a day: whole years, or whole months of a year, and the days after them. Both engines have it.
#[derive(Clone, Copy, Debug, PartialEq, Eq)]
pub struct Passed {
    pub whole: u64,
    pub left: u64,
}

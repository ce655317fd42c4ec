// What is kept of a page: the erases made so far, and how many are allowed.
#[derive(Clone, Copy, PartialEq, Eq, Debug)]
pub struct PageRecord {
    pub made: u32,
    pub allowed: u32,
}

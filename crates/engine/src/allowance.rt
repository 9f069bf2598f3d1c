// How many runs an engine still makes.

// A number of runs, or no limit.
// Kept: an `Option<u64>` would say `None` where there is no limit, which reads as none left, and is the smallest in its order.
#[derive(Clone, Copy, PartialEq, Eq, Debug)]
pub enum Allowance {
    Limited(u64),
    Unlimited,
}

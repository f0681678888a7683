// Why a routing was refused.
#[derive(Clone, Copy, PartialEq, Eq, Debug)]
pub enum RouteFault {
    // A number is outside the counts.
    OutOfRange,
    // Both numbers are inside the counts, and the pair cannot be made.
    CannotBeMade,
}

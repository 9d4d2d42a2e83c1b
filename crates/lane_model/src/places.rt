//! Where a lane of a permute's result comes from.

/// What stands in a lane of a result. Lanes are of a Z register, fields of a predicate, or items of a list.
#[derive(Clone, Copy)]
pub enum LaneSource {
    /// A lane of the first source.
    FirstLane(usize),
    /// A lane of the second source.
    SecondLane(usize),
    /// The scalar source.
    Scalar,
    /// The number 0, or a bit that is 0.
    Zero,
}

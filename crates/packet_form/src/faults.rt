// Why there is no geometry of some numbers.
use thiserror::Error;

/// Why there is no geometry of these numbers. The number of hops is judged first.
#[derive(Clone, Copy, Debug, PartialEq, Eq, Error)]
pub enum GeometryFault {
    /// The number of hops isn't 1 to 5.
    #[error("the number of hops isn't 1 to 5")]
    Hops,
    /// The length of the body isn't 1 to 4,096.
    #[error("the length of the body isn't 1 to 4096")]
    Body,
}

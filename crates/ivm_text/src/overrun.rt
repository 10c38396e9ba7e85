//! What is told where cells run out.

use thiserror::Error;

/// The cells charged and those asked are together above the limit.
#[derive(Debug, Clone, Copy, PartialEq, Eq, Error)]
#[error("{charged} cells charged and {asked} asked, of {limit}")]
pub struct Overrun {
    /// The charge before the call, in cells.
    pub charged: u32,
    /// The price of what was to be added, in cells; 4,294,967,295 stands for all above it too.
    pub asked: u32,
    /// The most cells that may be charged.
    pub limit: u32,
}

//! The numbers with which tickets are made.

/// The numbers with which tickets are made: how many units there are, and how many workers may
/// draw.
#[derive(Drop)]
pub struct Lot {
    pub count: u64,
    pub workers: u64,
}

//! Where a failing walk goes.

/// Where a failing walk goes from a block: nowhere, as none fails from here; it fails at the block's own check; or it follows the
/// edge of this number, the lowest one from which some walk fails.
#[derive(Clone, Copy)]
pub enum Turn {
    Well,
    Ends,
    Leads(usize),
}

// How large a sheet may be.

// A sheet has no more routes than these.
pub(crate) const ROUTE_LIMIT: usize = 512;

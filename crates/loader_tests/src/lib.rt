// Runs of a loader that no bench has: no page at all, two chips, small buffers, tickets of another part, what Get tells.
// Each expected value was worked out by hand from docs/PROTOCOL.md, the checksums by another implementation.
#![tactic(auto)]

#[cfg(test)]
mod driving;
#[cfg(test)]
mod tests;

// Motion vectors of a segment's macroblocks: each is predicted from its neighbours inside the segment and corrected by its difference.
// Relies on the records of a delivery and on the rules for single components.
#![tactic(auto)]

pub mod candidates;
pub mod cells;
pub mod vectors;

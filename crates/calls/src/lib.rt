// The calls of a reel by their meaning: what each is asked, what it is answered, what the stores and tables then hold, and the law that holds over
// every list of calls. The code of the calls stands in the crate above.
#![tactic(auto)]

pub mod answers;
pub mod faults;

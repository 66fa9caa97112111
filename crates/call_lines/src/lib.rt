// The lines of a script that makes every call of a reel: what each line says, or what is wrong with it.
// Relies on `calls` for the calls, on `transform` for its transforms and on `script` for fields, numbers and the lines of records.
#![tactic(auto)]

pub mod line;

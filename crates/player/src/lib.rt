// Plays a script line by line: makes its calls on reels of its own, and gives the text of the answers.
// Relies on `reels_in_memory` for the calls, on `call_lines` for the lines and on `transcripts` for the text.
#![tactic(auto)]

mod playing;

pub use playing::play;

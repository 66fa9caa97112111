// A reel together with its memory, in the store that a script chose for it, and its transform. Makes calls and transcribes the answers. Relies on `replay`
// for the calls, on `call_lines` for the name of the store and on `transcripts` for the text. Where memory for the text fails while a picture is open the calls go
// on without it, since the slip has to be handed in whatever happens; the text is then withheld as a whole.
#![tactic(auto)]

pub mod calling;
mod copies;
mod memories;
pub mod reel_in_memory;

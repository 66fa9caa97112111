// The text of a script's answers, and the count of its calls.
ghost use Rattle.std.specs.Prelude.{◌≡◌, ℕ, List, [], ◌∷◌, ◌++◌, IfSome, IsSome, Some, None, string_bytes, codes};
ghost use Rattle.std.specs.Option.{option_map};
ghost use Rattle.std.specs.Result.{result_ok};
ghost use Rattle.std.specs.Fmt.{option_append};
ghost use Rattle.transcripts.specs.Answers.{Grown, answer_text, done_text, word_text};
ghost use Rattle.transcripts.specs.Tallies.{is_refused, one_more, one_more_if};
ghost use Rattle.transcripts.specs.Transcribed.{Transcribes, transcribe_answer, transcribe_done, with_line};

use crate::answers::{Answered, Word};
use calls::answers::Answer;
use std::alloc::{AllocError, Global};
use std::fmt;

// The answers so far, how many calls they answer and how many of those were refused. There is no text from the time on that memory failed for a line.
#[derive(Drop)]
pub struct Transcript {
    text: Option<String>,
    calls: u64,
    refused: u64,
}

// Whether an answer is a refusal. A call out of turn is answered, and not refused.
fn is_refused(answer: Answer) -> bool
    ensures { result ≡ is_refused answer }
{
    matches!(answer, Answer::Refused(_))
}

// A text with a line more, unless memory fails.
fn with_line<D: fmt::Display + Drop>(mut text: String, line: D) -> Option<String>
    ensures { IfSome result (λ t. IfSome (option_append (D.Display.output line) (Some (10 ∷ []))) (λ bs. string_bytes t ≡ string_bytes text ++ bs)) }
{
    text.writeln(line).ok()?;
    Some(text)
}

impl Transcript {
    pub fn new(heap: Global) -> Transcript
        ensures text { option_map string_bytes result.text ≡ Some [] }
        ensures calls { result.calls ≡ 0 }
        ensures refused { result.refused ≡ 0 }
    {
        Transcript {
            text: Some(String::new(heap)),
            calls: 0,
            refused: 0,
        }
    }

    // From here on there is no text, since memory did not suffice for a part of it.
    pub fn fall_short(&mut self)
        ensures text { self.new.text ≡ None }
        ensures calls { self.new.calls ≡ self.old.calls }
        ensures refused { self.new.refused ≡ self.old.refused }
    {
        self.text = None;
    }

    // Adds to the text.
    fn push<D: fmt::Display + Drop>(&mut self, line: D)
        ensures calls { self.new.calls ≡ self.old.calls }
        ensures refused { self.new.refused ≡ self.old.refused }
        ensures short { IsSome self.new.text → IsSome self.old.text }
        ensures text { IfSome self.new.text (λ t. IfSome self.old.text (λ s. IfSome (option_append (D.Display.output line) (Some (10 ∷ []))) (λ bs. string_bytes t ≡ string_bytes s ++ bs))) }
    {
        self.text = match self.text.take() {
            Some(text) => with_line(text, line),
            None => None,
        };
    }

    // Adds a line.
    pub fn add<D: fmt::Display + Drop>(&mut self, line: D)
        ensures calls { self.new.calls ≡ self.old.calls }
        ensures refused { self.new.refused ≡ self.old.refused }
        ensures short { IsSome self.new.text → IsSome self.old.text }
        ensures text { IfSome self.new.text (λ t. IfSome self.old.text (λ s. IfSome (option_append (D.Display.output line) (Some (10 ∷ []))) (λ bs. string_bytes t ≡ string_bytes s ++ bs))) }
        ensures transcribed { (text : List ℕ) → D.Display.output line ≡ Some text → Transcribes (with_line text) self.old self.new }
    {
        self.push(line);
    }

    // Counts a call, and whether it was refused.
    fn count(&mut self, refused: bool)
        ensures calls { self.new.calls ≡ one_more self.old.calls }
        ensures refused { self.new.refused ≡ one_more_if refused self.old.refused }
        ensures text { self.new.text ≡ self.old.text }
    {
        self.calls = self.calls.saturating_add(1);
        if refused {
            self.refused = self.refused.saturating_add(1);
        }
    }

    // Adds the answer to a call.
    pub fn answer(&mut self, word: Word, answer: Answer)
        ensures calls { self.new.calls ≡ one_more self.old.calls }
        ensures refused { self.new.refused ≡ one_more_if (is_refused answer) self.old.refused }
        ensures text { Grown self.old.text self.new.text (answer_text word answer) }
        ensures transcribed { Transcribes (transcribe_answer word answer) self.old self.new }
    {
        self.count(is_refused(answer));
        self.add(Answered { word, answer });
    }

    // Adds that a call was done, where its answer has no numbers.
    pub fn accept(&mut self, word: Word)
        ensures calls { self.new.calls ≡ one_more self.old.calls }
        ensures refused { self.new.refused ≡ self.old.refused }
        ensures text { Grown self.old.text self.new.text (word_text word ++ codes " ok") }
        ensures transcribed { Transcribes (transcribe_done word) self.old self.new }
    {
        self.count(false);
        self.add(format_args!("{word} ok"));
    }

    // The whole text, with the counts at its end, unless memory failed for a part of it.
    pub fn finish(mut self) -> Result<String, AllocError>
        ensures { Grown self.text (result_ok result) (done_text self.calls self.refused) }
    {
        let calls = self.calls;
        let refused = self.refused;
        self.push(format_args!("done {calls} calls, {refused} refused"));
        self.text.ok_or(AllocError)
    }
}

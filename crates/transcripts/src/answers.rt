// The answer to a call, as the text of a line.
ghost use Rattle.std.specs.Prelude.{◌≡◌, Some};
ghost use Rattle.calls.specs.Runs.{call_of};
ghost use Rattle.transcripts.specs.Answers.{ages_text, answer_text, later_ages, misread_text, mistake_text, word_for, word_text};

use calls::answers::{Answer, Call};
use script::line::Mistake;
use std::fmt;

// The first word of a line that makes a call.
#[derive(Clone, Copy)]
pub enum Word {
    New,
    Open,
    Deliver,
    Close,
    Sample,
    Age,
    Ages,
    Records,
}

// The word that the answer to a call begins with.
impl From<&Call<&[u8]>> for Word {
    ghost from_gives = { λ call word. word ≡ word_for (call_of call.now) };

    fn from(call: &Call<&[u8]>) -> Word {
        match call {
            Call::Open { .. } => Word::Open,
            Call::Deliver { .. } => Word::Deliver,
            Call::Close => Word::Close,
            Call::Sample { .. } => Word::Sample,
            Call::Age { .. } => Word::Age,
        }
    }
}

impl fmt::Display for Word {
    ghost output = { λ w. Some (word_text w) };

    fn fmt<W: fmt::Write>(&self, f: &mut fmt::Formatter<W>) -> fmt::Result {
        match self {
            Word::New => f.write_str("new"),
            Word::Open => f.write_str("open"),
            Word::Deliver => f.write_str("deliver"),
            Word::Close => f.write_str("close"),
            Word::Sample => f.write_str("sample"),
            Word::Age => f.write_str("age"),
            Word::Ages => f.write_str("ages"),
            Word::Records => f.write_str("records"),
        }
    }
}

// A call by its word, and what it was answered.
#[derive(Clone, Copy)]
pub struct Answered {
    pub word: Word,
    pub answer: Answer,
}

impl fmt::Display for Answered {
    ghost output = { λ a. Some (answer_text a.word a.answer) };

    fn fmt<W: fmt::Write>(&self, f: &mut fmt::Formatter<W>) -> fmt::Result {
        let Answered { word, answer } = *self;
        match answer {
            Answer::Opened { segments } => write!(f, "{word} ok {segments}"),
            Answer::Delivered(delivered) => {
                let words = delivered.words;
                let intra = delivered.intra;
                write!(f, "{word} ok {words} {intra}")
            }
            Answer::Closed { marks } => write!(f, "{word} ok {marks}"),
            Answer::Sample(value) => write!(f, "{word} ok {value}"),
            Answer::Age(age) => write!(f, "{word} ok {age}"),
            Answer::Refused(fault) => {
                let refusal = fault.refusal();
                write!(f, "{word} no {refusal}")
            }
            Answer::OutOfTurn => write!(f, "{word} out-of-turn"),
        }
    }
}

// What is wrong with a line, in words.
fn words_for(mistake: Mistake) -> &'static str
    ensures { result.now ≡ mistake_text mistake }
{
    match mistake {
        Mistake::Call => "no such call",
        Mistake::Store => "the store is bytes or tiles",
        Mistake::Transform => "the transform is two-pass or direct",
        Mistake::Number => "a decimal number below 4294967296 is due",
        Mistake::Kind => "the kind is 0 (INTRA) or 1 (INTER)",
        Mistake::Macroblocks => "the number of macroblocks is a decimal number below 4294967296",
        Mistake::Bytes => "bytes are pairs of hexadecimal digits, or - for none",
        Mistake::Fields => "too many fields",
    }
}

// A line of the script that is no call, by its number from 1 on.
#[derive(Clone, Copy)]
pub struct Misread {
    pub line: usize,
    pub mistake: Mistake,
}

impl fmt::Display for Misread {
    ghost output = { λ m. Some (misread_text m.line m.mistake) };

    fn fmt<W: fmt::Write>(&self, f: &mut fmt::Formatter<W>) -> fmt::Result {
        let line = self.line;
        let words = words_for(self.mistake);
        write!(f, "error {line}: {words}")
    }
}

// The ages of a row after the first, each after a space.
#[derive(Clone, Copy)]
struct LaterAges<'a> {
    ages: &'a [u8],
}

impl fmt::Display for LaterAges<'_> {
    ghost output = { λ later. Some (later_ages later.ages.now) };

    fn fmt<W: fmt::Write>(&self, f: &mut fmt::Formatter<W>) -> fmt::Result {
        for age in self.ages {
            write!(f, " {age}")?;
        }
        Ok(())
    }
}

// A row of an age table.
#[derive(Clone, Copy)]
pub struct AgeRow<'a> {
    pub ages: &'a [u8],
}

impl fmt::Display for AgeRow<'_> {
    ghost output = { λ row. Some (ages_text row.ages.now) };

    fn fmt<W: fmt::Write>(&self, f: &mut fmt::Formatter<W>) -> fmt::Result {
        let [first, ages @ ..] = self.ages else {
            return Ok(());
        };
        let later = LaterAges { ages };
        write!(f, "{first}{later}")
    }
}

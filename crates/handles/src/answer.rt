// Answers in numbers.
ghost use Rattle.std.specs.Prelude.{◌≡◌};
ghost use Rattle.handles.specs.Numbers.{layer_number, numbers_of, outcome_accepted, outcome_no_memory, outcome_out_of_turn, outcome_refused, outcome_unknown_choice};

use calls::answers::Answer;
use records::faults::{Layer, Refusal};

// What C is answered: `desktern_answer` of the header. Fields that an outcome does not name are 0.
#[repr(C)]
#[derive(Clone, Copy)]
pub struct AnswerNumbers {
    pub outcome: u32,
    pub number: u32,
    pub layer: u32,
    pub block: u32,
    pub word: u64,
    pub macroblock: u64,
    pub first: u64,
    pub second: u64,
}

// The number of a layer.
fn layer_number(layer: Layer) -> u32
    ensures { result ≡ layer_number layer }
{
    match layer {
        Layer::Picture => 0,
        Layer::Words => 1,
        Layer::Macroblock => 2,
        Layer::Block => 3,
        Layer::Segment => 4,
    }
}

// An outcome with nothing beside it.
const PLAIN: AnswerNumbers = AnswerNumbers {
    outcome: 0,
    number: 0,
    layer: 0,
    block: 0,
    word: 0,
    macroblock: 0,
    first: 0,
    second: 0,
};

impl AnswerNumbers {
    pub fn outcome_accepted(first: u64, second: u64) -> AnswerNumbers
        ensures { result ≡ outcome_accepted first second }
    {
        AnswerNumbers {
            first,
            second,
            ..PLAIN
        }
    }

    fn outcome_refused(refusal: Refusal) -> AnswerNumbers
        ensures { result ≡ outcome_refused refusal }
    {
        AnswerNumbers {
            outcome: 1,
            number: u32::from(refusal.number),
            layer: layer_number(refusal.layer),
            block: u32::from(refusal.block),
            word: refusal.word as u64,
            macroblock: refusal.macroblock as u64,
            ..PLAIN
        }
    }

    fn outcome_out_of_turn() -> AnswerNumbers
        ensures { result ≡ outcome_out_of_turn }
    {
        AnswerNumbers {
            outcome: 2,
            ..PLAIN
        }
    }

    pub fn outcome_no_memory() -> AnswerNumbers
        ensures { result ≡ outcome_no_memory }
    {
        AnswerNumbers {
            outcome: 3,
            ..PLAIN
        }
    }

    pub fn outcome_unknown_choice() -> AnswerNumbers
        ensures { result ≡ outcome_unknown_choice }
    {
        AnswerNumbers {
            outcome: 4,
            ..PLAIN
        }
    }
}

impl From<Answer> for AnswerNumbers {
    ghost from_gives = { λ answer numbers. numbers ≡ numbers_of answer };

    fn from(answer: Answer) -> AnswerNumbers {
        match answer {
            Answer::Opened { segments } => AnswerNumbers::outcome_accepted(u64::from(segments), 0),
            Answer::Delivered(delivered) => {
                AnswerNumbers::outcome_accepted(delivered.words as u64, delivered.intra as u64)
            }
            Answer::Closed { marks } => AnswerNumbers::outcome_accepted(u64::from(marks), 0),
            Answer::Sample(value) => AnswerNumbers::outcome_accepted(u64::from(value), 0),
            Answer::Age(age) => AnswerNumbers::outcome_accepted(u64::from(age), 0),
            Answer::Refused(fault) => AnswerNumbers::outcome_refused(fault.refusal()),
            Answer::OutOfTurn => AnswerNumbers::outcome_out_of_turn(),
        }
    }
}

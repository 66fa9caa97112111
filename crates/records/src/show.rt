// Refusals as text: number, layer, word, macroblock and block.
ghost use Rattle.std.specs.Prelude.{Some};
ghost use Rattle.records.specs.Shown.{layer_text, refusal_text};

use crate::faults::{Layer, Refusal};
use std::fmt;

impl fmt::Display for Layer {
    ghost output = { λ l. Some (layer_text l) };

    fn fmt<W: fmt::Write>(&self, f: &mut fmt::Formatter<W>) -> fmt::Result {
        f.write_str(match self {
            Layer::Picture => "picture",
            Layer::Words => "words",
            Layer::Macroblock => "macroblock",
            Layer::Block => "block",
            Layer::Segment => "segment",
        })
    }
}

impl fmt::Display for Refusal {
    ghost output = { λ r. Some (refusal_text r) };

    fn fmt<W: fmt::Write>(&self, f: &mut fmt::Formatter<W>) -> fmt::Result {
        let Refusal {
            number,
            layer,
            word,
            macroblock,
            block,
        } = *self;
        write!(f, "{number} {layer} {word} {macroblock} {block}")
    }
}

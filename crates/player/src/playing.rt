// Plays the lines of a script one after the other.
ghost use Rattle.std.specs.Prelude.{◌≡◌, ◌<◌, ◌^◌, length, map, IfOk, string_bytes};
ghost use Rattle.records.specs.Again.{records_of};
ghost use Rattle.pictures.specs.Formats.{format_of_number};
ghost use Rattle.script.specs.Fields.{lines_of};
ghost use Rattle.script.specs.Lines.{records_meant};
ghost use Rattle.calls.specs.Runs.{call_of};
ghost use Rattle.call_lines.specs.Lines.{line_meant, line_of};
ghost use Rattle.transcripts.specs.Transcribed.{Transcribes};
ghost use Rattle.player.specs.Plays.{ages_on, answers_to, begun, leaving, line_played, make_call, transcribe_macroblocks, transcribe_records, transcribed_of};
ghost use Rattle.player.specs.PlayedIn.{Plays, playing_in};

use call_lines::line::{Line, Said, StoreKind, read_line};
use calls::answers::{Answer, Call};
use calls::faults::PictureFault;
use records::checked::Delivery;
use reel::reels::Reel;
use reels_in_memory::reel_in_memory::{Choices, ReelInMemory};
use script::fields::lines_of;
use script::line::Records;
use std::alloc::{AllocError, Global};
use transcripts::answers::{Misread, Word};
use transcripts::macroblocks::Numbered;
use transcripts::transcript::Transcript;
use transform::TransformKind;

// The lines of a script. All are read before the first is played: while a picture may be open nothing is asked for that ends the playing, since its slip has
// to be handed in.
fn read_lines(heap: Global, script: &[u8]) -> Result<Vec<Said>, AllocError>
    ensures { IfOk result (λ lines. map line_meant lines.items ≡ map line_of (lines_of script.now)) }
{
    // a loop, and no `try_collect`: its invariant, the lines read before those left, is the whole proof
    let mut lines = Vec::new(heap);
    for line in lines_of(script) {
        lines.push(read_line(heap, line)?)?;
    }
    Ok(lines)
}

// Makes a call on the reel there is, and transcribes the answer; without a reel it is out of turn. (The reel goes by value from step to step, and not in a
// struct that is lent: a reel cannot be let go, so none can be put over another.)
fn make_call(
    reel: Option<ReelInMemory>,
    call: &Call<&[u8]>,
    transcript: &mut Transcript,
) -> Option<ReelInMemory>
    ensures { (choices : Choices) → Plays (make_call (call_of call.now)) reel choices transcript.old result choices transcript.new }
{
    match reel {
        Some(reel) => Some(reel.make_call(call, transcript)),
        None => {
            transcript.answer(Word::from(call), Answer::OutOfTurn);
            None
        }
    }
}

// Leaves the reel there was, if there was one.
fn leave(reel: Option<ReelInMemory>, transcript: &mut Transcript)
    ensures { Transcribes (leaving (playing_in reel)) transcript.old transcript.new }
{
    if let Some(reel) = reel {
        reel.leave(transcript);
    }
}

// Begins a new reel. A refused one leaves the reel there was, with its open picture.
fn begin(
    reel: Option<ReelInMemory>,
    heap: Global,
    format: u32,
    choices: Choices,
    transcript: &mut Transcript,
) -> Option<ReelInMemory>
    ensures { Plays (begun (format_of_number format)) reel choices transcript.old result choices transcript.new }
{
    match Reel::new(format) {
        Ok(resting) => {
            leave(reel, transcript);
            match ReelInMemory::new(heap, resting, choices) {
                Ok(reel) => {
                    transcript.accept(Word::New);
                    Some(reel)
                }
                Err(_) => {
                    transcript.fall_short();
                    None
                }
            }
        }
        Err(fault) => {
            transcript.answer(Word::New, Answer::Refused(fault));
            reel
        }
    }
}

fn transcribe_ages(reel: &Option<ReelInMemory>, transcript: &mut Transcript)
    ensures { Transcribes (ages_on (playing_in reel.now)) transcript.old transcript.new }
{
    match reel {
        Some(reel) => reel.transcribe_ages(transcript),
        None => transcript.answer(Word::Ages, Answer::OutOfTurn),
    }
}

// Transcribes the macroblocks of a delivery.
fn transcribe_macroblocks(delivery: Delivery, transcript: &mut Transcript)
    requires { length (records_of delivery) < 2 ^ 32 }
    ensures { Transcribes (transcribe_macroblocks 0 (records_of delivery.entry)) transcript.old transcript.new }
{
    // a count of its own, and no `enumerate`: the invariant then speaks of the delivery itself
    let mut index = 0;
    for macroblock in delivery {
        transcript.add(Numbered {
            index,
            macroblock: &macroblock,
        });
        index += 1;
    }
}

// Transcribes the macroblocks of a delivery and its counts, or its refusal.
fn transcribe_records(records: &Records, transcript: &mut Transcript)
    ensures { Transcribes (transcribe_records (records_meant records.now)) transcript.old transcript.new }
{
    let macroblocks = records.macroblocks as usize;
    match Delivery::checked(records.kind, macroblocks, records.bytes.as_slice()) {
        Ok((delivered, delivery)) => {
            transcribe_macroblocks(delivery, transcript);
            transcript.answer(Word::Records, Answer::Delivered(delivered));
        }
        Err(fault) => {
            let fault = PictureFault::Segment(fault);
            transcript.answer(Word::Records, Answer::Refused(fault));
        }
    }
}

// Plays a line.
fn play_line(
    reel: Option<ReelInMemory>,
    heap: Global,
    number: usize,
    line: &Said,
    choices: &mut Choices,
    transcript: &mut Transcript,
) -> Option<ReelInMemory>
    ensures { Plays (line_played number (line_meant line.now)) reel choices.old transcript.old result choices.new transcript.new }
{
    match line {
        Ok(Some(Line::Store(kind))) => choices.store = *kind,
        Ok(Some(Line::Transform(kind))) => choices.transform = *kind,
        Ok(Some(Line::New { format })) => {
            return begin(reel, heap, *format, *choices, transcript);
        }
        Ok(Some(Line::Call(call))) => return make_call(reel, &call.lent(), transcript),
        Ok(Some(Line::Ages)) => transcribe_ages(&reel, transcript),
        Ok(Some(Line::Records(records))) => transcribe_records(records, transcript),
        Ok(None) => {}
        Err(mistake) => transcript.add(Misread {
            line: number,
            mistake: *mistake,
        }),
    }
    reel
}

// Plays lines, one after the other.
fn play_lines(heap: Global, lines: &[Said], store: StoreKind, transcript: &mut Transcript)
    ensures { Transcribes (transcribed_of store (map line_meant lines.now)) transcript.old transcript.new }
{
    let mut choices = Choices {
        store,
        transform: TransformKind::TwoPass,
    };
    let mut reel = None;
    for (index, line) in lines.iter().enumerate() {
        reel = play_line(reel, heap, index + 1, line, &mut choices, transcript);
    }
    leave(reel, transcript);
}

// The text of the answers to a script, where reels are stored as said until the script says otherwise.
pub fn play(heap: Global, script: &[u8], store: StoreKind) -> Result<String, AllocError>
    ensures { IfOk result (λ text. string_bytes text ≡ answers_to store script.now) }
{
    let lines = read_lines(heap, script)?;
    let mut transcript = Transcript::new(heap);
    play_lines(heap, lines.as_slice(), store, &mut transcript);
    transcript.finish()
}

// The calls of a reel together with its memory.
ghost use Rattle.std.specs.Prelude.{◌≡◌, length, IfOk};
ghost use Rattle.calls.specs.Runs.{call_of, reply};
ghost use Rattle.calls.specs.declared.answers.Call.TheVariants.{Age as asking_age};
ghost use Rattle.replay.specs.declared.Stage.TheVariants.{Resting};
ghost use Rattle.transcripts.specs.Tallies.{is_refused, one_more, one_more_if};
ghost use Rattle.transcripts.specs.Transcribed.{Transcribes};
ghost use Rattle.reels_in_memory.specs.Copies.{laid_over, plane_samples, plane_size};
ghost use Rattle.reels_in_memory.specs.Memories.{blank, held_by, store_in};
ghost use Rattle.reels_in_memory.specs.Steps.{Turned, setting_in, state_in};
ghost use Rattle.reels_in_memory.specs.Transcriptions.{answer_of_age, transcribe_ages, transcribe_all_rows, transcribe_call, transcribe_leaving, transcribe_reply};

use crate::copies::copy_table;
use crate::memories::StoredMemory;
use crate::reel_in_memory::{Choices, ReelInMemory};
use calls::answers::{Answer, Call};
use calls::faults::PictureFault;
use reel::reels::Reel;
use replay::Stage;
use std::alloc::{AllocError, Global};
use transcripts::answers::{AgeRow, Answered, Word};
use transcripts::transcript::Transcript;

// Transcribes the answer to a call, and the sums of the picture that it closed, which the memory still holds.
fn transcribe_reply(
    call: &Call<&[u8]>,
    answer: Answer,
    memory: &StoredMemory,
    transcript: &mut Transcript,
)
    ensures calls { transcript.new.calls ≡ one_more transcript.old.calls }
    ensures refused { transcript.new.refused ≡ one_more_if (is_refused answer) transcript.old.refused }
    ensures transcribed { Transcribes (transcribe_reply (call_of call.now) answer (held_by memory.now)) transcript.old transcript.new }
{
    transcript.answer(Word::from(call), answer);
    if let Answer::Closed { .. } = answer {
        transcript.add(memory.sums());
    }
}

impl ReelInMemory {
    // Gives a new reel its memory.
    pub fn new(heap: Global, reel: Reel, choices: Choices) -> Result<ReelInMemory, AllocError>
        ensures resting { IfOk result (λ s. (s.stage ≡ Resting reel) × (s.transform ≡ choices.transform)) }
        ensures blank { IfOk result (λ s. held_by s.memory ≡ blank reel.format) }
        ensures store { IfOk result (λ s. store_in s.memory ≡ choices.store) }
    {
        let memory = StoredMemory::new(heap, choices.store, reel.format())?;
        Ok(ReelInMemory {
            stage: Stage::Resting(reel),
            memory,
            transform: choices.transform,
        })
    }

    // Makes one call.
    pub fn step(self, call: &Call<&[u8]>) -> (ReelInMemory, Answer)
        ensures { Turned self (call_of call.now) result.0 result.1 }
    {
        let ReelInMemory {
            stage,
            mut memory,
            transform,
        } = self;
        let (stage, answer) = memory.step(stage, transform, call);
        let reel = ReelInMemory {
            stage,
            memory,
            transform,
        };
        (reel, answer)
    }

    // Makes one call, and transcribes the answer.
    pub fn make_call(self, call: &Call<&[u8]>, transcript: &mut Transcript) -> ReelInMemory
        ensures turned { Turned self (call_of call.now) result (reply (setting_in self) (state_in self) (call_of call.now)) }
        ensures calls { transcript.new.calls ≡ one_more transcript.old.calls }
        ensures refused { transcript.new.refused ≡ one_more_if (is_refused (reply (setting_in self) (state_in self) (call_of call.now))) transcript.old.refused }
        ensures transcribed { Transcribes (transcribe_call (setting_in self) (state_in self) (call_of call.now)) transcript.old transcript.new }
    {
        let (reel, answer) = self.step(call);
        transcribe_reply(call, answer, &reel.memory, transcript);
        reel
    }

    // Copies a plane of the finished picture, row by row from the top, to a buffer that has room for it, and tells how many samples it has.
    pub fn copy_plane(&self, plane: u32, samples: &mut [u8]) -> usize
        ensures size { result ≡ plane_size (state_in self.now).contents.held.finished plane }
        ensures samples { samples.new ≡ laid_over (plane_size (state_in self.now).contents.held.finished plane) (plane_samples (state_in self.now).contents.held.finished plane) samples.old }
    {
        self.memory.copy_plane(plane, samples)
    }

    // Copies the ages of the finished picture to a buffer that has room for them, and tells how many there are.
    pub fn copy_ages(&self, ages: &mut [u8]) -> usize
        ensures size { result ≡ length (state_in self.now).contents.held.finished_ages }
        ensures ages { ages.new ≡ laid_over (length (state_in self.now).contents.held.finished_ages) (state_in self.now).contents.held.finished_ages ages.old }
    {
        copy_table(self.memory.ages(), ages)
    }

    // Whether there is a finished picture, which the question after its first age tells.
    fn check_finished(&self) -> Result<u8, PictureFault>
        ensures { answer_of_age result ≡ reply (setting_in self.now) (state_in self.now) (asking_age 0 0) }
    {
        self.stage.reel().age(self.memory.ages(), 0, 0)
    }

    // Transcribes the ages of the finished picture, a row of macroblocks to a line.
    fn transcribe_rows(&self, transcript: &mut Transcript)
        ensures calls { transcript.new.calls ≡ transcript.old.calls }
        ensures refused { transcript.new.refused ≡ transcript.old.refused }
        ensures transcribed { Transcribes (transcribe_all_rows (setting_in self.now).format (held_by self.now.memory).finished_ages) transcript.old transcript.new }
    {
        let format = self.stage.reel().format();
        let columns = format.columns() as usize;
        let table = self.memory.ages();
        for row in 0..format.rows() as usize {
            let ages = &table[row * columns..(row + 1) * columns];
            transcript.add(AgeRow { ages });
        }
    }

    // Transcribes the age table of the finished picture.
    pub fn transcribe_ages(&self, transcript: &mut Transcript)
        ensures calls { transcript.new.calls ≡ one_more transcript.old.calls }
        ensures refused { transcript.new.refused ≡ one_more_if (is_refused (reply (setting_in self.now) (state_in self.now) (asking_age 0 0))) transcript.old.refused }
        ensures transcribed { Transcribes (transcribe_ages (setting_in self.now) (state_in self.now)) transcript.old transcript.new }
    {
        match self.check_finished() {
            Ok(_) => {
                transcript.accept(Word::Ages);
                self.transcribe_rows(transcript);
            }
            Err(fault) => transcript.answer(Word::Ages, Answer::Refused(fault)),
        }
    }

    // Lets reel and memory go, and transcribes nothing. A picture that is still open is closed, as any slip has to be.
    pub fn abandon(self) {
        let ReelInMemory {
            stage,
            mut memory,
            transform: _,
        } = self;
        match stage {
            Stage::Resting(_) => {}
            Stage::Open(slip) => {
                memory.close(slip);
            }
        }
    }

    // Lets reel and memory go. A picture that is still open is closed, which is transcribed and not counted.
    pub fn leave(self, transcript: &mut Transcript)
        ensures calls { transcript.new.calls ≡ transcript.old.calls }
        ensures refused { transcript.new.refused ≡ transcript.old.refused }
        ensures transcribed { Transcribes (transcribe_leaving (setting_in self) (state_in self)) transcript.old transcript.new }
    {
        let ReelInMemory {
            stage,
            mut memory,
            transform: _,
        } = self;
        match stage {
            Stage::Resting(_) => {}
            Stage::Open(slip) => {
                let marks = memory.close(slip);
                transcript.add(Answered {
                    word: Word::Close,
                    answer: Answer::Closed { marks },
                });
                transcript.add(memory.sums());
            }
        }
    }
}

// Closing a picture.
ghost use Rattle.std.specs.Prelude.{◌≡◌, ℕ, true, length, if◌then◌else◌, IfErr, MatchResult};
ghost use Rattle.pictures.specs.Formats.{columns_of, rows_of};
ghost use Rattle.pictures.specs.Pictures.{painted};
ghost use Rattle.calls.specs.Effects.{fill_age, fill_sample, filled_ages, filled_picture, missing, picture_closed};
ghost use Rattle.calls.specs.Held.{cells_of, fits};
ghost use Rattle.calls.specs.Questions.{judge_closing};
ghost use Rattle.reel.specs.Calls.{closed, gap_at, held_closed};
ghost use Rattle.reel.specs.Memories.{held_in};

use crate::memory::Memory;
use crate::reels::{Reel, Slip};
use calls::faults::PictureFault;
use pictures::{Store, copy_picture, copy_segment, fill_segment};
use records::types::PictureKind;
use samples::{NEVER, next_age};

// The grey of a segment that an INTRA picture lacks.
const GREY: u8 = 128;

// The age of a macroblock that was not delivered: that of one never coded in an INTRA picture, and of a skipped one in an INTER picture.
fn fill_age(kind: PictureKind, finished: u8) -> u8
    ensures { result ≡ fill_age kind finished }
{
    match kind {
        PictureKind::Intra => NEVER,
        PictureKind::Inter => next_age(false, finished),
    }
}

// Makes the working ages the finished ones.
fn keep_ages(working: &[u8], finished: &mut [u8])
    requires { length working.now ≡ length finished.old }
    ensures { finished.new ≡ working.now }
{
    tables::copy(working, finished);
}

impl Slip {
    // Sets the samples of a segment that was not accepted: grey in an INTRA picture, those of the finished picture in an INTER one. One that was
    // accepted stays.
    fn fill_gap<S: Store>(&self, number: u32, finished: &S, working: &mut S)
        ensures { S.picture working.new ≡ painted (gap_at self.now number) (fill_sample self.now.kind (S.picture finished.now)) (S.picture working.old) }
    {
        if self.is_accepted(number) {
            return;
        }
        let segment = self.reel.format.segment(self.layout, number);
        match self.kind {
            PictureKind::Intra => fill_segment(working, segment, GREY),
            PictureKind::Inter => copy_segment(finished, working, segment),
        }
    }

    // Fills every segment that was not accepted, and no other.
    fn fill_gaps<S: Store>(&self, finished: &S, working: &mut S)
        requires wide { (S.picture working.old).wide ≡ columns_of self.now.reel.format }
        requires high { (S.picture working.old).high ≡ rows_of self.now.reel.format }
        ensures { S.picture working.new ≡ filled_picture self.now.kind self.now.layout self.now.accepted (S.picture finished.now) (S.picture working.old) }
    {
        for number in 0..self.reel.format.segments(self.layout) {
            self.fill_gap(number, finished, working);
        }
    }

    // Whether a macroblock row lies in a segment that was not accepted.
    fn is_missing(&self, row: u16) -> bool
        ensures { result ≡ missing self.now.layout self.now.accepted row }
    {
        !self.is_accepted(self.reel.format.segment_of_row(self.layout, row))
    }

    // The age of a macroblock in a row at the closing: as delivered, or where it is missing as that of a gap.
    fn closing_age(&self, row: u16, finished: u8, working: u8) -> u8
        ensures { result ≡ (if missing self.now.layout self.now.accepted row then fill_age self.now.kind finished else working) }
    {
        if self.is_missing(row) {
            fill_age(self.kind, finished)
        } else {
            working
        }
    }

    // Sets the working ages of the segments that were not accepted, and no others.
    fn fill_ages(&self, finished: &[u8], working: &mut [u8])
        requires finished { length finished.now ≡ cells_of self.now.reel.format }
        requires working { length working.old ≡ cells_of self.now.reel.format }
        ensures { working.new ≡ filled_ages self.now.reel.format self.now.kind self.now.layout self.now.accepted finished.now working.old }
    {
        let columns = self.reel.format.columns() as usize;
        for (cell, age) in working.iter_mut().enumerate() {
            *age = self.closing_age((cell / columns) as u16, finished[cell], *age);
        }
    }

    // Fills what was not delivered and makes the working picture and the working ages the finished ones.
    fn finish<S: Store>(&self, memory: &mut Memory<S>)
        requires { fits self.now.reel.format (held_in S.picture memory.old) ≡ true }
        ensures { held_in S.picture memory.new ≡ picture_closed self.now.reel.format self.now.kind self.now.layout self.now.accepted (held_in S.picture memory.old) }
    {
        let Memory {
            finished,
            working,
            finished_ages,
            working_ages,
            ..
        } = memory;
        self.fill_gaps(finished, working);
        self.fill_ages(finished_ages, working_ages);
        copy_picture(working, finished);
        keep_ages(working_ages, finished_ages);
    }

    // Closes the picture: fills the segments that were not accepted, makes the working picture the finished one, and gives the resting reel and the marks,
    // of which bit k is set when segment k was accepted. A refusal hands the slip back, and leaves the very memory.
    pub fn close<S: Store>(
        self,
        memory: &mut Memory<S>,
    ) -> Result<(Reel, u32), (Slip, PictureFault)>
        ensures answer { result ≡ closed self (judge_closing (fits self.reel.format (held_in S.picture memory.old))) }
        ensures memory { held_in S.picture memory.new ≡ held_closed self (judge_closing (fits self.reel.format (held_in S.picture memory.old))) (held_in S.picture memory.old) }
        ensures back { MatchResult result (λ p. p.0.format ≡ self.reel.format) (λ p. p.0 ≡ self) }
        ensures untouched { IfErr result (λ _. memory.new ≡ memory.old) }
    {
        if !memory.fits(self.reel.format) {
            return Err((self, PictureFault::Size));
        }
        self.finish(memory);
        let mut slip = self;
        slip.spent = true;
        let reel = Reel {
            format: slip.reel.format,
            pictures: slip.reel.pictures,
            finished: Some(slip.layout),
        };
        let marks = slip.accepted;
        drop(slip);
        Ok((reel, marks))
    }
}

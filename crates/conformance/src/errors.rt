// What is measured of a transform's errors, and the limits.
ghost use Rattle.std.specs.Prelude.{◌≡◌, ◌+◌, ◌-◌, ◌^◌, ◌<◌, ◌&&◌, ◌-ℤ◌, fold, unsigned_abs};
ghost use Rattle.conformance.specs.Errors.{allowed, errors_with, excess, no_totals, totals_with};

// The errors at one place of a block.
#[derive(Clone, Copy, Default)]
pub struct Errors {
    pub peak: u32,
    pub over: u32,
    pub under: u32,
    pub squares: u32,
}

impl Errors {
    // With one more result, of which the reference wants another.
    pub fn note(self, got: i16, want: i16) -> Errors
        ensures { result ≡ errors_with self got want }
    {
        let size = gap(got, want);
        Errors {
            peak: self.peak.max(size),
            over: self.over.saturating_add(excess_of(got, want)),
            under: self.under.saturating_add(excess_of(want, got)),
            squares: self.squares.saturating_add(size * size),
        }
    }
}

fn gap(a: i16, b: i16) -> u32
    ensures value { result ≡ unsigned_abs (a -ℤ b) }
    ensures bound { result < 2 ^ 16 }
{
    u32::from(a.abs_diff(b))
}

// How far a lies over b, and 0 if it does not.
fn excess_of(a: i16, b: i16) -> u32
    ensures { result ≡ excess a b }
{
    gap(a.max(b), b)
}

// The worst place's figures, and the sums over all places.
#[derive(Clone, Copy, Default)]
pub struct Totals {
    pub peak: u32,
    pub square: u32,
    pub squares: u64,
    pub mean: u32,
    pub over: u64,
    pub under: u64,
}

impl Totals {
    // With one more place.
    pub fn join(self, here: Errors) -> Totals
        ensures { result ≡ totals_with self here }
    {
        Totals {
            peak: self.peak.max(here.peak),
            square: self.square.max(here.squares),
            squares: self.squares.saturating_add(u64::from(here.squares)),
            mean: self.mean.max(here.over.abs_diff(here.under)),
            over: self.over.saturating_add(u64::from(here.over)),
            under: self.under.saturating_add(u64::from(here.under)),
        }
    }

    // The sum of all errors, in size.
    pub fn means(self) -> u64
        ensures { result ≡ (self.over - self.under) + (self.under - self.over) }
    {
        self.over.abs_diff(self.under)
    }

    // Whether all limits over 10,000 blocks are kept.
    pub fn allowed(self) -> bool
        ensures { result ≡ allowed self }
    {
        self.peak <= 1
            && self.square <= 600
            && self.squares <= 12800
            && self.mean <= 150
            && self.means() <= 960
    }
}

// The figures of all places.
pub fn totals_of(places: &[Errors; 64]) -> Totals
    ensures { result ≡ fold totals_with no_totals places.now }
{
    places
        .iter()
        .fold(Totals::default(), |totals, here| totals.join(*here))
}

// Whether a transform is accurate: it keeps zeros, and all limits in each series that was measured.
pub fn is_accurate(keeps_zeros: bool, measured: &[Totals]) -> bool
    ensures { result ≡ fold (λ good totals. good && allowed totals) keeps_zeros measured.now }
{
    measured
        .iter()
        .fold(keeps_zeros, |good, totals| good && totals.allowed())
}

// What is known of one cell: how many workshops lie in it, their sum, the largest turnover and the second largest.
ghost use Rattle.std.specs.Prelude.{◌≡◌, ◌^◌, ◌<◌};
ghost use Rattle.sensitivity.specs.Profiles.{joined, lack_of};
ghost use Rattle.survey.specs.Survey.{open_above};

// The default is what is known of a cell with no workshop.
#[derive(Clone, Copy, Debug, Default, PartialEq, Eq)]
pub struct Profile {
    pub workshops: usize,
    pub sum: u64,
    pub largest: u32,
    pub second: u32,
}

// So much must stay open above a turnover: the percentage of it, rounded up.
pub fn open_above(percent: u8, turnover: u32) -> u64
    ensures { result ≡ open_above percent turnover }
{
    (turnover as u64 * percent as u64 + 99) / 100
}

impl Profile {
    // The profile with one workshop more. Where that is the largest, the largest before is the second; two equal ones
    // count as both.
    pub(crate) fn join(self, turnover: u32) -> Profile
        requires few { self.workshops < 2 ^ 32 }
        requires small { self.sum < 2 ^ 63 }
        ensures { result ≡ joined self turnover }
    {
        Profile {
            workshops: self.workshops + 1,
            sum: self.sum + turnover as u64,
            largest: self.largest.max(turnover),
            second: turnover.min(self.largest).max(self.second),
        }
    }

    // What a cell with this profile lacks: what must stay open above its largest workshop, less what the workshops
    // besides the two largest have; 0 where that is enough.
    pub fn lack(&self, percent: u8) -> u64
        ensures { result ≡ lack_of percent self.now }
    {
        let two = self.largest as u64 + self.second as u64;
        open_above(percent, self.largest).saturating_sub(self.sum.saturating_sub(two))
    }
}

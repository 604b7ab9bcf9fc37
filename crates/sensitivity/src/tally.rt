// The profiles of all cells, in one pass over the workshops.
ghost use Rattle.std.specs.Prelude.{◌≡◌, ℕ, ◌<◌, length, MatchResult, slice_index_or};
ghost use Rattle.survey.specs.Lending.{Written};
ghost use Rattle.survey.specs.Model.{model, size};
ghost use Rattle.survey.specs.Page.{need};
ghost use Rattle.survey.specs.declared.refusal.Refusal.TheVariants.{Memory};
ghost use Rattle.sensitivity.specs.Profiles.{profile_of, no_profile};

use crate::profile::Profile;
use crate::table::Table;
use std::alloc::Global;
use survey::checked::Survey;
use survey::refusal::Refusal;

// Adds each workshop to its cell's profile, where all are empty at first.
fn tally(survey: &Survey, profiles: &mut [Profile])
    requires each { length profiles.old ≡ size (model survey.now) }
    requires empty { (d : ℕ) → d < length profiles.old → slice_index_or profiles.old d no_profile ≡ no_profile }
    ensures { Written no_profile (profile_of (model survey.now).cells (model survey.now).values) (size (model survey.now)) profiles.old profiles.new }
{
    for workshop in survey.workshops() {
        let cell = workshop.cell as usize;
        profiles[cell] = profiles[cell].join(workshop.turnover);
    }
}

impl Table {
    // The survey with the profile of each of its cells, or a refusal for want of memory.
    pub fn new(heap: Global, survey: Survey) -> Result<Table, Refusal>
        ensures { MatchResult result (λ t. t.survey ≡ survey) (λ e. e ≡ Memory) }
    {
        let mut profiles = vec![in heap; Profile::default(); survey.cells()]?;
        tally(&survey, &mut profiles);
        Ok(Table { survey, profiles })
    }

    pub fn survey(&self) -> &Survey
        ensures { result.now ≡ self.now.survey }
    {
        &self.survey
    }

    // The profile of a cell; that of an empty one past the table.
    pub fn profile(&self, cell: usize) -> Profile
        ensures { result ≡ profile_of (model self.now.survey).cells (model self.now.survey).values cell }
    {
        self.profiles.get(cell).copied().unwrap_or_default()
    }

    // What a cell lacks; nothing past the table.
    pub fn lack(&self, cell: usize) -> u64
        ensures { result ≡ need (model self.now.survey) cell }
    {
        self.profile(cell).lack(self.survey.percent())
    }
}

// A survey with what is known of each of its cells.
ghost use Rattle.std.specs.Prelude.{◌≡◌, ℕ, ◌*◌, ◌<◌, vec_len, slice_index_or};
ghost use Rattle.survey.specs.Model.{model, size};
ghost use Rattle.sensitivity.specs.Profiles.{profile_of};
ghost use Rattle.sensitivity.specs.declared.profile.Profile.{Profile};

use crate::profile::Profile;
use survey::checked::Survey;

#[derive(Drop)]
pub struct Table {
    pub(crate) survey: Survey,
    pub(crate) profiles: Vec<Profile>,
    ghost each: { vec_len profiles ≡ size (model survey) },
    ghost known: { (d : ℕ) (z : Profile) → d < vec_len profiles → slice_index_or profiles.items d z ≡ profile_of (model survey).cells (model survey).values d },
}

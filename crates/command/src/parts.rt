// The parts of an input that holds a survey and a pattern.
ghost use Rattle.std.specs.Prelude.{◌≡◌, ◌≤◌, length};
ghost use Rattle.command.specs.Parts.{survey_end};

// Where the survey ends and the pattern begins. Where there is not even a whole survey all bytes are the survey's, so that
// its length is what is refused.
pub fn survey_part(bytes: &[u8]) -> usize
    ensures value { result ≡ survey_end bytes.now }
    ensures bound { result ≤ length bytes.now }
{
    let [_, _, _, low, high, ..] = *bytes else {
        return bytes.len();
    };
    let end = 5 + 6 * u16::from_le_bytes([low, high]) as usize;
    end.min(bytes.len())
}

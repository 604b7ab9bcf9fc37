// How a program is called: what its words ask for.
ghost use Rattle.std.specs.Prelude.{◌≡◌, map, length, string_bytes, ◌==◌, slice_index};
ghost use Rattle.command.specs.Call.{word_of, run_after, request_after, request_of, Placed};

// What one word is.
#[derive(Clone, Copy, Debug, PartialEq, Eq)]
pub enum Word {
    AskHelp,
    AskFull,
    // it begins as an option does, and is none
    Unknown,
    Name,
}

// What the words of a call ask for.
#[derive(Clone, Copy, Debug, PartialEq, Eq)]
pub enum Request {
    // tell how the program is called
    Help,
    // the call is wrong
    Wrong,
    // work: whether large surveys are served too, and where among the words the file's name is, None for standard input (a
    // place and no text, so that the contract can tell which word it is)
    Run { full: bool, file: Option<usize> },
}

// Whether the text begins as an option does.
fn dashed(text: &str) -> bool
    ensures { result ≡ (slice_index text.now 0 == 45) }
{
    text.starts_with('-')
}

impl From<&str> for Word {
    ghost from_gives = { λ text word. word ≡ word_of text.now };

    fn from(text: &str) -> Word {
        if text == "--help" {
            Word::AskHelp
        } else if text == "--full" {
            Word::AskFull
        } else if dashed(text) {
            Word::Unknown
        } else {
            Word::Name
        }
    }
}

// What a call to work asks for after one more word, at this place.
fn after_run(full: bool, file: Option<usize>, word: Word, place: usize) -> Request
    ensures { result ≡ run_after full file word place }
{
    match word {
        Word::AskHelp => Request::Help,
        Word::AskFull => Request::Run { full: true, file },
        Word::Unknown => Request::Wrong,
        Word::Name => match file {
            None => Request::Run {
                full,
                file: Some(place),
            },
            Some(_) => Request::Wrong,
        },
    }
}

// The first word that decides is not outdone by a later one.
fn after(request: Request, word: Word, place: usize) -> Request
    ensures { result ≡ request_after request word place }
{
    match request {
        Request::Help => Request::Help,
        Request::Wrong => Request::Wrong,
        Request::Run { full, file } => after_run(full, file, word, place),
    }
}

// What the words after the program's name ask for.
pub fn requested(words: &[String]) -> Request
    ensures value { result ≡ request_of (map string_bytes words.now) }
    ensures within { Placed (length words.now) result }
{
    let mut request = Request::Run {
        full: false,
        file: None,
    };
    for (i, word) in words.iter().enumerate() {
        request = after(request, Word::from(word.as_str()), i);
    }
    request
}

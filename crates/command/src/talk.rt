// What a program reads and what it tells. No contract can say what stands outside the program, so the work is elsewhere.
ghost use Rattle.std.specs.Prelude.{◌≡◌, ◌<◌, ◌⊎◌, length, IfSome, IsNone, IfErr, MatchResult};
ghost use Rattle.std.specs.Process.{exit_status};
ghost use Rattle.command.specs.Talk.{Unread, Idle, Tells};
ghost use Rattle.command.specs.declared.talk.Task.{Task};
ghost use Rattle.command.specs.declared.talk.Stop.TheVariants.{Call, Input, Output};

use crate::call::{Request, requested};
use std::fmt::Display;
use std::io::Read;
use std::process::ExitCode;
use std::{env, fmt, fs, io};
use survey::refusal::Refusal;

// Why a program ends with status 1. What is to be told of it has been told.
#[derive(Clone, Copy, Debug)]
pub enum Stop {
    // the call is wrong
    Call,
    // the input can't be read
    Input,
    // standard output takes nothing
    Output,
    // the survey or the pattern is refused
    Refused(Refusal),
    // the pattern leaves a cell open
    Open,
}

// How a program is called: its name, and what it does in one line.
#[derive(Clone, Copy)]
pub struct Usage {
    pub name: &'static str,
    pub about: &'static str,
}

impl fmt::Display for Usage {
    fn fmt<W: fmt::Write>(&self, f: &mut fmt::Formatter<W>) -> fmt::Result {
        let name = self.name;
        let about = self.about;
        writeln!(f, "usage: {name} [--full] [FILE]")?;
        writeln!(f, "{about}")?;
        writeln!(
            f,
            "  FILE    where the input is; without it, standard input is read"
        )?;
        writeln!(
            f,
            "  --full  serve surveys of more than 64 cells or 2,000 workshops too"
        )?;
        write!(f, "  --help  print this")
    }
}

// What a program is to work on.
#[derive(Drop)]
pub struct Task {
    // whether large surveys are served too: an option of the call, which says nothing of the bytes
    pub full: bool,
    pub bytes: Vec<u8>,
}

// Where an input comes from.
#[derive(Clone, Copy)]
enum Source<'a> {
    Standard,
    File(&'a str),
}

impl fmt::Display for Source<'_> {
    fn fmt<W: fmt::Write>(&self, f: &mut fmt::Formatter<W>) -> fmt::Result {
        match self {
            Source::Standard => write!(f, "standard input"),
            Source::File(name) => write!(f, "the file {name}"),
        }
    }
}

impl Source<'_> {
    // All that is there. Where it can't be read, standard error says so.
    fn read(&self, rt: &HostRuntime) -> Result<Vec<u8>, Stop>
        ensures { IfErr result (λ e. e ≡ Input) }
    {
        let unread = |e: io::Error|
            ensures { result ≡ Input }
        {
            let _ = eprintln!(rt; "{self} can't be read: {e}");
            Stop::Input
        };
        match self {
            Source::Standard => {
                let mut bytes = Vec::new(rt.alloc());
                rt.stdin().read_to_end(&mut bytes).map_err(unread)?;
                Ok(bytes)
            }
            Source::File(name) => fs::read(rt, *name).map_err(unread),
        }
    }
}

// The words of the call after the program's name. One that is no UTF-8 makes the call wrong.
fn words(rt: &HostRuntime) -> Result<Vec<String>, Stop>
    ensures { IfErr result (λ e. e ≡ Call) }
{
    let args = env::args(rt).map_err(|_| Stop::Call)?;
    args.skip(1).collect(rt.alloc()).map_err(|_| Stop::Call)
}

// Says on standard error that the call is wrong, and how the program is called.
fn wrong_call(rt: &HostRuntime, usage: Usage) -> Stop
    ensures { result ≡ Call }
{
    let _ = eprintln!(rt; "wrong call\n{usage}");
    Stop::Call
}

// Prints how the program is called, where a call asks for that: there is nothing to work on then.
fn helped(rt: &HostRuntime, usage: Usage) -> Result<Option<Task>, Stop>
    ensures { MatchResult result (λ task. IsNone task) (λ e. e ≡ Output) }
{
    println!(rt; "{usage}").map_err(|_| Stop::Output)?;
    Ok(None)
}

// What a call to work asks for: the bytes of the file at that place among the words, or of standard input.
fn task_of(
    rt: &HostRuntime,
    words: &[String],
    full: bool,
    file: Option<usize>,
) -> Result<Task, Stop>
    requires { IfSome file (λ place. place < length words.now) }
    ensures { MatchResult result (λ task. task.full ≡ full) (λ e. e ≡ Input) }
{
    let source = match file {
        Some(place) => Source::File(words[place].as_str()),
        None => Source::Standard,
    };
    let bytes = source.read(rt)?;
    Ok(Task { full, bytes })
}

// What to work on. None where only help was asked for, which is printed here.
pub fn asked(rt: &HostRuntime, usage: Usage) -> Result<Option<Task>, Stop>
    ensures { IfErr result (λ e. Unread e) }
{
    let words = words(rt).map_err(|_| wrong_call(rt, usage))?;
    match requested(words.as_slice()) {
        Request::Help => helped(rt, usage),
        Request::Wrong => Err(wrong_call(rt, usage)),
        Request::Run { full, file } => Ok(Some(task_of(rt, words.as_slice(), full, file)?)),
    }
}

// Works on what the call asks for. Where it asks for help there is nothing to do, and a wrong call or an input that can't be
// read ends the program before.
pub fn worked<F: FnOnce(Task) -> Result<(), Stop>>(
    rt: &HostRuntime,
    usage: Usage,
    work: F,
) -> Result<(), Stop>
    requires { F.IsAlwaysCallable work }
    ensures { ((task : Task) × F.post work task result) ⊎ Idle result }
{
    match asked(rt, usage)? {
        Some(task) => work(task),
        None => Ok(()),
    }
}

// Prints the answer with what ends it, or the line of the refusal: both are what the program was asked for, so both go to
// standard output.
pub fn told<T: Display + Drop>(
    rt: &HostRuntime,
    answer: Result<T, Refusal>,
    end: &str,
) -> Result<(), Stop>
    ensures { Tells answer result }
{
    match answer {
        Ok(text) => print!(rt; "{text}{end}").map_err(|_| Stop::Output),
        Err(refusal) => {
            let _ = println!(rt; "{refusal}");
            Err(Stop::Refused(refusal))
        }
    }
}

// The status that a program ends with, 0 where it ends well. Why it stops has been told, so that no error is left to print.
pub fn status_of(end: Result<(), Stop>) -> ExitCode
    ensures { MatchResult end (λ _. exit_status result ≡ 0) (λ _. exit_status result ≡ 1) }
{
    match end {
        Ok(()) => ExitCode::SUCCESS,
        Err(_) => ExitCode::FAILURE,
    }
}

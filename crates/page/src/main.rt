// Reads a survey and prints its page, or why there is none.
#![tactic(auto)]

ghost use Rattle.page.specs.Pages.{Pages};

use command::limits::admitted;
use command::talk::{Task, Usage, status_of, told, worked};
use publication::publishing::publish;
use sensitivity::table::Table;
use std::alloc::Global;
use std::process::ExitCode;
use survey::refusal::Refusal;

const USAGE: Usage = Usage {
    name: "page",
    about: "Reads a survey and prints its page.",
};

// The page of the survey that the task's bytes say, or the first refusal.
fn page_of(heap: Global, task: &Task) -> Result<String, Refusal>
    ensures { Pages task.now.bytes.items task.now.full result }
{
    let survey = admitted(heap, task.bytes.as_slice(), task.full)?;
    let table = Table::new(heap, survey)?;
    publish(heap, &table)
}

// The status is all that is left to say: an error that `main` gave back would be printed.
fn main(rt: HostRuntime) -> ExitCode {
    status_of(worked(&rt, USAGE, |task| told(&rt, page_of(rt.alloc(), &task), "")))
}

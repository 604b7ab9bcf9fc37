// Reads a survey and a pattern of blanks, and tells whether the pattern protects, or the first cell that is open.
#![tactic(auto)]

ghost use Rattle.std.specs.Prelude.{◌≡◌, ◌≤◌, length};
ghost use Rattle.survey.specs.Model.{model, size};
ghost use Rattle.audit.specs.Judges.{Judges, Blanked, Answers, ending, Ends};

use command::limits::served;
use command::parts::survey_part;
use command::talk::{Stop, Task, Usage, status_of, told, worked};
use pattern::blanks::from_bytes;
use publication::audit::{audit, audit_line};
use publication::audited::Audit;
use sensitivity::table::Table;
use std::alloc::Global;
use std::process::ExitCode;
use survey::checked::Survey;
use survey::reading::read;
use survey::refusal::Refusal;

const USAGE: Usage = Usage {
    name: "audit",
    about: "Reads a survey and the pattern of blanks after it, and judges the pattern.",
};

// The pattern that the bytes say, in memory of its own.
fn pattern_of(heap: Global, survey: &Survey, bytes: &[u8]) -> Result<Vec<bool>, Refusal>
    ensures { Blanked (model survey.now) bytes.now result }
{
    let mut pattern = vec![in heap; false; survey.cells()]?;
    from_bytes(survey, bytes, &mut pattern)?;
    Ok(pattern)
}

// The audit's answer of a survey and a pattern that are taken.
fn judged(heap: Global, survey: Survey, pattern: &[bool]) -> Result<Audit, Refusal>
    requires { size (model survey) ≤ length pattern.now }
    ensures { Answers (model survey) pattern.now result }
{
    let table = Table::new(heap, survey)?;
    audit(heap, &table, pattern)
}

// The audit's answer, or the first refusal.
fn audit_of(heap: Global, task: &Task) -> Result<Audit, Refusal>
    ensures { Judges task.now.bytes.items task.now.full result }
{
    let bytes = task.bytes.as_slice();
    let (head, tail) = bytes.split_at(survey_part(bytes));
    let survey = read(heap, head)?;
    let pattern = pattern_of(heap, &survey, tail)?;
    served(&survey, task.full)?;
    judged(heap, survey, &pattern)
}

// How the program ends once its answer is told: well only where the pattern protects.
fn ended(answer: &Audit) -> Result<(), Stop>
    ensures { result ≡ ending answer.now }
{
    match answer {
        Audit::Protected => Ok(()),
        Audit::Printed(_) => Err(Stop::Open),
        Audit::Barred(_, _) => Err(Stop::Open),
    }
}

// Tells the answer, or why there is none, and gives how the program ends.
fn said(rt: &HostRuntime, answer: Result<Audit, Refusal>) -> Result<(), Stop>
    ensures { Ends answer result }
{
    match answer {
        Ok(answer) => {
            told(rt, audit_line(rt.alloc(), &answer), "\n")?;
            ended(&answer)
        }
        Err(refusal) => told(rt, Err::<String, Refusal>(refusal), "\n"),
    }
}

// The status is all that is left to say: an error that `main` gave back would be printed.
fn main(rt: HostRuntime) -> ExitCode {
    status_of(worked(&rt, USAGE, |task| said(&rt, audit_of(rt.alloc(), &task))))
}

// lanetime: reads a task record from standard input, and writes it back or says why it is refused.
#![tactic(auto)]

use anyhow::anyhow;
use load::load;
use std::env;
use std::io::{Read, Write};
use std::process::ExitCode;

const USAGE: &str = "usage: lanetime < RECORD

Reads a task record from standard input. A sound record is written back as it
was read. Any other input is refused by one line on standard output,

    refused=NUMBER,LAYER,PLACE

and ends with status 1. docs/RECORD.md has the format of a record, and
docs/REFUSALS.md the refusals.

Options:
    --help    print this text";

// The bytes of the longest record.
const LONGEST: usize = 16384;

// What the arguments ask for.
#[derive(Clone, Copy)]
enum Job {
    Help,
    WriteBack,
}

fn requested(rt: &HostRuntime) -> anyhow::Result<Job> {
    env::args(rt)?
        .skip(1)
        .try_fold(Job::WriteBack, |_, arg| match arg.as_str() {
            "--help" => Ok(Job::Help),
            _ => Err(anyhow!("unknown argument '{arg}'; try --help")),
        })
}

// Writes the record on standard input back, or prints why it is refused. The status says whether it was accepted.
fn write_back(rt: &HostRuntime) -> anyhow::Result<ExitCode> {
    let mut text = Vec::new(rt.alloc());
    // One byte more is enough to see that a text is too long.
    let most = LONGEST as u64 + 1;
    rt.stdin().take(most).read_to_end(&mut text)?;
    let task = match load(rt.alloc(), &text) {
        Ok(task) => task,
        // A refusal is the answer that was asked for: once it is printed, only the status is left to tell.
        Err(refusal) => {
            println!(rt; "{refusal}")?;
            return Ok(ExitCode::FAILURE);
        }
    };
    let mut out = vec![in rt.alloc(); 0u8; LONGEST]?;
    // Not by `?`: a buffer that is too short is no error of `anyhow`, and no record that was read needs a longer one.
    let Ok(length) = writer::write(&task.record, &mut out) else {
        return Err(anyhow!("the record does not fit the longest text"));
    };
    rt.stdout().write_all(&out[..length])?;
    Ok(ExitCode::SUCCESS)
}

// Does what the arguments ask for.
fn run(rt: &HostRuntime) -> anyhow::Result<ExitCode> {
    match requested(rt)? {
        Job::Help => {
            println!(rt; "{USAGE}")?;
            Ok(ExitCode::SUCCESS)
        }
        Job::WriteBack => write_back(rt),
    }
}

// As in lanebench: a crate for these four lines would be longer than they are.
fn main(rt: HostRuntime) -> anyhow::Result<ExitCode> {
    run(&rt).or_else(|error| {
        eprintln!(rt; "lanetime: {error}")?;
        Ok(ExitCode::FAILURE)
    })
}

// lanebench: a bench at the terminal. Each line of standard input is a call, and each answer is printed.
#![tactic(auto)]

mod answers;
mod command;
mod session;

use crate::command::Command;
use crate::session::obey;
use anyhow::anyhow;
use bench::bench::Bench;
use std::env;
use std::process::ExitCode;

const USAGE: &str = "usage: lanebench < CALLS

Reads calls from standard input, one to a line, and prints what the bench
answers to each. A refused call prints refused=NUMBER,LAYER,PLACE and leaves
the bench as it was; docs/BENCH.md has the calls and docs/REFUSALS.md the
refusals.

    load FILE                read the record in FILE
    examine slot|last        mark the task, with the slot or the last-line kind
    start [LINE ...]         open a walk at block 0; the starting cache has a
                             program line for each slot, - where it is empty,
                             and with no words every slot is empty
    step BLOCK               go on to a block
    close                    end the walk
    write                    the record's text
    figure                   the figure and the greatest pair
    ask BLOCK FETCH LEVEL    one category; level 0 is the innermost
    list BLOCK               the categories of a block's fetches
    stand                    where the walk stands, and what it has counted

A line that is no call is an error on standard error, and the last status is
then 1.

Options:
    --help    print this text";

// Takes the call of a line, if it names one.
fn take_call(rt: &HostRuntime, bench: &mut Bench, line: &str) -> anyhow::Result<()> {
    match Command::read(rt.alloc(), line)? {
        Some(command) => obey(rt, bench, command),
        None => Ok(()),
    }
}

// Takes the calls one after the other. The status says whether every line was one.
fn take_calls(rt: &HostRuntime) -> anyhow::Result<ExitCode> {
    let mut bench = Bench::new(rt.alloc());
    let mut status = ExitCode::SUCCESS;
    // A loop: a line that is no call is told on the way, and the lines after it are still taken.
    for (number, line) in (1u64..u64::MAX).zip(rt.lines(rt.alloc())) {
        if let Err(error) = take_call(rt, &mut bench, line?.as_str()) {
            eprintln!(rt; "lanebench: line {number}: {error}")?;
            status = ExitCode::FAILURE;
        }
    }
    Ok(status)
}

// Does what the arguments ask for.
fn run(rt: &HostRuntime) -> anyhow::Result<ExitCode> {
    match env::args(rt)?.nth(1) {
        None => take_calls(rt),
        Some(arg) if arg.as_str() == "--help" => {
            println!(rt; "{USAGE}")?;
            Ok(ExitCode::SUCCESS)
        }
        Some(arg) => Err(anyhow!("unknown argument '{arg}'; try --help")),
    }
}

// As in lanetime: a crate for these four lines would be longer than they are.
fn main(rt: HostRuntime) -> anyhow::Result<ExitCode> {
    run(&rt).or_else(|error| {
        eprintln!(rt; "lanebench: {error}")?;
        Ok(ExitCode::FAILURE)
    })
}

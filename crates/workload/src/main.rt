//! Work of a size, for measuring: `workload KERNEL SIZE` does the work of a kernel once, `workload KERNEL SIZE TIMES` so
//! many times, `workload KERNEL SIZE TIMES before` only what comes before it, as often, so that its time can be taken off.
//! It prints a sum that a second run repeats. Without words, or with others, it prints nothing.
#![tactic(auto)]

mod fault;
mod frames;
mod game;
mod kernel;
mod packs;
mod part;
mod patches;
mod seats;
mod sums;

use fault::WorkFault;
use kernel::Kernel;
use part::Part;
use std::process::ExitCode;
use std::{env, io};

// What is to be done: the work of a kernel, of a size, so many times.
#[derive(Clone, Copy)]
struct Task {
    kernel: Kernel,
    size: u32,
    times: u32,
    part: Part,
}

// What the words ask for.
fn asked(rt: &HostRuntime) -> io::Result<Option<Task>> {
    let mut words = env::args(rt)?.skip(1);
    let (name, size, times) = (words.next(), words.next(), words.next());
    Ok(task_of(name, size, times, words.next()))
}

// The task of these words, where they are those of one.
fn task_of(
    name: Option<String>,
    size: Option<String>,
    times: Option<String>,
    part: Option<String>,
) -> Option<Task> {
    let name = name?;
    let size = size?;
    let times = match times {
        Some(times) => times.parse::<u32>().ok()?,
        None => 1,
    };
    Some(Task {
        kernel: Kernel::named(&name)?,
        size: size.parse::<u32>().ok()?,
        times,
        part: Part::named(part)?,
    })
}

fn main(rt: HostRuntime) -> ExitCode {
    let Ok(asked) = asked(&rt) else {
        return ExitCode::from(4);
    };
    let Some(task) = asked else {
        return ExitCode::SUCCESS;
    };
    match task
        .kernel
        .work(rt.alloc(), task.size, task.times, task.part)
    {
        Ok(sum) => match println!(rt; "{sum}") {
            Ok(()) => ExitCode::SUCCESS,
            Err(_) => ExitCode::from(5),
        },
        Err(WorkFault::Refused) => ExitCode::from(3),
        Err(WorkFault::Memory) => ExitCode::from(7),
    }
}

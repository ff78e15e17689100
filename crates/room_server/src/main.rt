//! The program: runs schedules of rooms, and writes what their clients are sent.
#![tactic(auto)]

mod ending;
mod frame_words;
#[cfg(test)]
mod games;
mod make;
mod output;
mod reading;
mod replay;
mod run;
mod summary;
mod task;
#[cfg(test)]
mod tests;
mod view;
#[cfg(test)]
mod written_tests;

use ending::Ending;
use lists::{Memory, Seq, Text};
use outside::{ListIds, MemWire, StdClock, StdSink, StdSource};
use room_model::Words;
use run::run;
use schema_model::Id;
use std::process::ExitCode;
use std::{env, io};

// The words behind the program's name. Words that aren't UTF-8 are no command's, as no words are.
fn words(rt: &HostRuntime) -> Result<Words, Memory> {
    let mut words = Seq::new(rt.alloc());
    match env::args(rt) {
        Ok(arguments) => {
            for word in arguments.skip(1) {
                words.push(Text::from_string(word))?;
            }
            Ok(words)
        }
        Err(error) if error.kind() == io::ErrorKind::OutOfMemory => Err(Memory),
        Err(_) => Ok(words),
    }
}

fn main(rt: HostRuntime) -> ExitCode {
    let Ok(words) = words(&rt) else {
        return ExitCode::from(Ending::Memory.status());
    };
    let alloc = rt.alloc();
    let status = run(
        alloc,
        &words,
        &mut StdSource::new(rt.reader()),
        &mut StdSink::new(io::writer(&rt)),
        &mut MemWire::new(alloc, Vec::new(alloc), Vec::new(alloc)),
        &mut StdClock::new(&rt),
        &mut ListIds::new(Id([b'-'; 9]), Vec::new(alloc)),
    );
    ExitCode::from(status)
}

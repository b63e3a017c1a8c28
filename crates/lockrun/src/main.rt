// Reads a schedule from standard input, runs it on a board and prints what every event answered.
// A word on the command line names the memory under the board: `deferred`, as without a word, or `inplace`.
#![tactic(auto)]

use anyhow::anyhow;
use deferred::deferred::Deferred;
use inplace::inplace::InPlace;
use std::env;
use std::io::Read;
use std::str::FromStr;

// The memory that a board is set up on.
#[derive(Clone, Copy)]
enum Choice {
    Deferred,
    InPlace,
}

// A word that names no memory.
#[derive(Drop)]
struct UnknownMemory;

impl FromStr for Choice {
    type Err = UnknownMemory;

    fn from_str(word: &str) -> Result<Choice, UnknownMemory> {
        match word {
            "deferred" => Ok(Choice::Deferred),
            "inplace" => Ok(Choice::InPlace),
            _ => Err(UnknownMemory),
        }
    }
}

// The memory that the command line asks for.
fn chosen(rt: HostRuntime) -> anyhow::Result<Choice> {
    let mut words = env::args(&rt)?.skip(1);
    let Some(word) = words.next() else {
        return Ok(Choice::Deferred);
    };
    if words.next().is_some() {
        return Err(anyhow!("say deferred or inplace, or nothing: there is more than one word"));
    }
    match word.as_str().parse() {
        Ok(choice) => Ok(choice),
        Err(UnknownMemory) => Err(anyhow!(format!(in rt.alloc();
            "say deferred or inplace: no memory is called {word}"
        )?)),
    }
}

// Reads, runs and prints. An error goes to standard error, and its status is a failure.
fn main(rt: HostRuntime) -> anyhow::Result<()> {
    let heap = rt.alloc();
    let choice = chosen(rt)?;
    let mut text = Vec::new(heap);
    rt.stdin()
        .take(runner::read_limit())
        .read_to_end(&mut text)?;
    // The two boards have two types, and a run is proved for each: no dyn stands between a board and its memory.
    let out = match choice {
        Choice::Deferred => runner::run(heap, Deferred::new(), text.as_slice())?,
        Choice::InPlace => runner::run(heap, InPlace::new(), text.as_slice())?,
    };
    rt.print(out.as_str())?;
    Ok(())
}

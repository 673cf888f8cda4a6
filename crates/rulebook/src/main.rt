// Reads a script of calls, one a line, makes each call and prints what it answers.
#![tactic(auto)]

mod answer;
mod faulty;
mod perform;
mod printing;
mod refused;
mod source;
mod tally;

use faulty::FaultyLine;
use perform::perform;
use script::{Call, Trouble, parse_line};
use source::read_script;
use std::io;
use tally::Tally;

// Makes the call, counts it and prints what it answers.
fn play_call(rt: &HostRuntime, call: &Call, tally: &mut Tally) -> io::Result<()> {
    let mut form = [0; 256];
    let answer = perform(call, &mut form);
    tally.count(&answer);
    match answer {
        Ok(answer) => println!(rt; "{answer}"),
        Err(refused) => println!(rt; "{refused}"),
    }
}

// Plays the call of a line, if it has one, or prints why it has none.
fn play_line(rt: &HostRuntime, number: usize, line: &str, tally: &mut Tally) -> anyhow::Result<()> {
    match parse_line(rt.alloc(), line) {
        Ok(None) => {}
        Ok(Some(call)) => play_call(rt, &call, tally)?,
        Err(Trouble::Line(fault)) => println!(rt; "{}", FaultyLine { number, fault })?,
        Err(Trouble::Memory(error)) => return Err(error.into()),
    }
    Ok(())
}

fn play(rt: &HostRuntime, script: &str) -> anyhow::Result<Tally> {
    let mut tally = Tally::new();
    for (i, line) in script.lines().enumerate() {
        play_line(rt, i.saturating_add(1), line, &mut tally)?;
    }
    Ok(tally)
}

fn main(rt: HostRuntime) -> anyhow::Result<()> {
    let script = read_script(&rt)?;
    let tally = play(&rt, script.as_str())?;
    println!(rt; "{tally}")?;
    Ok(())
}

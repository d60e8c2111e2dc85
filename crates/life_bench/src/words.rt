// The words of the command line.
use anyhow::{Context, Result, bail};
use std::env::Args;

/// What the node is to do.
#[derive(Drop)]
pub enum Task {
    /// It delivers so many packets.
    Work { packets: u32 },
    /// It waits for so many seconds.
    Idle { seconds: u32 },
}

/// The next word, as a number.
fn number(words: &mut Args, what: &str) -> Result<u32> {
    let word = words.next().context(format_args!("{what} is missing"))?;
    word.parse::<u32>()
        .context(format_args!("{what} is no number"))
}

/// The task that the words behind the program's name say, and with how many workers.
pub fn read_task(mut words: Args) -> Result<(Task, u32)> {
    let _program = words.next();
    let kind = words.next().context("work or idle")?;
    let task = match kind.as_str() {
        "work" => Task::Work {
            packets: number(&mut words, "PACKETS")?,
        },
        "idle" => Task::Idle {
            seconds: number(&mut words, "SECONDS")?,
        },
        _ => bail!("work or idle"),
    };
    Ok((task, number(&mut words, "WORKERS")?))
}

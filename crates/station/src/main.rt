// The station console: reads commands from standard input, does each through the library, and prints what it did, a line for each.
// docs/CONSOLE.md has the commands and their answers.
#![tactic(auto)]

mod bench;
mod bench_answers;
mod command;
mod console;
mod desk;
mod digests;
mod line;
mod parse;
mod session_answers;
mod shown;

use console::serve;

fn main(rt: HostRuntime) -> anyhow::Result<()> {
    serve(&rt)
}

// Writes the command of each request of standard input.
#![tactic(auto)]

use answering::Program;

fn main(rt: HostRuntime) -> std::io::Result<()> {
    answering::run(&rt, Program::Commands)
}

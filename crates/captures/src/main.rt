// Plays each line of standard input, a capture, on a desk of its own, in the script language of oracle/README.md.
#![tactic(auto)]

use answering::Program;

fn main(rt: HostRuntime) -> std::io::Result<()> {
    answering::run(&rt, Program::Captures)
}

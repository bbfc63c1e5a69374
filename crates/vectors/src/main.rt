// Replays outside vectors over the readers of numbers, of UTF-8 and of texts, in the formats of oracle/README.md.
#![tactic(auto)]

use answering::Program;

fn main(rt: HostRuntime) -> std::io::Result<()> {
    answering::run(&rt, Program::Vectors)
}

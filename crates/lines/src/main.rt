// Says what each line of standard input says, in the formats of oracle/README.md.
#![tactic(auto)]

use answering::Program;

fn main(rt: HostRuntime) -> std::io::Result<()> {
    answering::run(&rt, Program::Lines)
}

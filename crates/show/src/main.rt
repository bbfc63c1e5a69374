// Document 01's example: a desk with AT+CSQ open, fed with standard input.
#![tactic(auto)]

use showing::Mode;

fn main(rt: HostRuntime) -> std::io::Result<()> {
    showing::run(&rt, Mode::Plain)
}

// A reply that comes late: a desk with AT+CSQ open in echo mode, fed with standard input.
#![tactic(auto)]

use showing::Mode;

fn main(rt: HostRuntime) -> std::io::Result<()> {
    showing::run(&rt, Mode::Echo)
}

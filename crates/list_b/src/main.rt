// The listing program for edition B.
#![tactic(auto)]

use std::io;

fn main(rt: HostRuntime) -> io::Result<()> {
    lister::list(1, &mut rt.reader(), &mut io::writer(&rt))
}

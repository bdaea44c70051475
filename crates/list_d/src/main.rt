// The listing program for edition D.
#![tactic(auto)]

use std::io;

fn main(rt: HostRuntime) -> io::Result<()> {
    lister::list(2, &mut rt.reader(), &mut io::writer(&rt))
}

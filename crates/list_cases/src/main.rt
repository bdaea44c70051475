// The gate runs a program on one standard input, so the cases that `list_b` and `list_d` leave are files that this program lists one by one.
#![tactic(auto)]

use std::fs::File;
use std::io;

fn main(rt: HostRuntime) -> io::Result<()> {
    list_file(&rt, 2, "parameters")?;
    list_file(&rt, 1, "relative_date")?;
    list_file(&rt, 2, "relative_date")?;
    list_file(&rt, 1, "rows_exceed")?;
    list_file(&rt, 2, "longest")?;
    list_file(&rt, 2, "too_long")
}

// Lists the file of this name in this edition; says so where it cannot be read.
fn list_file(rt: &HostRuntime, edition: u32, path: &str) -> io::Result<()> {
    match File::open(rt, path) {
        Ok(mut file) => lister::list(edition, &mut file, &mut io::writer(rt)),
        Err(e) => eprintln!(rt; "{path}: {e}"),
    }
}

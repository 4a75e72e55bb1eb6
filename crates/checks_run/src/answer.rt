// A case's line.
use policy::refusal::Refusal;
use std::fmt::Display;
use std::io;
use wire::check::check_file;

// Checks lent bytes as a file whose list may have up to limit entries.
pub(crate) fn check<N: Display + Drop>(
    rt: &impl Print,
    name: N,
    lent: &[u8],
    limit: usize,
) -> io::Result<()> {
    match check_file(lent, limit) {
        Ok(n) => println!(rt; "{name} 0 {n}"),
        Err(Refusal::Missized) => println!(rt; "{name} 1"),
        Err(Refusal::Version) => println!(rt; "{name} 2"),
        Err(Refusal::Count) => println!(rt; "{name} 3"),
        Err(Refusal::Crossed(i)) => println!(rt; "{name} 4 {i}"),
        Err(_) => println!(rt; "{name} other"),
    }
}

// One line for a thing: its name, and what it is in decimal or in hex.
use std::io;

pub fn bytes(rt: &impl Print, name: &str, bytes: &[u8]) -> io::Result<()> {
    print!(rt; "{name}")?;
    for byte in bytes {
        print!(rt; " {byte:02x}")?;
    }
    println!(rt)
}

pub fn two(rt: &impl Print, name: &str, a: u8, b: u32) -> io::Result<()> {
    println!(rt; "{name} {a} {b}")
}

// The bytes of a file.
use std::io::Read;
use std::{fs, io};

/// One byte more than a text may have: enough to see that it is too long.
const ENOUGH_BYTES: u64 = 65_537;

/// The bytes of the file of this name, or of standard input if it is `-`, as far as they matter.
pub fn read_bytes(rt: &HostRuntime, name: &str) -> io::Result<Vec<u8>> {
    let mut bytes = Vec::new(rt.alloc());
    if name == "-" {
        rt.stdin().take(ENOUGH_BYTES).read_to_end(&mut bytes)?;
    } else {
        fs::open(rt, name)?
            .take(ENOUGH_BYTES)
            .read_to_end(&mut bytes)?;
    }
    Ok(bytes)
}

// How a program says how it ended.
use std::fs::{File, OpenOptions};
use std::{fs, io};

// The name of descriptor 3, by which a process opens once more what is open as it.
const STATUS: &str = "/proc/self/fd/3";

// whether descriptor 3 is open for writing, which is what the name's own permissions say
fn is_writable(rt: HostRuntime) -> bool {
    match fs::symlink_metadata(&rt, STATUS) {
        Ok(metadata) => !metadata.permissions().readonly(),
        Err(_) => false,
    }
}

// Descriptor 3 opened once more, to be written at its end. To open a pipe for writing alone takes until somebody reads
// it, so for as long as that takes this process does.
fn opened(rt: HostRuntime) -> io::Result<File> {
    let _reader = OpenOptions::new().read(true).write(true).open(&rt, STATUS);
    OpenOptions::new().append(true).open(&rt, STATUS)
}

// Says on descriptor 3 how the program ended: a digit and a line feed. Where that is not open for writing nothing is
// said.
pub fn status(rt: HostRuntime, digit: u8) {
    if !is_writable(rt) {
        return;
    }
    let text = [b'0' + digit % 10, b'\n'];
    if let Ok(mut file) = opened(rt) {
        streams::write_all(&mut file, &text);
    }
}

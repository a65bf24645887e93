//! Tests of the host's disk, on real files.

use desk_disk::{Disk, DiskFault, HostDisk, read_whole, write_through};
use std::fs;
use std::os::unix::fs::symlink;

/// Writes a text at a place of the file in a directory, by a disk of its own.
fn write_in(rt: HostRuntime, directory: &str, at: u64, text: &str) -> Result<(), DiskFault> {
    let alloc = rt.alloc();
    let mut disk = HostDisk::new(rt, alloc);
    disk.place(alloc, directory)?;
    write_through(alloc, &mut disk, at, text.as_bytes())
}

/// What another disk reads there.
fn read_in(rt: HostRuntime, directory: &str) -> Result<Vec<u8>, DiskFault> {
    let alloc = rt.alloc();
    let mut disk = HostDisk::new(rt, alloc);
    disk.place(alloc, directory)?;
    read_whole(alloc, &mut disk)
}

/// Whether it reads this text.
fn reads(rt: HostRuntime, directory: &str, want: &str) -> bool {
    match read_in(rt, directory) {
        Ok(bytes) => bytes.as_slice() == want.as_bytes(),
        Err(_) => false,
    }
}

/// Reads four bytes from a place on.
fn read_four(rt: HostRuntime, directory: &str, at: u64) -> Result<(), DiskFault> {
    let alloc = rt.alloc();
    let mut disk = HostDisk::new(rt, alloc);
    disk.place(alloc, directory)?;
    let mut into = [0; 4];
    disk.read_at(alloc, at, &mut into)
}

/// Whether a file has this text.
fn has_text(rt: &HostRuntime, path: &str, want: &str) -> bool {
    match fs::read_to_string(rt, path) {
        Ok(text) => text.as_str() == want,
        Err(_) => false,
    }
}

/// Writes one behind another, and what the file has then: over its bytes, at its end, and past its end.
const WRITES: [(u64, &str, &str); 4] = [
    (0, "abcdef", "abcdef"),
    (2, "XY", "abXYef"),
    (6, "gh", "abXYefgh"),
    (7, "IJ", "abXYefgIJ"),
];

#[test]
fn the_hosts_disk_reads_what_another_wrote(rt: HostRuntime) {
    let directory = "disk_of_a_test/deep/er";
    assert!(rt;
        reads(rt, directory, ""),
        "it makes the directories and the file"
    );
    for (at, text, want) in WRITES {
        assert_eq!(rt; write_in(rt, directory, at, text), Ok(()));
        assert!(rt; reads(rt, directory, want), "{want}");
    }
    assert_eq!(rt; read_four(rt, directory, 5), Ok(()));
    assert_eq!(rt; read_four(rt, directory, 6), Err(DiskFault::Failed));
    assert!(rt; fs::remove_dir_all(&rt, "disk_of_a_test").is_ok());
}

#[test]
fn the_hosts_disk_fails_where_its_file_is_a_directory(rt: HostRuntime) {
    assert!(rt; fs::create_dir_all(&rt, "no_disk/journal.bin").is_ok());
    assert!(rt; read_in(rt, "no_disk").is_err());
    assert!(rt; fs::remove_dir_all(&rt, "no_disk").is_ok());
}

/// Whether a disk fails while another one has the file of a directory open, and says that it has.
fn is_kept_out(rt: HostRuntime, directory: &str, second: &mut HostDisk<HostRuntime>) -> bool {
    let alloc = rt.alloc();
    let mut first = HostDisk::new(rt, alloc);
    if first.place(alloc, directory).is_err() || first.length(alloc) != Ok(3) {
        return false;
    }
    second.length(alloc) == Err(DiskFault::Failed) && second.is_held()
}

#[test]
fn the_hosts_disk_fails_where_another_has_its_file(rt: HostRuntime) {
    let alloc = rt.alloc();
    assert_eq!(rt; write_in(rt, "held_disk", 0, "abc"), Ok(()));
    let mut second = HostDisk::new(rt, alloc);
    assert_eq!(rt; second.place(alloc, "held_disk/."), Ok(()));
    assert!(rt; is_kept_out(rt, "held_disk", &mut second));
    assert_eq!(rt; second.length(alloc), Ok(3));
    assert!(rt; !second.is_held());
    assert!(rt; fs::remove_dir_all(&rt, "held_disk").is_ok());
}

#[test]
fn the_hosts_disk_brings_what_it_reads_to_a_new_file(rt: HostRuntime) {
    assert!(rt; fs::create_dir_all(&rt, "new_file/in").is_ok());
    assert!(rt; symlink(&rt, "in/kept", "new_file/journal.bin").is_ok());
    assert_eq!(rt; write_in(rt, "new_file", 0, "abc"), Ok(()));
    assert!(rt; fs::hard_link(&rt, "new_file/in/kept", "new_file/in/before").is_ok());
    assert_eq!(rt; write_in(rt, "new_file", 1, "XY"), Ok(()));
    assert!(rt; has_text(&rt, "new_file/in/before", "abc"));
    assert!(rt; has_text(&rt, "new_file/in/kept", "aXY"));
    assert!(rt; fs::metadata(&rt, "new_file/in/kept.new").is_err());
    assert!(rt; reads(rt, "new_file", "aXY"));
    assert!(rt; fs::remove_dir_all(&rt, "new_file").is_ok());
}

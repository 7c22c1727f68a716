//! The disk over files.
use moo_cli_file_disk::{FileDisk, News, Watched};
use moo_disk::Disk;
use std::fs;
use std::os::unix::fs::{PermissionsExt, symlink};
use std::test::Fail;

fn opened(rt: &HostRuntime, path: &str) -> Result<FileDisk<HostRuntime>, Fail> {
    Ok(FileDisk::open(rt.alloc(), rt.clone()?, path)?)
}

// Fails with this message if something isn't so.
fn holds(is_so: bool, message: &'static str) -> Result<(), Fail> {
    if is_so {
        return Ok(());
    }
    Err(Fail::new(message))
}

// Fails if the file has another text.
fn has(rt: &HostRuntime, path: &str, text: &str) -> Result<(), Fail> {
    let found = fs::read_to_string(rt, path)?;
    holds(found.as_str() == text, "a file has another text")
}

// Fails if others than its owner may read or write the file.
fn is_private(rt: &HostRuntime, path: &str) -> Result<(), Fail> {
    let mode = fs::metadata(rt, path)?.permissions().mode();
    holds(mode & 0o777 == 0o600, "others may read a file")
}

fn stays_until_the_rename(
    rt: &HostRuntime,
    disk: &mut FileDisk<HostRuntime>,
    path: &str,
) -> Result<(), Fail> {
    disk.create_spare()?;
    disk.append(b"other")?;
    has(rt, path, "text")?;
    disk.sync_spare()?;
    disk.rename()?;
    disk.sync_names()?;
    holds(
        matches!(disk.news(), News::Written(5)),
        "no five bytes are told",
    )?;
    has(rt, path, "other")
}

// Main has five bytes; these are the sixth and the seventh call.
fn is_read_in_parts(disk: &mut FileDisk<HostRuntime>) -> Result<(), Fail> {
    let mut buffer = [0u8; 8];
    let count = disk.read_main(2, &mut buffer)?;
    let past = disk.read_main(9, &mut buffer)?;
    holds(
        count == 3 && past == 0 && disk.calls() == 7,
        "another part is read",
    )
}

#[test]
fn a_spare_is_never_main(rt: HostRuntime) -> Result<(), Fail> {
    fs::write(&rt, "linked.db", "text")?;
    fs::hard_link(&rt, "linked.db", "linked.db.new")?;
    let mut disk = opened(&rt, "linked.db")?;
    stays_until_the_rename(&rt, &mut disk, "linked.db")?;
    is_read_in_parts(&mut disk)?;
    Ok(fs::remove_file(&rt, "linked.db")?)
}

// Reads two bytes of main.
fn reads(disk: &mut FileDisk<HostRuntime>, at: u64, text: [u8; 2]) -> Result<(), Fail> {
    let mut buffer = [0u8; 2];
    let count = disk.read_main(at, &mut buffer)?;
    holds(count == 2 && buffer == text, "another file is read")
}

#[test]
fn all_bytes_are_of_the_file_that_was_main(rt: HostRuntime) -> Result<(), Fail> {
    fs::write(&rt, "begun.db", "text")?;
    fs::write(&rt, "later.db", "other")?;
    let mut disk = opened(&rt, "begun.db")?;
    reads(&mut disk, 0, *b"te")?;
    fs::rename(&rt, "later.db", "begun.db")?;
    reads(&mut disk, 2, *b"xt")?;
    holds(disk.read_main(4, &mut [0u8; 2])? == 0, "there is no end")?;
    reads(&mut disk, 0, *b"ot")?;
    Ok(fs::remove_file(&rt, "begun.db")?)
}

#[test]
fn a_link_stays_a_link(rt: HostRuntime) -> Result<(), Fail> {
    fs::write(&rt, "real.db", "text")?;
    symlink(&rt, "real.db", "soft.db")?;
    stays_until_the_rename(&rt, &mut opened(&rt, "soft.db")?, "real.db")?;
    let is_link = fs::symlink_metadata(&rt, "soft.db")?.is_symlink();
    holds(is_link, "the link is a file")?;
    fs::remove_file(&rt, "soft.db")?;
    Ok(fs::remove_file(&rt, "real.db")?)
}

#[test]
fn a_spare_may_be_read_by_whom_main_may(rt: HostRuntime) -> Result<(), Fail> {
    fs::write(&rt, "secret.db", "text")?;
    fs::set_permissions(&rt, "secret.db", fs::Permissions::from_mode(0o600))?;
    opened(&rt, "secret.db")?.create_spare()?;
    is_private(&rt, "secret.db.new")?;
    fs::remove_file(&rt, "secret.db.new")?;
    Ok(fs::remove_file(&rt, "secret.db")?)
}

// The first two calls fail, and the first is reported with the file's name.
fn are_counted_and_told(disk: &mut FileDisk<HostRuntime>) -> Result<(), Fail> {
    let mut buffer = [0u8; 8];
    let is_refused = disk.read_main(0, &mut buffer).is_err();
    let is_told = matches!(disk.news(), News::Failed(name, _) if name.ends_with("lost.db"));
    let is_refused = is_refused && disk.create_spare().is_err();
    holds(
        is_refused && is_told && disk.calls() == 2,
        "a fault isn't told",
    )
}

#[test]
fn faults_are_counted_and_told(rt: HostRuntime) -> Result<(), Fail> {
    fs::write(&rt, "lost.db", "text")?;
    let mut disk = opened(&rt, "lost.db")?;
    fs::remove_file(&rt, "lost.db")?;
    are_counted_and_told(&mut disk)?;
    is_private(&rt, "lost.db.new")?;
    fs::remove_file(&rt, "lost.db.new")?;
    let is_lost = FileDisk::open(rt.alloc(), rt.clone()?, "lost.db").is_err();
    holds(is_lost, "a lost file is opened")
}

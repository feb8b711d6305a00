//! The files of a store's directory: opened, made, locked and made durable.
ghost use Rattle.std.specs.Prelude.{◌≡◌, ◌++◌, ◌∷◌, IfErr, IfOk, string_bytes};
ghost use Rattle.hg_tasks.specs.Opening.{options_for, slash};

use crate::look::LookDisk;
use crate::migrating::FormerStore;
use crate::scratch::{Scratch, beside_streams};
use hg_disk::{FileDisk, SystemFile};
use hg_migration::OldDevices;
use hg_store::devices::Devices;
use std::fs::{File, OpenOptions, TryLockError};
use std::io::ErrorKind;
use std::string::String;
use std::{fs, io};

/// Why a store's files can't be used.
#[derive(Clone, Copy, Drop)]
pub enum Cause {
    DeviceFault,
    OutOfMemory,
}

/// How the files of a store are opened: by what a command does to the store.
#[derive(Clone, Copy, PartialEq, Eq, Drop)]
pub enum OpenMode {
    /// It makes the store. Files that are missing are made, and no other program may use the store meanwhile.
    Make,
    /// It adds events. No other program may use the store meanwhile.
    Change,
    /// It only looks. Other programs may do so too.
    Look,
}

/// Why a store's files can't be used, at which of them, and what the system said.
#[derive(Clone, Copy, Drop)]
pub struct OpenFault {
    pub cause: Cause,
    pub name: &'static str,
    pub error: Option<io::Error>,
}

/// A fault of a device.
fn failed(name: &'static str, error: io::Error) -> OpenFault
    ensures { result.cause ≡ Cause.DeviceFault }
{
    OpenFault {
        cause: Cause::DeviceFault,
        name,
        error: Some(error),
    }
}

/// Want of memory.
fn out_of_memory(name: &'static str) -> OpenFault
    ensures { result.cause ≡ Cause.OutOfMemory }
{
    OpenFault {
        cause: Cause::OutOfMemory,
        name,
        error: None,
    }
}

/// The file `name` of a directory, as text for the system.
fn path_of(rt: &HostRuntime, directory: &str, name: &'static str) -> Result<String, OpenFault>
    ensures path { IfOk result (λ path. string_bytes path ≡ directory.now ++ slash ∷ name.now) }
    ensures cause { IfErr result (λ f. f.cause ≡ Cause.OutOfMemory) }
{
    match format!(in rt.alloc(); "{directory}/{name}") {
        Ok(path) => Ok(path),
        Err(_) => Err(out_of_memory(name)),
    }
}

/// Says so where something other than a regular file, or a link to one, has a path. One that has none is not looked at. To open a FIFO
/// would wait for a writer.
fn see_that_it_is_a_file(rt: &HostRuntime, path: &str) -> io::Result<()> {
    match fs::metadata(rt, path) {
        Ok(found) if !found.is_file() => Err(io::Error::other("it is no regular file")),
        _ => Ok(()),
    }
}

/// Whether a directory has a store of the former form, with one journal in a file `journal`: it has that file, and no `journal0`, or one
/// without a byte. Where there is no memory to look, it has not.
pub fn has_former_store(rt: &HostRuntime, directory: &str) -> bool {
    let (Ok(former), Ok(journal0)) = (
        path_of(rt, directory, "journal"),
        path_of(rt, directory, "journal0"),
    ) else {
        return false;
    };
    let has_bytes = match fs::metadata(rt, journal0.as_str()) {
        Ok(found) => found.len() > 0,
        Err(_) => false,
    };
    fs::metadata(rt, former.as_str()).is_ok() && !has_bytes
}

/// How a file is opened.
fn options_of(mode: OpenMode) -> OpenOptions
    ensures { result ≡ options_for mode }
{
    let mut options = OpenOptions::new();
    options
        .read(true)
        .write(mode != OpenMode::Look)
        .create(mode == OpenMode::Make);
    options
}

/// Opens a file. `None` says that the directory exists, and has no such file.
fn open_file(
    rt: &HostRuntime,
    directory: &str,
    name: &'static str,
    mode: OpenMode,
) -> Result<Option<File>, OpenFault> {
    let path = path_of(rt, directory, name)?;
    if let Err(error) = see_that_it_is_a_file(rt, path.as_str()) {
        return Err(failed(name, error));
    }
    match options_of(mode).open(rt, path.as_str()) {
        Ok(file) => match beside_streams(file) {
            Ok(file) => Ok(Some(file)),
            Err(error) => Err(failed(name, error)),
        },
        Err(error) => {
            if error.kind() == ErrorKind::NotFound && fs::metadata(rt, directory).is_ok() {
                return Ok(None);
            }
            Err(failed(name, error))
        }
    }
}

/// Locks a file for what is done to its store, at once or not at all.
fn lock(name: &'static str, file: &File, mode: OpenMode) -> Result<(), OpenFault>
    ensures { IfErr result (λ f. f.cause ≡ Cause.DeviceFault) }
{
    let locked = match mode {
        OpenMode::Look => file.try_lock_shared(),
        _ => file.try_lock(),
    };
    match locked {
        Ok(()) => Ok(()),
        Err(TryLockError::WouldBlock) => {
            let error = io::Error::new(ErrorKind::WouldBlock, "another program uses the store");
            Err(failed(name, error))
        }
        Err(TryLockError::Error(error)) => Err(failed(name, error)),
    }
}

/// A file as a device. One that is missing has no byte.
fn device(name: &'static str, file: Option<File>, mode: OpenMode) -> Result<FileDisk, OpenFault>
    ensures { IfErr result (λ f. f.cause ≡ Cause.DeviceFault) }
{
    let Some(file) = file else {
        return Ok(FileDisk::new(SystemFile::missing()));
    };
    let opened = match mode {
        OpenMode::Look => SystemFile::for_reading(file),
        _ => SystemFile::new(file),
    };
    match opened {
        Ok(file) => Ok(FileDisk::new(file)),
        Err(error) => Err(failed(name, error)),
    }
}

/// Opens the file that has the lock of a store, and locks it before anything of the store is read.
fn open_locked(
    rt: &HostRuntime,
    directory: &str,
    name: &'static str,
    mode: OpenMode,
) -> Result<FileDisk, OpenFault> {
    let file = open_file(rt, directory, name, mode)?;
    if let Some(file) = &file {
        lock(name, file, mode)?;
    }
    device(name, file, mode)
}

/// Makes a file's bytes durable, or a folder's names.
fn sync(name: &'static str, file: &File) -> Result<(), OpenFault>
    ensures { IfErr result (λ f. f.cause ≡ Cause.DeviceFault) }
{
    match file.sync_all() {
        Ok(()) => Ok(()),
        Err(error) => Err(failed(name, error)),
    }
}

/// Opens `pages`. `Make` makes the empty file durable: a new store has no page to write.
fn open_pages(rt: &HostRuntime, directory: &str, mode: OpenMode) -> Result<FileDisk, OpenFault> {
    let pages = open_file(rt, directory, "pages", mode)?;
    if mode == OpenMode::Make {
        if let Some(file) = &pages {
            sync("pages", file)?;
        }
    }
    device("pages", pages, mode)
}

/// Opens another file.
fn open_unlocked(
    rt: &HostRuntime,
    directory: &str,
    name: &'static str,
    mode: OpenMode,
) -> Result<FileDisk, OpenFault> {
    device(name, open_file(rt, directory, name, mode)?, mode)
}

/// Opens the files.
fn open_files(
    rt: &HostRuntime,
    directory: &str,
    mode: OpenMode,
) -> Result<Devices<FileDisk>, OpenFault> {
    Ok(Devices {
        journal0: open_locked(rt, directory, "journal0", mode)?,
        journal1: open_unlocked(rt, directory, "journal1", mode)?,
        slots: open_pages(rt, directory, mode)?,
        root0: open_unlocked(rt, directory, "root0", mode)?,
        root1: open_unlocked(rt, directory, "root1", mode)?,
    })
}

/// Opens the files of a store of the former form, and the two new journals.
fn open_former_files(
    rt: &HostRuntime,
    directory: &str,
) -> Result<FormerStore<FileDisk>, OpenFault> {
    let look = OpenMode::Look;
    let former = open_file(rt, directory, "journal", look)?;
    let mode = match &former {
        Some(_) => OpenMode::Make,
        None => OpenMode::Change,
    };
    let journal0 = open_locked(rt, directory, "journal0", mode)?;
    let journal1 = open_unlocked(rt, directory, "journal1", mode)?;
    if let Some(file) = &former {
        lock("journal", file, mode)?;
    }
    let old = OldDevices {
        journal: device("journal", former, look)?,
        slots: open_unlocked(rt, directory, "pages", look)?,
        root0: open_unlocked(rt, directory, "root0", look)?,
        root1: open_unlocked(rt, directory, "root1", look)?,
    };
    Ok(FormerStore {
        old,
        journal0,
        journal1,
    })
}

/// Opens the files of a store of the former form, `journal`, `pages`, `root0` and `root1`, for reading, and `journal0` and `journal1`, which
/// are made where there is a `journal` and they are missing; their names are then durable. A file that is missing else is read as an empty one.
/// `journal0` and `journal` are locked, so that no program uses the store meanwhile, be it an older one. `DeviceFault` says that a file can't be
/// opened, or that another program uses the store.
///
/// No file gets a descriptor of a standard stream that is closed.
pub fn open_former(rt: &HostRuntime, directory: &str) -> Result<FormerStore<FileDisk>, OpenFault> {
    let first = File::open(rt, "/dev/null");
    let second = File::open(rt, "/dev/null");
    let third = File::open(rt, "/dev/null");
    let former = open_former_files(rt, directory);
    drop((first, second, third));
    let former = former?;
    sync_directory(rt, directory)?;
    Ok(former)
}

/// Opens the files of a store's directory: `journal0`, `journal1`, `pages`, `root0` and `root1`. Only `OpenMode::Make` makes files; for
/// another mode a file that is missing is read as an empty one. With `OpenMode::Look` each is opened for reading. The file `journal0` is
/// locked, whichever journal is the current one, so that the store is used by one program that changes it, or by programs that look at it.
/// `DeviceFault` says that a file can't be opened, or that another program uses the store.
///
/// No file gets a descriptor of a standard stream that is closed: those are filled while the files are opened.
pub fn open_directory(
    rt: &HostRuntime,
    directory: &str,
    mode: OpenMode,
) -> Result<Devices<FileDisk>, OpenFault> {
    let first = File::open(rt, "/dev/null");
    let second = File::open(rt, "/dev/null");
    let third = File::open(rt, "/dev/null");
    let devices = open_files(rt, directory, mode);
    drop((first, second, third));
    devices
}

/// What is written to `pages` in a look.
fn scratch_of(rt: &HostRuntime) -> Result<Scratch<'_>, OpenFault>
    ensures { IfErr result (λ f. f.cause ≡ Cause.OutOfMemory) }
{
    match Scratch::new(rt) {
        Ok(scratch) => Ok(scratch),
        Err(_) => Err(out_of_memory("pages")),
    }
}

/// Opens the files of a store's directory to look at them. Opening a store may write pages, where not all of them have room in memory:
/// these go to a scratch file, which is made then. Nothing of the store is changed.
pub fn look_at_directory<'a>(
    rt: &'a HostRuntime,
    directory: &str,
) -> Result<Devices<LookDisk<'a>>, OpenFault> {
    let scratch = scratch_of(rt)?;
    let Devices {
        journal0,
        journal1,
        slots,
        root0,
        root1,
    } = open_directory(rt, directory, OpenMode::Look)?;
    Ok(Devices {
        journal0: LookDisk::new(journal0, None),
        journal1: LookDisk::new(journal1, None),
        slots: LookDisk::new(slots, Some(scratch)),
        root0: LookDisk::new(root0, None),
        root1: LookDisk::new(root1, None),
    })
}

/// Makes a directory's names durable.
fn sync_directory(rt: &HostRuntime, path: &str) -> Result<(), OpenFault>
    ensures { IfErr result (λ f. f.cause ≡ Cause.DeviceFault) }
{
    match File::open(rt, path) {
        Ok(directory) => sync("the folder", &directory),
        Err(error) => Err(failed("the folder", error)),
    }
}

/// Makes a new store's names durable, and that of its directory in the one above.
fn sync_names(rt: &HostRuntime, directory: &str, above: &str) -> Result<(), OpenFault>
    ensures { IfErr result (λ f. f.cause ≡ Cause.DeviceFault) }
{
    sync_directory(rt, directory)?;
    sync_directory(rt, above)
}

/// Makes a directory where there is none, and opens its files as `open_directory` does, made where they are missing. Their
/// names, and that of the directory, are then durable.
pub fn make_directory(rt: &HostRuntime, directory: &str) -> Result<Devices<FileDisk>, OpenFault> {
    // Where it can't be made, its files can't be opened.
    let _ = fs::create_dir(rt, directory);
    let above = path_of(rt, directory, "..")?;
    let devices = open_directory(rt, directory, OpenMode::Make)?;
    sync_names(rt, directory, above.as_str())?;
    Ok(devices)
}

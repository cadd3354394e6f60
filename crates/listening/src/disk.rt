//! The files of the machine.

use std::alloc::Global;
use std::env::Env;
use std::fs::{DirBuilder, File, Permissions};
use std::io::{ErrorKind, Read};
use std::net::Net;
use std::os::fd::AsRawFd;
use std::os::unix::fs::{DirBuilderExt, FileTypeExt, MetadataExt, PermissionsExt};
use std::os::unix::net::{SocketAddr, UnixListener, UnixStream};
use std::{env, fs, io};

/// Who may connect by a socket: its user and its group.
const MODE: u32 = 0o660;

/// Who may enter the directory in which a socket is made: its user.
const PRIVATE: u32 = 0o700;

/// How such a directory is called behind its dot: by the first of these that is free.
const LETTERS: [char; 16] = [
    '0', '1', '2', '3', '4', '5', '6', '7', '8', '9', 'a', 'b', 'c', 'd', 'e', 'f',
];

/// The last descriptor of the three that standard input, output and error have.
const LAST_STANDARD: i32 = 2;

/// The code of the system for an address that is in use.
const IN_USE: i32 = 98;

/// The variable that names the device and the inode of what journald reads.
const JOURNAL: &str = "JOURNAL_STREAM";

/// Where standard error is found.
const STANDARD_ERROR: &str = "/proc/self/fd/2";

/// How the stamp of a proved program is called, behind the program's name.
const STAMP: &str = ".stamp";

/// How the line of a stamp begins that names the commit.
const COMMIT: &str = "commit: ";

/// Where sockets are made by their paths, and what the machine's files say of the program.
pub trait Paths {
    /// What keeps descriptors in use.
    type Kept: Drop;

    /// Listens by a socket of this path, where its user and its group may connect.
    fn listen(&self, path: &str) -> io::Result<UnixListener>;

    /// Takes the descriptors of standard input, output and error that are closed, so that nothing
    /// else gets them for as long as what it answers is kept.
    fn take_standard(&self) -> Self::Kept;

    /// Whether what is written to standard error goes to journald, which says so in the
    /// environment.
    fn logs_to_journald(&self) -> bool;

    /// The commit from which the program was proved, as the stamp beside it says. None where
    /// nothing says so.
    fn commit(&self) -> Option<String>;
}

/// The files of the machine, by their paths.
#[derive(Drop)]
pub struct Disk<R> {
    pub rt: R,
}

/// Files in the place of standard input, output and error, where these were closed. Nothing can be
/// written there, as where they are closed.
#[derive(Drop)]
pub struct Standard {
    first: Option<File>,
    second: Option<File>,
    third: Option<File>,
}

impl<R: fs::Files> program::Files for Disk<R> {
    ghost use Rattle.std.specs.Prelude.{None};

    ghost holds = { λ disk name. None };

    fn read(&self, alloc: Global, name: &str) -> io::Result<Vec<u8>> {
        let mut file = File::open(&self.rt, name)?;
        let mut text = Vec::new(alloc);
        file.read_to_end(&mut text)?;
        Ok(text)
    }
}

// That an address is in use, as a bind says it.
fn in_use() -> io::Error {
    io::Error::from_raw_os_error(IN_USE)
}

// The name of a directory beside a path.
fn beside(alloc: Global, path: &str, letter: char) -> io::Result<String> {
    let name = match path.rsplit_once('/') {
        None => format!(in alloc; ".{letter}"),
        Some((folder, _)) => format!(in alloc; "{folder}/.{letter}"),
    };
    Ok(name?)
}

impl<R: fs::Files<File = File> + Net + AllocGlobal> Disk<R> {
    // Whether something lies at a path.
    fn is_there(&self, path: &str) -> bool {
        fs::symlink_metadata(&self.rt, path).is_ok()
    }

    // Whether a socket lies at a path, and nobody answers there any more.
    fn is_stale(&self, path: &str) -> bool {
        let Ok(found) = fs::symlink_metadata(&self.rt, path) else {
            return false;
        };
        if !found.file_type().is_socket() {
            return false;
        }
        match UnixStream::connect(&self.rt, path) {
            Ok(_) => false,
            Err(fault) => fault.kind() == ErrorKind::ConnectionRefused,
        }
    }

    // A new directory beside a path that nobody else may enter. Where the process masks its own
    // rights there, it gives them to itself.
    fn make_private(&self, path: &str) -> io::Result<String> {
        let mut builder = DirBuilder::new();
        builder.mode(PRIVATE);
        for letter in LETTERS {
            let folder = beside(self.rt.alloc(), path, letter)?;
            let name = folder.as_str();
            match builder.create(&self.rt, name) {
                Ok(()) => {
                    let mode = fs::metadata(&self.rt, name)?.permissions().mode();
                    if mode & PRIVATE != PRIVATE {
                        fs::set_permissions(&self.rt, name, Permissions::from_mode(PRIVATE))?;
                    }
                    return Ok(folder);
                }
                Err(fault) if fault.kind() == ErrorKind::AlreadyExists => {}
                Err(fault) => return Err(fault),
            }
        }
        Err(io::Error::from(ErrorKind::AlreadyExists))
    }

    // Gives a socket its path, where nothing lies there. Where the file system has no links, it is
    // renamed.
    fn place(&self, made: &str, path: &str) -> io::Result<()> {
        match fs::hard_link(&self.rt, made, path) {
            Ok(()) => Ok(()),
            Err(fault) if fault.kind() == ErrorKind::AlreadyExists => Err(in_use()),
            Err(fault) if fault.kind() == ErrorKind::NotFound => Err(fault),
            Err(_) if self.is_there(path) => Err(in_use()),
            Err(_) => fs::rename(&self.rt, made, path),
        }
    }

    // Takes a socket away that an earlier run left at a path. It is taken into a private directory
    // first: where somebody began to listen there just before that, it gets its path back.
    fn take_stale(&self, folder: &str, path: &str) -> io::Result<()> {
        if !self.is_stale(path) {
            return Err(in_use());
        }
        let taken = format!(in self.rt.alloc(); "{folder}/t")?;
        let taken = taken.as_str();
        fs::rename(&self.rt, path, taken)?;
        if self.is_stale(taken) {
            return fs::remove_file(&self.rt, taken);
        }
        if self.place(taken, path).is_ok() {
            let _ = fs::remove_file(&self.rt, taken);
        }
        Err(in_use())
    }

    // Gives a socket its path, also in the place of one that an earlier run left there.
    fn place_or_replace(&self, folder: &str, made: &str, path: &str) -> io::Result<()> {
        if self.is_there(path) {
            self.take_stale(folder, path)?;
        }
        self.place(made, path)
    }

    // Listens by a socket that is made in a private directory, and has its rights before it gets
    // its path.
    fn listen_from(&self, folder: &str, path: &str) -> io::Result<UnixListener> {
        let made = format!(in self.rt.alloc(); "{folder}/s")?;
        let made = made.as_str();
        let listener = UnixListener::bind(&self.rt, made)?;
        let mut placed = fs::set_permissions(&self.rt, made, Permissions::from_mode(MODE));
        if placed.is_ok() {
            placed = self.place_or_replace(folder, made, path);
        }
        let _ = fs::remove_file(&self.rt, made);
        placed?;
        Ok(listener)
    }

    // A file with one of the descriptors of standard input, output and error, if one is free.
    fn take_one(&self) -> Option<File> {
        let file = match File::open(&self.rt, "/dev/null") {
            Ok(file) => file,
            Err(_) => File::open(&self.rt, "/").ok()?,
        };
        if file.as_raw_fd() > LAST_STANDARD {
            return None;
        }
        Some(file)
    }
}

// Whether a text names this device and this inode, as `<device>:<inode>`.
fn names(text: &str, device: u64, inode: u64) -> bool {
    let Some((first, second)) = text.split_once(':') else {
        return false;
    };
    first.parse() == Ok(device) && second.parse() == Ok(inode)
}

// The commit that a stamp names, in hexadecimal digits.
fn commit_in(alloc: Global, stamp: &str) -> Option<String> {
    for line in stamp.lines() {
        if let Some(commit) = line.strip_prefix(COMMIT) {
            let is_commit = commit
                .as_bytes()
                .iter()
                .all(|byte: &u8| byte.is_ascii_hexdigit());
            return if is_commit {
                String::from_str(alloc, commit).ok()
            } else {
                None
            };
        }
    }
    None
}

impl<R: fs::Files<File = File> + Net + Env + AllocGlobal> Paths for Disk<R> {
    type Kept = Standard;

    fn listen(&self, path: &str) -> io::Result<UnixListener> {
        let _address = SocketAddr::from_pathname(path)?;
        let folder = self.make_private(path)?;
        let listener = self.listen_from(folder.as_str(), path);
        let _ = fs::remove_dir(&self.rt, folder.as_str());
        listener
    }

    fn take_standard(&self) -> Standard {
        Standard {
            first: self.take_one(),
            second: self.take_one(),
            third: self.take_one(),
        }
    }

    fn logs_to_journald(&self) -> bool {
        let Ok(stream) = env::var(&self.rt, JOURNAL) else {
            return false;
        };
        match fs::metadata(&self.rt, STANDARD_ERROR) {
            Err(_) => false,
            Ok(found) => names(stream.as_str(), found.dev(), found.ino()),
        }
    }

    fn commit(&self) -> Option<String> {
        let program = env::current_exe(&self.rt).ok()?;
        let path = program.as_path();
        let stamp = format!(in self.rt.alloc(); "{}{STAMP}", path.to_string_lossy()).ok()?;
        let text = fs::read_to_string(&self.rt, stamp.as_str()).ok()?;
        commit_in(self.rt.alloc(), text.as_str())
    }
}

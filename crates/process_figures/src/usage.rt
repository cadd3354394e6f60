//! What the process takes: memory, time of processors and descriptors; and when it began.

use std::fs;

/// How many bytes a page has.
const PAGE: u64 = 4096;

/// How many ms a tick has, in which Linux tells times of processes.
const TICK: u64 = 10;

/// What the process takes. Each is None where the system doesn't tell it.
pub trait Usage {
    /// Its resident memory, in bytes.
    fn resident(&self) -> Option<u64>;

    /// How long processors worked for it, in ms.
    fn worked(&self) -> Option<u64>;

    /// When it began, in ms since 1970. The machine's start, from which that is reckoned, is told
    /// in whole seconds.
    fn began(&self) -> Option<u64>;

    /// How many descriptors it has open.
    fn descriptors(&self) -> Option<u64>;
}

// The word at a place of what Linux tells of the process, as a number. The words are counted from
// the second one: the program's name in parentheses, which may have spaces.
fn of_process(rt: &HostRuntime, place: usize) -> Option<u64> {
    let text = fs::read_to_string(rt, "/proc/self/stat").ok()?;
    let (_name, words) = text.as_str().rsplit_once(')')?;
    words.split(' ').nth(place)?.parse().ok()
}

// When the machine began, in seconds since 1970.
fn machine_began(rt: &HostRuntime) -> Option<u64> {
    let text = fs::read_to_string(rt, "/proc/stat").ok()?;
    for line in text.as_str().lines() {
        if let Some(seconds) = line.strip_prefix("btime ") {
            return seconds.parse().ok();
        }
    }
    None
}

impl Usage for HostRuntime {
    // The second number of the file is how many pages are resident.
    fn resident(&self) -> Option<u64> {
        let text = fs::read_to_string(self, "/proc/self/statm").ok()?;
        let pages: u64 = text.as_str().split(' ').nth(1)?.parse().ok()?;
        Some(pages.saturating_mul(PAGE))
    }

    // The 14th and the 15th word of all: the time in the program and that in the system, for it.
    fn worked(&self) -> Option<u64> {
        let own = of_process(self, 12)?;
        let system = of_process(self, 13)?;
        Some(own.saturating_add(system).saturating_mul(TICK))
    }

    // The 22nd word of all: the ticks from the machine's start on.
    fn began(&self) -> Option<u64> {
        let machine = machine_began(self)?.saturating_mul(1000);
        let ticks = of_process(self, 20)?;
        Some(machine.saturating_add(ticks.saturating_mul(TICK)))
    }

    // One of them is of the folder that tells them.
    fn descriptors(&self) -> Option<u64> {
        let mut count = 0u64;
        for _descriptor in fs::read_dir(self, "/proc/self/fd").ok()? {
            count = count.saturating_add(1);
        }
        count.checked_sub(1)
    }
}

//! The figures that are told, by their names.

/// A figure's name, whether it only grows, and what it is.
#[derive(Clone, Copy)]
pub(crate) struct Figure {
    pub(crate) name: &'static [u8],
    pub(crate) grows: bool,
    pub(crate) help: &'static [u8],
}

pub(crate) const BUILD_INFO: Figure = Figure {
    name: b"sesamejoist_build_info",
    grows: false,
    help: b"The version of the collector, and its commit; always 1.",
};

pub(crate) const UPTIME: Figure = Figure {
    name: b"sesamejoist_uptime_seconds",
    grows: false,
    help: b"Time since the start.",
};

pub(crate) const BEHIND: Figure = Figure {
    name: b"sesamejoist_behind_seconds",
    grows: false,
    help: b"How far the book was behind as it was looked at.",
};

pub(crate) const LOOK_AGE: Figure = Figure {
    name: b"sesamejoist_look_age_seconds",
    grows: false,
    help: b"How long ago the book was looked at.",
};

pub(crate) const PEERS_CONNECTED: Figure = Figure {
    name: b"sesamejoist_peers_connected",
    grows: false,
    help: b"Configured peers that are connected.",
};

pub(crate) const UPDATES: Figure = Figure {
    name: b"sesamejoist_updates_total",
    grows: true,
    help: b"Updates of followed tables that were posted.",
};

pub(crate) const POSTS: Figure = Figure {
    name: b"sesamejoist_posts_total",
    grows: true,
    help: b"Batches that were posted for peers.",
};

pub(crate) const REFUSED: Figure = Figure {
    name: b"sesamejoist_connections_refused_total",
    grows: true,
    help: b"Connections that were closed before they were served.",
};

pub(crate) const WAITING: Figure = Figure {
    name: b"sesamejoist_connections_waiting",
    grows: false,
    help: b"Connections whose hello is awaited.",
};

pub(crate) const SEATS: Figure = Figure {
    name: b"sesamejoist_seats",
    grows: false,
    help: b"Workers that may post.",
};

pub(crate) const MEMORY: Figure = Figure {
    name: b"process_resident_memory_bytes",
    grows: false,
    help: b"Resident memory of the process.",
};

pub(crate) const PROCESSOR: Figure = Figure {
    name: b"process_cpu_seconds_total",
    grows: true,
    help: b"Time that processors worked for the process.",
};

pub(crate) const BEGAN: Figure = Figure {
    name: b"process_start_time_seconds",
    grows: false,
    help: b"When the process began, in seconds since 1970.",
};

pub(crate) const DESCRIPTORS: Figure = Figure {
    name: b"process_open_fds",
    grows: false,
    help: b"Descriptors that the process has open.",
};

pub(crate) const LOST_LINES: Figure = Figure {
    name: b"sesamejoist_log_lines_lost_total",
    grows: true,
    help: b"Lines of the log that were lost.",
};

pub(crate) const PEER_CONNECTED: Figure = Figure {
    name: b"sesamejoist_peer_connected",
    grows: false,
    help: b"Whether a peer is connected.",
};

pub(crate) const PEER_STATE: Figure = Figure {
    name: b"sesamejoist_peer_state_seconds",
    grows: false,
    help: b"How long a peer has been connected, or away.",
};

pub(crate) const PEER_UPDATES: Figure = Figure {
    name: b"sesamejoist_peer_updates_total",
    grows: true,
    help: b"Updates of a peer that were posted.",
};

pub(crate) const PEER_LAST_UPDATE: Figure = Figure {
    name: b"sesamejoist_peer_last_update_seconds",
    grows: false,
    help: b"How long ago the last update of a peer was posted.",
};

pub(crate) const PEER_LEARNED: Figure = Figure {
    name: b"sesamejoist_peer_learned_updates_total",
    grows: true,
    help: b"Updates of a peer that it learned from other proxies, or from itself before a reload.",
};

pub(crate) const PEER_TOLD: Figure = Figure {
    name: b"sesamejoist_peer_told_keys",
    grows: false,
    help: b"Keys of a pushed filter that a peer is told.",
};

pub(crate) const PEER_TOLD_AGE: Figure = Figure {
    name: b"sesamejoist_peer_told_age_seconds",
    grows: false,
    help: b"How long ago a peer had been told all that there was to tell.",
};

pub(crate) const PEER_NOT_SENT: Figure = Figure {
    name: b"sesamejoist_peer_columns_not_sent",
    grows: false,
    help: b"Configured columns that followed tables of a peer's connection don't bring.",
};

pub(crate) const PEER_UNFOLLOWED: Figure = Figure {
    name: b"sesamejoist_peer_unfollowed_tables",
    grows: false,
    help: b"Tables of a peer's present or last connection that are passed over.",
};

pub(crate) const PEER_ROWS: Figure = Figure {
    name: b"sesamejoist_peer_rows",
    grows: false,
    help: b"Rows of a table that a peer holds.",
};

pub(crate) const PEER_DROPPED: Figure = Figure {
    name: b"sesamejoist_peer_dropped_updates_total",
    grows: true,
    help: b"Updates of new keys of a peer that a full table didn't take.",
};

pub(crate) const TABLE_KEYS: Figure = Figure {
    name: b"sesamejoist_table_keys",
    grows: false,
    help: b"Keys of a table that some peer has a row of.",
};

pub(crate) const TABLE_SIZE: Figure = Figure {
    name: b"sesamejoist_table_size",
    grows: false,
    help: b"How many rows of a table each peer may have.",
};

pub(crate) const FILTER_KEYS: Figure = Figure {
    name: b"sesamejoist_filter_keys",
    grows: false,
    help: b"Keys that a standing filter holds.",
};

pub(crate) const FILTER_CHANGE: Figure = Figure {
    name: b"sesamejoist_filter_next_change_seconds",
    grows: false,
    help: b"Time until the clock alone changes a filter's set; missing where it never does.",
};

pub(crate) const RANK_TOP: Figure = Figure {
    name: b"sesamejoist_rank_top_value",
    grows: false,
    help: b"The first value of a ranked list.",
};

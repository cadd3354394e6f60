//! Lists as JSON: which entries, and the peers.

ghost use Rattle.std.specs.Prelude.{◌≡◌, Err, IsOk, OnOk};
ghost use Rattle.std.specs.Option.{option_copied};
ghost use Rattle.web_text.specs.declared.peers.AskFault.TheVariants.{BadKey, NoMemory as Lack};
ghost use Rattle.web_text.specs.Places.{first_behind};

use crate::objects::Json;
use crate::shown::{put_peer, told_peer};
use crate::standing::Standing;
use crate::summary::Summary;
use agg_types::{Config, NoMemory};
use std::alloc::Global;
use thiserror::Error;

/// Why a list isn't told.
#[derive(Clone, Copy, Debug, PartialEq, Eq, Error)]
pub enum AskFault {
    /// What it is asked for behind is no key of its table, or no peer.
    #[error("after is no key of the list")]
    BadKey,
    /// An allocation failed.
    #[error("out of memory")]
    NoMemory,
}

impl From<NoMemory> for AskFault {
    ghost from_gives = { λ _ fault. fault ≡ Lack };

    fn from(_: NoMemory) -> AskFault {
        AskFault::NoMemory
    }
}

/// Which entries of a list: so many at most, of those behind one, or from the first on.
#[derive(Clone, Copy)]
pub struct Entries<'a> {
    /// At most so many.
    pub limit: usize,
    /// A key as answers write it, or a peer's name, by the list.
    pub after: Option<&'a [u8]>,
}

/// Begins a list of a book: how many events that answers for, and its moment, in ms. After
/// `NoMemory` the text is of no use.
pub fn begin_list(json: &mut Json, events: u64, moment: u64) -> Result<(), NoMemory> {
    json.begin_object()?;
    json.number("events", events)?;
    json.number("moment", moment)
}

/// Ends the entries of a list and the list, and gives its text. Whether more follow is told there.
pub fn end_list(mut json: Json, more: bool) -> Result<Vec<u8>, NoMemory> {
    json.end_list()?;
    json.truth("more", more)?;
    json.end_object()?;
    Ok(json.into_text())
}

// The place of the first peer behind one, or of the first of all.
fn first_behind(config: &Config, after: Option<&[u8]>) -> Result<usize, AskFault>
    ensures { result ≡ first_behind config.now (option_copied after.entry) }
{
    match after {
        None => Ok(0),
        Some(name) => match config.peers.position(name) {
            None => Err(AskFault::BadKey),
            Some(place) => Ok(place.saturating_add(1)),
        },
    }
}

/// The peers of a configuration, in its order. What is asked for behind one is those after it;
/// `BadKey` exactly where there is no such peer.
pub fn peer_list(
    alloc: Global,
    config: &Config,
    summary: &Summary,
    standing: &Standing,
    entries: Entries<'_>,
) -> Result<Vec<u8>, AskFault>
    ensures bad { result ≡ Err BadKey
        → first_behind config.now (option_copied entries.entry.after) ≡ Err BadKey }
    ensures ok { OnOk result
        (IsOk (first_behind config.now (option_copied entries.entry.after))) }
{
    let first = first_behind(config, entries.after)?;
    let mut json = Json::new(alloc);
    begin_list(&mut json, summary.events, summary.moment)?;
    json.begin_list("entries")?;
    let mut left = entries.limit;
    let mut more = false;
    for place in first..standing.peers.len() {
        let Some(told) = told_peer(config, summary, standing, place) else {
            break;
        };
        if left == 0 {
            more = true;
            break;
        }
        left -= 1;
        put_peer(alloc, &mut json, told, standing.now)?;
    }
    Ok(end_list(json, more)?)
}

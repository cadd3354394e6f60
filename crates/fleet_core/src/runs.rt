ghost use Rattle.std.specs.Prelude.{◌≡◌, [], IfOk, IfErr};
ghost use Rattle.fleet_core.specs.Runs.{Goes, IsFault, IsRan, run_answer, sent_in};
ghost use Rattle.fleet_core.specs.Represents.{ForEachPast};

use crate::{Fleet, FleetFault, Replies, Step};
use agg_types::{Config, ConfigFault, Items, LAST_MOMENT, NoMemory};
use std::alloc::Global;
use thiserror::Error;

/// What a run leaves: the fleet, and what was sent by each step that was done, in order.
#[derive(Drop)]
pub struct Ran {
    pub fleet: Fleet,
    pub sent: Items<Replies>,
}

/// Why a run ends early.
#[derive(Clone, Copy, Debug, PartialEq, Eq, Error)]
pub enum RunFault {
    /// The configuration is unsound.
    #[error("{0}")]
    Config(ConfigFault),
    /// An allocation failed.
    #[error("out of memory")]
    NoMemory,
    /// There are no numbers left.
    #[error("no numbers left")]
    Spent,
    /// The opening moment, a clear, an added filter or a moment doesn't fit the configuration.
    #[error("unfit step")]
    Unfit,
}

/// Opens a fleet and does the steps, in turn. A step of a connection that isn't open is passed
/// over, and the end of a session ends nothing else. At Ok no event waits.
///
/// Faults, in this order: Config, Unfit of an opening moment above the last, NoMemory of the
/// opening, and then those of each step in turn, Unfit before the step is made.
pub fn run(alloc: Global, config: Config, moment: u64, steps: &[Step]) -> Result<Ran, RunFault>
    ensures ok { IfOk result (λ ran. IsRan ran config moment steps.now) }
    ensures err { IfErr result (λ fault. IsFault fault config moment steps.now) }
{
    if let Err(fault) = config.check() {
        return Err(RunFault::Config(fault));
    }
    if moment > LAST_MOMENT {
        return Err(RunFault::Unfit);
    }
    let Ok(mut fleet) = Fleet::new(alloc, config, moment) else {
        return Err(RunFault::NoMemory);
    };
    let mut sent = Items::from_vec(Vec::new(alloc));
    for step in steps {
        advance(alloc, &mut fleet, &mut sent, step)?;
    }
    Ok(Ran { fleet, sent })
}

// Does a step of a run, and adds what it sends; or passes it over.
fn advance(
    alloc: Global,
    fleet: &mut Fleet,
    sent: &mut Items<Replies>,
    step: &Step,
) -> Result<(), RunFault>
    ensures { ForEachPast fleet.old (λ config opening past.
        fleet.old.waiting ≡ [] → sent.old ≡ sent_in config opening past
        → Goes result fleet.new sent.new config opening past step.now) }
{
    match step.fits(alloc, fleet.book().config()) {
        Ok(true) => {}
        Ok(false) => return Err(RunFault::Unfit),
        Err(NoMemory) => return Err(RunFault::NoMemory),
    }
    match run_answer(fleet.step(step), step) {
        Err(fault) => Err(fault),
        Ok(None) => Ok(()),
        Ok(Some(replies)) => {
            if fleet.waiting() > 0 {
                return Err(RunFault::NoMemory);
            }
            match sent.push(replies) {
                Ok(()) => Ok(()),
                Err(NoMemory) => Err(RunFault::NoMemory),
            }
        }
    }
}

// What a run makes of what a step answers: what is sent, or none where it is passed over.
fn run_answer(answer: Result<Replies, FleetFault>, step: &Step) -> Result<Option<Replies>, RunFault>
    ensures { result ≡ run_answer answer step.now }
{
    match answer {
        Ok(replies) => Ok(Some(replies)),
        Err(fault) => match fault {
            FleetFault::NoConn => Ok(None),
            FleetFault::Spent => Err(RunFault::Spent),
            FleetFault::NoMemory => Err(RunFault::NoMemory),
            FleetFault::Session { out, .. } => Ok(Some(Replies {
                conn: step.conn(),
                out,
            })),
        },
    }
}

//! A batch that waits for its list to be shown.
//!
//! Its session sends signals meanwhile: heartbeats, so that its peer stays, and the resync requests
//! that are due. Whether the peer is silent isn't asked before what it sent meanwhile was read.

ghost use Rattle.std.specs.Prelude.{◌≡◌, MatchResult};
ghost use Rattle.hub.specs.History.{Beginning};
ghost use Rattle.worker_frame.specs.Writing.{Sends};
ghost use Rattle.peer_worker.specs.Turns.{WroteSignal, text_of_signal};
ghost use Rattle.peer_worker.specs.Waiting.{AwaitsTo, Signals, SignalsIf, SignalsThen};

use crate::asking::{Answer, Asking};
use hub::{Await, Naming, PostFault, Receipt, Ticket};
use peers_msg::kinds;
use session_core::BEAT_AFTER;
use std::io::Write;
use std::sync::Wait;
use std::time::Duration;
use worker_frame::{Clock, Context, Gate, WriteFailed, send};

/// What a session sends beside its answers and tellings.
#[derive(Clone, Copy, Debug, PartialEq, Eq)]
pub enum Signal {
    /// That it is there.
    Heartbeat,
    /// That all rows are asked for.
    Request,
}

/// The heartbeat message of the peers protocol.
const HEARTBEAT: [u8; 2] = [kinds::CONTROL_CLASS, kinds::HEARTBEAT];

/// Its resync request.
const REQUEST: [u8; 2] = [kinds::CONTROL_CLASS, kinds::RESYNC_REQUEST];

/// How long a signal is.
const SIGNAL_LEN: usize = 2;

// Sends a signal.
fn send_signal<W: Write>(writer: &mut W, signal: Signal) -> Result<(), WriteFailed>
    ensures { Sends (W.contents writer.old) (W.contents writer.new) (text_of_signal signal) result }
{
    match signal {
        Signal::Heartbeat => send(writer, &HEARTBEAT),
        Signal::Request => send(writer, &REQUEST),
    }
}

/// How long a session waits for its list at a time, in ms.
const WAIT_AT_A_TIME: u64 = 100;

/// When a session last sent something, and when it asks for all rows again. Before it answered the
/// hello nothing was sent, and no heartbeat is.
#[derive(Clone, Copy)]
pub struct Pulse {
    sent: Option<u64>,
    asking: Asking,
}

impl Pulse {
    /// Of a session that has sent nothing yet.
    pub fn new() -> Pulse {
        Pulse {
            sent: None,
            asking: Asking::new(),
        }
    }

    /// So many bytes were sent.
    pub fn wrote(&mut self, count: usize, now: u64) {
        if count > 0 {
            self.sent = Some(now);
        }
    }

    /// An answer to a resync request was heard.
    pub fn hear(&mut self, answer: Answer, now: u64) {
        self.asking.hear(answer, now);
    }

    // Whether a heartbeat is due.
    fn beats(&self, now: u64) -> bool {
        match self.sent {
            None => false,
            Some(sent) => now.saturating_sub(sent) >= BEAT_AFTER,
        }
    }

    // The signal that is due, if one is.
    fn due(&mut self, now: u64) -> Option<Signal> {
        if self.asking.ask(now) {
            Some(Signal::Request)
        } else if self.beats(now) {
            Some(Signal::Heartbeat)
        } else {
            None
        }
    }

    /// Sends the signal that is due, if one is.
    pub fn signal<W: Write>(&mut self, writer: &mut W, now: u64) -> Result<(), WriteFailed>
        ensures { MatchResult result
            (λ _. Signals (W.contents writer.old) (W.contents writer.new))
            (λ _. WroteSignal (W.contents writer.old) (W.contents writer.new)) }
    {
        let Some(signal) = self.due(now) else {
            return Ok(());
        };
        send_signal(writer, signal)?;
        self.wrote(SIGNAL_LEN, now);
        Ok(())
    }

    // The same: whether it could be written.
    fn is_sent<W: Write>(&mut self, writer: &mut W, now: u64) -> bool
        ensures { SignalsIf result (W.contents writer.old) (W.contents writer.new) }
    {
        match self.signal(writer, now) {
            Ok(()) => true,
            Err(WriteFailed) => false,
        }
    }
}

/// A batch whose list is shown, and whether the signals that were due meanwhile could be written.
#[derive(Drop)]
pub struct Awaited {
    pub receipt: Receipt,
    pub is_heard: bool,
}

/// Waits until a ticket's list is shown, and sends the signals that are due meanwhile, until one
/// can't be written.
#[tactic(auto, using(crate::proofs::Pulses::heard_on))]
pub fn await_shown<
    J: Naming,
    H: Wait + Drop,
    R: Wait + std::rt::Clock,
    C: Clock,
    G: Gate,
    W: Write,
>(
    context: &Context<'_, J, H, R, C, G>,
    pulse: &mut Pulse,
    writer: &mut W,
    ticket: Ticket,
) -> Result<Awaited, PostFault>
    requires { ticket.of ≡ context.now.hub.now.of }
    ensures { SignalsThen (W.contents writer.old)
        (AwaitsTo ticket (W.contents writer.new) result) }
{
    let mut waited = ticket;
    let mut is_heard = true;
    for _ in context.rt.forever() {
        match context
            .hub
            .wait(context.rt, waited, Duration::from_millis(WAIT_AT_A_TIME))
        {
            Await::Shown(receipt) => return Ok(Awaited { receipt, is_heard }),
            Await::Pending => return Err(PostFault::Pending),
            Await::NotYet(same) => waited = same,
        }
        if is_heard {
            is_heard = pulse.is_sent(writer, context.clock.now());
        }
    }
    unreachable!()
}

//! SETTINGS of the proxy (RFC 9113, section 6.5; RFC 8441, section 3).
ghost use Rattle.std.specs.Prelude.{◌≡◌, IfOk};
ghost use Rattle.mq_client.specs.Settling.{offers_connect, shift_of, shifts};
ghost use Rattle.mq_client.specs.Session.{Session, with_history};
ghost use Rattle.mq_client.specs.Frames.{on_settled, on_settings};
ghost use Rattle.mq_client.specs.Talking.{Goes, Comes};

use crate::codes::FLOW_CONTROL_ERROR;
use crate::event::ClientEvent;
use crate::parts::Parts;
use crate::stage::Stage;
use crate::telling::{bad, refuse};
use mq_frame::{Setting, acknowledgement_text};
use mq_streams::Over;
use mq_wire::NoMemory;

/// SETTINGS_INITIAL_WINDOW_SIZE.
const INITIAL_WINDOW_SIZE: u16 = 4;

/// SETTINGS_ENABLE_CONNECT_PROTOCOL.
const ENABLE_CONNECT_PROTOCOL: u16 = 8;

/// Whether extended CONNECT is offered: the last value of the setting is 1.
pub fn offers_connect(pairs: &[Setting]) -> bool
    ensures { result ≡ offers_connect pairs.now }
{
    let mut offered = false;
    for pair in pairs {
        if pair.id == ENABLE_CONNECT_PROTOCOL {
            offered = pair.value == 1;
        }
    }
    offered
}

impl Parts {
    fn shift_by(&mut self, pair: Setting) -> bool
        ensures { (s : Session) → Goes self.old s → let x = shift_of pair s.history in
            (result ≡ x.1) × Goes self.new (with_history x.0 s) }
    {
        if pair.id != INITIAL_WINDOW_SIZE {
            return true;
        }
        match self.streams.shift_initial(pair.value) {
            Ok(()) => true,
            Err(Over) => false,
        }
    }

    /// Shifts the send window by each initial size in its order. Answers whether it stays within the largest.
    fn shift(&mut self, pairs: &[Setting]) -> bool
        ensures { (s : Session) → Goes self.old s → let x = shifts pairs.now s.history in
            (result ≡ x.1) × Goes self.new (with_history x.0 s) }
    {
        for pair in pairs {
            if !self.shift_by(*pair) {
                return false;
            }
        }
        true
    }

    /// The settings hold: the first ones are answered by the request, and later ones may open the window.
    fn on_settled(&mut self, offered: bool, events: &mut Vec<ClientEvent>) -> Result<bool, NoMemory>
        ensures { (s : Session) → Goes self.old s
            → IfOk result (λ over. Comes (on_settled s.stage offered s) events.old.items events.new.items over self.new) }
    {
        match &self.stage {
            Stage::Greeting(request) => {
                if !offered {
                    return refuse(0, events);
                }
                self.owed.put(request.as_slice())?;
                self.stage = Stage::Asked;
                Ok(false)
            }
            Stage::Asked => Ok(false),
            Stage::Open(_) => {
                self.send_waiting()?;
                Ok(false)
            }
        }
    }

    pub fn on_settings(
        &mut self,
        ack: bool,
        pairs: &[Setting],
        events: &mut Vec<ClientEvent>,
    ) -> Result<bool, NoMemory>
        ensures { (s : Session) → Goes self.old s
            → IfOk result (λ over. Comes (on_settings ack pairs.now s) events.old.items events.new.items over self.new) }
    {
        if ack {
            return Ok(false);
        }
        if !self.shift(pairs) {
            return bad(FLOW_CONTROL_ERROR, events);
        }
        self.owed.put(&acknowledgement_text())?;
        self.on_settled(offers_connect(pairs), events)
    }
}

//! Header blocks of the proxy (RFC 9113, sections 4.3, 6.2, 6.10 and 8.1).
ghost use Rattle.std.specs.Prelude.{◌≡◌, ◌==◌, ◌∷◌, ◌++◌, [], true, IfOk, IsErr};
ghost use Rattle.mq_client.specs.Asking as spec;
ghost use Rattle.mq_client.specs.Session.{Session, Open, with_stage};
ghost use Rattle.mq_client.specs.Sending.{sends_open};
ghost use Rattle.mq_client.specs.Frames.{fault_code, tells, closing, on_status, on_fields, OnWhole, OnBlock, OnHeaders, OnContinuation};
ghost use Rattle.mq_client.specs.Talking.{Goes, Decodes, Comes, Gave};

use crate::block::OpenBlock;
use crate::codes::{COMPRESSION_ERROR, ENHANCE_YOUR_CALM, PROTOCOL_ERROR};
use crate::event::ClientEvent;
use crate::parts::{Parts, STREAM};
use crate::stage::Stage;
use crate::status::{is_successful, status_of};
use crate::telling::{bad, close, refuse};
use mq_capsule::Reader;
use mq_hpack::{Field, HpackFault};
use mq_wire::{Bytes, NoMemory};

/// The most bytes that a header block may have.
const MAX_BLOCK: usize = 16_384;

/// A fault in a header block.
fn on_fault(fault: HpackFault, events: &mut Vec<ClientEvent>) -> Result<bool, NoMemory>
    ensures told { IfOk result (λ over. (over ≡ true) × (events.new.items ≡ events.old.items ++ ClientEvent.BadPeer (fault_code fault) ∷ [])) }
    ensures memory { fault ≡ HpackFault.NoMemory → IsErr result }
{
    match fault {
        HpackFault::NoMemory => Err(NoMemory),
        HpackFault::TooLarge => bad(ENHANCE_YOUR_CALM, events),
        _ => bad(COMPRESSION_ERROR, events),
    }
}

impl Parts {
    /// The tunnel is opened: what waits is framed.
    fn open(&mut self, end: bool, events: &mut Vec<ClientEvent>) -> Result<bool, NoMemory>
        ensures { (s : Session) → Goes self.old s
            → IfOk result (λ over. Comes (tells (ClientEvent.Opened ∷ closing end) (sends_open (with_stage (Open []) s))) events.old.items events.new.items over self.new) }
    {
        events.push(ClientEvent::Opened)?;
        self.stage = Stage::Open(Reader::new(false));
        self.send_waiting()?;
        close(end, events)
    }

    /// The answer's status.
    fn on_status(
        &mut self,
        status: Option<u16>,
        end: bool,
        events: &mut Vec<ClientEvent>,
    ) -> Result<bool, NoMemory>
        ensures { (s : Session) → Goes self.old s
            → IfOk result (λ over. Comes (on_status status end s) events.old.items events.new.items over self.new) }
    {
        let Some(status) = status else {
            return bad(PROTOCOL_ERROR, events);
        };
        if is_successful(status) {
            self.open(end, events)
        } else {
            refuse(status, events)
        }
    }

    /// The fields of a header block: the first is the answer.
    fn on_fields(
        &mut self,
        fields: &[Field],
        end: bool,
        events: &mut Vec<ClientEvent>,
    ) -> Result<bool, NoMemory>
        ensures { (s : Session) → Goes self.old s
            → IfOk result (λ over. Comes (on_fields s.stage fields.now end s) events.old.items events.new.items over self.new) }
    {
        match &self.stage {
            Stage::Greeting(_) => bad(PROTOCOL_ERROR, events),
            Stage::Asked => self.on_status(status_of(fields), end, events),
            Stage::Open(_) => close(end, events),
        }
    }

    /// A whole header block.
    fn on_whole(
        &mut self,
        block: OpenBlock,
        events: &mut Vec<ClientEvent>,
    ) -> Result<bool, NoMemory>
        ensures { (s : Session) → Decodes self.old s
            → IfOk result (λ over. Gave (OnWhole block s) events.old.items events.new.items over self.new) }
    {
        self.block = None;
        match self.decoder.block(block.bytes.as_slice()) {
            Ok(fields) => self.on_fields(fields.as_slice(), block.end, events),
            Err(fault) => on_fault(fault, events),
        }
    }

    /// A header block so far.
    fn on_part(
        &mut self,
        block: OpenBlock,
        whole: bool,
        events: &mut Vec<ClientEvent>,
    ) -> Result<bool, NoMemory>
        ensures { (s : Session) → Decodes self.old s
            → IfOk result (λ over. Gave (OnBlock whole block s) events.old.items events.new.items over self.new) }
    {
        if block.bytes.as_slice().len() > MAX_BLOCK {
            return bad(ENHANCE_YOUR_CALM, events);
        }
        if whole {
            return self.on_whole(block, events);
        }
        self.block = Some(block);
        Ok(false)
    }

    /// HEADERS.
    pub fn on_headers(
        &mut self,
        stream: u32,
        block: OpenBlock,
        whole: bool,
        events: &mut Vec<ClientEvent>,
    ) -> Result<bool, NoMemory>
        ensures { (s : Session) → Goes self.old s
            → IfOk result (λ over. Gave (OnHeaders (stream == spec.stream) block.bytes block.end whole s) events.old.items events.new.items over self.new) }
    {
        if stream != STREAM {
            return bad(PROTOCOL_ERROR, events);
        }
        self.on_part(block, whole, events)
    }

    /// CONTINUATION.
    pub fn on_continuation(
        &mut self,
        bytes: Bytes,
        whole: bool,
        events: &mut Vec<ClientEvent>,
    ) -> Result<bool, NoMemory>
        ensures { (s : Session) → Goes self.old s
            → IfOk result (λ over. Gave (OnContinuation s.block bytes whole s) events.old.items events.new.items over self.new) }
    {
        let Some(open) = self.block.take() else {
            return bad(PROTOCOL_ERROR, events);
        };
        let OpenBlock { end, bytes: front } = open;
        let mut front = front.into_vec();
        front.extend_from_slice(bytes.as_slice())?;
        let block = OpenBlock {
            end,
            bytes: Bytes::from_vec(front),
        };
        self.on_part(block, whole, events)
    }
}

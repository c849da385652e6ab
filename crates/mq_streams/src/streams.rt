//! The streams and windows of a connection, call by call. Each call is stated by what has happened so far.
ghost use Rattle.std.specs.Prelude.{◌≡◌, ℕ, ◌+◌, ◌<◌, ◌≤◌, ◌∷◌, [], length, IsTrue, IfOk, MatchResult, min, true, false};
ghost use Rattle.std.specs.List.{HoldsAt};
ghost use Rattle.std.specs.Option.{IfSome};
ghost use Rattle.mq_streams.specs.History.{History, Arrived, Consumed, Sent, Finished, Dropped, Shifted, total, consumed_on, consumed, arrived_on, arrived, highest, live, is_live, has_finished};
ghost use Rattle.mq_streams.specs.Answers.{begun, after_begin, count_of, after_count, next_update, after_update, grant_of, after_grant, room_of, can_shift, is_idle};
ghost use Rattle.mq_streams.specs.Stand.{ConsumesWhatCame, StandFor, InEach};
ghost use Rattle.mq_streams.specs.Takers.{Takes, Declines};
ghost use Rattle.mq_streams.specs.Windows.{PassesNoWindow};

use crate::answers::{Began, Counted, Granted, Over};
use crate::connection::Connection;
use crate::receiving::FIRST_WINDOW;
use crate::stream::Stream;
use crate::table::{Table, UPDATE_FROM};
use mq_wire::NoMemory;
use std::alloc::Global;

/// The streams that a client began on a connection, with their flow-control windows and the connection's.
/// Only `new` takes memory.
#[derive(Debug, Drop)]
pub struct Streams {
    table: Table,
    /// The last SETTINGS_INITIAL_WINDOW_SIZE.
    initial: u32,
    connection: Connection,
}

impl Streams {
    /// No stream was begun yet. The room for 100 live ones is taken here.
    pub fn new(alloc: Global) -> Result<Streams, NoMemory>
        ensures { IfOk result (λ streams. StandFor streams []) }
    {
        let table = Table::new(alloc)?;
        Ok(Streams {
            table,
            initial: FIRST_WINDOW,
            connection: Connection::new(),
        })
    }

    /// The client begins a stream by HEADERS (RFC 9113, sections 5.1.1 and 5.1.2).
    pub fn begin(&mut self, id: u32) -> Began
        ensures { InEach self.old (λ h. (result ≡ begun id h) × StandFor self.new (after_begin result id h)) }
    {
        if id % 2 == 0 {
            return Began::BadId;
        }
        if id <= self.table.highest {
            return Began::Old;
        }
        if self.table.is_full() {
            self.table.turn_away(id);
            return Began::Refused;
        }
        self.table.open(id);
        Began::Live
    }

    /// DATA came. Its whole length counts, padding included (RFC 9113, section 6.9.1).
    pub fn on_data(&mut self, id: u32, length: u32) -> Counted
        ensures { InEach self.old (λ h. (result ≡ count_of id length h) × StandFor self.new (after_count result id length h)) }
    {
        let Some(receiving) = self.connection.receiving.after_data(length) else {
            return Counted::OverConnection;
        };
        if self.is_idle(id) {
            return Counted::Idle;
        }
        match self.taker(id, length) {
            Ok((at, stream)) => {
                self.table.put(at, stream);
                self.connection.receiving = receiving;
                Counted::Yes
            }
            Err(declined) => {
                self.connection.receiving = receiving.after_consuming(length);
                declined
            }
        }
    }

    /// So much of the DATA that `on_data` counted is consumed.
    pub fn consumed(&mut self, id: u32, length: u32)
        ensures { InEach self.old (λ h. total (consumed_on id) h + length ≤ total (arrived_on id) h →
            StandFor self.new (Consumed id length ∷ h)) }
    {
        self.connection.receiving = self.connection.receiving.after_consuming(length);
        if let Some(at) = self.table.place(id) {
            let stream = self.table.row(at);
            let receiving = stream.receiving.after_consuming(length);
            self.table.put(at, stream.with_receiving(receiving));
        }
    }

    /// The stream and the amount of the next WINDOW_UPDATE to be sent, where one is due. Stream 0 is the connection.
    pub fn give_back(&mut self) -> Option<(u32, u32)>
        ensures answer { InEach self.old (λ h. (result ≡ next_update h) × StandFor self.new (after_update result h)) }
        ensures bounded { IfSome result (λ update. (16384 ≤ update.1) × (update.1 ≤ 65535)) }
    {
        let amount = self.connection.receiving.consumed;
        if amount >= UPDATE_FROM {
            self.connection.receiving = self.connection.receiving.after_giving_back();
            return Some((0, amount));
        }
        let Some(at) = self.table.first_to_update() else {
            return None;
        };
        let stream = self.table.row(at);
        let receiving = stream.receiving.after_giving_back();
        self.table.put(at, stream.with_receiving(receiving));
        Some((stream.id, stream.receiving.consumed))
    }

    /// WINDOW_UPDATE came. Id 0 is the connection.
    pub fn grant(&mut self, id: u32, grow: u32) -> Granted
        ensures { InEach self.old (λ h. (result ≡ grant_of id grow h) × StandFor self.new (after_grant result id grow h)) }
    {
        if id == 0 {
            return self.grant_to_connection(grow);
        }
        if self.is_idle(id) {
            return Granted::Idle;
        }
        let Some(at) = self.table.place(id) else {
            return Granted::Ignored;
        };
        if grow == 0 {
            return Granted::Zero;
        }
        match self.table.row(at).after_grant(self.initial, grow) {
            Some(stream) => {
                self.table.put(at, stream);
                Granted::Taken
            }
            None => Granted::Over,
        }
    }

    /// The stream is live: it was begun, and is not closed.
    pub fn is_live(&self, id: u32) -> bool
        ensures { InEach self.now (λ h. result ≡ is_live id h) }
    {
        self.table.place(id).is_some()
    }

    /// Nobody has begun the stream yet (RFC 9113, section 5.1.1). Stream 0, the connection, is never idle.
    pub fn is_idle(&self, id: u32) -> bool
        ensures { InEach self.now (λ h. result ≡ is_idle id h) }
    {
        id != 0 && (id % 2 == 0 || id > self.table.highest)
    }

    /// The client has ended its side of a live stream.
    pub fn has_ended(&self, id: u32) -> bool
        ensures { InEach self.now (λ h. IsTrue (is_live id h) → result ≡ has_finished id h) }
    {
        match self.table.place(id) {
            Some(at) => self.table.row(at).has_ended,
            None => false,
        }
    }

    /// The highest id that the client began, or 0.
    pub fn highest(&self) -> u32
        ensures { InEach self.now (λ h. result ≡ highest h) }
    {
        self.table.highest
    }

    /// How many bytes may be sent on a live stream.
    pub fn room(&self, id: u32) -> u32
        ensures { InEach self.now (λ h. IsTrue (is_live id h) → result ≡ room_of id h) }
    {
        match self.table.place(id) {
            Some(at) => self.table.row(at).room(self.initial, self.connection.room),
            None => 0,
        }
    }

    /// Takes room for DATA of at most so many bytes on a live stream, and answers for how many.
    pub fn take_room(&mut self, id: u32, want: u32) -> u32
        ensures { InEach self.old (λ h. IsTrue (is_live id h) → (result ≡ min want (room_of id h)) × StandFor self.new (Sent id result ∷ h)) }
    {
        let Some(at) = self.table.place(id) else {
            return 0;
        };
        let stream = self.table.row(at);
        let length = stream.room(self.initial, self.connection.room).min(want);
        self.table.put(at, stream.after_sending(length));
        self.connection = self.connection.after_sending(length);
        length
    }

    /// SETTINGS_INITIAL_WINDOW_SIZE came (RFC 9113, section 6.9.2). It is refused where the window of a live stream
    /// would pass 2,147,483,647 bytes.
    pub fn shift_initial(&mut self, value: u32) -> Result<(), Over>
        ensures { InEach self.old (λ h. MatchResult result
            (λ _. (can_shift value h ≡ true) × StandFor self.new (Shifted value ∷ h))
            (λ _. (can_shift value h ≡ false) × StandFor self.new h)) }
    {
        if !self.table.can_shift(value) {
            return Err(Over);
        }
        self.initial = value;
        Ok(())
    }

    /// The client has ended its side of a live stream.
    pub fn ended(&mut self, id: u32)
        ensures { InEach self.old (λ h. IsTrue (is_live id h) → StandFor self.new (Finished id ∷ h)) }
    {
        if let Some(at) = self.table.place(id) {
            self.table.put(at, self.table.row(at).after_end());
        }
    }

    /// A live stream closes.
    pub fn drop_stream(&mut self, id: u32)
        ensures { InEach self.old (λ h. IsTrue (is_live id h) → StandFor self.new (Dropped id ∷ h)) }
    {
        if let Some(at) = self.table.place(id) {
            self.table.remove(at);
        }
    }

    // The place of a stream that takes so much DATA, with its row as it is then, or why the DATA isn't taken.
    fn taker(&self, id: u32, size: u32) -> Result<(usize, Stream), Counted>
        ensures place { IfOk result (λ taker. (taker.0 < length self.now.table.rows.items)
            × HoldsAt (λ row. row.id ≡ taker.1.id) self.now.table.rows.items taker.0) }
        ensures answer { InEach self.now (λ h. MatchResult result (Takes self.now h id size) (Declines h id size)) }
    {
        let Some(at) = self.table.place(id) else {
            return Err(Counted::Ignored);
        };
        let stream = self.table.row(at);
        if stream.has_ended {
            return Err(Counted::Ignored);
        }
        match stream.receiving.after_data(size) {
            Some(receiving) => Ok((at, stream.with_receiving(receiving))),
            None => Err(Counted::OverStream),
        }
    }

    fn grant_to_connection(&mut self, grow: u32) -> Granted
        ensures { InEach self.old (λ h. (result ≡ grant_of 0 grow h) × StandFor self.new (after_grant result 0 grow h)) }
    {
        if grow == 0 {
            return Granted::Zero;
        }
        match self.connection.after_grant(grow) {
            Some(connection) => {
                self.connection = connection;
                Granted::Taken
            }
            None => Granted::Over,
        }
    }
}

/// Whatever happened, no more was consumed on a stream than came, nor on the connection, and DATA that counts can be
/// consumed at once.
pub fn consumed_within_what_came()
    ensures within { (streams : Streams) (id : ℕ) → InEach streams (λ h. total (consumed_on id) h ≤ total (arrived_on id) h) }
    ensures at_once { (streams : Streams) (id size : ℕ) → InEach streams (λ h.
        total (consumed_on id) (Arrived id size ∷ h) + size ≤ total (arrived_on id) (Arrived id size ∷ h)) }
    ensures all { (h : History) → ConsumesWhatCame h → (total consumed h ≤ total arrived h)
        × ((id : ℕ) → total (consumed_on id) h ≤ total (arrived_on id) h) }
{}

/// At most a hundred streams are live.
pub fn few_are_live()
    ensures { (streams : Streams) → InEach streams (λ h. length (live h) ≤ 100) }
{}

/// Whatever happened, all DATA that came and was sent was within its windows, and no window grew past the largest
/// (RFC 9113, section 6.9.1).
pub fn no_window_is_passed()
    ensures { (streams : Streams) → InEach streams PassesNoWindow }
{}

//! The lines that a replay prints.
ghost use Rattle.std.specs.Prelude.{◌≡◌, ◌++◌, ◌∷◌, [], OnOk, OnErr};
ghost use Rattle.mq_machine.specs.Turn.{WorkerOf, ThePump};
ghost use Rattle.mq_play.specs.Settings.{kind_text};
ghost use Rattle.mq_play.specs.Text.{printed, from_text, place_text, why_text, cause_text, yes_text, spaced, newline, Says, Idle, More, Bad};
ghost use Rattle.mq_play.specs.Play.{actor_of};
ghost use Rattle.mq_script.specs.Counting.{bytes_line, count_line};
ghost use Rattle.mq_script.specs.Words.{line_words, part_text};

use crate::part::{Part, append_bytes_line, print_line};
use mq_addr::{Given, Kind};
use mq_talk::{Cause, End, From, Note, Place, Why};
use mq_wire::NoMemory;

/// The number by which a line names the network.
const NET: u32 = u32::MAX;

const AT: Part<'static> = Part::Text(b"at");

const TO: Part<'static> = Part::Text(b"to");

fn kind_part(kind: Kind) -> Part<'static>
    ensures { part_text result ≡ kind_text kind }
{
    match kind {
        Kind::Udp => Part::Text(b"udp"),
        Kind::Ip => Part::Text(b"ip"),
    }
}

fn from_part(from: From) -> Part<'static>
    ensures { part_text result ≡ from_text from }
{
    match from {
        From::Tunnel(tunnel) => Part::Number(u64::from(tunnel)),
        From::Net => Part::Text(b"net"),
        From::Port(tunnel) => Part::Port(tunnel),
    }
}

fn place_part(place: Place) -> Part<'static>
    ensures { part_text result ≡ place_text place }
{
    match place {
        Place::Tunnel { tunnel, .. } => Part::Number(u64::from(tunnel)),
        Place::Net => Part::Text(b"net"),
    }
}

fn why_part(why: Why) -> Part<'static>
    ensures { part_text result ≡ why_text why }
{
    match why {
        Why::End => Part::Text(b"End"),
        Why::Malformed => Part::Text(b"Malformed"),
        Why::Truncated => Part::Text(b"Truncated"),
        Why::Reset => Part::Text(b"Reset"),
        Why::Port => Part::Text(b"Port"),
        Why::Full => Part::Text(b"Full"),
        Why::Conn => Part::Text(b"Conn"),
    }
}

fn cause_part(cause: Cause) -> Part<'static>
    ensures { part_text result ≡ cause_text cause }
{
    match cause {
        Cause::UnknownContext => Part::Text(b"UnknownContext"),
        Cause::BadHeader => Part::Text(b"BadHeader"),
        Cause::TooLong => Part::Text(b"TooLong"),
        Cause::Source => Part::Text(b"Source"),
        Cause::NoRoute => Part::Text(b"NoRoute"),
        Cause::InboxFull => Part::Text(b"InboxFull"),
        Cause::Gone => Part::Text(b"Gone"),
        Cause::HopLimit => Part::Text(b"HopLimit"),
        Cause::QueueFull => Part::Text(b"QueueFull"),
        Cause::Port => Part::Text(b"Port"),
    }
}

fn yes_part(yes: bool) -> Part<'static>
    ensures { part_text result ≡ yes_text yes }
{
    if yes {
        Part::Text(b"yes")
    } else {
        Part::Text(b"no")
    }
}

fn number(number: u32) -> Part<'static>
    ensures { result ≡ Part.Number number }
{
    Part::Number(u64::from(number))
}

// A line's parts have room in the function that prints it, and no line is inlined, since a function clears the room of all that it
// may print where it is entered.

/// The line of a word and a number.
#[inline(never)]
fn print_single(out: &mut Vec<u8>, word: &[u8], first: u32) -> Result<(), NoMemory>
    ensures ok { OnOk result (out.new.items ≡ out.old.items ++ (spaced (line_words word.now (Part.Number first ∷ []) []) ++ newline ∷ [])) }
    ensures err { OnErr result (out.new.items ≡ out.old.items) }
{
    print_line(out, word, &[number(first)], &[])
}

/// The line of a word and two numbers.
#[inline(never)]
fn print_pair(out: &mut Vec<u8>, word: &[u8], first: u32, second: u32) -> Result<(), NoMemory>
    ensures ok { OnOk result (out.new.items ≡ out.old.items ++ (spaced (line_words word.now (Part.Number first ∷ Part.Number second ∷ []) []) ++ newline ∷ [])) }
    ensures err { OnErr result (out.new.items ≡ out.old.items) }
{
    print_line(out, word, &[number(first), number(second)], &[])
}

#[tactic(auto, unfolding(mq_play::specs::Text::printed))]
#[inline(never)]
fn print_refused(
    out: &mut Vec<u8>,
    conn: u32,
    stream: u32,
    status: u16,
    rule: u32,
) -> Result<(), NoMemory>
    ensures ok { OnOk result (out.new.items ≡ out.old.items ++ printed (Says (Note.Refused conn stream status rule))) }
    ensures err { OnErr result (out.new.items ≡ out.old.items) }
{
    let place = [number(conn), number(stream), number(u32::from(status))];
    let [conn, stream, status_part] = place;
    if status == 403 {
        let parts = [conn, stream, status_part, Part::Text(b"rule"), number(rule)];
        print_line(out, b"refused", &parts, &[])
    } else {
        print_line(out, b"refused", &[conn, stream, status_part], &[])
    }
}

#[tactic(auto, unfolding(mq_play::specs::Text::printed))]
#[inline(never)]
fn print_ended(out: &mut Vec<u8>, conn: u32, why: End) -> Result<(), NoMemory>
    ensures ok { OnOk result (out.new.items ≡ out.old.items ++ printed (Says (Note.Ended conn why))) }
    ensures err { OnErr result (out.new.items ≡ out.old.items) }
{
    let conn = number(conn);
    let word = match why {
        End::Protocol { code } => {
            let parts = [conn, Part::Text(b"Protocol"), number(code)];
            return print_line(out, b"ended", &parts, &[]);
        }
        End::Done => Part::Text(b"Done"),
        End::Truncated => Part::Text(b"Truncated"),
        End::Link => Part::Text(b"Link"),
        End::Refused => Part::Text(b"Refused"),
        End::Tunnel => Part::Text(b"Tunnel"),
        End::NoMemory => Part::Text(b"NoMemory"),
    };
    print_line(out, b"ended", &[conn, word], &[])
}

#[tactic(auto, unfolding(mq_play::specs::Text::printed))]
#[inline(never)]
fn print_opened(
    out: &mut Vec<u8>,
    tunnel: u32,
    conn: u32,
    stream: u32,
    kind: Kind,
) -> Result<(), NoMemory>
    ensures ok { OnOk result (out.new.items ≡ out.old.items ++ printed (Says (Note.Opened tunnel conn stream kind))) }
    ensures err { OnErr result (out.new.items ≡ out.old.items) }
{
    let parts = [
        number(tunnel),
        number(conn),
        number(stream),
        kind_part(kind),
    ];
    print_line(out, b"opened", &parts, &[])
}

#[tactic(auto, unfolding(mq_play::specs::Text::printed))]
#[inline(never)]
fn print_reset(out: &mut Vec<u8>, conn: u32, stream: u32, code: u32) -> Result<(), NoMemory>
    ensures ok { OnOk result (out.new.items ≡ out.old.items ++ printed (Says (Note.Reset conn stream code))) }
    ensures err { OnErr result (out.new.items ≡ out.old.items) }
{
    let parts = [number(conn), number(stream), number(code)];
    print_line(out, b"reset", &parts, &[])
}

#[tactic(auto, unfolding(mq_play::specs::Text::printed))]
#[inline(never)]
fn print_assigned(out: &mut Vec<u8>, tunnel: u32, at: u32, list: &[Given]) -> Result<(), NoMemory>
    ensures ok { OnOk result (out.new.items ≡ out.old.items ++ printed (Says (Note.Assigned tunnel at list.now))) }
    ensures err { OnErr result (out.new.items ≡ out.old.items) }
{
    let parts = [number(tunnel), AT, number(at)];
    print_line(out, b"assigned", &parts, list)
}

#[tactic(auto, unfolding(mq_play::specs::Text::printed))]
#[inline(never)]
fn print_advertised(out: &mut Vec<u8>, tunnel: u32, at: u32, yes: bool) -> Result<(), NoMemory>
    ensures ok { OnOk result (out.new.items ≡ out.old.items ++ printed (Says (Note.Advertised tunnel at yes))) }
    ensures err { OnErr result (out.new.items ≡ out.old.items) }
{
    let parts = [number(tunnel), AT, number(at), yes_part(yes)];
    print_line(out, b"advertised", &parts, &[])
}

#[tactic(auto, unfolding(mq_play::specs::Text::printed))]
#[inline(never)]
fn print_passed(out: &mut Vec<u8>, from: From, n: u64, at: u32, to: Place) -> Result<(), NoMemory>
    ensures ok { OnOk result (out.new.items ≡ out.old.items ++ printed (Says (Note.Passed from n at to))) }
    ensures err { OnErr result (out.new.items ≡ out.old.items) }
{
    let parts = [
        from_part(from),
        Part::Number(n),
        AT,
        number(at),
        TO,
        place_part(to),
    ];
    print_line(out, b"passed", &parts, &[])
}

#[tactic(auto, unfolding(mq_play::specs::Text::printed))]
#[inline(never)]
fn print_pushed(out: &mut Vec<u8>, from: From, n: u64, to: Place) -> Result<(), NoMemory>
    ensures ok { OnOk result (out.new.items ≡ out.old.items ++ printed (Says (Note.PushedNote from n to))) }
    ensures err { OnErr result (out.new.items ≡ out.old.items) }
{
    let parts = [from_part(from), Part::Number(n), TO, place_part(to)];
    print_line(out, b"pushed", &parts, &[])
}

#[tactic(auto, unfolding(mq_play::specs::Text::printed))]
#[inline(never)]
fn print_waits(out: &mut Vec<u8>, from: From, n: u64) -> Result<(), NoMemory>
    ensures ok { OnOk result (out.new.items ≡ out.old.items ++ printed (Says (Note.Waits from n))) }
    ensures err { OnErr result (out.new.items ≡ out.old.items) }
{
    print_line(out, b"waits", &[from_part(from), Part::Number(n)], &[])
}

#[tactic(auto, unfolding(mq_play::specs::Text::printed))]
#[inline(never)]
fn print_sent(out: &mut Vec<u8>, from: From, n: u64, packet: &[u8]) -> Result<(), NoMemory>
    ensures ok { OnOk result (out.new.items ≡ out.old.items ++ printed (Says (Note.Sent from n packet.now))) }
    ensures err { OnErr result (out.new.items ≡ out.old.items) }
{
    let parts = [from_part(from), Part::Number(n), Part::Hex(packet)];
    print_line(out, b"sent", &parts, &[])
}

#[tactic(auto, unfolding(mq_play::specs::Text::printed))]
#[inline(never)]
fn print_queued(out: &mut Vec<u8>, from: From, n: u64, to: u32) -> Result<(), NoMemory>
    ensures ok { OnOk result (out.new.items ≡ out.old.items ++ printed (Says (Note.Queued from n to))) }
    ensures err { OnErr result (out.new.items ≡ out.old.items) }
{
    let parts = [from_part(from), Part::Number(n), TO, number(to)];
    print_line(out, b"queued", &parts, &[])
}

#[tactic(auto, unfolding(mq_play::specs::Text::printed))]
#[inline(never)]
fn print_delivered(
    out: &mut Vec<u8>,
    from: From,
    n: u64,
    to: u32,
    packet: &[u8],
) -> Result<(), NoMemory>
    ensures ok { OnOk result (out.new.items ≡ out.old.items ++ printed (Says (Note.Delivered from n to packet.now))) }
    ensures err { OnErr result (out.new.items ≡ out.old.items) }
{
    let parts = [
        from_part(from),
        Part::Number(n),
        TO,
        number(to),
        Part::Hex(packet),
    ];
    print_line(out, b"delivered", &parts, &[])
}

#[tactic(auto, unfolding(mq_play::specs::Text::printed))]
#[inline(never)]
fn print_control(out: &mut Vec<u8>, tunnel: u32, capsule: &[u8]) -> Result<(), NoMemory>
    ensures ok { OnOk result (out.new.items ≡ out.old.items ++ printed (Says (Note.Control tunnel capsule.now))) }
    ensures err { OnErr result (out.new.items ≡ out.old.items) }
{
    let parts = [number(tunnel), Part::Hex(capsule)];
    print_line(out, b"control", &parts, &[])
}

#[tactic(auto, unfolding(mq_play::specs::Text::printed))]
#[inline(never)]
fn print_dropped(out: &mut Vec<u8>, from: From, n: u64, cause: Cause) -> Result<(), NoMemory>
    ensures ok { OnOk result (out.new.items ≡ out.old.items ++ printed (Says (Note.Dropped from n cause))) }
    ensures err { OnErr result (out.new.items ≡ out.old.items) }
{
    let parts = [from_part(from), Part::Number(n), cause_part(cause)];
    print_line(out, b"dropped", &parts, &[])
}

#[tactic(auto, unfolding(mq_play::specs::Text::printed))]
#[inline(never)]
fn print_wrote(out: &mut Vec<u8>, conn: u32, bytes: &[u8]) -> Result<(), NoMemory>
    ensures ok { OnOk result (out.new.items ≡ out.old.items ++ printed (Says (Note.Wrote conn bytes.now))) }
    ensures err { OnErr result (out.new.items ≡ out.old.items) }
{
    let parts = [number(conn), Part::Hex(bytes)];
    print_line(out, b"wrote", &parts, &[])
}

#[tactic(auto, unfolding(mq_play::specs::Text::printed))]
#[inline(never)]
fn print_closed(out: &mut Vec<u8>, tunnel: u32, why: Why, left: u32) -> Result<(), NoMemory>
    ensures ok { OnOk result (out.new.items ≡ out.old.items ++ printed (Says (Note.Closed tunnel why left))) }
    ensures err { OnErr result (out.new.items ≡ out.old.items) }
{
    let parts = [
        number(tunnel),
        why_part(why),
        Part::Text(b"left"),
        number(left),
    ];
    print_line(out, b"closed", &parts, &[])
}

/// Prints the line of a note, with its newline, behind what is there. An `Err` changes nothing.
#[tactic(auto, unfolding(mq_play::specs::Text::printed))]
pub fn print_note(out: &mut Vec<u8>, note: &Note) -> Result<(), NoMemory>
    ensures ok { OnOk result (out.new.items ≡ out.old.items ++ printed (Says note.now)) }
    ensures err { OnErr result (out.new.items ≡ out.old.items) }
{
    match note {
        Note::Accepted { conn, actor } => print_pair(out, b"accepted", *conn, *actor),
        Note::Took { conn, count } => print_pair(out, b"took", *conn, *count),
        Note::Finished { conn } => print_single(out, b"finished", *conn),
        Note::Ported { conn, stream } => print_pair(out, b"ported", *conn, *stream),
        Note::Opened {
            tunnel,
            conn,
            stream,
            kind,
        } => print_opened(out, *tunnel, *conn, *stream, *kind),
        Note::Refused {
            conn,
            stream,
            status,
            rule,
        } => print_refused(out, *conn, *stream, *status, *rule),
        Note::Reset { conn, stream, code } => print_reset(out, *conn, *stream, *code),
        Note::Assigned { tunnel, at, list } => print_assigned(out, *tunnel, *at, list.as_slice()),
        Note::Advertised { tunnel, at, yes } => print_advertised(out, *tunnel, *at, *yes),
        Note::Passed { from, n, at, to } => print_passed(out, *from, *n, *at, *to),
        Note::PushedNote { from, n, to } => print_pushed(out, *from, *n, *to),
        Note::Waits { from, n } => print_waits(out, *from, *n),
        Note::Sent { from, n, packet } => print_sent(out, *from, *n, packet.as_slice()),
        Note::Queued { from, n, to } => print_queued(out, *from, *n, *to),
        Note::Part { tunnel, count } => print_pair(out, b"part", *tunnel, *count),
        Note::Delivered {
            from,
            n,
            to,
            packet,
        } => print_delivered(out, *from, *n, *to, packet.as_slice()),
        Note::Control { tunnel, capsule } => print_control(out, *tunnel, capsule.as_slice()),
        Note::Dropped { from, n, cause } => print_dropped(out, *from, *n, *cause),
        Note::Wrote { conn, bytes } => print_wrote(out, *conn, bytes.as_slice()),
        Note::Closed { tunnel, why, left } => print_closed(out, *tunnel, *why, *left),
        Note::Ended { conn, why } => print_ended(out, *conn, *why),
    }
}

/// Prints that an actor, of this number or 4,294,967,295 for the network, has no step left. An `Err` changes nothing.
#[tactic(auto, unfolding(mq_play::specs::Text::printed))]
pub fn print_idle(out: &mut Vec<u8>, actor: u32) -> Result<(), NoMemory>
    ensures ok { OnOk result (out.new.items ≡ out.old.items ++ printed (Idle (actor_of actor))) }
    ensures err { OnErr result (out.new.items ≡ out.old.items) }
{
    if actor == NET {
        print_line(out, b"idle", &[Part::Text(b"net")], &[])
    } else {
        print_line(out, b"idle", &[number(actor)], &[])
    }
}

/// Prints that some actor has a step left. An `Err` changes nothing.
#[tactic(auto, unfolding(mq_play::specs::Text::printed))]
pub fn print_more(out: &mut Vec<u8>) -> Result<(), NoMemory>
    ensures ok { OnOk result (out.new.items ≡ out.old.items ++ printed More) }
    ensures err { OnErr result (out.new.items ≡ out.old.items) }
{
    print_line(out, b"more", &[], &[])
}

/// Prints how many of something there are. An `Err` changes nothing.
pub fn print_count(out: &mut Vec<u8>, word: &[u8], count: u64) -> Result<(), NoMemory>
    ensures ok { OnOk result (out.new.items ≡ out.old.items ++ count_line word.now count) }
    ensures err { OnErr result (out.new.items ≡ out.old.items) }
{
    print_line(out, word, &[Part::Number(count)], &[])
}

/// Prints bytes in hex, or a dash where there are none. An `Err` changes nothing.
pub fn print_bytes(out: &mut Vec<u8>, bytes: &[u8]) -> Result<(), NoMemory>
    ensures ok { OnOk result (out.new.items ≡ out.old.items ++ bytes_line bytes.now) }
    ensures err { OnErr result (out.new.items ≡ out.old.items) }
{
    let before = out.len();
    let appended = append_bytes_line(out, bytes);
    if appended.is_err() {
        out.truncate(before);
    }
    appended
}

/// Prints that the line of this number, counted from 1, is bad. An `Err` changes nothing.
#[tactic(auto, unfolding(mq_play::specs::Text::printed))]
pub fn print_bad_line(out: &mut Vec<u8>, number: u64) -> Result<(), NoMemory>
    ensures ok { OnOk result (out.new.items ≡ out.old.items ++ printed (Bad number)) }
    ensures err { OnErr result (out.new.items ≡ out.old.items) }
{
    print_line(
        out,
        b"bad",
        &[Part::Text(b"line"), Part::Number(number)],
        &[],
    )
}

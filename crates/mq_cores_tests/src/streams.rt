//! Rows of calls on new streams, with the answers that the windows give.
use mq_streams::{Began, Counted, Granted, Over, Streams};
use std::test::Fail;

#[derive(Clone, Copy)]
enum Call {
    Begin(u32),
    Data(u32, u32),
    /// DATA that is consumed at once where it counts.
    Read(u32, u32),
    GiveBack,
    Grant(u32, u32),
    Room(u32),
    Take(u32, u32),
    Shift(u32),
    End(u32),
    Close(u32),
}

#[derive(Clone, Copy, Debug, PartialEq, Eq)]
enum Answer {
    Begins(Began),
    Counts(Counted),
    Grants(Granted),
    Update(Option<(u32, u32)>),
    Bytes(u32),
    Shifts(Result<(), Over>),
    Done,
    NotLive,
}

fn read(streams: &mut Streams, id: u32, length: u32) -> Counted {
    let counted = streams.on_data(id, length);
    if let Counted::Yes = counted {
        streams.consumed(id, length);
    }
    counted
}

fn on_live(streams: &mut Streams, id: u32, call: Call) -> Answer {
    if !streams.is_live(id) {
        return Answer::NotLive;
    }
    match call {
        Call::Room(_) => Answer::Bytes(streams.room(id)),
        Call::Take(_, want) => Answer::Bytes(streams.take_room(id, want)),
        Call::End(_) => {
            streams.ended(id);
            Answer::Done
        }
        Call::Close(_) => {
            streams.drop_stream(id);
            Answer::Done
        }
        _ => Answer::NotLive,
    }
}

fn make(streams: &mut Streams, call: Call) -> Answer {
    match call {
        Call::Begin(id) => Answer::Begins(streams.begin(id)),
        Call::Data(id, length) => Answer::Counts(streams.on_data(id, length)),
        Call::Read(id, length) => Answer::Counts(read(streams, id, length)),
        Call::GiveBack => Answer::Update(streams.give_back()),
        Call::Grant(id, grow) => Answer::Grants(streams.grant(id, grow)),
        Call::Shift(value) => Answer::Shifts(streams.shift_initial(value)),
        Call::Room(id) | Call::Take(id, _) | Call::End(id) | Call::Close(id) => on_live(
            streams, id, call,
        ),
    }
}

const LARGEST: [(Call, Answer); 6] = [
    (Call::Begin(1), Answer::Begins(Began::Live)),
    (
        Call::Grant(1, 2_147_418_112),
        Answer::Grants(Granted::Taken),
    ),
    (Call::Grant(1, 1), Answer::Grants(Granted::Over)),
    (
        Call::Grant(0, 2_147_418_112),
        Answer::Grants(Granted::Taken),
    ),
    (Call::Grant(0, 1), Answer::Grants(Granted::Over)),
    (Call::Room(1), Answer::Bytes(2_147_483_647)),
];

const NEGATIVE: [(Call, Answer); 9] = [
    (Call::Begin(1), Answer::Begins(Began::Live)),
    (Call::Take(1, 70_000), Answer::Bytes(65_535)),
    (Call::Shift(0), Answer::Shifts(Ok(()))),
    (Call::Grant(1, 65_535), Answer::Grants(Granted::Taken)),
    (Call::Grant(0, 9), Answer::Grants(Granted::Taken)),
    (Call::Take(1, 1), Answer::Bytes(0)),
    (Call::Grant(1, 1), Answer::Grants(Granted::Taken)),
    (Call::Take(1, 5), Answer::Bytes(1)),
    (Call::Take(1, 5), Answer::Bytes(0)),
];

const SHIFTS: [(Call, Answer); 9] = [
    (Call::Begin(1), Answer::Begins(Began::Live)),
    (Call::Grant(1, 1), Answer::Grants(Granted::Taken)),
    (Call::Shift(2_147_483_647), Answer::Shifts(Err(Over))),
    (
        Call::Grant(1, 2_147_418_111),
        Answer::Grants(Granted::Taken),
    ),
    (Call::Grant(1, 1), Answer::Grants(Granted::Over)),
    (Call::Close(1), Answer::Done),
    (Call::Shift(2_147_483_647), Answer::Shifts(Ok(()))),
    (Call::Begin(3), Answer::Begins(Began::Live)),
    (Call::Grant(3, 1), Answer::Grants(Granted::Over)),
];

const IDS: [(Call, Answer); 20] = [
    (Call::Begin(2), Answer::Begins(Began::BadId)),
    (Call::Begin(0), Answer::Begins(Began::BadId)),
    (Call::Begin(5), Answer::Begins(Began::Live)),
    (Call::Begin(3), Answer::Begins(Began::Old)),
    (Call::Begin(5), Answer::Begins(Began::Old)),
    (Call::Data(7, 1), Answer::Counts(Counted::Idle)),
    (Call::Data(2, 1), Answer::Counts(Counted::Idle)),
    (Call::Data(3, 1), Answer::Counts(Counted::Ignored)),
    (Call::Grant(7, 1), Answer::Grants(Granted::Idle)),
    (Call::Grant(4, 0), Answer::Grants(Granted::Idle)),
    (Call::Grant(3, 0), Answer::Grants(Granted::Ignored)),
    (Call::Grant(5, 0), Answer::Grants(Granted::Zero)),
    (Call::Grant(0, 0), Answer::Grants(Granted::Zero)),
    (Call::End(5), Answer::Done),
    (Call::Data(5, 1), Answer::Counts(Counted::Ignored)),
    (Call::Grant(5, 1), Answer::Grants(Granted::Taken)),
    (Call::Close(5), Answer::Done),
    (Call::Data(5, 1), Answer::Counts(Counted::Ignored)),
    (Call::Grant(5, 1), Answer::Grants(Granted::Ignored)),
    (Call::Room(5), Answer::NotLive),
];

const GIVES_BACK: [(Call, Answer); 12] = [
    (Call::Begin(1), Answer::Begins(Began::Live)),
    (Call::Begin(3), Answer::Begins(Began::Live)),
    (Call::Read(3, 16_383), Answer::Counts(Counted::Yes)),
    (Call::GiveBack, Answer::Update(None)),
    (Call::Read(1, 16_384), Answer::Counts(Counted::Yes)),
    (Call::GiveBack, Answer::Update(Some((0, 32_767)))),
    (Call::GiveBack, Answer::Update(Some((1, 16_384)))),
    (Call::GiveBack, Answer::Update(None)),
    (Call::Read(3, 1), Answer::Counts(Counted::Yes)),
    (Call::GiveBack, Answer::Update(Some((3, 16_384)))),
    (
        Call::Data(1, 65_535),
        Answer::Counts(Counted::OverConnection),
    ),
    (Call::Data(1, 65_534), Answer::Counts(Counted::Yes)),
];

const PASSED: [(Call, Answer); 12] = [
    (Call::Begin(1), Answer::Begins(Began::Live)),
    (Call::Data(1, 65_535), Answer::Counts(Counted::Yes)),
    (Call::Data(1, 1), Answer::Counts(Counted::OverConnection)),
    (Call::Data(9, 1), Answer::Counts(Counted::OverConnection)),
    (Call::Data(9, 0), Answer::Counts(Counted::Idle)),
    (Call::Data(1, 0), Answer::Counts(Counted::Yes)),
    (Call::Begin(3), Answer::Begins(Began::Live)),
    (Call::Close(1), Answer::Done),
    (Call::Data(1, 0), Answer::Counts(Counted::Ignored)),
    (Call::GiveBack, Answer::Update(None)),
    (Call::Take(3, 10), Answer::Bytes(10)),
    (Call::Room(3), Answer::Bytes(65_525)),
];

// The stream's window is passed within the connection's, which counts the frame, and as consumed.
const PASSED_STREAM: [(Call, Answer); 7] = [
    (Call::Begin(1), Answer::Begins(Began::Live)),
    (Call::Begin(3), Answer::Begins(Began::Live)),
    (Call::Read(1, 16_384), Answer::Counts(Counted::Yes)),
    (Call::GiveBack, Answer::Update(Some((0, 16_384)))),
    (Call::Data(1, 49_152), Answer::Counts(Counted::OverStream)),
    (
        Call::Data(3, 16_384),
        Answer::Counts(Counted::OverConnection),
    ),
    (Call::GiveBack, Answer::Update(Some((0, 49_152)))),
];

#[test]
fn each_call_answers_by_the_windows(rt: HostRuntime) -> Result<(), Fail> {
    let tables: [&[(Call, Answer)]; 7] = [
        &LARGEST,
        &NEGATIVE,
        &SHIFTS,
        &IDS,
        &GIVES_BACK,
        &PASSED,
        &PASSED_STREAM,
    ];
    for &table in &tables {
        let mut streams = Streams::new(rt.alloc())?;
        for (at, row) in table.iter().enumerate() {
            let (call, wanted) = *row;
            assert!(rt; make(&mut streams, call) == wanted, "row {at}");
        }
    }
    Ok(())
}

#[test]
fn a_hundred_streams_are_live_and_no_more(rt: HostRuntime) -> Result<(), Fail> {
    let mut streams = Streams::new(rt.alloc())?;
    for n in 0..100u32 {
        assert!(rt; streams.begin(2 * n + 1) == Began::Live, "stream {n}");
    }
    assert_eq!(rt; streams.begin(201), Began::Refused);
    assert_eq!(rt; streams.begin(201), Began::Old);
    assert_eq!(rt; streams.on_data(201, 1), Counted::Ignored);
    assert!(rt; streams.is_live(199));
    assert!(rt; !streams.is_live(201));
    assert!(rt; streams.is_idle(203));
    assert_eq!(rt; streams.highest(), 201);
    assert!(rt; !streams.has_ended(199));
    streams.ended(199);
    assert!(rt; streams.has_ended(199));
    Ok(())
}

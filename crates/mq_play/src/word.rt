//! The words with which lines begin that have parts behind a space.

/// The first word of a setting.
#[derive(Clone, Copy, Debug, PartialEq, Eq)]
pub enum SettingWord {
    Workers,
    Template,
    Name,
    Allow,
    Deny,
    Pool,
    Reach,
    Route,
    Host,
    Mtu,
    History,
}

/// The first word of a line.
#[derive(Clone, Copy, Debug, PartialEq, Eq)]
pub enum Word {
    Setting(SettingWord),
    Conn,
    Bytes,
    Text,
    Fill,
    End,
    Room,
    FailRead,
    FailWrite,
    Dgram,
    FailPort,
    Packet,
    Step,
    Run,
}

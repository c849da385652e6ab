//! The types of frames (RFC 9113, section 6).
ghost use Rattle.std.specs.Prelude.{◌≡◌};
ghost use Rattle.mq_frame.specs.Header.{kind_of, byte_of, is_skipped};

/// The type of a frame.
#[derive(Clone, Copy)]
pub enum Kind {
    Data,
    Headers,
    Priority,
    Reset,
    Settings,
    Push,
    Ping,
    GoAway,
    Window,
    Continuation,
    Unknown(u8),
}

impl Kind {
    /// The type with this byte.
    pub fn of(byte: u8) -> Kind
        ensures { result ≡ kind_of byte }
    {
        match byte {
            0 => Kind::Data,
            1 => Kind::Headers,
            2 => Kind::Priority,
            3 => Kind::Reset,
            4 => Kind::Settings,
            5 => Kind::Push,
            6 => Kind::Ping,
            7 => Kind::GoAway,
            8 => Kind::Window,
            9 => Kind::Continuation,
            10..=255 => Kind::Unknown(byte),
        }
    }

    /// Whether contents of this type are read past.
    pub fn is_skipped(self) -> bool
        ensures { result ≡ is_skipped self }
    {
        matches!(self, Kind::Priority | Kind::Unknown(_))
    }

    /// The byte of this type.
    pub fn byte(self) -> u8
        ensures { result ≡ byte_of self }
    {
        match self {
            Kind::Data => 0,
            Kind::Headers => 1,
            Kind::Priority => 2,
            Kind::Reset => 3,
            Kind::Settings => 4,
            Kind::Push => 5,
            Kind::Ping => 6,
            Kind::GoAway => 7,
            Kind::Window => 8,
            Kind::Continuation => 9,
            Kind::Unknown(byte) => byte,
        }
    }
}

//! The first words of lines.

ghost use Rattle.std.specs.Prelude.{◌≡◌};
ghost use Rattle.plan_rows.specs.Keywords.{keyword_text, same};

/// The first word of a line, which says of what kind the line is.
#[derive(Clone, Copy, Debug, PartialEq, Eq)]
pub enum Keyword {
    Drmplan,
    Carry,
    First,
    Length,
    Config,
    Mode,
    Occupancy,
    Depth,
    Msc,
    Sdc,
    Protection,
    Room,
    Service,
    Stream,
    Clock,
    Block,
    Label,
    Freq,
    When,
    App,
    Audio,
    Language,
    Raw,
    Feed,
    Take,
    Packet,
    Packets,
    Back,
}

impl Keyword {
    /// Whether it is the other one.
    pub fn is(self, other: Keyword) -> bool
        ensures { result ≡ same self other }
    {
        self as u8 == other as u8
    }

    /// The word itself.
    pub fn text(self) -> &'static str
        ensures { result.now ≡ keyword_text self }
    {
        match self {
            Keyword::Drmplan => "drmplan",
            Keyword::Carry => "carry",
            Keyword::First => "first",
            Keyword::Length => "length",
            Keyword::Config => "config",
            Keyword::Mode => "mode",
            Keyword::Occupancy => "occupancy",
            Keyword::Depth => "depth",
            Keyword::Msc => "msc",
            Keyword::Sdc => "sdc",
            Keyword::Protection => "protection",
            Keyword::Room => "room",
            Keyword::Service => "service",
            Keyword::Stream => "stream",
            Keyword::Clock => "clock",
            Keyword::Block => "block",
            Keyword::Label => "label",
            Keyword::Freq => "freq",
            Keyword::When => "when",
            Keyword::App => "app",
            Keyword::Audio => "audio",
            Keyword::Language => "language",
            Keyword::Raw => "raw",
            Keyword::Feed => "feed",
            Keyword::Take => "take",
            Keyword::Packet => "packet",
            Keyword::Packets => "packets",
            Keyword::Back => "back",
        }
    }
}

//! The robustness mode.

ghost use Rattle.std.specs.Prelude.{◌≡◌, ◌<◌, ◌≤◌, IfSome, Some, None};
ghost use Rattle.drm_fac.specs.Mode.{mode_code, mode_letter, mode_of_code, mode_of_letter};

/// The robustness mode (ES 201 980).
#[derive(Clone, Copy, Debug, PartialEq, Eq)]
pub enum Mode {
    A,
    B,
    C,
    D,
}

impl Mode {
    /// Its code, as the multiplex distribution interface and the announcement of a configuration have it.
    pub fn code(self) -> u8
        ensures code { result ≡ mode_code self }
        ensures in_range { result < 4 }
        ensures read_again { mode_of_code result ≡ Some self }
    {
        match self {
            Mode::A => 0,
            Mode::B => 1,
            Mode::C => 2,
            Mode::D => 3,
        }
    }

    /// The mode of a code; `None` where no mode has it.
    pub fn from_code(code: u8) -> Option<Mode>
        ensures mode { result ≡ mode_of_code code }
        ensures same { IfSome result (λ mode. mode_code mode ≡ code) }
        ensures none { result ≡ None → 3 < code }
    {
        match code {
            0 => Some(Mode::A),
            1 => Some(Mode::B),
            2 => Some(Mode::C),
            3 => Some(Mode::D),
            _ => None,
        }
    }

    /// Its letter, as it is printed and written in texts.
    pub fn letter(self) -> &'static str
        ensures letter { result.now ≡ mode_letter self }
        ensures read_again { mode_of_letter result.now ≡ Some self }
    {
        match self {
            Mode::A => "A",
            Mode::B => "B",
            Mode::C => "C",
            Mode::D => "D",
        }
    }

    /// The mode of a letter; `None` for each other word.
    pub fn from_letter(word: &str) -> Option<Mode>
        ensures { result ≡ mode_of_letter word.now }
    {
        match word {
            "A" => Some(Mode::A),
            "B" => Some(Mode::B),
            "C" => Some(Mode::C),
            "D" => Some(Mode::D),
            _ => None,
        }
    }
}

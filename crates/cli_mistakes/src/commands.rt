//! The commands as a person sees them: the plain words and the options of each.

use crate::value::{Allowed, Value};

/// The plain words of a command, and its options.
#[derive(Clone, Copy, Drop)]
pub struct Command {
    pub name: &'static str,
    pub words: &'static [Allowed],
    /// Whether the command reads a capture, a FAC or units from standard input.
    pub reads_input: bool,
    pub options: &'static [Allowed],
}

const NAME: Allowed = Allowed {
    name: "NAME",
    value: Value::Name,
};

const OTHER: Allowed = Allowed {
    name: "OTHER",
    value: Value::Name,
};

const SCRIPT: Allowed = Allowed {
    name: "SCRIPT",
    value: Value::Name,
};

const FROM: Allowed = Allowed {
    name: "FROM",
    value: Value::Address,
};

const ADDRESS: Allowed = Allowed {
    name: "ADDR",
    value: Value::Address,
};

const ADDRESSES: Allowed = Allowed {
    name: "ADDRS",
    value: Value::Addresses { least: 1, most: 16 },
};

const SEVERAL: Allowed = Allowed {
    name: "ADDRS",
    value: Value::Addresses { least: 2, most: 4 },
};

const TO: Allowed = Allowed {
    name: "to",
    value: Value::Addresses { least: 1, most: 16 },
};

const CARRY: Allowed = Allowed {
    name: "CARRY",
    value: Value::Carry,
};

const LIVE: Allowed = Allowed {
    name: "live",
    value: Value::Streams,
};

const PACE: Allowed = Allowed {
    name: "pace",
    value: Value::Number {
        least: 0,
        most: 10_000,
    },
};

const FROM_FRAME: Allowed = Allowed {
    name: "from",
    value: Value::Number {
        least: 0,
        most: 1_000_000,
    },
};

const UNTIL_FRAME: Allowed = Allowed {
    name: "until",
    value: Value::Number {
        least: 0,
        most: 1_000_000,
    },
};

const STREAM: Allowed = Allowed {
    name: "STREAM",
    value: Value::Number { least: 0, most: 3 },
};

const PID: Allowed = Allowed {
    name: "PID",
    value: Value::Number { least: 0, most: 3 },
};

const LENGTH: Allowed = Allowed {
    name: "LENGTH",
    value: Value::Number {
        least: 1,
        most: 255,
    },
};

const SIZE: Allowed = Allowed {
    name: "N",
    value: Value::Number {
        least: 1,
        most: 1000,
    },
};

const WINDOW: Allowed = Allowed {
    name: "window",
    value: Value::Number { least: 1, most: 64 },
};

const REACH: Allowed = Allowed {
    name: "reach",
    value: Value::Number {
        least: 1,
        most: 32_767,
    },
};

const FIRST: Allowed = Allowed {
    name: "first",
    value: Value::Number {
        least: 0,
        most: 65_535,
    },
};

const FRAMES: Allowed = Allowed {
    name: "frames",
    value: Value::Number {
        least: 1,
        most: 3_000_000,
    },
};

const IDLE: Allowed = Allowed {
    name: "idle",
    value: Value::Number {
        least: 1,
        most: 1_000_000,
    },
};

const LIMIT: Allowed = Allowed {
    name: "limit",
    value: Value::Number {
        least: 1,
        most: 4_294_967_295,
    },
};

const PATHS_LIMIT: Allowed = Allowed {
    name: "limit",
    value: Value::Number {
        least: 1,
        most: 1_000_000,
    },
};

const PACKETS: &[Allowed] = &[WINDOW, REACH, FIRST, FRAMES];

const READING: &[Allowed] = &[WINDOW, REACH, FIRST, FRAMES, IDLE, LIMIT];

/// The commands of `drmcast`.
pub(crate) fn commands() -> &'static [Command] {
    COMMANDS
}

// Whatever names it is proved over each of its rows, so one function does.
const COMMANDS: &[Command] = &[
    Command {
        name: "fac",
        words: &[],
        reads_input: true,
        options: &[],
    },
    Command {
        name: "check",
        words: &[NAME],
        reads_input: false,
        options: &[],
    },
    Command {
        name: "capacity",
        words: &[NAME],
        reads_input: false,
        options: &[],
    },
    Command {
        name: "agree",
        words: &[NAME, OTHER],
        reads_input: false,
        options: &[],
    },
    Command {
        name: "serve",
        words: &[NAME],
        reads_input: false,
        options: &[TO, PACE, FROM_FRAME, UNTIL_FRAME, LIVE],
    },
    Command {
        name: "receive",
        words: &[ADDRESSES],
        reads_input: true,
        options: READING,
    },
    Command {
        name: "count",
        words: &[ADDRESS],
        reads_input: true,
        options: READING,
    },
    Command {
        name: "air",
        words: &[NAME, SCRIPT],
        reads_input: false,
        options: &[WINDOW],
    },
    Command {
        name: "show",
        words: &[],
        reads_input: true,
        options: &[],
    },
    Command {
        name: "convert",
        words: &[CARRY],
        reads_input: true,
        options: PACKETS,
    },
    Command {
        name: "gate",
        words: &[FROM, ADDRESSES, CARRY],
        reads_input: false,
        options: READING,
    },
    Command {
        name: "pack",
        words: &[PID, LENGTH],
        reads_input: true,
        options: &[],
    },
    Command {
        name: "unpack",
        words: &[STREAM, PID, LENGTH],
        reads_input: true,
        options: PACKETS,
    },
    Command {
        name: "texts",
        words: &[STREAM],
        reads_input: true,
        options: PACKETS,
    },
    Command {
        name: "exercise",
        words: &[SIZE],
        reads_input: false,
        options: &[],
    },
];

/// The words of `drmpaths`, which has no command.
pub(crate) const PATHS: Command = Command {
    name: "drmpaths",
    words: &[SEVERAL],
    reads_input: false,
    options: &[WINDOW, REACH, FIRST, FRAMES, IDLE, PATHS_LIMIT],
};

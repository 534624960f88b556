//! The laws of joining packets, each on a function that does nothing.

ghost use Rattle.law_data.specs.Laws.{OneEvent, SomeEvent, WrittenUnitsAreRead, JoinsUnits, AnswersEach, KnowsOpen, TellsEachOnce, GivesWhatIsWhole};

/// Bytes are one packet, or are refused for one reason.
pub fn one_event()
    ensures { OneEvent }
{}

/// Bytes are a packet, or are refused.
pub fn some_event()
    ensures { SomeEvent }
{}

/// What is written of a packet is read as that packet.
pub fn written_is_read()
    ensures { WrittenUnitsAreRead }
{}

/// Of every reading the units that are in it are given, and no others.
pub fn joins_units()
    ensures { JoinsUnits }
{}

/// At each place of every reading what is said is right.
pub fn answers_each()
    ensures { AnswersEach }
{}

/// At each place of every reading it is known whether a unit is open.
pub fn knows_open()
    ensures { KnowsOpen }
{}

/// Each unit that is begun is given or its cut is reported, once.
pub fn tells_each_once()
    ensures { TellsEachOnce }
{}

/// Of units whose packets come with losses those are given that are whole.
pub fn gives_what_is_whole()
    ensures { GivesWhatIsWhole }
{}

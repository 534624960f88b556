//! The lines of a schedule's text.

use plan_rows::LineField::{
    Bit, Byte, Bytes, Fixed, Hex2, Hex4, Hex6, Long, Name, OptionalByte, RawKind, Short, Text,
};
use plan_rows::{Choice, Keyword, LineField};

// The lines of a table: each as its keyword, the first and the last version of the text in which it stands, and the fields of the words
// behind the keyword.
macro_rules! lines {
    ($($keyword:ident $first:literal to $last:literal: $($field:expr),*;)*) => {
        [$(LineField::Line(Keyword::$keyword, $first, $last), $($field,)*)*]
    };
}

/// The lines of a schedule. Of the lines of one keyword the first whose words are right is meant.
pub const TABLE: [LineField; 116] = lines! {
    Drmplan 1 to 2: LineField::Choice(Choice::Version);
    Carry 1 to 2: Fixed(Choice::Carry, 0);
    Carry 1 to 2: Fixed(Choice::Carry, 1), Byte(0, 5), Short(128, 1500);
    First 1 to 2: Short(0, 65_535), Long(0, 4_294_967_295);
    Length 1 to 2: Long(1, 1_000_000);
    Config 1 to 2: Long(0, 999_999), Byte(0, 7);
    Mode 1 to 2: LineField::Choice(Choice::Mode);
    Occupancy 1 to 2: Byte(0, 5);
    Depth 1 to 2: LineField::Choice(Choice::Depth);
    Msc 1 to 2: Byte(0, 3);
    Sdc 1 to 2: Bit;
    Protection 1 to 2: Byte(0, 3), Byte(0, 3);
    Room 1 to 2: Short(0, 1023);
    Service 1 to 2: Hex6, Byte(0, 3), Bit, Byte(0, 15), LineField::Choice(Choice::Kind), Byte(0, 31), Bit;
    Stream 1 to 2: Short(0, 4095), Short(0, 4095), Fixed(Choice::Content, 0), Hex2;
    Stream 1 to 2: Short(0, 4095), Short(0, 4095), Fixed(Choice::Content, 1), Name(255);
    Clock 1 to 2: Long(0, 131_000), Byte(0, 23), Byte(0, 59);
    Block 2 to 2: Long(0, 999_999);
    Label 1 to 2: Byte(0, 3), Text(16, 64);
    Freq 1 to 2: Bit, Bit, OptionalByte, OptionalByte, LineField::Frequencies;
    When 1 to 2: Byte(0, 15), Byte(0, 127), Short(0, 2047), Short(0, 16_383);
    App 1 to 2: Byte(0, 3), Byte(0, 3), Fixed(Choice::Form, 0), Bit, Byte(0, 7), Bytes(126);
    App 1 to 2: Byte(0, 3), Byte(0, 3), Fixed(Choice::Form, 1), Bit, Byte(0, 3), Bit, Byte(0, 7), Byte(0, 255), Bytes(125);
    Audio 1 to 2: Byte(0, 3), Byte(0, 3), Byte(0, 3), Bit, Byte(0, 3), Byte(0, 7), Bit, Bit, Byte(0, 31);
    Audio 1 to 2: Byte(0, 3), Byte(0, 3), Byte(0, 3), Bit, Byte(0, 3), Byte(0, 7), Bit, Bit, Byte(0, 31), Bytes(125);
    Language 1 to 2: Byte(0, 3), Hex6, Hex4;
    Raw 1 to 2: RawKind, Bit, Byte(0, 15), Bytes(127);
};

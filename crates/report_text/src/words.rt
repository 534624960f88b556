//! The words for what is wrong: a layer, and a field of it.

ghost use Rattle.std.specs.Prelude.{◌≡◌, ◌++◌};
ghost use Rattle.text_output.specs.Text.{piece_text};
ghost use Rattle.report_text.specs.FaultWords.{af_words, pft_words, sdc_words, mux_words, mdi_words, bad_words, field_words, taken_words};

use dcp_af::AfFault;
use dcp_collect::{Field, Taken};
use dcp_pft::PftFault;
use drm_mux::MuxFault;
use drm_sdc::SdcFault;
use mdi_items::MdiFault;
use mod_feed::BadFault;
use text_output::Piece;

/// A layer and a field, and what stands behind the field's colon.
pub type FaultWords = (Piece<'static>, Piece<'static>);

/// The words for a packet that is no frame.
pub(crate) fn bad_words(fault: BadFault) -> FaultWords
    ensures { piece_text result.0 ++ piece_text result.1 ≡ bad_words fault }
{
    match fault {
        BadFault::Code => plain("pft code"),
        BadFault::Af(cause) => plain(af_words(cause)),
        BadFault::Mdi(cause) => mdi_words(cause),
    }
}

/// The words for a datagram that is refused, or disagrees.
pub(crate) fn taken_words(taken: &Taken) -> &'static str
    ensures { result.now ≡ taken_words taken.now }
{
    match taken {
        Taken::Refused(cause) => field_words(*cause),
        Taken::Inconsistent { .. } => "pft inconsistent",
        // Nothing is printed of these.
        Taken::Kept | Taken::Repeated | Taken::Late => "",
    }
}

fn field_words(field: Field) -> &'static str
    ensures { result.now ≡ field_words field }
{
    match field {
        Field::Sync => "dcp sync",
        Field::Af(cause) => af_words(cause),
        Field::Pft(cause) => pft_words(cause),
        Field::Large => "af large",
        Field::Far => "dcp far",
    }
}

fn plain(words: &'static str) -> FaultWords
    ensures { piece_text result.0 ++ piece_text result.1 ≡ words.now }
{
    (Piece::Words(""), Piece::Words(words))
}

fn named(words: &'static str, name: [u8; 4]) -> FaultWords
    ensures { piece_text result.0 ++ piece_text result.1 ≡ words.now ++ name }
{
    (Piece::Words(words), Piece::Name(name))
}

/// The words for what is wrong with an AF packet.
/// Example: `af_words(AfFault::Sync)` is `"af sync"`.
pub fn af_words(fault: AfFault) -> &'static str
    ensures { result.now ≡ af_words fault }
{
    match fault {
        AfFault::Sync => "af sync",
        AfFault::HeadCut { .. } => "af head-cut",
        AfFault::Length { .. } => "af length",
        AfFault::Version { .. } => "af version",
        AfFault::Kind { .. } => "af kind",
        AfFault::Crc { .. } => "af crc",
    }
}

/// The words for what is wrong with a fragment.
/// Example: `pft_words(PftFault::HeadCrc)` is `"pft head-crc"`.
pub fn pft_words(fault: PftFault) -> &'static str
    ensures { result.now ≡ pft_words fault }
{
    match fault {
        // Such a datagram is reported as one of neither kind.
        PftFault::Sync => "",
        PftFault::HeadCut => "pft head-cut",
        PftFault::HeadCrc => "pft head-crc",
        PftFault::Count => "pft count",
        PftFault::Index => "pft index",
        PftFault::PlenMismatch => "pft plen",
        PftFault::RsK => "pft rs-k",
        PftFault::RsZ => "pft rs-z",
        PftFault::TooMany => "pft too-many",
        PftFault::TooLarge => "pft too-large",
        PftFault::Chunks => "pft chunks",
    }
}

/// The words for what is wrong with a payload.
pub fn mdi_words(fault: MdiFault) -> FaultWords
    ensures { piece_text result.0 ++ piece_text result.1 ≡ mdi_words fault }
{
    match fault {
        MdiFault::Tag(_) => plain("mdi value-cut"),
        MdiFault::Twice { name } => named("mdi twice:", name),
        MdiFault::Absent { name } => named("mdi absent:", name),
        MdiFault::Protocol => plain("mdi protocol"),
        MdiFault::ItemLength { name, .. } => named("mdi item-length:", name),
        MdiFault::Fac(_) => plain("mdi fac-crc"),
        MdiFault::Hierarchical { .. } => plain("mdi hierarchical"),
        MdiFault::Mux(cause) => mux_words(cause),
        MdiFault::Mode { .. } => plain("mdi mode"),
        MdiFault::Sdc(cause) => plain(sdc_words(cause)),
    }
}

fn mux_words(fault: MuxFault) -> FaultWords
    ensures { piece_text result.0 ++ piece_text result.1 ≡ mux_words fault }
{
    match fault {
        MuxFault::SdciLength { .. } => plain("mdi sdci-length"),
        MuxFault::SdciFront => plain("mdi sdci-front"),
        MuxFault::StreamLength { stream, .. } => (
            Piece::Words("mdi stream-length:"),
            Piece::Number(u64::from(stream)),
        ),
        // No multiplex frame is cut into streams here.
        MuxFault::FrameLength { .. } => plain(""),
    }
}

fn sdc_words(fault: SdcFault) -> &'static str
    ensures { result.now ≡ sdc_words fault }
{
    match fault {
        SdcFault::BlockLength { .. } => "sdc block-length",
        SdcFault::Front { .. } => "sdc front",
        SdcFault::Crc { .. } => "sdc crc",
        SdcFault::EntityCut { .. } => "sdc entity-cut",
        SdcFault::BodyLength { .. } => "sdc body-length",
        SdcFault::LabelText { .. } => "sdc label-text",
        // Reading a frame takes no memory.
        SdcFault::NoMemory => "",
    }
}

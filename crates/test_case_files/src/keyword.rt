//! The keywords of a case's lines.

/// The keywords that begin a line of a case, in the order in which its lines stand.
#[derive(Clone, Copy, PartialEq, Eq, PartialOrd, Ord)]
pub enum CaseKeyword {
    Words,
    Word,
    File,
    ShelfFails,
    Input,
    InputPiece,
    InputFails,
    SinkRoom,
    SinkPiece,
    SinkFails,
    ErrRoom,
    ErrPiece,
    ErrFails,
    DockFails,
    Link,
    Status,
    Out,
    OutPrefix,
    Err,
    Sent,
    Differs,
}

impl CaseKeyword {
    pub fn parse(text: &str) -> Option<CaseKeyword> {
        Some(match text {
            "words" => CaseKeyword::Words,
            "word" => CaseKeyword::Word,
            "file" => CaseKeyword::File,
            "shelf-fails" => CaseKeyword::ShelfFails,
            "input" => CaseKeyword::Input,
            "input-piece" => CaseKeyword::InputPiece,
            "input-fails" => CaseKeyword::InputFails,
            "sink-room" => CaseKeyword::SinkRoom,
            "sink-piece" => CaseKeyword::SinkPiece,
            "sink-fails" => CaseKeyword::SinkFails,
            "err-room" => CaseKeyword::ErrRoom,
            "err-piece" => CaseKeyword::ErrPiece,
            "err-fails" => CaseKeyword::ErrFails,
            "dock-fails" => CaseKeyword::DockFails,
            "link" => CaseKeyword::Link,
            "status" => CaseKeyword::Status,
            "out" => CaseKeyword::Out,
            "out-prefix" => CaseKeyword::OutPrefix,
            "err" => CaseKeyword::Err,
            "sent" => CaseKeyword::Sent,
            "differs" => CaseKeyword::Differs,
            _ => return None,
        })
    }

    /// Whether a line of this keyword may stand behind one of the other.
    pub fn may_follow(self, last: Option<CaseKeyword>) -> bool {
        match last {
            None => true,
            Some(last) if last == self => self.is_repeated(),
            Some(last) => last < self,
        }
    }

    fn is_repeated(self) -> bool {
        matches!(
            self,
            CaseKeyword::Word | CaseKeyword::File | CaseKeyword::Link | CaseKeyword::Sent
        )
    }
}

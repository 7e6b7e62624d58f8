//! The kinds of letters: the first byte says which it is.
ghost use Rattle.messages.specs.Kind.{Decodes};

#[derive(Clone, Copy, Debug, PartialEq, Eq)]
pub(crate) enum Kind {
    Append = 1,
    AppendResponse = 2,
    AppendReject = 3,
    RequestVote = 4,
    RequestVoteResponse = 5,
    TermNotice = 6,
}

/// A byte that is no kind of letter.
#[derive(Clone, Copy, Debug, PartialEq, Eq)]
pub(crate) struct UnknownKind;

impl TryFrom<u8> for Kind {
    type Error = UnknownKind;

    ghost try_from_gives = { Decodes };

    fn try_from(byte: u8) -> Result<Kind, UnknownKind> {
        match byte {
            1 => Ok(Kind::Append),
            2 => Ok(Kind::AppendResponse),
            3 => Ok(Kind::AppendReject),
            4 => Ok(Kind::RequestVote),
            5 => Ok(Kind::RequestVoteResponse),
            6 => Ok(Kind::TermNotice),
            _ => Err(UnknownKind),
        }
    }
}

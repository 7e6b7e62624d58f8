//! What holds of letters and their bytes.
ghost use Rattle.messages.specs.Letter.{RoundTrip, LettersShort, OneToOne};
ghost use Rattle.messages.specs.Message.{SentComesBack};

/// Every letter that a machine can make comes back from its bytes.
pub fn round_trip()
    ensures { RoundTrip }
{}

/// Its bytes are bytes, at most 4,096 of them.
pub fn letters_are_short()
    ensures { LettersShort }
{}

/// Bytes that are a letter are the bytes of just that letter.
pub fn one_to_one()
    ensures { OneToOne }
{}

/// What a machine sends comes back from its bytes, with the entries of its log.
pub fn sent_comes_back()
    ensures { SentComesBack }
{}

// The words of the format, read from bytes. Each enum has a match of its own: the words are all that they differ in.
ghost use Rattle.entries.specs.Rendering.{Named, board_text, policy_text, word_text};

use crate::types::{BoardName, Letter, PolicyName, UnknownWord, Word};

impl TryFrom<&[u8]> for Word {
    type Error = UnknownWord;

    ghost try_from_gives = { λ bytes r. Named word_text bytes.now r };

    fn try_from(bytes: &[u8]) -> Result<Word, UnknownWord> {
        match bytes {
            b"rig" => Ok(Word::Rig),
            b"set" => Ok(Word::Set),
            b"o" => Ok(Word::Call(Letter::Open)),
            b"r" => Ok(Word::Call(Letter::Read)),
            b"w" => Ok(Word::Call(Letter::Write)),
            b"c" => Ok(Word::Call(Letter::Close)),
            b"p" => Ok(Word::Call(Letter::Push)),
            b"j" => Ok(Word::Call(Letter::Jolt)),
            b"a" => Ok(Word::Call(Letter::Again)),
            b"d" => Ok(Word::Call(Letter::Drop)),
            _ => Err(UnknownWord),
        }
    }
}

impl TryFrom<&[u8]> for BoardName {
    type Error = UnknownWord;

    ghost try_from_gives = { λ bytes r. Named board_text bytes.now r };

    fn try_from(bytes: &[u8]) -> Result<BoardName, UnknownWord> {
        match bytes {
            b"stores" => Ok(BoardName::Stores),
            b"lines" => Ok(BoardName::Lines),
            _ => Err(UnknownWord),
        }
    }
}

impl TryFrom<&[u8]> for PolicyName {
    type Error = UnknownWord;

    ghost try_from_gives = { λ bytes r. Named policy_text bytes.now r };

    fn try_from(bytes: &[u8]) -> Result<PolicyName, UnknownWord> {
        match bytes {
            b"plain" => Ok(PolicyName::Plain),
            b"careful" => Ok(PolicyName::Careful),
            _ => Err(UnknownWord),
        }
    }
}

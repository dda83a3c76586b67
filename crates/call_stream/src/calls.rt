// The call that bytes begin with, by the numbers in front of it.
ghost use Rattle.std.specs.Prelude.{◌≡◌, ◌≤◌};
ghost use Rattle.call_lines.specs.Lines.{most_bytes};
ghost use Rattle.call_stream.specs.Calls.{file_of, asked_by, front_of, call_length, found};

use call_lines::FRONT;
use call_lines::file_070::FRONT_070;
use call_lines::file_730::FRONT_730;
use numbers::word;

// The most bytes that are read or lent.
const MOST: u32 = 4_096;

#[derive(Clone, Copy, PartialEq, Eq)]
pub enum FileNumber {
    File730,
    File070,
}

#[derive(Clone, Copy, PartialEq, Eq)]
pub enum Asked {
    Reads,
    Writes,
}

// The bytes begin with none.
#[derive(Clone, Copy, PartialEq, Eq)]
pub struct NoCall;

#[derive(Clone, Copy, PartialEq, Eq)]
pub struct Call {
    pub file: FileNumber,
    pub asked: Asked,
    pub bytes: usize,
}

// Two lists of numbers, each of its own kind.
impl TryFrom<u32> for FileNumber {
    type Error = NoCall;

    ghost try_from_gives = { λ n r. r ≡ file_of n };

    fn try_from(n: u32) -> Result<FileNumber, NoCall> {
        match n {
            730 => Ok(FileNumber::File730),
            70 => Ok(FileNumber::File070),
            _ => Err(NoCall),
        }
    }
}

impl TryFrom<u32> for Asked {
    type Error = NoCall;

    ghost try_from_gives = { λ n r. r ≡ asked_by n };

    fn try_from(n: u32) -> Result<Asked, NoCall> {
        match n {
            0 => Ok(Asked::Reads),
            1 => Ok(Asked::Writes),
            _ => Err(NoCall),
        }
    }
}

impl Call {
    fn front(self) -> usize
        ensures { result ≡ front_of self.file self.asked }
    {
        match (self.asked, self.file) {
            (Asked::Reads, _) => FRONT,
            (Asked::Writes, FileNumber::File730) => FRONT_730,
            (Asked::Writes, FileNumber::File070) => FRONT_070,
        }
    }

    pub fn length(self) -> usize
        requires { self.bytes ≤ most_bytes }
        ensures { result ≡ call_length self }
    {
        self.front() + self.bytes
    }
}

// A whole call, or none yet where only a part of it is there.
pub fn find(s: &[u8]) -> Result<Option<Call>, NoCall>
    ensures { result ≡ found s.now }
{
    if s.len() < FRONT {
        return Ok(None);
    }
    let bytes = word(s, 8);
    if MOST < bytes {
        return Err(NoCall);
    }
    let file = FileNumber::try_from(word(s, 0))?;
    let asked = Asked::try_from(word(s, 4))?;
    let call = Call {
        file,
        asked,
        bytes: bytes as usize,
    };
    if s.len() < call.length() {
        return Ok(None);
    }
    Ok(Some(call))
}

// The number of a file that exists.
ghost use Rattle.std.specs.Prelude.{◌≡◌, ◌≤◌};

use crate::limits::FILES;
use crate::refusal::Refusal;

// A medium's files are numbered from 0 to 7.
#[derive(Clone, Copy, PartialEq, Eq, Debug)]
pub struct File {
    number: u8,
    ghost low: { number ≤ 7 },
}

impl TryFrom<u8> for File {
    ghost use Rattle.base.specs.Files.{number_in, existing};

    type Error = Refusal;

    ghost try_from_gives = { λ number r. number_in r ≡ existing number };

    fn try_from(number: u8) -> Result<File, Refusal> {
        if number as usize >= FILES {
            return Err(Refusal::NoSuchIndex);
        }
        Ok(File { number })
    }
}

impl File {
    ghost use Rattle.std.specs.Prelude.{map};
    ghost use Rattle.std.specs.List.{range_with_len};
    ghost use Rattle.base.specs.Files.{index_of};

    // All eight, in order.
    pub fn all() -> [File; 8]
        ensures { map index_of result ≡ range_with_len 0 8 }
    {
        [
            File { number: 0 },
            File { number: 1 },
            File { number: 2 },
            File { number: 3 },
            File { number: 4 },
            File { number: 5 },
            File { number: 6 },
            File { number: 7 },
        ]
    }

    // The file's place among the eight. A method and no `usize::from`: it stands in brackets behind a list.
    pub fn index(self) -> usize
        ensures { result ≡ index_of self }
    {
        self.number as usize
    }
}

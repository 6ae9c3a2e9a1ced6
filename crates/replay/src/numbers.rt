// Numbers in a list: those of the answer that a line expects, or of the library's answer.
ghost use Rattle.std.specs.Prelude.{◌≤◌, length};

use crate::fields;
use crate::fields::Unreadable;
use arrayvec::ArrayVec;
use outcome::Refusal;
use page_ids::{BasePage, PageId};
use reads::Marks;
use std::str::FromStr;
use word::Word;

// The most numbers of an answer.
const MOST: usize = 16;

#[derive(Clone, PartialEq, Eq, Drop)]
pub struct Numbers {
    list: ArrayVec<u64, MOST>,
}

impl Numbers {
    pub fn new(numbers: &[u64]) -> Self
        requires { length numbers.now ≤ 16 }
    {
        Numbers {
            list: ArrayVec::try_from(numbers).unwrap(),
        }
    }

    // What a call answers: 0 and its values, or the number of a refusal alone.
    pub fn answer<T: Into<Numbers> + Drop>(answer: Result<T, Refusal>) -> Self {
        match answer {
            Ok(values) => values.into(),
            Err(refusal) => Numbers::from(refusal),
        }
    }

    // Prints the numbers, each after a space. Each piece is a print of its own, so that all are tried.
    pub fn print(&self, rt: &impl Print) {
        for number in self.list.iter() {
            let _ = print!(rt; " ");
            let _ = print!(rt; "{number}");
        }
    }
}

// Each number is after a space. There is at least one, and there are not too many.
impl FromStr for Numbers {
    type Err = Unreadable;

    fn from_str(text: &str) -> Result<Self, Unreadable> {
        let mut list = ArrayVec::new();
        for field in text.strip_prefix(' ').ok_or(Unreadable)?.split(' ') {
            list.try_push(fields::number(field)?)
                .map_err(|_| Unreadable)?;
        }
        Ok(Numbers { list })
    }
}

impl From<Refusal> for Numbers {
    fn from(refusal: Refusal) -> Self {
        Numbers::new(&[u64::from(u32::from(refusal))])
    }
}

// ---- the values of a call that was carried out, after a 0

impl From<()> for Numbers {
    fn from(_none: ()) -> Self {
        Numbers::new(&[0])
    }
}

impl From<bool> for Numbers {
    fn from(flag: bool) -> Self {
        Numbers::new(&[0, u64::from(flag)])
    }
}

impl From<u8> for Numbers {
    fn from(byte: u8) -> Self {
        Numbers::new(&[0, u64::from(byte)])
    }
}

impl From<u32> for Numbers {
    fn from(number: u32) -> Self {
        Numbers::new(&[0, u64::from(number)])
    }
}

impl From<u64> for Numbers {
    fn from(number: u64) -> Self {
        Numbers::new(&[0, number])
    }
}

impl From<(u32, u32)> for Numbers {
    fn from(pair: (u32, u32)) -> Self {
        Numbers::new(&[0, u64::from(pair.0), u64::from(pair.1)])
    }
}

impl From<PageId> for Numbers {
    fn from(page: PageId) -> Self {
        Numbers::from(page.0)
    }
}

impl From<BasePage> for Numbers {
    fn from(page: BasePage) -> Self {
        Numbers::from(page.0)
    }
}

impl From<Marks> for Numbers {
    fn from(marks: Marks) -> Self {
        Numbers::from((marks.heap, marks.aux))
    }
}

impl From<Word> for Numbers {
    fn from(word: Word) -> Self {
        let [a, b, c, d] = word.limbs;
        Numbers::new(&[0, a, b, c, d])
    }
}

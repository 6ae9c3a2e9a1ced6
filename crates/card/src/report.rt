// Compares what came with what is expected. The first difference ends a path, whose line prints both.
use word::Word;

// What came in the place of what is expected.
#[derive(Clone, Copy)]
pub enum Wrong {
    Number {
        what: &'static str,
        expected: u64,
        came: u64,
    },
    // The gas that a touch of a frame's heap leaves.
    Gas {
        touch: u32,
        expected: u32,
        came: u32,
    },
    Word {
        what: &'static str,
        address: u32,
        expected: Word,
        came: Word,
    },
}

// Prints the 64 hexadecimal digits of a word, the highest first.
fn print_word(rt: &impl Print, word: Word) {
    let [a, b, c, d] = word.limbs;
    let _ = print!(rt; "{d:016x}");
    let _ = print!(rt; "{c:016x}");
    let _ = print!(rt; "{b:016x}");
    let _ = print!(rt; "{a:016x}");
}

// Prints the two numbers that differ.
fn print_numbers(rt: &impl Print, expected: u64, came: u64) {
    let _ = print!(rt; ": expected ");
    let _ = print!(rt; "{expected}");
    let _ = print!(rt; ", came ");
    let _ = print!(rt; "{came}");
}

impl Wrong {
    // Prints what differs. Each piece is a print of its own, so that all are tried.
    pub fn print(self, rt: &impl Print) {
        match self {
            Wrong::Number {
                what,
                expected,
                came,
            } => {
                let _ = print!(rt; " WRONG, ");
                let _ = print!(rt; "{what}");
                print_numbers(rt, expected, came);
            }
            Wrong::Gas {
                touch,
                expected,
                came,
            } => {
                let _ = print!(rt; " WRONG, gas after touch ");
                let _ = print!(rt; "{touch}");
                print_numbers(rt, u64::from(expected), u64::from(came));
            }
            Wrong::Word {
                what,
                address,
                expected,
                came,
            } => {
                let _ = print!(rt; " WRONG, ");
                let _ = print!(rt; "{what} at ");
                let _ = print!(rt; "{address}");
                let _ = print!(rt; ": expected ");
                print_word(rt, expected);
                let _ = print!(rt; ", came ");
                print_word(rt, came);
            }
        }
    }
}

// A number must be the expected one.
pub fn same(what: &'static str, expected: u64, came: u64) -> Result<(), Wrong> {
    if expected == came {
        Ok(())
    } else {
        Err(Wrong::Number {
            what,
            expected,
            came,
        })
    }
}

// The gas after a touch must be the expected one.
pub fn same_gas(touch: u32, expected: u32, came: u32) -> Result<(), Wrong> {
    if expected == came {
        Ok(())
    } else {
        Err(Wrong::Gas {
            touch,
            expected,
            came,
        })
    }
}

// The word at an address must be the expected one.
pub fn same_word(
    what: &'static str,
    address: u32,
    expected: Word,
    came: Word,
) -> Result<(), Wrong> {
    if expected.limbs == came.limbs {
        Ok(())
    } else {
        Err(Wrong::Word {
            what,
            address,
            expected,
            came,
        })
    }
}

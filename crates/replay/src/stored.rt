// A stored call: a letter, the numbers of the call, ' =', and the numbers of the answer.
use crate::call::Call;
use crate::fields::Unreadable;
use crate::machine::Machine;
use crate::numbers::Numbers;
use std::str::FromStr;

// A call, and the answer that its line expects.
#[derive(Clone, Drop)]
pub struct StoredCall {
    pub call: Call,
    pub expected: Numbers,
}

impl FromStr for StoredCall {
    type Err = Unreadable;

    fn from_str(line: &str) -> Result<Self, Unreadable> {
        let (call, expected) = line.split_once(" =").ok_or(Unreadable)?;
        Ok(StoredCall {
            call: call.parse()?,
            expected: expected.parse()?,
        })
    }
}

// Why a line does not count as right.
#[derive(Drop)]
pub enum Failure {
    Unreadable,
    Differs { expected: Numbers, got: Numbers },
}

impl From<Unreadable> for Failure {
    fn from(_unreadable: Unreadable) -> Self {
        Failure::Unreadable
    }
}

impl Failure {
    // Prints why, after the number of the line, and ends the line. Each piece is a print of its own, so that all are tried.
    pub fn print(&self, rt: &impl Print) {
        match self {
            Failure::Unreadable => {
                let _ = println!(rt; ": cannot be read");
            }
            Failure::Differs { expected, got } => {
                let _ = print!(rt; ": expected");
                expected.print(rt);
                let _ = print!(rt; ", got");
                got.print(rt);
                let _ = println!(rt);
            }
        }
    }
}

// Puts the call of a line to the library, and compares the answers.
pub fn check(machine: &mut Machine, line: &[u8]) -> Result<(), Failure> {
    let text = str::from_utf8(line).map_err(|_| Unreadable)?;
    let StoredCall { call, expected } = text.parse()?;
    let got = machine.answer(call)?;
    if got == expected {
        Ok(())
    } else {
        Err(Failure::Differs { expected, got })
    }
}

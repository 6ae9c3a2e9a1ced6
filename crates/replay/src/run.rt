// Takes the lines of the input one by one, and puts the call of each to the library.
use crate::input::Input;
use crate::machine::Machine;
use crate::report::Report;
use crate::stored;
use arrayvec::ArrayVec;
use std::io::Stdin;

pub fn replay(rt: &impl Print, from: Stdin) {
    let mut machine = Machine::new();
    let mut report = Report::new();
    let mut input = Input::new(from);
    let mut line = ArrayVec::new();
    for number in 1..u64::MAX {
        if input.is_ended() {
            break;
        }
        input.read_line(&mut line);
        match line.as_slice() {
            [] | [b'#', ..] => {}
            // The title is after a letter and a space.
            [b't', title @ ..] => report.begin_group(rt, title.get(1..).unwrap_or(&[])),
            call => report.count(rt, number, stored::check(&mut machine, call)),
        }
    }
    report.end(rt);
}

// Counts the calls of each group and of all groups, and how many answers differ.
// Each piece is a print of its own: one that cannot be written is left out, and the next is tried.
use crate::stored::Failure;
use arrayvec::ArrayVec;

// At most so many bytes of a title are printed.
const MOST_TITLE: usize = 128;

// How many answers that differ are printed.
const PRINTED: u64 = 20;

#[derive(Clone, Copy, Default)]
pub struct Counts {
    calls: u64,
    differ: u64,
}

impl Counts {
    // Counts a call, with the right answer or with another.
    fn count(&mut self, is_right: bool) {
        self.calls = self.calls.saturating_add(1);
        if !is_right {
            self.differ = self.differ.saturating_add(1);
        }
    }

    // Prints the counts, and ends their line.
    fn print(&self, rt: &impl Print) {
        let calls = self.calls;
        let differ = self.differ;
        let _ = print!(rt; "{calls}");
        let _ = print!(rt; " calls, ");
        let _ = print!(rt; "{differ}");
        let _ = println!(rt; " differ");
    }
}

// The title and the counts of a group, and the counts of all.
#[derive(Clone, Drop)]
pub struct Report {
    title: ArrayVec<u8, MOST_TITLE>,
    group: Counts,
    all: Counts,
}

impl Report {
    pub fn new() -> Self {
        Report {
            title: ArrayVec::new(),
            group: Counts::default(),
            all: Counts::default(),
        }
    }

    // ---- groups

    // Ends a group. One without calls and without a title is not printed.
    fn end_group(&self, rt: &impl Print) {
        let counts = self.group;
        if counts.calls == 0 && self.title.is_empty() {
            return;
        }
        let _ = rt.write_all(self.title.as_slice());
        let _ = print!(rt; ": ");
        counts.print(rt);
    }

    // Ends a group, and begins the next.
    pub fn begin_group(&mut self, rt: &impl Print, title: &[u8]) {
        self.end_group(rt);
        self.group = Counts::default();
        self.title.clear();
        let _ = self
            .title
            .try_extend_from_slice(title.get(..MOST_TITLE).unwrap_or(title));
    }

    // Ends the last group, and prints the counts of all.
    pub fn end(&self, rt: &impl Print) {
        self.end_group(rt);
        self.all.print(rt);
    }

    // ---- answers

    // Counts the call of a line, and prints why its answer is not right.
    pub fn count(&mut self, rt: &impl Print, line: u64, checked: Result<(), Failure>) {
        let is_right = checked.is_ok();
        if let Err(failure) = checked
            && self.all.differ < PRINTED
        {
            let _ = print!(rt; "line ");
            let _ = print!(rt; "{line}");
            failure.print(rt);
        }
        self.group.count(is_right);
        self.all.count(is_right);
    }
}

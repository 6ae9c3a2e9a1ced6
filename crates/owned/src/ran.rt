// What an instruction returns. The structs stand in their own file, because specs/Answers.antt mentions them, and execute.rt cites it.
ghost use Rattle.std.specs.Prelude.{◌≡◌, true};
ghost use Rattle.owned.specs.Numbered.{is_numbered};

// What an instruction returns beside its registers: how it ended, and the frame.
// Stays: the C interface.
#[repr(C)]
#[derive(Clone, Copy)]
pub struct Ran {
    pub kind: u32,
    // the hook's value, or the number of the refusal
    pub number: u32,
    pub gas: u32,
    pub heap: u32,
    pub aux: u32,
    pub heap_bound: u32,
    pub aux_bound: u32,
    pub panicked: bool,
    // the kind is one of the four; where it is `REFUSED`, the number is that of a refusal
    pub ghost numbered: { is_numbered kind number ≡ true },
}

// What a pointer load returns: beside that, how many bytes of the pointer's range lead the word. A panic or a refusal has none.
// Stays: the C interface.
#[repr(C)]
#[derive(Clone, Copy)]
pub struct PointerRan {
    pub ran: Ran,
    pub bytes_read: u32,
}

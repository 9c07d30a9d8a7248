// A move by its five numbers: its kind, box, thread, second box and second thread. A number becomes an index by `as`: usize has no From<u32>.
ghost use Rattle.std.specs.Prelude.{◌≡◌};
ghost use Rattle.state.specs.Moves.{five_in, move_in, turn_in};

// As a list of moves has it: the C interface's struct.
#[repr(C)]
#[derive(Clone, Copy)]
pub struct Move {
    pub kind: u32,
    pub boxno: u32,
    pub thread: u32,
    pub boxno2: u32,
    pub thread2: u32,
}

// Of a list of numbers, five a move.
impl From<[u32; 5]> for Move {
    ghost from_gives = { λ n m. move_in m ≡ five_in n };

    fn from(n: [u32; 5]) -> Move {
        Move {
            kind: n[0],
            boxno: n[1],
            thread: n[2],
            boxno2: n[3],
            thread2: n[4],
        }
    }
}

// As a move is made: any kind, box and thread. The kind is a number until `deciding::allowed` gives a Kind.
#[derive(Clone, Copy)]
pub struct Turn {
    pub kind: u32,
    pub b: usize,
    pub t: usize,
    pub c: usize,
    pub u: usize,
}

impl From<Move> for Turn {
    ghost from_gives = { λ m t. turn_in t ≡ move_in m };

    fn from(m: Move) -> Turn {
        Turn {
            kind: m.kind,
            b: m.boxno as usize,
            t: m.thread as usize,
            c: m.boxno2 as usize,
            u: m.thread2 as usize,
        }
    }
}

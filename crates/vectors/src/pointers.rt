// The pointer steps, each with the size that comes back.
use pointer::Pointer;
use std::{fmt, io};

// A pointer and its size.
const CASES: [(u16, u16); 21] = [
    // Sizes of 16n for n 1, 2, 255, 256 and 600.
    (0, 16),
    (1, 16),
    (15, 16),
    (16, 16),
    (17, 16),
    (65535, 16),
    (16, 32),
    (32, 32),
    (4079, 4080),
    (4080, 4080),
    (4081, 4080),
    (4096, 4096),
    (9599, 9600),
    (9600, 9600),
    (9601, 9600),
    // Sizes that are none.
    (5, 0),
    (5, 15),
    (20, 17),
    (4081, 4081),
    (9616, 9616),
    (65535, 65520),
];

// A pointer and its size, each after a space.
#[derive(Clone, Copy)]
struct Shown(Pointer);

impl fmt::Display for Shown {
    fn fmt<W: fmt::Write>(&self, f: &mut fmt::Formatter<W>) -> fmt::Result {
        write!(f, " {} {}", self.0.at, self.0.size)
    }
}

// What each step makes of a pointer and its size: reset to 0, to 1, to 2; take in range; advance.
pub(crate) fn all(rt: &impl Print) -> io::Result<()> {
    for (at, size) in CASES {
        let p = Pointer { at, size };
        print!(rt; "\npointer{}:", Shown(p))?;
        for step in [
            p.reset(0),
            p.reset(1),
            p.reset(2),
            p.in_range(),
            p.advance(),
        ] {
            print!(rt; "{}", Shown(step))?;
        }
    }
    Ok(())
}

// The classes of bytes, from one table of all 256: digit, hexadecimal letter, quote, comma, other.
// They go by number, since document 02 wants a constant table of bytes: CR 6.
ghost use Rattle.text.specs.says.Class.{ClassesKeep};

pub const DIGIT: u8 = 0;

pub const OTHER: u8 = 4;

const CLASSES: [u8; 256] = [
    // others, 0x00 to 0x21
    4, 4, 4, 4, 4, 4, 4, 4, 4, 4, 4, 4, 4, 4, 4, 4, 4, 4, 4, 4, 4, 4, 4, 4, 4, 4, 4, 4, 4, 4, 4, 4,
    4, 4,
    // '"'
    2,
    // others, 0x23 to 0x2B
    4, 4, 4, 4, 4, 4, 4, 4, 4,
    // ','
    3,
    // others, 0x2D to 0x2F
    4, 4, 4, // '/'
    // '0' to '9'
    0, 0, 0, 0, 0, 0, 0, 0, 0, 0,
    // others, 0x3A to 0x40
    4, 4, 4, 4, 4, 4, 4,
    // 'A' to 'F'
    1, 1, 1, 1, 1, 1,
    // others, 0x47 to 0x60
    4, 4, 4, 4, 4, 4, 4, 4, 4, 4, 4, 4, 4, 4, 4, 4, 4, 4, 4, 4, 4, 4, 4, 4, 4, 4,
    // 'a' to 'f'
    1, 1, 1, 1, 1, 1,
    // others, 0x67 to 0xFF
    4, // 'g'
    4, 4, 4, 4, 4, 4, 4, 4, 4, 4, 4, 4, 4, 4, 4, 4, 4, 4, 4, 4, 4, 4, 4, 4, 4, 4, 4, 4, 4, 4, 4, 4,
    4, 4, 4, 4, 4, 4, 4, 4, 4, 4, 4, 4, 4, 4, 4, 4, 4, 4, 4, 4, 4, 4, 4, 4, 4, 4, 4, 4, 4, 4, 4, 4,
    4, 4, 4, 4, 4, 4, 4, 4, 4, 4, 4, 4, 4, 4, 4, 4, 4, 4, 4, 4, 4, 4, 4, 4, 4, 4, 4, 4, 4, 4, 4, 4,
    4, 4, 4, 4, 4, 4, 4, 4, 4, 4, 4, 4, 4, 4, 4, 4, 4, 4, 4, 4, 4, 4, 4, 4, 4, 4, 4, 4, 4, 4, 4, 4,
    4, 4, 4, 4, 4, 4, 4, 4, 4, 4, 4, 4, 4, 4, 4, 4, 4, 4, 4, 4, 4, 4, 4, 4,
];

// The classes of two bytes, such as those at a line's ends.
#[derive(Clone, Copy)]
pub struct Classes {
    pub first: u8,
    pub last: u8,
}

// One table for both: the compiler lays it on the stack at each call.
pub fn classes_of(first: u8, last: u8) -> Classes
    ensures { ClassesKeep first last result }
{
    let classes = CLASSES;
    let i = first as usize;
    let j = last as usize;
    Classes {
        first: classes[i],
        last: classes[j],
    }
}

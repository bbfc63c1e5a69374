// UTF-8: what is not ASCII goes by a table of states, proved from the rows of RFC 3629, section 4.
ghost use Rattle.std.specs.Prelude.{◌≡◌, IsTrue};
ghost use Rattle.text.specs.Gives.{Gives};
ghost use Rattle.text.specs.Utf8.{utf8, AsciiIn};

// Whether s is UTF-8. No branch on the bytes: nine states by what must follow, which are nothing
// (0), one, two or three UTF8-tails (6, 12, 18), what E0, ED, F0 and F4 want (24, 30, 36, 42), and
// what no text has (48). Bytes that every state takes alike are of one kind, a letter. A kind's row
// has the state behind it for each state before it, six bits at that state's number, so a shift
// finds it: two octal digits to a state, the first state last. The compiler lays both tables on the
// stack at each call: it is not called where all is passed.
fn all_chars(s: &[u8]) -> bool
    ensures { result ≡ utf8 s.now }
{
    let kinds =
        b"aaaaaaaaaaaaaaaaaaaaaaaaaaaaaaaaaaaaaaaaaaaaaaaaaaaaaaaaaaaaaaaaaaaaaaaaaaaaaaaaaaaaaaaaaaaaaaaaaaaaaaaaaaaaaaaaaaaaaaaaaaaaaaaabbbbbbbbbbbbbbbbccccccccccccccccddddddddddddddddddddddddddddddddlleeeeeeeeeeeeeeeeeeeeeeeeeeeeeefgggggggggggghggijjjklllllllllll";
    let rows = [
        0o606060606060606000u64,
        0o601460066014060060,
        0o606014066014060060,
        0o606014600614060060,
        0o606060606060606006,
        0o606060606060606030,
        0o606060606060606014,
        0o606060606060606036,
        0o606060606060606044,
        0o606060606060606022,
        0o606060606060606052,
        0o606060606060606060,
    ];
    let mut state = 0;
    for x in s {
        let letter = kinds[usize::from(*x)];
        state = rows[usize::from(letter - b'a')] >> (state & 63);
    }
    state & 63 == 0
}

// Whether eight bytes are all ASCII: none has the bit 0x80. The compiler makes one load of them.
fn are_ascii(eight: &[u8; 8]) -> bool
    ensures { IsTrue result → AsciiIn eight.now 0 8 }
{
    u64::from_le_bytes(*eight) & 0x8080_8080_8080_8080 == 0
}

// What is left of s where ASCII bytes are passed, eight at a time, up to the first eight that are
// not all ASCII. The last eight may lie over some that are passed.
fn behind_ascii(s: &[u8]) -> &[u8]
    ensures { utf8 s.now ≡ utf8 result.now }
{
    let Some(last) = s.last_chunk() else {
        let few = s.iter().position(|x| 0x80 <= *x).unwrap_or(s.len());
        return &s[few..];
    };
    let (chunks, _) = s.as_chunks();
    for (i, eight) in chunks.iter().enumerate() {
        if !are_ascii(eight) {
            return &s[8 * i..];
        }
    }
    if are_ascii(last) {
        return &s[s.len()..];
    }
    &s[8 * chunks.len()..]
}

// Whether s is UTF-8. Most lines are ASCII.
pub fn is_utf8(s: &[u8]) -> bool
    ensures { Gives (utf8 s.now) result }
{
    let rest = behind_ascii(s);
    rest.is_empty() || all_chars(rest)
}

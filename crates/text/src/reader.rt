// A reader of fields that stands on the lent line. The calls on it are thin: what they do is done
// by functions of a line and a position.
ghost use Rattle.text.specs.Gives.{Gives};
ghost use Rattle.text.specs.Part.{IsPart};
ghost use Rattle.text.specs.Field.{fields, nth, place_of};
ghost use Rattle.text.specs.Reader.{field_at, next_at, ended_at, Starts, FieldStartsKeeps};
ghost use Rattle.text.specs.says.Reader.{ReaderKeeps};

use crate::{bytes, part};

// The line, and where the next field to be read begins; one past the end where all are read.
#[derive(Clone, Copy)]
pub struct FieldReader<'a> {
    pub line: &'a [u8],
    pub at: usize,
}

// The field that begins at a position; empty past the end.
fn field_at(s: &[u8], at: usize) -> &[u8]
    ensures { IsPart s.entry result at (field_at s.now at) }
{
    part::part(s, at, bytes::find(s, at, b','))
}

// Where the field behind it begins, one past the end where there is none.
fn next_at(s: &[u8], at: usize) -> usize
    ensures { Gives (next_at s.now at) result }
{
    let e = bytes::find(s, at, b',');
    if e < s.len() {
        return e + 1;
    }
    s.len() + 1
}

// Whether a position is past the end.
fn ended_at(s: &[u8], at: usize) -> bool
    ensures { Gives (ended_at s.now at) result }
{
    s.len() < at
}

// Where the fields from a position on begin, one past the end where there is none. One pass, and no
// branch on the bytes: each is stored as a separator's, and counted if it is one.
fn starts_at(s: &[u8], at: usize) -> [usize; 22]
    ensures { Starts s.now at result }
{
    let past = s.len() + 1;
    let mut places = [past; 22];
    places[0] = at;
    let mut k = 1;
    for i in at..s.len() {
        if 22 <= k {
            return places;
        }
        places[k] = i + 1;
        k += usize::from(s[i] == b',');
    }
    if k < 22 {
        places[k] = past;
    }
    places
}

impl<'a> FieldReader<'a> {
    // A reader of the first field.
    pub fn new(line: &'a [u8]) -> FieldReader<'a>
        ensures { ReaderKeeps line.entry 0 result }
    {
        FieldReader { line, at: 0 }
    }

    // The field to be read.
    pub fn field(self) -> &'a [u8]
        ensures { IsPart self.entry.line result self.entry.at (field_at self.entry.line.now self.entry.at) }
    {
        field_at(self.line, self.at)
    }

    // The reader of the field behind it.
    pub fn next(self) -> FieldReader<'a>
        ensures { ReaderKeeps self.entry.line (next_at self.entry.line.now self.entry.at) result }
    {
        let at = next_at(self.line, self.at);
        FieldReader {
            line: self.line,
            at,
        }
    }

    // Whether all fields are read.
    pub fn ended(self) -> bool
        ensures { Gives (ended_at self.entry.line.now self.entry.at) result }
    {
        ended_at(self.line, self.at)
    }

    // Where it stands, and after each field behind it.
    pub(crate) fn starts(self) -> [usize; 22]
        ensures { Starts self.entry.line.now self.entry.at result }
    {
        starts_at(self.line, self.at)
    }
}

// Where the first 22 fields of a line begin, one past the end where there is none.
pub fn field_starts(line: &[u8]) -> [usize; 22]
    ensures { FieldStartsKeeps line.now result }
{
    FieldReader::new(line).starts()
}

// Field n of a line, counted from 0; empty past the last. Document 01 wants the fields of a line
// from a reader; `field::field` goes without one, at any separator.
pub fn nth_field(line: &[u8], n: usize) -> &[u8]
    ensures { IsPart line.entry result (place_of n (fields 44 line.now)) (nth n (fields 44 line.now)) }
{
    let mut r = FieldReader::new(line);
    for _k in 0..n {
        if r.ended() {
            break;
        }
        r = r.next();
    }
    r.field()
}

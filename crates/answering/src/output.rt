// A writer with a buffer, and lines in it.
ghost use Rattle.std.specs.Prelude.{IfOk};
ghost use Rattle.console.specs.Output.{EndsLine};

use console::output;
use std::io;
use std::io::Write;

// How many bytes wait at most before they are written.
const SIZE: usize = 65536;

// What is written waits in a buffer of fixed size, until that is full or `flush` is called: std's
// BufWriter without a heap. Nothing is written when it is dropped.
#[derive(Drop)]
pub(crate) struct Output<W> {
    pub(crate) writer: W,
    pub(crate) buffer: [u8; SIZE],
    pub(crate) waiting: usize,
}

impl<W: Write> Output<W> {
    pub(crate) fn new(writer: W) -> Output<W> {
        Output {
            writer,
            buffer: [0; SIZE],
            waiting: 0,
        }
    }

    // Ends a line, and writes all that waits where the next might find too little room. No answer is
    // as long as the room that is left, so the LF has its place. An error is as in `flush`, and the
    // LF may wait too.
    pub(crate) fn end_line(&mut self) -> io::Result<()>
        ensures { IfOk result (λ _. EndsLine self.old.waiting self.old.buffer self.new.waiting self.new.buffer) }
    {
        self.waiting = output::end_line(&mut self.writer, &mut self.buffer, self.waiting)?;
        Ok(())
    }
}

impl<W: Write> Write for Output<W> {
    fn write(&mut self, bytes: &[u8]) -> io::Result<usize> {
        self.write_all(bytes)?;
        Ok(bytes.len())
    }

    // Bytes go into the buffer at once, which is quicker than std's loop over `write`.
    #[inline]
    fn write_all(&mut self, bytes: &[u8]) -> io::Result<()> {
        if SIZE.saturating_sub(self.waiting) < bytes.len() {
            self.flush()?;
        }
        if SIZE < bytes.len() {
            return self.writer.write_all(bytes);
        }
        self.waiting = output::put(&mut self.buffer, self.waiting, bytes);
        Ok(())
    }

    // After an error it is not known how much was written, and all of it still waits.
    fn flush(&mut self) -> io::Result<()> {
        output::flush(&mut self.writer, &self.buffer, self.waiting)?;
        self.waiting = 0;
        Ok(())
    }
}

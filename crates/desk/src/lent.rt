// A desk that is lent: it is handed to the by-value call, and what comes back is stored in its
// place. Each call, with its parameters, is public and has its contract (FeedLentKeeps,
// OpenLentKeeps): so the two opens stay, each one call of `open_in_lent`.
ghost use Rattle.desk.specs.Keeps.{ResetKeeps, FeedLentKeeps, OpenLentKeeps};
ghost use Rattle.desk.specs.Rules.{plain_mode, echo_mode};
ghost use Rattle.desk.specs.Says.{mode_says};

use crate::feed::Feed;
use crate::{Desk, Mode};
use at_command::request::Request;
use text::refusal::Refusal;

impl Desk {
    pub fn feed_lent(&mut self, chunk: &[u8], text: &mut [u8]) -> Result<Feed, Refusal>
        ensures { FeedLentKeeps self.old chunk.now text.old self.new result text.new }
    {
        let fed = (*self).feed(chunk, text);
        *self = fed.desk;
        fed.answer
    }

    pub fn open_in_lent(
        &mut self,
        mode: Mode,
        request: Request,
        first: &[u8],
        second: &[u8],
        out: &mut [u8],
    ) -> Result<usize, Refusal>
        ensures { OpenLentKeeps (mode_says mode) self.old request first.now second.now out.old self.new result out.new }
    {
        let opened = (*self).open_in(mode, request, first, second, out);
        *self = opened.desk;
        opened.answer
    }

    pub fn open_lent(
        &mut self,
        request: Request,
        first: &[u8],
        second: &[u8],
        out: &mut [u8],
    ) -> Result<usize, Refusal>
        ensures { OpenLentKeeps plain_mode self.old request first.now second.now out.old self.new result out.new }
    {
        self.open_in_lent(Mode::Plain, request, first, second, out)
    }

    pub fn open_echo_lent(
        &mut self,
        request: Request,
        first: &[u8],
        second: &[u8],
        out: &mut [u8],
    ) -> Result<usize, Refusal>
        ensures { OpenLentKeeps echo_mode self.old request first.now second.now out.old self.new result out.new }
    {
        self.open_in_lent(Mode::Echo, request, first, second, out)
    }

    pub fn reset_lent(&mut self)
        ensures { ResetKeeps self.old self.new }
    {
        *self = (*self).reset();
    }
}

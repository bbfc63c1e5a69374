// The final lines: OK, errors, the prompt, and the end of a connection.
#![tactic(auto, unfolding(text::specs::Line::checked, text::specs::Reading::only, text::specs::Reading::need_else, text::specs::Reading::either, crate::specs::Generic::ok_text, crate::specs::Generic::error_text, crate::specs::Generic::prompt_text, crate::specs::Generic::close_text))]

ghost use Rattle.std.specs.Prelude.{◌≡◌};
ghost use Rattle.at_command.specs.Generic.{ok_text, error_text, prompt_text, close_text};
ghost use Rattle.at_command.specs.says.Generic.{ok_says, error_says, prompt_says, close_says, GenericOkKeeps, SimErrorKeeps, WritePromptKeeps, CloseOkKeeps};

use crate::prefix;
use text::refusal::Refusal;
use text::{bytes, line, number, part};

#[derive(Clone, Copy, Debug, PartialEq, Eq)]
pub struct GenericOk;

#[derive(Clone, Copy, Debug, PartialEq, Eq)]
pub enum SimError {
    // Generic error
    Generic,

    // Error relating to mobile equipment or to the network.
    CmeErr { code: u32 },

    // Error relating to message service or to the network.
    CmsErr { code: u32 },
}

#[derive(Clone, Copy, Debug, PartialEq, Eq)]
pub struct WritePrompt;

#[derive(Clone, Copy, Debug, PartialEq, Eq)]
pub struct CloseOk {
    pub connection: u64,
}

// What follows the number of a connection that is closed.
const CLOSED: &[u8] = b", CLOSE OK";

impl GenericOk {
    pub(crate) fn from_checked(line: &[u8]) -> Result<GenericOk, Refusal>
        ensures { ok_says result ≡ ok_text line.now }
    {
        if bytes::is_text(line, b"OK") {
            return Ok(GenericOk);
        }
        if bytes::is_text(line, b"SHUT OK") {
            return Ok(GenericOk);
        }
        Err(Refusal::NotThisLine)
    }

    pub fn from_line(line: &[u8]) -> Result<GenericOk, Refusal>
        ensures { GenericOkKeeps line.now result }
    {
        line::check_line(line)?;
        GenericOk::from_checked(line)
    }
}

impl SimError {
    pub(crate) fn from_checked(line: &[u8]) -> Result<SimError, Refusal>
        ensures { error_says result ≡ error_text line.now }
    {
        if let Some(rest) = prefix::strip(line, b"+CME ERROR: ") {
            let code = number::parse_u32(rest).ok_or(Refusal::NotThisLine)?;
            return Ok(SimError::CmeErr { code });
        }
        if let Some(rest) = prefix::strip(line, b"+CMS ERROR: ") {
            let code = number::parse_u32(rest).ok_or(Refusal::NotThisLine)?;
            return Ok(SimError::CmsErr { code });
        }
        if bytes::is_text(line, b"ERROR") {
            return Ok(SimError::Generic);
        }
        Err(Refusal::NotThisLine)
    }

    pub fn from_line(line: &[u8]) -> Result<SimError, Refusal>
        ensures { SimErrorKeeps line.now result }
    {
        line::check_line(line)?;
        SimError::from_checked(line)
    }
}

impl WritePrompt {
    pub(crate) fn from_checked(line: &[u8]) -> Result<WritePrompt, Refusal>
        ensures { prompt_says result ≡ prompt_text line.now }
    {
        if bytes::is_text(line, b"> ") {
            return Ok(WritePrompt);
        }
        Err(Refusal::NotThisLine)
    }

    pub fn from_line(line: &[u8]) -> Result<WritePrompt, Refusal>
        ensures { WritePromptKeeps line.now result }
    {
        line::check_line(line)?;
        WritePrompt::from_checked(line)
    }
}

impl CloseOk {
    pub(crate) fn from_checked(line: &[u8]) -> Result<CloseOk, Refusal>
        ensures { close_says result ≡ close_text line.now }
    {
        if !bytes::ends_with(line, CLOSED) {
            return Err(Refusal::NotThisLine);
        }
        let number = part::part(line, 0, line.len() - CLOSED.len());
        let connection = number::parse_u64(number).ok_or(Refusal::NotThisLine)?;
        Ok(CloseOk { connection })
    }

    pub fn from_line(line: &[u8]) -> Result<CloseOk, Refusal>
        ensures { CloseOkKeeps line.now result }
    {
        line::check_line(line)?;
        CloseOk::from_checked(line)
    }
}

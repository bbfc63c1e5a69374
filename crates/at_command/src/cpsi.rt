// AT+CPSI: the system mode and the operation mode.
#![tactic(auto, unfolding(text::specs::Line::checked, text::specs::Reading::only, text::specs::Reading::need_else, crate::specs::Cpsi::cpsi_fields, crate::specs::Cpsi::cpsi_text))]

ghost use Rattle.std.specs.Prelude.{◌≡◌};
ghost use Rattle.text.specs.Code.{code_in};
ghost use Rattle.text.specs.Field.{fields};
ghost use Rattle.text.specs.says.Refusal.{option_mapped};
ghost use Rattle.at_command.specs.Cpsi.{system_modes, operation_modes, cpsi_fields, cpsi_text};
ghost use Rattle.at_command.specs.Request.{get_system_info};
ghost use Rattle.at_command.specs.says.Cpsi.{says, system_number, operation_number, SystemInfoKeeps};
ghost use Rattle.at_command.specs.says.Request.{EncodeKeeps};

use crate::{prefix, write};
use text::bytes::is_text;
use text::refusal::Refusal;
use text::{field, line, reader};

#[derive(Clone, Copy, Debug, PartialEq, Eq)]
pub enum SystemMode {
    NoService = 0,
    Gsm = 1,
    LteCatM1 = 2,
    LteNbIot = 3,
}

#[derive(Clone, Copy, Debug, PartialEq, Eq)]
pub enum OperationMode {
    Online = 0,
    Offline = 1,
    FactoryTest = 2,
    Reset = 3,
    LowPower = 4,
}

#[derive(Clone, Copy, Debug, PartialEq, Eq)]
pub struct SystemInfo {
    pub system_mode: SystemMode,
    pub operation_mode: OperationMode,
}

// A match with guards: a table of texts and values would hold addresses, for which the linker of a
// firmware needs RAM, and the header says that the archive has no writable data.
fn system_of(t: &[u8]) -> Option<SystemMode>
    ensures { option_mapped system_number result ≡ code_in system_modes t.now }
{
    match t {
        _ if is_text(t, b"NO SERVICE") => Some(SystemMode::NoService),
        _ if is_text(t, b"GSM") => Some(SystemMode::Gsm),
        _ if is_text(t, b"LTE CAT-M1") => Some(SystemMode::LteCatM1),
        _ if is_text(t, b"LTE NB-IOT") => Some(SystemMode::LteNbIot),
        _ => None,
    }
}

fn operation_of(t: &[u8]) -> Option<OperationMode>
    ensures { option_mapped operation_number result ≡ code_in operation_modes t.now }
{
    match t {
        _ if is_text(t, b"Online") => Some(OperationMode::Online),
        _ if is_text(t, b"Offline") => Some(OperationMode::Offline),
        _ if is_text(t, b"Factory Test Mode") => Some(OperationMode::FactoryTest),
        _ if is_text(t, b"Reset") => Some(OperationMode::Reset),
        _ if is_text(t, b"Low Power Mode") => Some(OperationMode::LowPower),
        _ => None,
    }
}

fn system_info(t: &[u8]) -> Result<SystemInfo, Refusal>
    ensures { says result ≡ cpsi_fields (fields 44 t.now) }
{
    if field::field_count(t, b',') < 9 {
        return Err(Refusal::NotThisLine);
    }
    let system_mode = system_of(reader::nth_field(t, 0)).ok_or(Refusal::NotThisLine)?;
    let operation_mode = operation_of(reader::nth_field(t, 1)).ok_or(Refusal::NotThisLine)?;
    Ok(SystemInfo {
        system_mode,
        operation_mode,
    })
}

impl SystemInfo {
    pub(crate) fn from_checked(line: &[u8]) -> Result<SystemInfo, Refusal>
        ensures { says result ≡ cpsi_text line.now }
    {
        let rest = prefix::strip(line, b"+CPSI: ").ok_or(Refusal::NotThisLine)?;
        system_info(rest)
    }

    pub fn from_line(line: &[u8]) -> Result<SystemInfo, Refusal>
        ensures { SystemInfoKeeps line.now result }
    {
        line::check_line(line)?;
        SystemInfo::from_checked(line)
    }
}

// AT+CPSI?
#[derive(Clone, Copy)]
pub struct GetSystemInfo;

impl GetSystemInfo {
    pub fn encode(self, out: &mut [u8]) -> Result<usize, Refusal>
        ensures { EncodeKeeps get_system_info out.old result out.new }
    {
        write::plain(b"AT+CPSI?\r", out)
    }
}

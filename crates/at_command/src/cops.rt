// AT+COPS: the operator.
#![tactic(auto, unfolding(text::specs::Line::checked, text::specs::Reading::only, text::specs::Reading::need_else, crate::specs::Cops::cops_fields, crate::specs::Cops::cops_text))]

ghost use Rattle.std.specs.Prelude.{◌≡◌, drop};
ghost use Rattle.text.specs.Code.{code_in};
ghost use Rattle.text.specs.Field.{fields};
ghost use Rattle.text.specs.says.Handed.{TextKeeps};
ghost use Rattle.text.specs.says.Refusal.{option_mapped, refusal_said};
ghost use Rattle.at_command.specs.Cops.{operator_modes, operator_formats, FieldOr, name_of, cops_fields, cops_text};
ghost use Rattle.at_command.specs.Handed.{name_handed};
ghost use Rattle.at_command.specs.Request.{texts_of, refusal_of, get_operator_info, set_manual_operator, set_automatic_operator};
ghost use Rattle.at_command.specs.says.Cops.{says, mode_number, format_number, name_says, OperatorInfoKeeps};
ghost use Rattle.at_command.specs.says.Request.{EncodeKeeps};

use crate::write::Command;
use crate::{prefix, unquoted, write};
use text::bytes::is_text;
use text::handed::TextAt;
use text::part::Place;
use text::refusal::Refusal;
use text::{bytes, field, handed, line, part, reader};

#[derive(Clone, Copy, Debug, PartialEq, Eq)]
pub enum OperatorMode {
    Automatic = 0,
    Manual = 1,
    ManualDeregister = 2,
    ManualAutomatic = 4,
}

#[derive(Clone, Copy, Debug, PartialEq, Eq)]
pub enum OperatorFormat {
    Long = 0,
    Short = 1,
    Numeric = 2,
}

#[derive(Clone, Copy)]
pub struct OperatorInfo {
    pub mode: OperatorMode,
    pub format: OperatorFormat,
    // Where the name stands: in the line, or in the text lent for it.
    pub operator_name: TextAt,
}

// A match with guards: a table of texts and values would hold addresses, for which the linker of a
// firmware needs RAM, and the header says that the archive has no writable data.
fn mode_of(t: &[u8]) -> Option<OperatorMode>
    ensures { option_mapped mode_number result ≡ code_in operator_modes t.now }
{
    match t {
        _ if is_text(t, b"0") => Some(OperatorMode::Automatic),
        _ if is_text(t, b"1") => Some(OperatorMode::Manual),
        _ if is_text(t, b"2") => Some(OperatorMode::ManualDeregister),
        _ if is_text(t, b"4") => Some(OperatorMode::ManualAutomatic),
        _ => None,
    }
}

fn format_of(t: &[u8]) -> Option<OperatorFormat>
    ensures { option_mapped format_number result ≡ code_in operator_formats t.now }
{
    match t {
        _ if is_text(t, b"0") => Some(OperatorFormat::Long),
        _ if is_text(t, b"1") => Some(OperatorFormat::Short),
        _ if is_text(t, b"2") => Some(OperatorFormat::Numeric),
        _ => None,
    }
}

// Field n of t, or the lent fallback text when there is none: a part of one of the two.
fn field_or<'a>(t: &'a [u8], n: usize, fallback: &'a [u8]) -> &'a [u8]
    ensures { FieldOr t.entry fallback.entry n result }
{
    if n < field::field_count(t, b',') {
        return reader::nth_field(t, n);
    }
    fallback
}

// The name in a line whose fields follow a prefix of seven bytes.
fn name_of(line: &[u8], fallback: &[u8]) -> TextAt
    ensures { name_says result ≡ name_of (fields 44 (drop 7 line.now)) fallback.now }
{
    if 2 < field::field_count(part::skip(line, prefix::SIZE), b',') {
        return TextAt::InLine(unquoted::unquoted_field(line, 2));
    }
    let start = part::trim_start(fallback, b'"');
    let left = part::trim(fallback, b'"').len();
    TextAt::InFallback(Place {
        start,
        end: start + left,
    })
}

// The line and the two fallback texts are three parameters, here and below, since they are those of
// the public `from_line` and `name_text` (OperatorInfoKeeps, name_handed).
fn operator_info<'a>(
    line: &'a [u8],
    format_fallback: &'a [u8],
    name_fallback: &'a [u8],
) -> Result<OperatorInfo, Refusal>
    ensures { says result ≡ cops_fields format_fallback.now name_fallback.now (fields 44 (drop 7 line.now)) }
{
    let rest = part::skip(line, prefix::SIZE);
    let mode = mode_of(reader::nth_field(rest, 0)).ok_or(Refusal::NotThisLine)?;
    let format = format_of(field_or(rest, 1, format_fallback)).ok_or(Refusal::NotThisLine)?;
    Ok(OperatorInfo {
        mode,
        format,
        operator_name: name_of(line, name_fallback),
    })
}

impl OperatorInfo {
    pub(crate) fn from_checked<'a>(
        line: &'a [u8],
        format_fallback: &'a [u8],
        name_fallback: &'a [u8],
    ) -> Result<OperatorInfo, Refusal>
        ensures { says result ≡ cops_text format_fallback.now name_fallback.now line.now }
    {
        prefix::strip(line, b"+COPS: ").ok_or(Refusal::NotThisLine)?;
        operator_info(line, format_fallback, name_fallback)
    }

    pub fn from_line<'a>(
        line: &'a [u8],
        format_fallback: &'a [u8],
        name_fallback: &'a [u8],
    ) -> Result<OperatorInfo, Refusal>
        ensures { OperatorInfoKeeps line.now format_fallback.now name_fallback.now result }
    {
        line::check_line(line)?;
        OperatorInfo::from_checked(line, format_fallback, name_fallback)
    }

    // The name.
    pub fn name_text<'a>(
        line: &'a [u8],
        format_fallback: &'a [u8],
        name_fallback: &'a [u8],
    ) -> Result<&'a [u8], Refusal>
        ensures { TextKeeps line.entry name_fallback.entry (name_handed line.now format_fallback.now name_fallback.now) result }
    {
        let info = OperatorInfo::from_line(line, format_fallback, name_fallback)?;
        Ok(handed::cut(info.operator_name, line, name_fallback))
    }
}

// AT+COPS?
#[derive(Clone, Copy)]
pub struct GetOperatorInfo;

impl GetOperatorInfo {
    pub fn encode(self, out: &mut [u8]) -> Result<usize, Refusal>
        ensures { EncodeKeeps get_operator_info out.old result out.new }
    {
        write::plain(b"AT+COPS?\r", out)
    }
}

// AT+COPS=1,2,"<plmn>": a manual choice, by the number of the operator.
#[derive(Clone, Copy)]
pub struct SetManualOperator;

impl SetManualOperator {
    pub fn encode(self, plmn: &[u8], out: &mut [u8]) -> Result<usize, Refusal>
        ensures { EncodeKeeps (set_manual_operator plmn.now) out.old result out.new }
    {
        check_number(plmn)?;
        let mut command = Command::new();
        command.text(b"AT+COPS=1,2,\"");
        command.text(plmn);
        command.byte(b'"');
        command.byte(b'\r');
        command.write_to(out)
    }
}

// An operator number is five or six digits. Its bytes are not asked for, since digits lie within 32
// to 126.
#[tactic(auto, using(crate::proofs::Writing::number_good))]
fn check_number(plmn: &[u8]) -> Result<(), Refusal>
    ensures { refusal_said result ≡ refusal_of (texts_of (set_manual_operator plmn.now)) }
{
    if 6 < plmn.len() {
        return Err(Refusal::ArgumentTooLong);
    }
    if plmn.len() < 5 || !bytes::all_digits(plmn) {
        return Err(Refusal::OperatorNumber);
    }
    Ok(())
}

// AT+COPS=0: the modem chooses.
#[derive(Clone, Copy)]
pub struct SetAutomaticOperator;

impl SetAutomaticOperator {
    pub fn encode(self, out: &mut [u8]) -> Result<usize, Refusal>
        ensures { EncodeKeeps set_automatic_operator out.old result out.new }
    {
        write::plain(b"AT+COPS=0\r", out)
    }
}

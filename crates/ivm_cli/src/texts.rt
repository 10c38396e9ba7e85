//! The texts that the program writes beside reports.
ghost use Rattle.std.specs.Prelude.{◌≡◌, IfOk};
ghost use Rattle.ivm_cli.specs.Texts.{bad_host_line, kind_name};

use host_script::HostKind;
use ivm_report::push_decimal;
use ivm_text::NoMemory;
use std::alloc::Global;

/// The line that tells a faulty host script.
pub fn bad_host(alloc: Global, line: u32, kind: HostKind) -> Result<Vec<u8>, NoMemory>
    ensures { IfOk result (λ text. text.items ≡ bad_host_line line kind) }
{
    let mut text = Vec::new(alloc);
    text.extend_from_slice(b"bad host script: line ")?;
    push_decimal(alloc, &mut text, line)?;
    text.extend_from_slice(b": ")?;
    text.extend_from_slice(kind_name(kind).as_bytes())?;
    text.push(b'\n')?;
    Ok(text)
}

fn kind_name(kind: HostKind) -> &'static str
    ensures { result.now ≡ kind_name kind }
{
    match kind {
        HostKind::TooLong => "TooLong",
        HostKind::BadUtf8 => "BadUtf8",
        HostKind::UnknownCommand => "UnknownCommand",
        HostKind::OpenText => "OpenText",
        HostKind::BadWords => "BadWords",
        HostKind::BadName => "BadName",
        HostKind::NameTaken => "NameTaken",
        HostKind::UnknownName => "UnknownName",
        HostKind::WrongKind => "WrongKind",
        HostKind::BadNumber => "BadNumber",
        HostKind::BadLiteral => "BadLiteral",
        HostKind::TooManyIsolates => "TooManyIsolates",
        HostKind::TotalCells => "TotalCells",
    }
}

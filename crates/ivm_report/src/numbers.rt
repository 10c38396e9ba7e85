//! Numbers in decimal.
ghost use Rattle.std.specs.Prelude.{◌≡◌, ◌++◌, OnErr, OnOk};
ghost use Rattle.std.specs.Fmt.{decimal, signed_decimal};

use ivm_text::NoMemory;
use std::alloc::Global;

/// Appends a number in decimal. Only want of memory refuses it, and then the text is as it was.
pub fn push_decimal(alloc: Global, text: &mut Vec<u8>, n: u32) -> Result<(), NoMemory>
    ensures ok { OnOk result (text.new.items ≡ text.old.items ++ decimal n) }
    ensures err { OnErr result (text.new.items ≡ text.old.items) }
{
    let digits = format!(in alloc; "{n}")?;
    text.extend_from_slice(digits.as_bytes())?;
    Ok(())
}

/// Appends a number of a script in decimal, as `push_decimal` does.
pub(crate) fn push_signed(alloc: Global, text: &mut Vec<u8>, n: i64) -> Result<(), NoMemory>
    ensures ok { OnOk result (text.new.items ≡ text.old.items ++ signed_decimal n) }
    ensures err { OnErr result (text.new.items ≡ text.old.items) }
{
    let digits = format!(in alloc; "{n}")?;
    text.extend_from_slice(digits.as_bytes())?;
    Ok(())
}

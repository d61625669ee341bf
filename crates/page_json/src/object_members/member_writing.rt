ghost use Rattle.std.specs.Prelude.{◌≡◌, OnOk};
ghost use Rattle.lc_time.specs.Iso.{iso_text_of};
ghost use Rattle.serde_json.specs.Data.{member, no_members, number};
ghost use Rattle.serde_json.specs.Find.{of_integer};
ghost use Rattle.page_json.specs.ObjectMembers.Tokens.{Appends, member_tokens};
ghost use Rattle.page_json.specs.ObjectMembers.MemberWriting.{text_at};

use json::Writer;
use lc_model::{Moment, NoMemory};
use lc_time::iso_text;
use percent_encoding::ascii_str;

/// Writes a member whose value is a text.
pub fn write_text(out: &mut Writer, key: &str, text: &str) -> Result<(), NoMemory>
    ensures { OnOk result (Appends out.old out.new (member_tokens (text_at key.now text.now no_members))) }
{
    out.key(key)?;
    out.string(text)?;
    Ok(())
}

/// Writes a member whose value is a whole number.
pub fn write_number(out: &mut Writer, key: &str, n: i64) -> Result<(), NoMemory>
    ensures { OnOk result (Appends out.old out.new (member_tokens (member key.now (number (of_integer n)) no_members))) }
{
    out.key(key)?;
    out.i64(n)?;
    Ok(())
}

/// Writes a member whose value is a moment.
pub fn write_moment(out: &mut Writer, key: &str, moment: Moment) -> Result<(), NoMemory>
    ensures { OnOk result
        (Appends out.old out.new (member_tokens (text_at key.now (iso_text_of moment) no_members))) }
{
    let text = iso_text(moment);
    write_text(out, key, ascii_str(&text))?;
    Ok(())
}

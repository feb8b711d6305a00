//! The base of a log or a journal, as a line tells it.
ghost use Rattle.std.specs.Prelude.{◌≤◌, IfOk};
ghost use Rattle.hg_gate.specs.declared.based.TheConstants.{MAX_BASE};

use hg_gate::MAX_BASE;
use hg_test_kit::text::Text;
use hg_test_kit::tokens::{Halt, Tokens};

/// The base in front, or `no base` where a log can't have it.
pub fn base_of(text: &str, out: &mut Text) -> Result<u64, Halt>
    ensures within { IfOk result (λ base. base ≤ MAX_BASE) }
{
    let mut tokens = Tokens::of(text);
    let base = tokens.number();
    tokens.check()?;
    if base > MAX_BASE {
        out.put(b"no base");
        return Err(Halt::Said);
    }
    Ok(base)
}

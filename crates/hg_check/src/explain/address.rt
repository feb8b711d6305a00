//! The line of a word's address.

ghost use Rattle.std.specs.Prelude.{◌≡◌, ◌<◌, ◌^◌, IfErr};
ghost use Rattle.hg_streams.specs.Texts.{line_text};
ghost use Rattle.hg_check.specs.Explaining.{word_line};
ghost use Rattle.hg_check.specs.Holding.{HoldsMore};

use crate::explain::pieces::hold_all;
use hg_model::verdict::Refusal;
use hg_wire::report::digits_of_address;

/// Holds the line of a word.
pub fn hold_word(word: u64, held: &mut Vec<u8>) -> Result<(), Refusal>
    requires { word < 2 ^ 62 }
    ensures ok { HoldsMore result held.old held.new (line_text (word_line word)) }
    ensures cause { IfErr result (λ r. r ≡ Refusal.OutOfMemory) }
{
    let digits = digits_of_address(4 * word);
    let pieces = [b"word 0x".as_slice(), digits.as_slice(), b"\n".as_slice()];
    hold_all(&pieces, held)
}

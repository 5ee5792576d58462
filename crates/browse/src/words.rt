//! The words that stand for calls on a reader.
ghost use Rattle.std.specs.Prelude.{◌≡◌, ◌≢◌, IfSome, IfNone};
ghost use Rattle.reading.specs.declared.script.Ask.{Ask};
ghost use Rattle.browse.specs.Words.{word_of};

use reading::Ask;
use sheet::Kind;

/// The words that are calls.
pub(crate) const WORDS: &'static str = "next, code, parent, count, landing, months, drawing";

/// The call that a word stands for, if it is one of `WORDS`.
pub(crate) fn ask_of(word: &str) -> Option<Ask>
    ensures named { IfSome result (λ ask. word.now ≡ word_of ask) }
    ensures no_other { IfNone result ((ask : Ask) → word.now ≢ word_of ask) }
{
    match word {
        "next" => Some(Ask::Next),
        "code" => Some(Ask::Field(Kind::Code)),
        "parent" => Some(Ask::Field(Kind::Parent)),
        "count" => Some(Ask::Field(Kind::Count)),
        "landing" => Some(Ask::Field(Kind::Landing)),
        "months" => Some(Ask::Field(Kind::Months)),
        "drawing" => Some(Ask::Field(Kind::Drawing)),
        _ => None,
    }
}
